// The store of the empty set.
#![tactic(auto)]

ghost use Rattle.std.specs.Prelude.{◌+◌, ◌≤◌, ◌≡◌, length};
ghost use Rattle.std.proofs.lemmas.List.Edits.{sets};
ghost use Rattle.geometry.specs.Geometry.{InRange};
ghost use Rattle.geometry.specs.Lent.{Lent};
ghost use Rattle.geometry.specs.Places.{directory_words, words_in_page, words_in_slot, head_start};
ghost use Rattle.slot.specs.Slot.{words_of};
ghost use Rattle.rules.specs.Store.{page_count, directory, empty_store};
ghost use Rattle.format.specs.Empty.{first_fence, empty_row, empty_slots};
ghost use Rattle.format.specs.Formatting.{head_written, page_front};

use geometry::{Geometry, Plan, Store};
use slot::{Kind, Pid, Slot};

// Makes the store of the empty set, whatever its words: no live pairs, one page in each level, and the fence to page 0 above the bottom.
pub fn format_store(store: &mut [u32], g: Geometry, plan: Plan)
    requires { Lent g plan store.old }
    ensures { store.new ≡ empty_store g }
{
    write_head(store, g);
    for level in 1..g.levels {
        let stored = Store {
            words: store,
            geometry: g,
            plan,
        };
        let own = stored.level_place(level);
        write_first_page(store, own.start as usize, level + 1 == g.levels);
    }
}

// Erases the store, and writes the directory and the head's fence.
fn write_head(store: &mut [u32], g: Geometry)
    requires in_range { InRange g }
    requires words_in_slot_in_bounds { head_start + words_in_slot ≤ length store.old }
    ensures { store.new ≡ head_written g store.old }
{
    let end = store.len();
    words::erase(store, 0, end);
    write_directory(store, g);
    write_fence(store, geometry::HEAD_START);
}

// Writes the words before the head's slots.
fn write_directory(store: &mut [u32], g: Geometry)
    requires in_range { InRange g }
    requires directory_words_in_bounds { directory_words ≤ length store.old }
    ensures { store.new ≡ sets store.old 0 (directory g 0 (empty_slots g)) }
{
    store[geometry::HEAD] = g.head;
    store[geometry::RATIO] = g.ratio;
    store[geometry::LEVELS] = g.levels;
    store[geometry::LIVE] = 0;
    store[geometry::PAGE_COUNTS + 1] = page_count(g, 1);
    store[geometry::PAGE_COUNTS + 2] = page_count(g, 2);
    store[geometry::PAGE_COUNTS + 3] = page_count(g, 3);
    store[geometry::MODE] = geometry::OPEN_MODE;
    store[geometry::HEAD_COUNT] = 1;
}

// One page for a level that exists.
fn page_count(g: Geometry, level: u32) -> u32
    requires { InRange g }
    ensures { result ≡ page_count g (empty_slots g) level }
{
    if level < g.levels { 1 } else { 0 }
}

// Writes the first page of a level that starts at a place: the fence alone, and nothing in the bottom.
fn write_first_page(store: &mut [u32], start: usize, bottom: bool)
    requires { start + words_in_page ≤ length store.old }
    ensures { store.new ≡ sets store.old start (page_front (empty_row bottom)) }
{
    if bottom {
        store[start] = 0;
    } else {
        store[start] = 1;
        write_fence(store, start + geometry::FIRST_SLOT);
    }
}

// Writes the fence with the least pair to page 0.
fn write_fence(store: &mut [u32], place: usize)
    requires { place + words_in_slot ≤ length store.old }
    ensures { store.new ≡ sets store.old place (words_of first_fence) }
{
    slot::write_slot(store, place, first_fence());
}

fn first_fence() -> Slot
    ensures { result ≡ first_fence }
{
    let pair = slot::least_pair();
    Slot {
        pair,
        kind: Kind::External,
        page: Pid(0),
    }
}
