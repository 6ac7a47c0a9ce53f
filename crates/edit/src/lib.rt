// The head edited in place: an entry put in or taken out, live changed, nothing else; and the index entries of each level counted.
#![tactic(auto)]

ghost use Rattle.std.specs.Prelude.{◌+◌, ◌*◌, ◌≤◌, ◌<◌, ◌≡◌, length, get_or, set};
ghost use Rattle.std.proofs.lemmas.List.Edits.{sets};
ghost use Rattle.std.proofs.Math.Seq.{slice};
ghost use Rattle.geometry.specs.Places.{live_word, head_count_word, head_start, words_in_slot};
ghost use Rattle.slot.specs.Slot.{words_of};
ghost use Rattle.rules.specs.Level.{index};
ghost use Rattle.rules.specs.Merging.{entries};
ghost use Rattle.rules.specs.Sound.{tree_of, entries_of};
ghost use Rattle.entries.specs.Run.{Inside, entry as indexed, page_in, entries_in};
ghost use Rattle.entries.specs.Levels.{AllInside, PagesWithin, tree_in};
ghost use Rattle.edit.specs.Head.{slot_in, slot_out, entry_added, entry_removed};

use entries::{Entry, Run, Runs};
use geometry::{ERASED, SLOT_WORDS, Store};
use laws::one_if;
use page::is_fence;
use slot::{Pid, Slot, SlotNo, read_slot};

// Inserts an entry after the head's first `behind` slots.
#[tactic(auto, unfolding(crate::specs::Head::entry_added, geometry::specs::Places::head_place, rules::specs::Level::index))]
pub fn add_entry(store: &mut [u32], entry: Entry, behind: u32)
    requires behind_bound { behind ≤ get_or store.old head_count_word 0 }
    requires head_count_word_in_bounds { head_start + words_in_slot * (get_or store.old head_count_word 0 + 1) ≤ length store.old }
    requires store_len_bound { length store.old ≤ 600000 }
    ensures { store.new ≡ entry_added (indexed entry) behind store.old }
{
    let count = store[geometry::HEAD_COUNT];
    let place = geometry::HEAD_START + SLOT_WORDS * behind as usize;
    let end = geometry::HEAD_START + SLOT_WORDS * count as usize;
    put_in(store, place, end, entries::index_of(entry));
    store[geometry::HEAD_COUNT] = count + 1;
}

// Removes the entry in a slot of the head.
#[tactic(auto, unfolding(crate::specs::Head::entry_removed, geometry::specs::Places::head_place))]
pub fn remove_entry(store: &mut [u32], at: SlotNo)
    requires at_bound { at.0 < get_or store.old head_count_word 0 }
    requires head_count_word_in_bounds { head_start + words_in_slot * get_or store.old head_count_word 0 ≤ length store.old }
    requires store_len_bound { length store.old ≤ 600000 }
    ensures { store.new ≡ entry_removed at.0 store.old }
{
    let count = store[geometry::HEAD_COUNT];
    let place = geometry::HEAD_START + SLOT_WORDS * at.0 as usize;
    let end = geometry::HEAD_START + SLOT_WORDS * count as usize;
    take_out(store, place, end);
    store[geometry::HEAD_COUNT] = count - 1;
}

// Puts a slot in at a place; the words from there to the end move up by a slot.
fn put_in(words: &mut [u32], place: usize, end: usize, slot: Slot)
    requires place_le_end { (place ≤ end) × (end + words_in_slot ≤ length words.old) }
    requires page_value { slot.page.0 ≡ 0 }
    ensures { words.new ≡ slot_in slot place end words.old }
{
    words.copy_within(place..end, place + SLOT_WORDS);
    slot::write_slot(words, place, slot);
}

// Takes out the slot at a place; the words behind it to the end move down, and the slot that they leave is erased.
fn take_out(words: &mut [u32], place: usize, end: usize)
    requires { (place + words_in_slot ≤ end) × (end ≤ length words.old) }
    ensures { words.new ≡ slot_out place end words.old }
{
    words.copy_within(place + SLOT_WORDS..end, place);
    words[end - SLOT_WORDS..end].fill(ERASED);
}

// The index entries in each level, by kind alone.
pub fn entry_counts(store: &Store) -> [u32; 4]
    requires { PagesWithin store.now.geometry store.now.words.now }
    ensures { result ≡ entries (tree_of store.now.geometry store.now.words.now) }
{
    counts_in(store.words, entries::runs_of(store))
}

// The index entries in each of four runs.
#[tactic(auto, unfolding(rules::specs::Merging::entries, laws::specs::Lists::span, entries::specs::Levels::tree_in))]
fn counts_in(words: &[u32], runs: Runs) -> [u32; 4]
    requires { AllInside runs (length words.now) }
    ensures { result ≡ entries (tree_in words.now runs) }
{
    let counts = runs.map(|run| count_entries(words, run));
    [counts.head, counts.first, counts.second, counts.third]
}

// The index entries of a run.
pub fn count_entries(words: &[u32], run: Run) -> u32
    requires { Inside run (length words.now) }
    ensures { result ≡ length (entries_in words.now run) }
{
    let mut count = 0;
    for page in 0..run.pages {
        count += count_in_page(words, run, Pid(page));
    }
    count
}

// The index entries of a page of a run.
fn count_in_page(words: &[u32], run: Run, page: Pid) -> u32
    requires inside { Inside run (length words.now) }
    requires page_lt_pages { page.0 < run.pages }
    ensures exact { result ≡ length (entries_of (page_in words.now run page.0)) }
    ensures few { result ≤ 4000 }
{
    let mut count = 0;
    for slot in 0..entries::count_in(words, run, page) {
        let read = read_slot(words, entries::place_in(run, page, SlotNo(slot)));
        count += one_if(!is_fence(read.kind));
    }
    count
}
