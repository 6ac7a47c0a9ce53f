// Where a level that is not its own writing is first wrong, and where the head is. Slots are numbered through the pages of a level's room; the
// head is one page.
#![tactic(auto)]

ghost use Rattle.std.specs.Prelude.{◌^◌, ◌≤◌, ◌<◌, ◌≡◌, true, length, get_or};
ghost use Rattle.rules.specs.Sound.{directory_right, head_right};
ghost use Rattle.rules.specs.Faults.{head_leaves, level_wrong};
ghost use Rattle.entries.specs.Run.{Inside};
ghost use Rattle.astray.specs.Places.{head_writing, level_writing};
ghost use Rattle.astray.specs.Rising.{number_at, entry_astray};
ghost use Rattle.astray.specs.Wrong.{most_of};

use entries::Run;
use geometry::{PAGE_SLOTS, Store, at_level};
use leaving::{Writing, leaves};
use slot::least_pair;
use written::rises;

// The number of the slot in which a level that is not its writing is first wrong: the first slot that does not stand as the writing has it, or
// the first entry that is not above the last one or is one too many. If there is none, the level's page count is wrong, and this is the first
// slot past its pages.
pub fn level_wrong(store: &Store, level: u32) -> u32
    requires store_value { directory_right store.now.geometry store.now.words.now ≡ true }
    requires le_level { (1 ≤ level) × (level < store.now.geometry.levels) }
    ensures { result ≡ level_wrong store.now.geometry store.now.words.now level }
{
    let writing = level_writing(store, level);
    let end = PAGE_SLOTS * writing.room;
    let slot = leaves(store.words, writing);
    let entry = entry_astray(store.words, writing.own, entries_most(store, level), end);
    let first = slot.min(entry);
    if first < end {
        return first;
    }
    PAGE_SLOTS * writing.own.pages
}

// The number of the slot where the head's words first leave the writing of its own entries; if they do not, the number of slots that the head
// has room for.
pub fn head_leaves(store: &Store) -> u32
    requires store_value { directory_right store.now.geometry store.now.words.now ≡ true }
    requires store_value_2 { head_right store.now.geometry store.now.words.now ≡ true }
    ensures { result ≡ head_leaves store.now.geometry store.now.words.now }
{
    leaves(store.words, head_writing(store))
}

// The writing that the head should be.
#[tactic(auto, unfolding(crate::specs::Places::head_writing))]
fn head_writing(store: &Store) -> Writing
    ensures { result ≡ head_writing store.now.geometry store.now.words.now }
{
    Writing {
        own: entries::head_run(store),
        room: 1,
        fenced: false,
        below: store.level_place(1),
    }
}

// The writing that a level should be.
fn level_writing(store: &Store, level: u32) -> Writing
    requires { (1 ≤ level) × (level < store.now.geometry.levels) }
    ensures { result ≡ level_writing store.now.geometry store.now.words.now level }
{
    Writing {
        own: entries::level_run(store, level),
        room: store.level_place(level).room,
        fenced: level != store.geometry.levels - 1,
        below: store.level_place(level + 1),
    }
}

// The number of the slot of the first entry of a run that is not above the last one, or that `most` entries come before. If there is none, this
// is `end`.
fn entry_astray(words: &[u32], run: Run, most: u32, end: u32) -> u32
    requires { Inside run (length words.now) }
    ensures { result ≡ entry_astray words.now run most end }
{
    let mut spot = entries::skip_to(words, run, 0, least_pair());
    let mut last = least_pair();
    let mut passed: u32 = 0;
    while !entries::is_ended(run, spot) {
        let entry = entries::entry_at(words, run, spot);
        if !(passed < most && rises(passed, last, entry.pair)) {
            return number_of(run, spot);
        }
        last = entry.pair;
        passed += 1;
        spot = entries::skip_to(words, run, spot + 1, least_pair());
    }
    end
}

// The number of the slot at a spot.
#[tactic(auto, unfolding(crate::specs::Rising::number_at))]
fn number_of(run: Run, spot: u64) -> u32
    requires { number_at run spot < 2 ^ 32 }
    ensures { result ≡ number_at run spot }
{
    let cursor = entries::cursor_at(spot);
    run.most * cursor.page.0 + cursor.slot.0
}

// The most entries that a level may have: one less than its capacity or, in the bottom, M.
fn entries_most(store: &Store, level: u32) -> u32
    requires { level < store.now.geometry.levels }
    ensures { result ≡ most_of store.now.geometry level (get_or store.now.plan.capacities level 0) }
{
    let capacity = at_level(store.plan.capacities, level);
    if level == store.geometry.levels - 1 {
        capacity
    } else {
        capacity - 1
    }
}
