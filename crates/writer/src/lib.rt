// Writes a level from a stream of entries over the fences below: two levels' index entries joined in order, with a fence for each page of
// the level below, slot by slot into a lent work area that is never read.
#![tactic(auto)]

ghost use Rattle.std.specs.Prelude.{◌+◌, ◌*◌, ◌^◌, ◌≤◌, ◌<◌, ◌≡◌, true, [], length};
ghost use Rattle.entries.specs.Run.{Inside, entry as indexed};
ghost use Rattle.entries.specs.Spot.{page_at, Standing};
ghost use Rattle.rules.specs.Level.{pages_for};
ghost use Rattle.rules.specs.Store.{level_words};
ghost use Rattle.layout.specs.Stream.{entry_next};
ghost use Rattle.writer.specs.Source.{SourceInside, SourceAscends, first_below, level_from, empty_run};
ghost use Rattle.writer.specs.Joining.{turn_of_two, turn_at, Ready, Reached, Passed};
ghost use Rattle.writer.specs.Append.{slot_put, slots_put};
ghost use Rattle.writer.specs.Coming.{entry_slots, finished, SameFinish, EntryPut};
ghost use Rattle.writer.specs.Writing.{room_in, WholePages, RoomFor};
ghost use Rattle.geometry.specs.Places.{slots_in_page};

use entries::{Entry, Run};
use geometry::{FIRST_SLOT, PAGE_SLOTS, PAGE_WORDS, SLOT_WORDS};
use layout::{entry_next, fence_of, fenced_at, inner_fence};
use slot::{Pair, Pid, Slot};

// What a level is written from: the two levels that are joined, the first word and the number of pages of the level below, and whether
// internal fences go in. The bottom has no pages below and no fences.
#[derive(Clone, Copy)]
pub struct Source {
    pub upper: Run,
    pub lower: Run,
    pub below_start: u32,
    pub below: u32,
    pub fenced: bool,
}

// Where the next slot goes: behind the level's own slots, which are entries and internal fences, and the fences of the level below.
#[derive(Clone, Copy)]
struct Position {
    own: u32,
    fence: u32,
}

impl Position {
    // The number of slots before it.
    fn slots(self) -> u32
        requires { self.own + self.fence < 2 ^ 32 }
        ensures { result ≡ self.own + self.fence }
    {
        self.own + self.fence
    }
}

// Whose entry comes next of two runs: the upper's, the lower's, or both, where they are of one pair; or no entry is left.
#[derive(Clone, Copy)]
enum Turn {
    Upper,
    Lower,
    Both,
    Neither,
}

// Writes a level into the work area, and gives the number of its slots.
pub fn write_level(store: &[u32], work: &mut [u32], source: Source) -> u32
    requires source_inside { SourceInside store.now source }
    requires source_ascends { SourceAscends store.now source }
    requires whole_pages { WholePages work.old }
    requires source_len_bound { length (level_from store.now source) ≤ slots_in_page * room_in work.old }
    ensures area { work.new ≡ level_words (level_from store.now source) (room_in work.old) }
    ensures count { result ≡ length (level_from store.now source) }
{
    start_level(work);
    write_slots(store, work, source)
}

// Puts a level's slots into a work area that is the writing of none, and gives their number.
fn write_slots(store: &[u32], work: &mut [u32], source: Source) -> u32
    requires source_inside { SourceInside store.now source }
    requires source_ascends { SourceAscends store.now source }
    requires work_value { work.old ≡ level_words [] (room_in work.old) }
    requires work_bound { room_in work.old ≤ 4096 }
    requires source_len_bound { length (level_from store.now source) ≤ slots_in_page * room_in work.old }
    ensures area { work.new ≡ level_words (level_from store.now source) (room_in work.old) }
    ensures count { result ≡ length (level_from store.now source) }
{
    let above = source.upper;
    let under = source.lower;
    let mut upper = spot_from(store, above, 0);
    let mut lower = spot_from(store, under, 0);
    let mut at = Position { own: 0, fence: 0 };
    loop {
        match turn_of(store, source, upper, lower) {
            Turn::Upper => {
                let entry = entries::entry_at(store, above, upper);
                upper = past(store, above, upper);
                at = put_next(store, work, source, at, entry);
            }
            Turn::Lower => {
                let entry = entries::entry_at(store, under, lower);
                lower = past(store, under, lower);
                at = put_next(store, work, source, at, entry);
            }
            Turn::Both => {
                upper = past(store, above, upper);
                lower = past(store, under, lower);
            }
            Turn::Neither => {
                return put_fences(store, work, source, at);
            }
        }
    }
}

// The number of pages that `slots` slots take.
pub fn pages_for(slots: u32) -> u32
    requires { slots + slots_in_page < 2 ^ 32 }
    ensures { result ≡ pages_for slots }
{
    slots.div_ceil(PAGE_SLOTS).max(1)
}

// A run that has no entries.
pub fn no_run() -> Run
    ensures { result ≡ empty_run }
{
    Run {
        start: 0,
        pages: 0,
        most: 0,
    }
}

// Makes the work area the writing of a level without slots.
fn start_level(work: &mut [u32])
    requires { WholePages work.old }
    ensures { work.new ≡ level_words [] (room_in work.old) }
{
    let end = work.len();
    words::erase(work, 0, end);
    work[0] = 0;
}

// Puts a slot at a position of the row: its three words, and its page's count.
fn put_slot(work: &mut [u32], position: u32, slot: Slot)
    requires room_for { RoomFor (position + 1) work.old }
    requires page_bound { slot.page.0 < 2 ^ 30 }
    ensures { work.new ≡ slot_put work.old position slot }
{
    let page = PAGE_WORDS * (position / PAGE_SLOTS) as usize;
    let number = position % PAGE_SLOTS;
    slot::write_slot(work, page + FIRST_SLOT + SLOT_WORDS * number as usize, slot);
    work[page] = number + 1;
}

// Puts the next entry behind the fences that come before it.
#[inline(always)]
fn put_next(store: &[u32], work: &mut [u32], source: Source, at: Position, entry: Entry) -> Position
    requires source_inside { SourceInside store.now source }
    requires room_for { RoomFor (at.own + source.below + 1) work.old }
    requires fence_le_below { at.fence ≤ source.below }
    ensures told { EntryPut store.now source (indexed entry) work.old at work.new result }
    ensures most { result.fence ≤ source.below }
{
    let fence = put_fences_before(store, work, source, at, entry.pair);
    let behind = Position { own: at.own, fence };
    put_entry(work, source.fenced, behind, entry)
}

// Puts the fences that come before an entry of a pair, and gives the number of fences then.
fn put_fences_before(
    store: &[u32],
    work: &mut [u32],
    source: Source,
    at: Position,
    pair: Pair,
) -> u32
    requires source_inside { SourceInside store.now source }
    requires room_for { RoomFor (at.own + source.below) work.old }
    requires fence_le_below { at.fence ≤ source.below }
    ensures told { SameFinish store.now source pair at.own work.old at.fence work.new result }
    ensures next { entry_next (first_below store.now source) source.below result pair ≡ true }
    ensures most { result ≤ source.below }
{
    let start = source.below_start as usize;
    let mut next = at.fence;
    while !entry_next(store, start, source.below, Pid(next), pair) {
        put_slot(work, at.own + next, fence_of(store, start, Pid(next)));
        next += 1;
    }
    next
}

// Puts the fences that are left, and gives the number of all slots.
fn put_fences(store: &[u32], work: &mut [u32], source: Source, at: Position) -> u32
    requires source_inside { SourceInside store.now source }
    requires room_for { RoomFor (at.own + source.below) work.old }
    requires fence_le_below { at.fence ≤ source.below }
    ensures { (work.new, result) ≡ finished store.now source work.old at.own at.fence [] }
{
    let start = source.below_start as usize;
    for next in at.fence..source.below {
        put_slot(work, at.own + next, fence_of(store, start, Pid(next)));
    }
    at.own + source.below
}

// Puts an entry, with an internal fence before it where it would be first in a page.
fn put_entry(work: &mut [u32], fenced: bool, at: Position, entry: Entry) -> Position
    requires room_for { RoomFor (at.own + at.fence + 1) work.old }
    requires fence_bound { at.fence ≤ 2 ^ 30 }
    ensures told { (work.new, result.own + at.fence) ≡
        slots_put work.old (at.own + at.fence) (entry_slots fenced (at.own + at.fence) at.fence (indexed entry)) }
    ensures fences { result.fence ≡ at.fence }
{
    let slot = entries::index_of(entry);
    if fenced_at(fenced, at.slots() as usize) {
        let behind = put_own(work, at, inner_fence(entry.pair, Pid(at.fence)));
        return put_own(work, behind, slot);
    }
    put_own(work, at, slot)
}

// Puts an entry's slot or an internal fence.
fn put_own(work: &mut [u32], at: Position, slot: Slot) -> Position
    requires room_for { RoomFor (at.own + at.fence + 1) work.old }
    requires page_bound { slot.page.0 < 2 ^ 30 }
    ensures area { work.new ≡ slot_put work.old (at.own + at.fence) slot }
    ensures count { result.own ≡ at.own + 1 }
    ensures fences { result.fence ≡ at.fence }
{
    put_slot(work, at.slots(), slot);
    Position {
        own: at.own + 1,
        fence: at.fence,
    }
}

// Whose entry comes next at two spots.
fn turn_of(store: &[u32], source: Source, upper: u64, lower: u64) -> Turn
    requires source_inside { SourceInside store.now source }
    requires ready { Ready store.now source upper lower }
    ensures { result ≡ turn_at store.now source upper lower }
{
    let above = source.upper;
    let under = source.lower;
    match (
        entries::is_ended(above, upper),
        entries::is_ended(under, lower),
    ) {
        (true, true) => Turn::Neither,
        (true, false) => Turn::Lower,
        (false, true) => Turn::Upper,
        (false, false) => {
            let high = entries::entry_at(store, above, upper);
            let low = entries::entry_at(store, under, lower);
            turn_of_two(high, low)
        }
    }
}

// Whose entry comes next of two. Those of one pair cancel, whichever of them is the filter.
#[tactic(auto, unfolding(crate::specs::Joining::turn_of_two))]
fn turn_of_two(high: Entry, low: Entry) -> Turn
    ensures { result ≡ turn_of_two (indexed high) (indexed low) }
{
    if slot::same_pair(high.pair, low.pair) {
        Turn::Both
    } else if slot::comes_before(high.pair, low.pair) {
        Turn::Upper
    } else {
        Turn::Lower
    }
}

// Where the entry behind one stands.
fn past(words: &[u32], run: Run, spot: u64) -> u64
    requires inside { Inside run (length words.now) }
    requires standing { Standing words.now run spot }
    requires spot_bound { page_at spot < run.pages }
    ensures { Passed words.now run spot result }
{
    spot_from(words, run, spot + 1)
}

// Where the first entry at or after a spot stands.
fn spot_from(words: &[u32], run: Run, from: u64) -> u64
    requires { Inside run (length words.now) }
    ensures { Reached words.now run from result }
{
    entries::skip_to(words, run, from, slot::least_pair())
}
