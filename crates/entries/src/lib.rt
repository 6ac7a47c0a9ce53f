// The index entries of one run in lent words, a level's pages or the head, in turn: from a spot on, and from a pair on.
#![tactic(auto)]

ghost use Rattle.std.specs.Prelude.{◌+◌, ◌^◌, ◌<◌, ◌≤◌, ◌≡◌, [], ◌∷◌, length, leb, IfSome, IfNone};
ghost use Rattle.rules.specs.Level.{index};
ghost use Rattle.entries.specs.Four.{Each, EachTwo, EachThree, Upward};
ghost use Rattle.entries.specs.Run.{Inside, entry as indexed, count_in, place_in};
ghost use Rattle.entries.specs.Levels.{AllInside, head_run, level_run, runs_of};
ghost use Rattle.entries.specs.Skip.{skip, skip_all, stops_at, page_from, Met};
ghost use Rattle.entries.specs.Spot.{spot_of, cursor_at, page_at, upcoming, upcomings, Standing, AllStanding};

use geometry::Store;
use page::{is_fence, is_normal};
use slot::{Kind, Pair, Pid, Slot, SlotNo};

// Pages of 64 words, from the first word on. A page's slot count above `most` is read as `most`. The head is a run of one page.
#[derive(Clone, Copy)]
pub struct Run {
    pub start: u32,
    pub pages: u32,
    pub most: u32,
}

// A place among the slots of a run.
#[derive(Clone, Copy)]
pub struct Cursor {
    pub page: Pid,
    pub slot: SlotNo,
}

// A spot is a cursor in one number, which stays in a register: PAGE_STEP times its page number, plus its slot number.
const PAGE_STEP: u64 = 4294967296;

// An index entry: a pair, and normal or a filter.
#[derive(Clone, Copy)]
pub struct Entry {
    pub pair: Pair,
    pub normal: bool,
}

// A value for each of four levels, from the top down.
#[derive(Clone, Copy)]
pub struct Four<T> {
    pub head: T,
    pub first: T,
    pub second: T,
    pub third: T,
}

// The runs of four levels. A level that does not exist has no pages.
pub type Runs = Four<Run>;

// Spots in each of four runs.
pub type Spots = Four<u64>;

impl<T: Copy> Four<T> {
    // What a function makes of each level's value.
    pub fn map<V, F: Fn(T) -> V>(self, f: F) -> Four<V>
        requires { Each (F.pre f) self }
        ensures { EachTwo (F.post f) self result }
    {
        Four {
            head: f(self.head),
            first: f(self.first),
            second: f(self.second),
            third: f(self.third),
        }
    }

    // What a function makes of each level's two values.
    pub fn zip_map<U: Copy, V, F: Fn(T, U) -> V>(self, other: Four<U>, f: F) -> Four<V>
        requires { EachTwo (F.pre f) self other }
        ensures { EachThree (F.post f) self other result }
    {
        Four {
            head: f(self.head, other.head),
            first: f(self.first, other.first),
            second: f(self.second, other.second),
            third: f(self.third, other.third),
        }
    }

    // What a function makes of each level's two values over what it made of the level below, from the bottom up.
    pub fn zip_up<U: Copy, V, F: Fn(T, U, V) -> V>(self, other: Four<U>, start: V, f: F) -> V
        requires { EachTwo (λ x y. (below : V) → F.pre f x y below) self other }
        ensures { Upward (F.post f) self other start result }
    {
        let lowest = f(self.third, other.third, start);
        let lower = f(self.second, other.second, lowest);
        let upper = f(self.first, other.first, lower);
        f(self.head, other.head, upper)
    }
}

// The runs of a store's levels.
#[tactic(auto, unfolding(crate::specs::Levels::runs_of))]
pub fn runs_of(store: &Store) -> Runs
    ensures { result ≡ runs_of store.now.geometry store.now.words.now }
{
    Four {
        head: head_run(store),
        first: level_run(store, 1),
        second: level_run(store, 2),
        third: level_run(store, 3),
    }
}

// The head's run: one page, from the head's count on.
pub fn head_run(store: &Store) -> Run
    ensures { result ≡ head_run store.now.geometry }
{
    Run {
        start: geometry::HEAD_COUNT as u32,
        pages: 1,
        most: store.plan.head_room,
    }
}

// The run of a level below the head. A level that does not exist has no pages.
pub fn level_run(store: &Store, level: u32) -> Run
    requires { (1 ≤ level) × (level ≤ 3) }
    ensures { result ≡ level_run store.now.geometry store.now.words.now level }
{
    let place = store.level_place(level);
    Run {
        start: place.start,
        pages: place.pages,
        most: geometry::PAGE_SLOTS,
    }
}

// The slot count of a page, read as at most the run's.
#[tactic(auto, unfolding(crate::specs::Run::count_in))]
pub fn count_in(words: &[u32], run: Run, page: Pid) -> u32
    requires inside { Inside run (length words.now) }
    requires page_lt_pages { page.0 < run.pages }
    ensures { result ≡ count_in words.now run page.0 }
{
    words[run.start as usize + geometry::PAGE_WORDS * page.0 as usize].min(run.most)
}

// The first word of a slot of a page.
#[tactic(auto, unfolding(crate::specs::Run::place_in))]
pub fn place_in(run: Run, page: Pid, slot: SlotNo) -> usize
    ensures { result ≡ place_in run page.0 slot.0 }
{
    run.start as usize
        + geometry::PAGE_WORDS * page.0 as usize
        + geometry::FIRST_SLOT
        + geometry::SLOT_WORDS * slot.0 as usize
}

// The slot that an index entry is written in.
#[tactic(auto, unfolding(rules::specs::Level::index))]
pub fn index_of(entry: Entry) -> Slot
    ensures { result ≡ index (indexed entry) }
{
    Slot {
        pair: entry.pair,
        kind: if entry.normal {
            Kind::Normal
        } else {
            Kind::Filter
        },
        page: Pid(0),
    }
}

// Where the first index entry at or after a spot stands that is not before a pair, or the end of the run.
pub fn skip_to(words: &[u32], run: Run, from: u64, pair: Pair) -> u64
    requires { Inside run (length words.now) }
    ensures told { upcoming words.now run result ≡ skip pair (upcoming words.now run from) }
    ensures standing { Standing words.now run result }
{
    let Cursor {
        page: first,
        mut slot,
    } = cursor_at(from);
    for page in first.0..run.pages {
        if let Some(found) = skip_in_page(words, run, Pid(page), slot, pair) {
            return spot_of(Pid(page), found);
        }
        slot = SlotNo(0);
    }
    spot_of(Pid(run.pages), SlotNo(0))
}

// Four spots, each moved forward to a pair.
#[tactic(auto, unfolding(crate::specs::Spot::upcomings, crate::specs::Skip::skip_all))]
pub fn spots_from(words: &[u32], runs: Runs, spots: Spots, pair: Pair) -> Spots
    requires { AllInside runs (length words.now) }
    ensures told { upcomings words.now runs result ≡ skip_all pair (upcomings words.now runs spots) }
    ensures standing { AllStanding words.now runs result }
{
    runs.zip_map(spots, |run, spot| skip_to(words, run, spot, pair))
}

// The first slot of a page from one on that is an index entry not before a pair.
fn skip_in_page(words: &[u32], run: Run, page: Pid, from: SlotNo, pair: Pair) -> Option<SlotNo>
    requires inside { Inside run (length words.now) }
    requires page_lt_pages { page.0 < run.pages }
    ensures met { IfSome result (λ at. Met words.now run page.0 pair from.0 at.0) }
    ensures none { IfNone result (skip pair (page_from words.now run page.0 from.0) ≡ []) }
{
    for slot in from.0..count_in(words, run, page) {
        if stops(
            slot::read_slot(words, place_in(run, page, SlotNo(slot))),
            pair,
        ) {
            return Some(SlotNo(slot));
        }
    }
    None
}

// Whether a slot is an index entry that is not before a pair.
#[tactic(auto, unfolding(crate::specs::Skip::stops_at))]
fn stops(slot: Slot, pair: Pair) -> bool
    ensures { result ≡ stops_at pair slot }
{
    !is_fence(slot.kind) & !slot::comes_before(slot.pair, pair)
}

// Whether a run has no page left at a spot.
pub fn is_ended(run: Run, spot: u64) -> bool
    ensures { result ≡ leb run.pages (page_at spot) }
{
    run.pages <= cursor_at(spot).page.0
}

// The index entry that stands at a spot.
pub fn entry_at(words: &[u32], run: Run, spot: u64) -> Entry
    requires inside { Inside run (length words.now) }
    requires standing { Standing words.now run spot }
    requires spot_bound { page_at spot < run.pages }
    ensures told { indexed result ∷ upcoming words.now run (spot + 1) ≡ upcoming words.now run spot }
    ensures fits { spot + 1 < 2 ^ 64 }
{
    let cursor = cursor_at(spot);
    let slot = slot::read_slot(words, place_in(run, cursor.page, cursor.slot));
    Entry {
        pair: slot.pair,
        normal: is_normal(slot.kind),
    }
}

// The spot of a page and a slot number.
#[tactic(auto, unfolding(crate::specs::Spot::spot_of))]
fn spot_of(page: Pid, slot: SlotNo) -> u64
    ensures { result ≡ spot_of page.0 slot.0 }
{
    PAGE_STEP * u64::from(page.0) + u64::from(slot.0)
}

// The cursor at a spot.
#[tactic(auto, unfolding(crate::specs::Spot::page_at, crate::specs::Spot::slot_number))]
pub fn cursor_at(spot: u64) -> Cursor
    ensures { result ≡ cursor_at spot }
{
    Cursor {
        page: Pid((spot / PAGE_STEP) as u32),
        slot: SlotNo((spot % PAGE_STEP) as u32),
    }
}
