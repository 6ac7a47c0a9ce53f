// Kinds, alternation and live across the levels of a store whose levels ascend.
#![tactic(auto)]

ghost use Rattle.std.specs.Prelude.{◌+◌, ◌<◌, ◌≡◌, true, [], ◌∷◌, length, eqb};
ghost use Rattle.fault.specs.declared.Part.TheVariants.{Kinds};
ghost use Rattle.fault.specs.Numbers.{no_place};
ghost use Rattle.rules.specs.Sound.{tree_of};
ghost use Rattle.rules.specs.Faults.{unless, first_fault, across_fault};
ghost use Rattle.entries.specs.Run.{Inside, entries_in};
ghost use Rattle.entries.specs.Levels.{AllInside, PagesWithin, tree_in};
ghost use Rattle.entries.specs.Ascending.{levels_ascend};
ghost use Rattle.entries.specs.Skip.{skip_all, page_from};
ghost use Rattle.entries.specs.Spot.{upcoming, Standing, upcomings, AllStanding};
ghost use Rattle.kinds.specs.Standing.{stands_over, decides, held_first};
ghost use Rattle.kinds.specs.KindCounts.{CountsSmall, level_counts, tree_counts, filter_kind};
ghost use Rattle.kinds.specs.Below.{below_of, no_entries};
ghost use Rattle.kinds.specs.Told.{wrong_at, run_fault, top_fault, faults_from};

use entries::{Run, Runs, Spots};
use fault::{Fault, Part};
use geometry::Store;
use laws::one_if;
use page::is_normal;
use slot::{Kind, Pair, Pid, SlotNo, read_slot};

// The normal entries and the filters of a level or a tree.
#[derive(Clone, Copy)]
pub struct KindCounts {
    pub normal: u32,
    pub filters: u32,
}

// The first wrong entry, level by level from the top: one of the same kind as the next entry of its pair below, or a filter with none below.
// If no entry is wrong: a fault without a place, unless live is the number of normal entries less that of filters.
pub fn kinds_fault(store: &Store) -> Result<(), Fault>
    requires pages_within { PagesWithin store.now.geometry store.now.words.now }
    requires store_value { levels_ascend (tree_of store.now.geometry store.now.words.now) ≡ true }
    ensures { result ≡ across_fault store.now.geometry store.now.words.now }
{
    let words = store.words;
    let runs = entries::runs_of(store);
    alternation_fault(words, runs)?;
    live_fault(words[geometry::LIVE], count_kinds(words, runs))
}

// A fault without a place, unless live and the filters make the normal entries.
fn live_fault(live: u32, counts: KindCounts) -> Result<(), Fault>
    ensures { result ≡ unless (eqb (live + counts.filters) counts.normal) (no_place Kinds) }
{
    if u64::from(live) + u64::from(counts.filters) == u64::from(counts.normal) {
        return Ok(());
    }
    Err(Fault::of(Part::Kinds))
}

// The normal entries and the filters of four runs.
#[tactic(auto, using(crate::specs::KindCounts::count_four), unfolding(entries::specs::Levels::tree_in))]
fn count_kinds(words: &[u32], runs: Runs) -> KindCounts
    requires { AllInside runs (length words.now) }
    ensures { result ≡ tree_counts (tree_in words.now runs) }
{
    let counts = runs.map(|run| count_run(words, run));
    KindCounts {
        normal: counts.head.normal
            + (counts.first.normal + (counts.second.normal + counts.third.normal)),
        filters: counts.head.filters
            + (counts.first.filters + (counts.second.filters + counts.third.filters)),
    }
}

// The normal entries and the filters of a run.
fn count_run(words: &[u32], run: Run) -> KindCounts
    requires { Inside run (length words.now) }
    ensures exact { result ≡ level_counts (entries_in words.now run) }
    ensures small { CountsSmall result }
{
    let mut normal = 0;
    let mut filters = 0;
    for page in 0..run.pages {
        let counts = count_page(words, run, Pid(page));
        normal += counts.normal;
        filters += counts.filters;
    }
    KindCounts { normal, filters }
}

// The normal entries and the filters of a page of a run.
fn count_page(words: &[u32], run: Run, page: Pid) -> KindCounts
    requires inside { Inside run (length words.now) }
    requires page_lt_pages { page.0 < run.pages }
    ensures { result ≡ level_counts (page_from words.now run page.0 0) }
{
    let mut normal = 0;
    let mut filters = 0;
    for slot in 0..entries::count_in(words, run, page) {
        let read = read_slot(words, entries::place_in(run, page, SlotNo(slot)));
        normal += one_if(is_normal(read.kind));
        filters += one_if(is_filter(read.kind));
    }
    KindCounts { normal, filters }
}

// Whether a slot's kind is a filter's.
fn is_filter(kind: Kind) -> bool
    ensures { result ≡ filter_kind kind }
{
    matches!(kind, Kind::Filter)
}

// The first wrong entry of four runs, from the top down.
fn alternation_fault(words: &[u32], runs: Runs) -> Result<(), Fault>
    requires all_inside { AllInside runs (length words.now) }
    requires runs_value { levels_ascend (tree_in words.now runs) ≡ true }
    ensures { result ≡ first_fault (faults_from words.now 0 runs 4) }
{
    let mut top = runs;
    for level in 0..geometry::MOST_LEVELS {
        top_fault(words, top, level)?;
        top = below(top);
    }
    Ok(())
}

// The runs below the top one.
#[tactic(auto, unfolding(crate::specs::Below::below_of))]
fn below(runs: Runs) -> Runs
    ensures { result ≡ below_of runs }
{
    Runs {
        head: runs.first,
        first: runs.second,
        second: runs.third,
        third: Run {
            start: 0,
            pages: 0,
            most: 0,
        },
    }
}

// The first wrong entry of the top one of four runs, over those below it.
fn top_fault(words: &[u32], runs: Runs, level: u32) -> Result<(), Fault>
    requires all_inside { AllInside runs (length words.now) }
    requires runs_value { levels_ascend (tree_in words.now runs) ≡ true }
    ensures { result ≡ top_fault words.now level runs }
{
    let lower = below(runs);
    if stands_alone(words, runs.head, lower) {
        return Ok(());
    }
    run_fault(words, runs.head, lower, level)
}

// Whether a run has no filter and the runs below it no entry. Only a yes is promised to be right: after a no the run is tested entry by entry.
fn stands_alone(words: &[u32], top: Run, lower: Runs) -> bool
    requires inside { Inside top (length words.now) }
    requires all_inside { AllInside lower (length words.now) }
    ensures { result ≡ true → stands_over (entries_in words.now top) (tree_in words.now lower) ≡ true }
{
    all_empty(words, lower) && count_run(words, top).filters == 0
}

// Whether four runs have no entries. Only a yes is promised to be right.
fn all_empty(words: &[u32], runs: Runs) -> bool
    requires { AllInside runs (length words.now) }
    ensures { result ≡ true → tree_in words.now runs ≡ no_entries }
{
    let empty = runs.map(|run| is_empty(words, run));
    empty.head & empty.first & empty.second & empty.third
}

// Whether a run has no entries. Only a yes is promised to be right.
fn is_empty(words: &[u32], run: Run) -> bool
    requires { Inside run (length words.now) }
    ensures { result ≡ true → entries_in words.now run ≡ [] }
{
    entries::is_ended(run, entries::skip_to(words, run, 0, slot::least_pair()))
}

// The first wrong entry of a run over the runs below it, entry by entry.
fn run_fault(words: &[u32], top: Run, lower: Runs, level: u32) -> Result<(), Fault>
    requires inside { Inside top (length words.now) }
    requires all_inside { AllInside lower (length words.now) }
    requires lower_value { levels_ascend (entries_in words.now top ∷ tree_in words.now lower) ≡ true }
    ensures { result ≡ run_fault words.now level top (tree_in words.now lower) }
{
    let least = slot::least_pair();
    let mut spots = lower.map(|_| 0);
    let mut spot = entries::skip_to(words, top, 0, least);
    while !entries::is_ended(top, spot) {
        let entry = entries::entry_at(words, top, spot);
        let next = spot + 1;
        spots = entries::spots_from(words, lower, spots, entry.pair);
        if entry.normal == held_at(words, lower, spots, entry.pair) {
            return Err(wrong_at(level, spot));
        }
        spot = entries::skip_to(words, top, next, least);
    }
    Ok(())
}

// The fault of the wrong entry at a spot of a level.
fn wrong_at(level: u32, spot: u64) -> Fault
    ensures { result ≡ wrong_at level spot }
{
    let cursor = entries::cursor_at(spot);
    Fault::at(Part::Kinds, level, cursor.page.0, cursor.slot.0)
}

// Whether the topmost entry of a pair at four spots holds it.
#[tactic(auto, unfolding(crate::specs::Standing::held_first, entries::specs::Spot::upcomings))]
fn held_at(words: &[u32], runs: Runs, spots: Spots, pair: Pair) -> bool
    requires all_inside { AllInside runs (length words.now) }
    requires all_standing { AllStanding words.now runs spots }
    ensures { result ≡ held_first pair (upcomings words.now runs spots) }
{
    runs.zip_up(
        spots,
        false,
        |run, spot, below| told_at(words, run, spot, pair, below),
    )
}

// What the entry at a spot says of a pair, over what those below say.
fn told_at(words: &[u32], run: Run, spot: u64, pair: Pair, below: bool) -> bool
    requires inside { Inside run (length words.now) }
    requires standing { Standing words.now run spot }
    ensures { result ≡ decides pair (upcoming words.now run spot) below }
{
    if entries::is_ended(run, spot) {
        return below;
    }
    let entry = entries::entry_at(words, run, spot);
    if slot::same_pair(pair, entry.pair) {
        entry.normal
    } else {
        below
    }
}
