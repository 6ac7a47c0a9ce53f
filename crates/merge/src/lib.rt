// Merge and settle: a level's index entries joined to those of the level below, through the work area, and the levels above rebuilt
// with fences alone.
#![tactic(auto)]

ghost use Rattle.std.specs.Prelude.{suc, ◌+◌, ◌-◌, ◌*◌, ◌≤◌, ◌<◌, ◌≡◌, not, ◌&&◌, [], length, get_or, set, take, ltb};
ghost use Rattle.std.proofs.lemmas.List.Edits.{sets};
ghost use Rattle.geometry.specs.Geometry.{bottom, room};
ghost use Rattle.geometry.specs.Places.{head_start, plan_of, work_words, pages_word, words_in_slot, words_in_page, level_start};
ghost use Rattle.rules.specs.Level.{fences};
ghost use Rattle.layout.specs.Run.{words_of_all};
ghost use Rattle.layout.specs.Words.{first_pair};
ghost use Rattle.geometry.specs.Lent.{Lent};
ghost use Rattle.entries.specs.Levels.{PagesWithin};
ghost use Rattle.rules.specs.Merging.{join};
ghost use Rattle.entries.specs.Run.{entries_in};
ghost use Rattle.merge.specs.Filling.{filled, filled_pages, Fillable, head_rebuilt, rebuilt, rebuilt_pages, Rebuildable, run_at, joined, merged, merged_pages, Mergeable, outcome, room_at, settled, merged_on, Settleable};
ghost use Rattle.merge.specs.Source.{Joinable, source_at};

use edit::count_entries;
use entries::{Run, head_run, level_run};
use geometry::{
    Geometry, HEAD_COUNT, HEAD_START, PAGE_COUNTS, PAGE_WORDS, Plan, SLOT_WORDS, Store, at_level,
    plan_for,
};
use slot::Pid;
use writer::Source;

// What settling came to: the deepest level merged into, and the pages written.
#[derive(Clone, Copy)]
pub struct Settled {
    pub deepest: u32,
    pub pages: u32,
}

// Settles a level: above the bottom it is merged on if it holds its capacity or more.
#[cycle(merge_settle)]
pub fn settle(store: &mut [u32], work: &mut [u32], g: Geometry, level: u32) -> Settled
    requires lent { Lent g (plan_of g) store.old }
    requires work_len { length work.old ≡ work_words g }
    requires level_lt_levels { level < g.levels }
    requires settleable { Settleable g (bottom g - level) level store.old }
    ensures told { outcome store.new result.deepest result.pages ≡ settled g (bottom g - level) level store.old }
    ensures few { result.pages ≤ 8000 * (bottom g - level) }
{
    if is_full(store, g, level) {
        return merge(store, work, g, level);
    }
    Settled {
        deepest: level,
        pages: 0,
    }
}

// Merges a level into the next, which is settled then.
#[cycle(merge_settle)]
fn merge(store: &mut [u32], work: &mut [u32], g: Geometry, level: u32) -> Settled
    requires lent { Lent g (plan_of g) store.old }
    requires work_len { length work.old ≡ work_words g }
    requires level_bound { suc level < g.levels }
    requires mergeable { Mergeable g level store.old × Settleable g (bottom g - suc level) (suc level) (merged g level store.old) }
    ensures told { outcome store.new result.deepest result.pages ≡ merged_on g (bottom g - level) level store.old }
    ensures few { result.pages ≤ 8000 * (bottom g - level) }
{
    let pages = merge_down(store, work, g, level);
    let rest = settle(store, work, g, level + 1);
    Settled {
        deepest: rest.deepest,
        pages: pages + rest.pages,
    }
}

// Merges a level into the next: that is written anew, the levels above it are rebuilt with fences alone; gives the pages written.
fn merge_down(store: &mut [u32], work: &mut [u32], g: Geometry, level: u32) -> u32
    requires lent { Lent g (plan_of g) store.old }
    requires work_len { length work.old ≡ work_words g }
    requires level_bound { suc level < g.levels }
    requires mergeable { Mergeable g level store.old }
    ensures words { store.new ≡ merged g level store.old }
    ensures pages { result ≡ merged_pages g level store.old }
    ensures few { result ≤ 8000 }
{
    let joined = join_down(store, work, g, level);
    let rebuilt = rebuild_above(store, work, g, level);
    joined + rebuilt
}

// Writes the next level anew from a level's entries and its own, and gives its pages.
fn join_down(store: &mut [u32], work: &mut [u32], g: Geometry, level: u32) -> u32
    requires lent { Lent g (plan_of g) store.old }
    requires work_len { length work.old ≡ work_words g }
    requires level_bound { suc level < g.levels }
    requires mergeable { Mergeable g level store.old }
    ensures words { store.new ≡ filled g (suc level) (joined g level store.old) store.old }
    ensures pages { result ≡ filled_pages g (suc level) (joined g level store.old) store.old }
{
    let stored = Store::new(store, g);
    let upper = run_at(&stored, level);
    let lower = run_at(&stored, level + 1);
    fill_level(store, work, g, level + 1, upper, lower)
}

// Rebuilds a level and those above it with fences alone, the head last, and gives the pages of the levels.
pub fn rebuild_above(store: &mut [u32], work: &mut [u32], g: Geometry, level: u32) -> u32
    requires lent { Lent g (plan_of g) store.old }
    requires work_len { length work.old ≡ work_words g }
    requires level_lt_levels { level < g.levels }
    requires rebuildable { Rebuildable g level store.old }
    ensures words { store.new ≡ rebuilt g level store.old }
    ensures pages { result ≡ rebuilt_pages g level store.old }
{
    let mut pages = 0;
    for i in (1..=level).rev() {
        pages += rebuild_level(store, work, g, i);
    }
    rebuild_head(store, g, plan_for(g));
    pages
}

// Rebuilds a level with fences alone, and gives its pages.
pub fn rebuild_level(store: &mut [u32], work: &mut [u32], g: Geometry, level: u32) -> u32
    requires lent { Lent g (plan_of g) store.old }
    requires work_len { length work.old ≡ work_words g }
    requires le_level { (1 ≤ level) × (level < g.levels) }
    requires fillable { Fillable g level [] store.old }
    ensures words { store.new ≡ filled g level [] store.old }
    ensures pages { result ≡ filled_pages g level [] store.old }
{
    fill_level(store, work, g, level, writer::no_run(), writer::no_run())
}

// Writes a level anew from the entries of two runs joined, over the pages of the level below, and gives its pages.
pub fn fill_level(
    store: &mut [u32],
    work: &mut [u32],
    g: Geometry,
    level: u32,
    upper: Run,
    lower: Run,
) -> u32
    requires lent { Lent g (plan_of g) store.old }
    requires work_len { length work.old ≡ work_words g }
    requires le_level { (1 ≤ level) × (level < g.levels) }
    requires joinable { Joinable store.old upper lower }
    requires fillable { Fillable g level (join (entries_in store.old upper) (entries_in store.old lower)) store.old }
    ensures words { store.new ≡ filled g level (join (entries_in store.old upper) (entries_in store.old lower)) store.old }
    ensures pages { result ≡ filled_pages g level (join (entries_in store.old upper) (entries_in store.old lower)) store.old }
{
    let source = source_over(&Store::new(store, g), level, upper, lower);
    let slots = writer::write_level(store, work, source);
    let pages = writer::pages_for(slots);
    put_level(store, work, g, level, pages);
    pages
}

// Copies a level's pages from the work area to its room, with its page count.
fn put_level(store: &mut [u32], work: &[u32], g: Geometry, level: u32, pages: u32)
    requires lent { Lent g (plan_of g) store.old }
    requires work_len { length work.now ≡ work_words g }
    requires le_level { (1 ≤ level) × (level < g.levels) }
    ensures { store.new ≡ set (sets store.old (level_start g level) (take (words_in_page * room g level) work.now)) (pages_word level) pages }
{
    let own = Store::new(store, g).level_place(level);
    words::copy_in(
        store,
        own.start as usize,
        work,
        PAGE_WORDS * own.room as usize,
    );
    store[PAGE_COUNTS + level as usize] = pages;
}

// What a level is written from: the entries of two runs, over the pages of the level below, of which the bottom has none.
fn source_over(store: &Store, level: u32, upper: Run, lower: Run) -> Source
    requires { (1 ≤ level) × (level < store.now.geometry.levels) }
    ensures { result ≡ source_at store.now.geometry store.now.words.now level upper lower }
{
    let below = store.level_place(level + 1);
    Source {
        upper,
        lower,
        below_start: below.start,
        below: below.pages,
        fenced: level + 1 < store.geometry.levels,
    }
}

// Whether a level is to be merged on: it is above the bottom, and holds its capacity or more.
fn is_full(store: &[u32], g: Geometry, level: u32) -> bool
    requires lent { Lent g (plan_of g) store.now }
    requires pages_within { PagesWithin g store.now }
    requires level_lt_levels { level < g.levels }
    ensures { result ≡ (ltb (suc level) g.levels && not (room_at g store.now level)) }
{
    if g.levels <= level + 1 {
        return false;
    }
    let stored = Store::new(store, g);
    let capacity = at_level(stored.plan.capacities, level);
    capacity <= count_entries(store, run_at(&stored, level))
}

// The run of a level, or of the head.
fn run_at(store: &Store, level: u32) -> Run
    requires { level < store.now.geometry.levels }
    ensures { result ≡ run_at store.now.geometry store.now.words.now level }
{
    if level == 0 {
        return head_run(store);
    }
    level_run(store, level)
}

// Rebuilds the head: a fence for each page of level 1, and unused slots behind them.
pub fn rebuild_head(store: &mut [u32], g: Geometry, plan: Plan)
    requires lent { Lent g plan store.old }
    requires pages_within { PagesWithin g store.old }
    ensures { store.new ≡ head_rebuilt g store.old }
{
    let stored = Store {
        words: store,
        geometry: g,
        plan,
    };
    let below = stored.level_place(1);
    put_fences(store, below.start as usize, below.pages);
    let used = HEAD_START + SLOT_WORDS * below.pages as usize;
    let end = HEAD_START + SLOT_WORDS * plan.head_room as usize;
    words::erase(store, used, end);
    store[HEAD_COUNT] = below.pages;
}

// Puts a fence for each page of the level that starts at a place into the head's first slots.
fn put_fences(store: &mut [u32], below: usize, pages: u32)
    requires pages_bound { head_start + words_in_slot * pages ≤ below }
    requires pages_in_bounds { below + words_in_page * pages ≤ length store.old }
    requires pages_bound_2 { pages ≤ 2000 }
    ensures { store.new ≡ sets store.old head_start (words_of_all (fences (first_pair store.old below) pages)) }
{
    for p in 0..pages {
        let fence = layout::fence_of(store, below, Pid(p));
        let place = HEAD_START + SLOT_WORDS * p as usize;
        slot::write_slot(store, place, fence);
    }
}
