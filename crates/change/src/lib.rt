// What an accepted put or drop does: the head is edited, and where it is full then, it is settled.
#![tactic(auto)]

ghost use Rattle.std.specs.Prelude.{suc, ◌≤◌, ◌≡◌, not, ◌&&◌, leb, eqb, length};
ghost use Rattle.geometry.specs.Places.{work_words};
ghost use Rattle.geometry.specs.Lent.{Lent};
ghost use Rattle.geometry.specs.Geometry.{most_head};
ghost use Rattle.rules.specs.Sound.{head_slots};
ghost use Rattle.good.specs.Edit.{live_after};
ghost use Rattle.form.specs.Passes.{head_scanned};
ghost use Rattle.edited.specs.Reach.{reach as reach_of};
ghost use Rattle.entries.specs.Run.{entry as indexed};
ghost use Rattle.entries.specs.Levels.{PagesWithin};
ghost use Rattle.change.specs.Change.{toggled_behind, edited_behind, done_on, merged_change, change_of, told};
ghost use Rattle.change.specs.Settled.{AcceptedAnew, Settling, settled_change};
ghost use Rattle.change.specs.Head.{LiveMoves, Editable, Accepted};

use edit::{add_entry, entry_counts, remove_entry};
use entries::Entry;
use fault::Fault;
use form::HeadRead;
use geometry::{Geometry, Plan, Store};
use slot::SlotNo;

// What a change did: live pairs, the deepest level merged into and the pages written.
#[derive(Clone, Copy)]
pub struct Done {
    pub live: u32,
    pub deepest: u32,
    pub pages: u32,
}

// What came of a change, with the index entries in each level. Where a fault was found, nothing is changed.
#[derive(Clone, Copy)]
pub struct Report {
    pub outcome: Result<Done, Fault>,
    pub entries: [u32; 4],
}

// What the walk found of a pair: whether it is held, the level that decides, and what the pass over the head told.
#[derive(Clone, Copy)]
pub struct Finding {
    pub held: bool,
    pub level: u32,
    pub head: HeadRead,
}

// Puts an entry into the head, or takes out the head's own entry of its pair, where the head decided; then the head is settled.
pub fn change(
    store: &mut [u32],
    work: &mut [u32],
    g: Geometry,
    plan: Plan,
    entry: Entry,
    finding: Finding,
) -> Report
    requires lent { Lent g plan store.old }
    requires work_len { length work.old ≡ work_words g }
    requires accepted { Accepted g store.old (indexed entry) finding.level }
    requires head_value { finding.head ≡ head_scanned g store.old entry.pair }
    ensures { told result store.new work.new ≡ change_of g (indexed entry) (eqb finding.level 0) store.old work.old }
{
    let head = finding.head;
    let own = finding.level == 0;
    if fills_head(g, head.entries, own) {
        return change_and_settle(store, work, g, plan, entry, head.reach);
    }
    edit_head(store, entry, head.reach, own);
    let changed = Store {
        words: store,
        geometry: g,
        plan,
    };
    done_on(&changed, 0, 0)
}

// Whether the head has its capacity of entries with one more, and so is to be merged.
fn fills_head(g: Geometry, entries: u32, own: bool) -> bool
    requires { entries ≤ most_head }
    ensures { result ≡ (not own && leb g.head (suc entries)) }
{
    !own && g.head <= entries + 1
}

// The whole store is tested before any change.
fn change_and_settle(
    store: &mut [u32],
    work: &mut [u32],
    g: Geometry,
    plan: Plan,
    entry: Entry,
    reach: u32,
) -> Report
    requires lent { Lent g plan store.old }
    requires work_len { length work.old ≡ work_words g }
    requires accepted_anew { AcceptedAnew g store.old (indexed entry) }
    requires reach_value { reach ≡ reach_of entry.pair (head_slots g store.old) }
    ensures { told result store.new work.new ≡ merged_change g (indexed entry) store.old work.old }
{
    let tested = Store {
        words: store,
        geometry: g,
        plan,
    };
    if let Err(fault) = sound::whole_fault(&tested) {
        return Report {
            outcome: Err(fault),
            entries: [0; 4],
        };
    }
    edit_head(store, entry, reach, false);
    settle_head(store, work, g, plan)
}

// Settles the head, and leaves the work area unused.
fn settle_head(store: &mut [u32], work: &mut [u32], g: Geometry, plan: Plan) -> Report
    requires lent { Lent g plan store.old }
    requires work_len { length work.old ≡ work_words g }
    requires settling { Settling g store.old }
    ensures { told result store.new work.new ≡ settled_change g store.old work.old }
{
    let settled = merge::settle(store, work, g, 0);
    let end = work.len();
    words::erase(work, 0, end);
    let changed = Store {
        words: store,
        geometry: g,
        plan,
    };
    done_on(&changed, settled.deepest, settled.pages)
}

// Edits the head after its first `reach` slots, and changes live with it.
fn edit_head(store: &mut [u32], entry: Entry, reach: u32, own: bool)
    requires { Editable (indexed entry) reach store.old }
    ensures { store.new ≡ edited_behind (indexed entry) reach own store.old }
{
    let live = live_after(store[geometry::LIVE], entry.normal);
    toggle_entry(store, entry, reach, own);
    store[geometry::LIVE] = live;
}

// The last of the first slots goes where it is the pair's own entry; else the entry comes behind them.
fn toggle_entry(store: &mut [u32], entry: Entry, reach: u32, own: bool)
    requires { Editable (indexed entry) reach store.old }
    ensures { store.new ≡ toggled_behind (indexed entry) reach own store.old }
{
    if own {
        remove_entry(store, SlotNo(reach - 1));
    } else {
        add_entry(store, entry, reach);
    }
}

// The live pairs after a put, which adds a normal entry or takes out a filter, and after a drop.
fn live_after(live: u32, normal: bool) -> u32
    requires { LiveMoves normal live }
    ensures { result ≡ live_after normal live }
{
    if normal { live + 1 } else { live - 1 }
}

// A change that is done, told of the store as it stands.
fn done_on(store: &Store, deepest: u32, pages: u32) -> Report
    requires { PagesWithin store.now.geometry store.now.words.now }
    ensures { result ≡ done_on store.now.geometry store.now.words.now deepest pages }
{
    let live = store.words[geometry::LIVE];
    Report {
        outcome: Ok(Done {
            live,
            deepest,
            pages,
        }),
        entries: entry_counts(store),
    }
}
