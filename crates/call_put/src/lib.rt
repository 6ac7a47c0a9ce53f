// Put and drop, which change the store. Any words may be the store and the work area.
#![tactic(auto)]

ghost use Rattle.std.specs.Prelude.{◌≡◌, ◌++◌};
ghost use Rattle.opening.specs.Reply.{replied};
ghost use Rattle.call_put.specs.declared.EditRefusal.TheVariants.{Fault as FaultRefusal};
ghost use Rattle.call_put.specs.Refused.{edit_refusal_of, edit_refused};
ghost use Rattle.call_put.specs.Edit.{edited_reply, edit_reply, put_of, drop_of, edit_of, answer_for, edit_answered};
ghost use Rattle.call_put.specs.Tested.{tested_of, put_tested, drop_tested};

pub use change::Done;
use change::{Finding, Report, change};
use entries::Entry;
use fault::{Fault, Part};
use geometry::{LIVE, Store, at_level};
use opening::{Refusal, Reply, Unopened, open_both};
use slot::Pair;
use walk::walk_survey;

// Why a put or drop is refused: the words are no store and work area, a test finds a fault, or the set is against it.
#[derive(Clone, Copy, PartialEq, Eq)]
pub enum EditRefusal {
    Range,
    Length,
    Fault(Fault),
    Held,
    Missing,
    Full,
}

impl From<Unopened> for EditRefusal {
    ghost from_gives = { λ unopened refusal. refusal ≡ edit_refusal_of unopened };

    fn from(unopened: Unopened) -> EditRefusal {
        match unopened {
            Unopened::Range => EditRefusal::Range,
            Unopened::Length => EditRefusal::Length,
        }
    }
}

impl From<Fault> for EditRefusal {
    ghost from_gives = { λ fault refusal. refusal ≡ FaultRefusal fault };

    fn from(fault: Fault) -> EditRefusal {
        EditRefusal::Fault(fault)
    }
}

// The answer, with the index entries in each level beside it.
#[derive(Clone, Copy)]
pub struct Changed {
    pub answer: Result<Done, EditRefusal>,
    pub entries: [u32; 4],
}

// From now on this badge may call this floor.
pub fn put(store: &mut [u32], work: &mut [u32], pair: Pair) -> Changed
    ensures { edit_reply result.answer result.entries store.new work.new ≡ put_of store.old work.old pair }
{
    edit(store, work, Entry { pair, normal: true })
}

// From now on this badge may not call this floor.
pub fn drop(store: &mut [u32], work: &mut [u32], pair: Pair) -> Changed
    ensures { edit_reply result.answer result.entries store.new work.new ≡ drop_of store.old work.old pair }
{
    edit(
        store,
        work,
        Entry {
            pair,
            normal: false,
        },
    )
}

// A put, whose entry is normal, or a drop, whose entry is a filter. A refusal has zeros beside it.
fn edit(store: &mut [u32], work: &mut [u32], entry: Entry) -> Changed
    ensures { edit_reply result.answer result.entries store.new work.new ≡ edit_of store.old work.old entry.normal entry.pair }
{
    match edit_tested(store, work, entry) {
        Ok(report) => {
            let entries = report.entries;
            Changed {
                answer: told(report.outcome),
                entries,
            }
        }
        Err(refusal) => Changed {
            answer: Err(refusal),
            entries: [0; 4],
        },
    }
}

// What a change came to, as the answer.
fn told(outcome: Result<Done, Fault>) -> Result<Done, EditRefusal>
    ensures { result ≡ answer_for outcome }
{
    Ok(outcome?)
}

// Makes the tests before a change, and then the change.
fn edit_tested(store: &mut [u32], work: &mut [u32], entry: Entry) -> Result<Report, EditRefusal>
    ensures { edit_answered result store.new work.new ≡ edit_of store.old work.old entry.normal entry.pair }
{
    let opened = open_both(store, work)?;
    let geometry = opened.geometry;
    let plan = opened.plan;
    let survey = walk_survey(&opened, entry.pair);
    let found = survey.walked?;
    test_found(&opened, entry.normal, found.held)?;
    let finding = Finding {
        held: found.held,
        level: found.level,
        head: survey.head,
    };
    Ok(change(store, work, geometry, plan, entry, finding))
}

// The tests after the walk, of a put or of a drop.
fn test_found(store: &Store, normal: bool, held: bool) -> Result<(), EditRefusal>
    ensures { result ≡ tested_of store.now.geometry store.now.words.now normal held }
{
    let live = store.words[LIVE];
    if normal {
        let most = at_level(store.plan.capacities, store.geometry.levels - 1);
        return test_put(held, live, most);
    }
    test_drop(held, live)
}

// A put of a held pair is refused, and then one into a full store.
fn test_put(held: bool, live: u32, most: u32) -> Result<(), EditRefusal>
    ensures { result ≡ put_tested held live most }
{
    if held {
        return Err(EditRefusal::Held);
    }
    if most <= live {
        return Err(EditRefusal::Full);
    }
    Ok(())
}

// A drop of a pair not held is refused, and then one from a store with no live pairs.
fn test_drop(held: bool, live: u32) -> Result<(), EditRefusal>
    ensures { result ≡ drop_tested held live }
{
    if !held {
        return Err(EditRefusal::Missing);
    }
    if live == 0 {
        return Err(EditRefusal::Fault(Fault::of(Part::Kinds)));
    }
    Ok(())
}

// A refusal is told with zeros, but a fault with its place.
impl From<EditRefusal> for Reply<3> {
    ghost from_gives = { λ refusal reply. replied reply.number reply.values ≡ edit_refused refusal };

    fn from(refusal: EditRefusal) -> Reply<3> {
        match refusal {
            EditRefusal::Range => Reply::from(Refusal::Range),
            EditRefusal::Length => Reply::from(Refusal::Length),
            EditRefusal::Fault(fault) => Reply::from(Refusal::Fault(fault)),
            EditRefusal::Held => Reply {
                number: 2,
                values: [0; 3],
            },
            EditRefusal::Missing => Reply {
                number: 3,
                values: [0; 3],
            },
            EditRefusal::Full => Reply {
                number: 4,
                values: [0; 3],
            },
        }
    }
}

// The number of put's or drop's reply, and its values: live pairs, the deepest level merged into and the pages written, or the place of a
// fault; and the index entries in each level.
pub fn edit_reply(changed: Changed) -> Reply<7>
    ensures { replied result.number result.values ≡ edited_reply changed.answer changed.entries }
{
    let told = match changed.answer {
        Ok(done) => Reply {
            number: 0,
            values: [done.live, done.deepest, done.pages],
        },
        Err(refusal) => Reply::from(refusal),
    };
    beside_entries(told, changed.entries)
}

// A reply of three values and the four counts of entries.
fn beside_entries(told: Reply<3>, entries: [u32; 4]) -> Reply<7>
    ensures { replied result.number result.values ≡ replied told.number (told.values ++ entries) }
{
    let [first, second, third] = told.values;
    Reply {
        number: told.number,
        values: [
            first, second, third, entries[0], entries[1], entries[2], entries[3],
        ],
    }
}
