// The tests that come before all others: the ranges of a stored geometry, and the lengths of store and work area; and what a reply by number
// is.
#![tactic(auto)]

ghost use Rattle.std.specs.Prelude.{◌≡◌, List, [], ◌∷◌};
ghost use Rattle.opening.specs.Opening.{Opens, OpensBoth};
ghost use Rattle.opening.specs.Reply.{replied};
ghost use Rattle.opening.specs.Refused.{refusal_of, refused_reply};
ghost use Rattle.opening.specs.declared.Refusal.TheVariants.{Fault as FaultRefusal};

use fault::Fault;
use geometry::{DIRECTORY_WORDS, Store, in_range, plan_for, stored_geometry};

// Why words are not opened as a store: their geometry is out of range, or they or the work area are of a wrong length.
#[derive(Clone, Copy, PartialEq, Eq)]
pub enum Unopened {
    Range,
    Length,
}

// Opens a store: it has a directory, its geometry is in range, and it is exactly as long as its geometry requires.
#[tactic(auto, using(crate::specs::Opening::too_short))]
#[inline(always)]
pub fn open_store(words: &[u32]) -> Result<Store, Unopened>
    ensures { Opens words.now result }
{
    if words.len() < DIRECTORY_WORDS {
        return Err(Unopened::Length);
    }
    let geometry = stored_geometry(words);
    if !in_range(geometry) {
        return Err(Unopened::Range);
    }
    let plan = plan_for(geometry);
    if words.len() != plan.store_words as usize {
        return Err(Unopened::Length);
    }
    let opened = Store {
        words,
        geometry,
        plan,
    };
    Ok(opened)
}

// Opens a store, and then tests that the work area is exactly as long as the geometry requires.
#[tactic(auto, using(crate::specs::Opening::both_unopened))]
#[inline(always)]
pub fn open_both<'a>(words: &'a [u32], work: &[u32]) -> Result<Store<'a>, Unopened>
    ensures { OpensBoth words.now work.now result }
{
    let store = open_store(words)?;
    if work.len() != store.plan.work_words as usize {
        return Err(Unopened::Length);
    }
    Ok(store)
}

// Why a call that looks into a store is refused: the words are no store, or a test finds a fault.
#[derive(Clone, Copy, PartialEq, Eq)]
pub enum Refusal {
    Range,
    Length,
    Fault(Fault),
}

impl From<Unopened> for Refusal {
    ghost from_gives = { λ unopened refusal. refusal ≡ refusal_of unopened };

    fn from(unopened: Unopened) -> Refusal {
        match unopened {
            Unopened::Range => Refusal::Range,
            Unopened::Length => Refusal::Length,
        }
    }
}

impl From<Fault> for Refusal {
    ghost from_gives = { λ fault refusal. refusal ≡ FaultRefusal fault };

    fn from(fault: Fault) -> Refusal {
        Refusal::Fault(fault)
    }
}

// A reply by number, as the paper has it: its number, and the values that are told with it.
#[derive(Clone, Copy)]
pub struct Reply<const N: usize> {
    pub number: u32,
    pub values: [u32; N],
}

// A refusal is told with zeros, but a fault with its place.
impl From<Refusal> for Reply<3> {
    ghost from_gives = { λ refusal reply. replied reply.number reply.values ≡ refused_reply refusal };

    fn from(refusal: Refusal) -> Reply<3> {
        match refusal {
            Refusal::Range => Reply {
                number: 1,
                values: [0; 3],
            },
            Refusal::Length => Reply {
                number: 5,
                values: [0; 3],
            },
            Refusal::Fault(fault) => Reply {
                number: fault.part.into(),
                values: [fault.level, fault.page, fault.slot],
            },
        }
    }
}
