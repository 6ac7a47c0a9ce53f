// Check and list, which test the whole store. Any words may be the store.
#![tactic(auto)]

ghost use Rattle.std.specs.Prelude.{◌≡◌};
ghost use Rattle.opening.specs.Reply.{replied};
ghost use Rattle.call_check.specs.Check.{check_reply, check_of};
ghost use Rattle.call_check.specs.List.{shown_reply, list_reply, list_of};

pub use listing::Listed;
use listing::list_pairs;
use opening::{Refusal, Reply, open_store};
use slot::Pair;
use sound::whole_fault;

// Is this store sound?
#[tactic(auto, using(crate::specs::Check::check_unopened, crate::specs::Check::check_faulty, crate::specs::Check::check_passes))]
pub fn check(store: &[u32]) -> Result<(), Refusal>
    ensures { check_reply result ≡ check_of store.now }
{
    let store = open_store(store)?;
    Ok(whole_fault(&store)?)
}

// Which pairs from a first to a second does this store hold? They are written into the list, as many as it has room for.
#[tactic(auto, using(crate::specs::List::list_unopened, crate::specs::List::list_faulty))]
pub fn list(store: &[u32], first: Pair, second: Pair, out: &mut [u32]) -> Result<Listed, Refusal>
    ensures { list_reply result out.new ≡ list_of store.now first second out.old }
{
    let store = open_store(store)?;
    whole_fault(&store)?;
    let shown = list_pairs(&store, first, second, out);
    Ok(shown)
}

// The number of check's reply, and its values: zeros; of a fault its place.
pub fn check_reply(checked: Result<(), Refusal>) -> Reply<3>
    ensures { replied result.number result.values ≡ check_reply checked }
{
    match checked {
        Ok(()) => Reply {
            number: 0,
            values: [0; 3],
        },
        Err(refusal) => Reply::from(refusal),
    }
}

// The number of list's reply, and its values: the pairs written, the mark, and 0; of a fault its place.
pub fn list_reply(shown: Result<Listed, Refusal>) -> Reply<3>
    ensures { replied result.number result.values ≡ shown_reply shown }
{
    match shown {
        Ok(listed) => Reply {
            number: 0,
            values: [listed.pairs, listed.mark, 0],
        },
        Err(refusal) => Reply::from(refusal),
    }
}
