// Ask: may this badge call this floor? Any words may be the store.
#![tactic(auto)]

ghost use Rattle.std.specs.Prelude.{◌≡◌};
ghost use Rattle.opening.specs.Reply.{replied};
ghost use Rattle.call_ask.specs.Ask.{ask_reply, ask_of};

use opening::open_store;
pub use opening::{Refusal, Reply};
use slot::Pair;
pub use walk::Found;
use walk::walk_down;

// May this badge call this floor? Held or not with the deciding level, or why it is refused.
#[tactic(auto, using(crate::specs::Ask::ask_unopened, crate::specs::Ask::ask_faulty, crate::specs::Ask::ask_answers))]
pub fn ask(store: &[u32], pair: Pair) -> Result<Found, Refusal>
    ensures { ask_reply result ≡ ask_of store.now pair }
{
    let store = open_store(store)?;
    Ok(walk_down(&store, pair)?)
}

// The number of ask's reply, and its values: 1 held or 0, the deciding level, and 0; of a fault its place.
pub fn ask_reply(asked: Result<Found, Refusal>) -> Reply<3>
    ensures { replied result.number result.values ≡ ask_reply asked }
{
    match asked {
        Ok(found) => Reply {
            number: 0,
            values: [u32::from(found.held), found.level, 0],
        },
        Err(refusal) => Reply::from(refusal),
    }
}
