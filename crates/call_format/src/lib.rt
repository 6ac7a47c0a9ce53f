// Format: makes the store of the empty set. Any words may be the store, and any numbers the geometry.
#![tactic(auto)]

ghost use Rattle.std.specs.Prelude.{◌≡◌, [], ◌∷◌};
ghost use Rattle.opening.specs.Reply.{replied};
ghost use Rattle.call_format.specs.Format.{formatted_reply, format_reply, format_of};

use format::format_store;
use geometry::{Geometry, in_range, plan_for};
pub use opening::Unopened;

// Makes the store of the empty set.
pub fn format(store: &mut [u32], g: Geometry) -> Result<(), Unopened>
    ensures { format_reply result store.new ≡ format_of store.old g }
{
    if !in_range(g) {
        return Err(Unopened::Range);
    }
    let plan = plan_for(g);
    if store.len() != plan.store_words as usize {
        return Err(Unopened::Length);
    }
    format_store(store, g, plan);
    Ok(())
}

// The number of format's reply, as the paper has it. Its value is always 0.
pub fn format_reply(formatted: Result<(), Unopened>) -> u32
    ensures { replied result (0 ∷ []) ≡ formatted_reply formatted }
{
    match formatted {
        Ok(()) => 0,
        Err(Unopened::Range) => 1,
        Err(Unopened::Length) => 5,
    }
}
