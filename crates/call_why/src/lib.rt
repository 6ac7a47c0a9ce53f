// Why may this badge call this floor, or why not? The walk of ask with its trail, on any words.
#![tactic(auto)]

ghost use Rattle.std.specs.Prelude.{◌≡◌, cond, replicate, set};
ghost use Rattle.trail_words.specs.Places.{trail_words};
ghost use Rattle.walk.specs.Lines.{noted};
ghost use Rattle.call_ask.specs.Ask.{ask_reply, ask_of};
ghost use Rattle.call_why.specs.Why.{why_lines, why_words};

use call_ask::{Refusal, ask_reply};
use opening::open_store;
use slot::Pair;
use trail_words::{DECIDED, FAULT_SLOT, HELD};
use walk::{Found, walk_noted};

// Why may this badge call this floor, or why not?
pub fn why(store: &[u32], pair: Pair, trail: &mut [u32; 22]) -> Result<Found, Refusal>
    ensures answers { ask_reply result ≡ ask_of store.now pair }
    ensures tells { trail.new ≡ why_words store.now pair }
{
    *trail = [0; 22];
    let asked = ask_noted(store, pair, trail);
    let reply = ask_reply(asked);
    keep_if(trail, reply.number == 0, reply.values[2]);
    trail[HELD] = reply.values[0];
    trail[DECIDED] = reply.values[1];
    asked
}

// Asks, and notes a line for each level read.
fn ask_noted(store: &[u32], pair: Pair, trail: &mut [u32; 22]) -> Result<Found, Refusal>
    ensures answers { ask_reply result ≡ ask_of store.now pair }
    ensures notes { trail.new ≡ noted trail.old 0 (why_lines store.now pair) }
{
    let store = open_store(store)?;
    Ok(walk_noted(&store, pair, trail).walked?)
}

// Clears a trail that is not to be kept, but for the slot of a fault.
fn keep_if(trail: &mut [u32; 22], kept: bool, slot: u32)
    ensures { trail.new ≡ cond kept trail.old (set (replicate trail_words 0) 2 slot) }
{
    if !kept {
        *trail = [0; 22];
        trail[FAULT_SLOT] = slot;
    }
}
