// The C interface: each call of the index under a C name. The result is the reply's number, and out holds the values that the reply has.
// crates/landing_c exports these; include/landing.h is their manual.
#![tactic(auto)]

ghost use Rattle.std.specs.Prelude.{◌≡◌, [], ◌∷◌};
ghost use Rattle.geometry.specs.Places.{store_words, work_words};
ghost use Rattle.opening.specs.Reply.{replied, filled};
ghost use Rattle.call_ask.specs.Ask.{ask_of};
ghost use Rattle.call_check.specs.Check.{check_of};
ghost use Rattle.call_check.specs.List.{list_of};
ghost use Rattle.call_format.specs.Format.{format_of};
ghost use Rattle.call_put.specs.Edit.{kept, put_of, drop_of};
ghost use Rattle.call_why.specs.Why.{why_of};
ghost use Rattle.landing.specs.Numbers.{pair_of, geometry_from, words_for};

use geometry::Geometry;
use index::{ask_reply, check_reply, edit_reply, format_reply, list_reply};
use slot::{Pair, Rid};

// Makes the store of the empty set.
pub fn landing_format(store: &mut [u32], h: u32, k: u32, l: u32) -> u32
    ensures { filled result (0 ∷ []) store.new ≡ format_of store.old (geometry_from h k l) }
{
    format_reply(index::format(store, geometry_from(h, k, l)))
}

// From now on this badge may call this floor.
pub fn landing_put(
    store: &mut [u32],
    work: &mut [u32],
    badge: u32,
    floor: u32,
    out: &mut [u32; 7],
) -> u32
    ensures { kept result out.new store.new work.new ≡ put_of store.old work.old (pair_of badge floor) }
{
    let changed = edit_reply(index::put(store, work, pair_of(badge, floor)));
    let values = changed.values;
    *out = values;
    changed.number
}

// From now on this badge may not call this floor.
pub fn landing_drop(
    store: &mut [u32],
    work: &mut [u32],
    badge: u32,
    floor: u32,
    out: &mut [u32; 7],
) -> u32
    ensures { kept result out.new store.new work.new ≡ drop_of store.old work.old (pair_of badge floor) }
{
    let dropped = edit_reply(index::drop(store, work, pair_of(badge, floor)));
    let values = dropped.values;
    *out = values;
    dropped.number
}

// May this badge call this floor?
pub fn landing_ask(store: &[u32], badge: u32, floor: u32, out: &mut [u32; 3]) -> u32
    ensures { replied result out.new ≡ ask_of store.now (pair_of badge floor) }
{
    let asked = ask_reply(index::ask(store, pair_of(badge, floor)));
    let values = asked.values;
    *out = values;
    asked.number
}

// Why may it, or why not?
pub fn landing_why(store: &[u32], badge: u32, floor: u32, out: &mut [u32; 22]) -> u32
    ensures { replied result out.new ≡ why_of store.now (pair_of badge floor) }
{
    let told = ask_reply(index::why(store, pair_of(badge, floor), out));
    told.number
}

// Which pairs from a first to a second does this store hold?
pub fn landing_list(
    store: &[u32],
    badge1: u32,
    floor1: u32,
    badge2: u32,
    floor2: u32,
    list: &mut [u32],
    out: &mut [u32; 3],
) -> u32
    ensures { filled result out.new list.new ≡ list_of store.now (pair_of badge1 floor1) (pair_of badge2 floor2) list.old }
{
    let first = pair_of(badge1, floor1);
    let second = pair_of(badge2, floor2);
    let listed = list_reply(index::list(store, first, second, list));
    let values = listed.values;
    *out = values;
    listed.number
}

// Is this store sound?
pub fn landing_check(store: &[u32], out: &mut [u32; 3]) -> u32
    ensures { replied result out.new ≡ check_of store.now }
{
    let checked = check_reply(index::check(store));
    let values = checked.values;
    *out = values;
    checked.number
}

// How many words a store has, 0 outside the ranges.
pub fn landing_store_words(h: u32, k: u32, l: u32) -> u32
    ensures { result ≡ words_for store_words (geometry_from h k l) }
{
    let lengths = lengths_of(geometry_from(h, k, l));
    lengths.store
}

// How many words a work area has, 0 outside the ranges.
pub fn landing_work_words(h: u32, k: u32, l: u32) -> u32
    ensures { result ≡ words_for work_words (geometry_from h k l) }
{
    let lengths = lengths_of(geometry_from(h, k, l));
    lengths.work
}

// The words of a store and of a work area.
#[derive(Clone, Copy)]
pub struct Lengths {
    pub store: u32,
    pub work: u32,
}

fn lengths_of(g: Geometry) -> Lengths
    ensures { (result.store ≡ words_for store_words g) × (result.work ≡ words_for work_words g) }
{
    if !geometry::in_range(g) {
        return Lengths { store: 0, work: 0 };
    }
    let plan = geometry::plan_for(g);
    Lengths {
        store: plan.store_words,
        work: plan.work_words,
    }
}

fn pair_of(badge: u32, floor: u32) -> Pair
    ensures { result ≡ pair_of badge floor }
{
    Pair {
        badge,
        floor: Rid(floor),
    }
}

fn geometry_from(h: u32, k: u32, l: u32) -> Geometry
    ensures { result ≡ geometry_from h k l }
{
    Geometry {
        head: h,
        ratio: k,
        levels: l,
    }
}
