// The C library: each call of crates/landing under its C name, with the same promise. include/landing.h is its manual.
#![tactic(auto)]

ghost use Rattle.std.specs.Prelude.{◌≡◌, [], ◌∷◌};
ghost use Rattle.geometry.specs.Places.{store_words, work_words};
ghost use Rattle.opening.specs.Reply.{replied, filled};
ghost use Rattle.call_ask.specs.Ask.{ask_of};
ghost use Rattle.call_check.specs.Check.{check_of};
ghost use Rattle.call_check.specs.List.{list_of};
ghost use Rattle.call_format.specs.Format.{format_of};
ghost use Rattle.call_put.specs.Edit.{kept, put_of, drop_of};
ghost use Rattle.call_why.specs.Why.{why_of};
ghost use Rattle.landing.specs.Numbers.{pair_of, geometry_from, words_for};

// Makes the store of the empty set.
#[unsafe(no_mangle)]
pub extern "C" fn landing_format(store: &mut [u32], h: u32, k: u32, l: u32) -> u32
    ensures { filled result (0 ∷ []) store.new ≡ format_of store.old (geometry_from h k l) }
{
    landing::landing_format(store, h, k, l)
}

// From now on this badge may call this floor.
#[unsafe(no_mangle)]
pub extern "C" fn landing_put(
    store: &mut [u32],
    work: &mut [u32],
    badge: u32,
    floor: u32,
    out: &mut [u32; 7],
) -> u32
    ensures { kept result out.new store.new work.new ≡ put_of store.old work.old (pair_of badge floor) }
{
    landing::landing_put(store, work, badge, floor, out)
}

// From now on this badge may not call this floor.
#[unsafe(no_mangle)]
pub extern "C" fn landing_drop(
    store: &mut [u32],
    work: &mut [u32],
    badge: u32,
    floor: u32,
    out: &mut [u32; 7],
) -> u32
    ensures { kept result out.new store.new work.new ≡ drop_of store.old work.old (pair_of badge floor) }
{
    landing::landing_drop(store, work, badge, floor, out)
}

// May this badge call this floor?
#[unsafe(no_mangle)]
pub extern "C" fn landing_ask(store: &[u32], badge: u32, floor: u32, out: &mut [u32; 3]) -> u32
    ensures { replied result out.new ≡ ask_of store.now (pair_of badge floor) }
{
    landing::landing_ask(store, badge, floor, out)
}

// Why may it, or why not?
#[unsafe(no_mangle)]
pub extern "C" fn landing_why(store: &[u32], badge: u32, floor: u32, out: &mut [u32; 22]) -> u32
    ensures { replied result out.new ≡ why_of store.now (pair_of badge floor) }
{
    landing::landing_why(store, badge, floor, out)
}

// Which pairs from a first to a second does this store hold?
#[unsafe(no_mangle)]
pub extern "C" fn landing_list(
    store: &[u32],
    badge1: u32,
    floor1: u32,
    badge2: u32,
    floor2: u32,
    list: &mut [u32],
    out: &mut [u32; 3],
) -> u32
    ensures { filled result out.new list.new ≡ list_of store.now (pair_of badge1 floor1) (pair_of badge2 floor2) list.old }
{
    landing::landing_list(store, badge1, floor1, badge2, floor2, list, out)
}

// Is this store sound?
#[unsafe(no_mangle)]
pub extern "C" fn landing_check(store: &[u32], out: &mut [u32; 3]) -> u32
    ensures { replied result out.new ≡ check_of store.now }
{
    landing::landing_check(store, out)
}

// How many words a store has, 0 outside the ranges.
#[unsafe(no_mangle)]
pub extern "C" fn landing_store_words(h: u32, k: u32, l: u32) -> u32
    ensures { result ≡ words_for store_words (geometry_from h k l) }
{
    landing::landing_store_words(h, k, l)
}

// How many words a work area has, 0 outside the ranges.
#[unsafe(no_mangle)]
pub extern "C" fn landing_work_words(h: u32, k: u32, l: u32) -> u32
    ensures { result ≡ words_for work_words (geometry_from h k l) }
{
    landing::landing_work_words(h, k, l)
}
