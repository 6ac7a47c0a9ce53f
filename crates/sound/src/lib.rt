// The whole-store test: the directory, the head, the form of every page, each level's writing, and kinds and live across levels. The number
// decides first, so that a page's form is told before any level's writing.
#![tactic(auto)]

ghost use Rattle.std.specs.Prelude.{suc, ◌/◌, ◌%◌, ◌<◌, ◌≤◌, ◌≡◌, Ok, true, not, length, eqb, is_some, IfSome};
ghost use Rattle.laws.specs.Lists.{span};
ghost use Rattle.fault.specs.Numbers.{fault_in};
ghost use Rattle.fault.specs.declared.Part.TheVariants.{Writing};
ghost use Rattle.geometry.specs.Geometry.{bottom, room};
ghost use Rattle.geometry.specs.Places.{level_start};
ghost use Rattle.geometry.specs.Directory.{pages_of};
ghost use Rattle.rules.specs.Sound.{directory_right, head_right, head_sound, level_sound, entries_of};
ghost use Rattle.rules.specs.Faults.{first_fault, form_fault, form_faults, writing_fault, writing_faults, fault};
ghost use Rattle.written.specs.Written.{level_written};
ghost use Rattle.layout.specs.Words.{level_run};
ghost use Rattle.sound.specs.Levels.{capacity_holds};

use astray::{head_leaves, level_wrong};
use fault::{Fault, Part};
use form::{directory_right, page_at, page_scan};
use geometry::{HEAD_COUNT, HEAD_START, PAGE_SLOTS, Store, at_level};
use kinds::kinds_fault;
use slot::{Pid, least_pair};
use walk::walk_survey;
use written::{head_written, level_written};

// The whole-store test. The head is tested as ask tests it, in ask's own walk.
pub fn whole_fault(store: &Store) -> Result<(), Fault>
    ensures { result ≡ fault store.now.geometry store.now.words.now }
{
    if !directory_right(store) {
        return Err(Fault::of(Part::Directory));
    }
    let survey = walk_survey(store, least_pair());
    if let Err(slot) = survey.head.formed {
        return Err(Fault::at(Part::Head, 0, 0, slot));
    }
    form_faults(store)?;
    writing_faults(store)?;
    kinds_fault(store)
}

// The first page from the top that is not formed.
fn form_faults(store: &Store) -> Result<(), Fault>
    requires { directory_right store.now.geometry store.now.words.now ≡ true }
    ensures { result ≡ form_faults store.now.geometry store.now.words.now }
{
    for level in 1_u32..store.geometry.levels {
        form_fault(store, level)?;
    }
    Ok(())
}

// The first page of a level that is not formed.
fn form_fault(store: &Store, level: u32) -> Result<(), Fault>
    requires store_value { directory_right store.now.geometry store.now.words.now ≡ true }
    requires le_level { (1 ≤ level) × (level < store.now.geometry.levels) }
    ensures { result ≡ form_fault store.now.geometry store.now.words.now level }
{
    let own = store.level_place(level);
    for p in 0..own.pages {
        let at = page_at(store, level, Pid(p));
        let scan = page_scan(store.words, at, least_pair());
        if let Err(slot) = scan.formed {
            return Err(Fault::at(Part::Page, level, p, slot));
        }
    }
    Ok(())
}

// The first level from the top that is not the writing of its own entries, within its capacity.
fn writing_faults(store: &Store) -> Result<(), Fault>
    requires store_value { directory_right store.now.geometry store.now.words.now ≡ true }
    requires store_value_2 { head_right store.now.geometry store.now.words.now ≡ true }
    requires store_value_3 { form_faults store.now.geometry store.now.words.now ≡ Ok tt }
    ensures { result ≡ writing_faults store.now.geometry store.now.words.now }
{
    if !head_sound(store) {
        return Err(written_wrong(0, head_leaves(store), store.plan.head_room));
    }
    levels_fault(store)
}

// A fault of writing in the slot with a number, counted through pages of a size.
fn written_wrong(level: u32, number: u32, size: u32) -> Fault
    requires { 1 ≤ size }
    ensures { result ≡ fault_in Writing level (number / size) (number % size) }
{
    Fault::at(Part::Writing, level, number / size, number % size)
}

// Whether the head, which is right, is the writing of its own entries.
fn head_sound(store: &Store) -> bool
    requires store_value { directory_right store.now.geometry store.now.words.now ≡ true }
    requires store_value_2 { head_right store.now.geometry store.now.words.now ≡ true }
    ensures { result ≡ head_sound store.now.geometry store.now.words.now }
{
    let words = store.words;
    let below = store.level_place(1);
    head_written(
        words,
        HEAD_START,
        store.plan.head_room,
        words[HEAD_COUNT],
        below,
    )
    .is_some()
}

// The first level below the head that is not sound.
fn levels_fault(store: &Store) -> Result<(), Fault>
    requires store_value { directory_right store.now.geometry store.now.words.now ≡ true }
    requires store_value_2 { form_faults store.now.geometry store.now.words.now ≡ Ok tt }
    ensures { result ≡ first_fault (span (writing_fault store.now.geometry store.now.words.now) 1 (bottom store.now.geometry)) }
{
    for level in 1..store.geometry.levels {
        if !level_sound(store, level) {
            return Err(written_wrong(level, level_wrong(store, level), PAGE_SLOTS));
        }
    }
    Ok(())
}

// Whether a level below the head, whose pages are formed, is sound.
fn level_sound(store: &Store, level: u32) -> bool
    requires store_value { directory_right store.now.geometry store.now.words.now ≡ true }
    requires store_value_2 { form_faults store.now.geometry store.now.words.now ≡ Ok tt }
    requires le_level { (1 ≤ level) × (level < store.now.geometry.levels) }
    ensures { result ≡ level_sound store.now.geometry store.now.words.now level }
{
    match level_entries(store, level) {
        Some(entries) => within_capacity(store, level, entries),
        None => false,
    }
}

// How many entries a level has, where it is the writing of them.
fn level_entries(store: &Store, level: u32) -> Option<u32>
    requires store_value { directory_right store.now.geometry store.now.words.now ≡ true }
    requires le_level { (1 ≤ level) × (level < store.now.geometry.levels) }
    ensures exact { is_some result ≡ level_written store.now.words.now (level_start store.now.geometry level) (room store.now.geometry level) (pages_of store.now.geometry store.now.words.now level) (not (eqb level (bottom store.now.geometry))) (level_start store.now.geometry (suc level)) (pages_of store.now.geometry store.now.words.now (suc level)) }
    ensures counted { IfSome result (λ n. n ≡ length (entries_of (level_run store.now.words.now (level_start store.now.geometry level) (pages_of store.now.geometry store.now.words.now level)))) }
{
    let own = store.level_place(level);
    let below = store.level_place(level + 1);
    level_written(store.words, own, level != store.geometry.levels - 1, below)
}

// Whether a level may hold this many entries: fewer than its capacity above the bottom, at most M in the bottom.
fn within_capacity(store: &Store, level: u32, entries: u32) -> bool
    requires { level < store.now.geometry.levels }
    ensures { result ≡ capacity_holds store.now.plan.capacities store.now.geometry level entries }
{
    let capacity = at_level(store.plan.capacities, level);
    if level == store.geometry.levels - 1 {
        entries <= capacity
    } else {
        entries < capacity
    }
}
