// What an ask looks at: the directory, the head, and one page of each lower level.
#![tactic(auto)]

ghost use Rattle.std.specs.Prelude.{Ok, ◌+◌, ◌-◌, ◌*◌, ◌<◌, ◌≤◌, ◌≡◌, true, length};
ghost use Rattle.geometry.specs.Geometry.{room};
ghost use Rattle.geometry.specs.Places.{words_in_slot};
ghost use Rattle.rules.specs.Level.{fence_kind};
ghost use Rattle.rules.specs.Sound.{directory_right};
ghost use Rattle.geometry.specs.Directory.{pages_of};
ghost use Rattle.slot.specs.Slot.{slot_at};
ghost use Rattle.form.specs.Passes.{fence_up_to, head_scanned, page_scanned};
ghost use Rattle.fault.specs.declared.Part.TheVariants.{Head, Page};
ghost use Rattle.walk.specs.Stepping.{flaw_in, seen_in, Shows};
ghost use Rattle.walk.specs.Step.{StepWithin, above_step, bottom_step, head_step, page_step};
ghost use Rattle.walk.specs.Walk.{walked, walk_from};
ghost use Rattle.walk.specs.Trail.{lines_from, walk_lines};
ghost use Rattle.walk.specs.Lines.{entry_seen, follow_seen, NotesLine, noted};

use fault::{Fault, Part};
use form::{HeadRead, directory_right, head_at, head_scan, page_at, page_scan};
use geometry::{FIRST_SLOT, HEAD_START, SLOT_WORDS, Store};
use laws::both;
use page::{fence_back, is_fence, met_at};
use slot::{Pair, Pid, SlotNo, comes_before, read_slot};
use trail_words::{ENTRY, FILTER, FIRST_LINE, FOLLOWED, LINE_WORDS, NORMAL, PAGE, REACH, READ};

// What is seen of a pair in the head or a page: its own entry, the page to follow, or nothing.
#[derive(Clone, Copy)]
pub enum Seen {
    Decided(bool),
    Follow(Pid),
    Nothing,
}

// What is wrong with the head or a page: a slot breaks its form, or its first slot is no fence at most the pair. The walk knows where it is,
// and makes a fault of it.
#[derive(Clone, Copy)]
pub enum Flaw {
    Unformed(SlotNo),
    Unfenced,
}

// What a page tells of a pair, and how many of its slots are at most it.
#[derive(Clone, Copy)]
pub struct Look {
    pub step: Result<Seen, Flaw>,
    pub reach: u32,
}

// Where a walk ends without a fault: held or not, and the deciding level.
#[derive(Clone, Copy)]
pub struct Found {
    pub held: bool,
    pub level: u32,
}

// What a walk comes to, and what its pass over the head told.
#[derive(Clone, Copy)]
pub struct Survey {
    pub walked: Result<Found, Fault>,
    pub head: HeadRead,
}

impl Flaw {
    // The flaw as a fault in a page of a level, whose form is told as a part.
    fn told(self, part: Part, level: u32, page: Pid) -> Fault
        ensures { result ≡ flaw_in part level page.0 self }
    {
        match self {
            Flaw::Unformed(slot) => Fault::at(part, level, page.0, slot.0),
            Flaw::Unfenced => Fault::at(Part::Writing, level, page.0, 0),
        }
    }
}

// Whether the slot at a place is a fence not above a pair.
fn is_first_right(words: &[u32], place: usize, asked: Pair) -> bool
    requires { place + words_in_slot ≤ length words.now }
    ensures { result ≡ fence_up_to asked (slot_at words.now place) }
{
    let slot = read_slot(words, place);
    both(is_fence(slot.kind), !comes_before(asked, slot.pair))
}

// Above the bottom, what a run tells of a pair: the pair's own entry, or the page of the fence met stepping back. The run stands at a
// place, and its first `reach` slots are at most the pair.
fn tell_above(words: &[u32], place: usize, reach: u32, asked: Pair) -> Seen
    requires le_reach { (1 ≤ reach) × (place + words_in_slot * reach ≤ length words.now) }
    requires place_value { fence_kind (slot_at words.now place).kind ≡ true }
    ensures { Shows (Ok result) (above_step words.now place (reach - 1) asked) }
{
    let last = reach - 1;
    match met_at(words, place + SLOT_WORDS * last as usize, asked) {
        Some(normal) => Seen::Decided(normal),
        None => Seen::Follow(fence_back(words, place, SlotNo(last))),
    }
}

// In the bottom, what a run tells of a pair: the pair's own entry, or nothing. The run stands at a place, and its first `reach` slots are
// at most the pair.
fn tell_bottom(words: &[u32], place: usize, reach: u32, asked: Pair) -> Seen
    requires { place + words_in_slot * reach ≤ length words.now }
    ensures { Shows (Ok result) (bottom_step words.now place reach asked) }
{
    if reach == 0 {
        return Seen::Nothing;
    }
    let last = reach - 1;
    match met_at(words, place + SLOT_WORDS * last as usize, asked) {
        Some(normal) => Seen::Decided(normal),
        None => Seen::Nothing,
    }
}

// What the head tells of a pair, after the pass over it.
fn head_step(store: &Store, asked: Pair, head: HeadRead) -> Result<Seen, Flaw>
    requires { head ≡ head_scanned store.now.geometry store.now.words.now asked }
    ensures exact { seen_in Head 0 0 result ≡ head_step store.now.geometry store.now.words.now asked }
    ensures within { StepWithin (pages_of store.now.geometry store.now.words.now 1) (seen_in Head 0 0 result) }
{
    match head.formed {
        Err(slot) => Err(Flaw::Unformed(SlotNo(slot))),
        Ok(_) => Ok(tell_above(store.words, HEAD_START, head.reach, asked)),
    }
}

// What a page of a lower level tells of a pair.
#[inline(always)]
fn page_look(store: &Store, asked: Pair, level: u32, page: Pid) -> Look
    requires { (1 ≤ level) × (level < store.now.geometry.levels) × (page.0 < room store.now.geometry level) }
    ensures exact { seen_in Page level page.0 result.step ≡ page_step store.now.geometry store.now.words.now asked level page.0 }
    ensures within { StepWithin (pages_of store.now.geometry store.now.words.now (level + 1)) (seen_in Page level page.0 result.step) }
    ensures reaches { result.reach ≡ (page_scanned store.now.geometry store.now.words.now asked level page.0).reach }
{
    let at = page_at(store, level, page);
    let place = at.place + FIRST_SLOT;
    let scan = page_scan(store.words, at, asked);
    let reach = scan.reach;
    let step = if let Err(slot) = scan.formed {
        Err(Flaw::Unformed(SlotNo(slot)))
    } else if level + 1 == store.geometry.levels {
        Ok(tell_bottom(store.words, place, reach, asked))
    } else if is_first_right(store.words, place, asked) {
        Ok(tell_above(store.words, place, reach, asked))
    } else {
        Err(Flaw::Unfenced)
    };
    Look { step, reach }
}

// The walk from the head down.
#[inline(always)]
pub fn walk_down(store: &Store, asked: Pair) -> Result<Found, Fault>
    ensures { result ≡ walked store.now.geometry store.now.words.now asked }
{
    walk_noted(store, asked, &mut []).walked
}

// The same walk, with what its pass over the head told.
#[inline(never)]
pub fn walk_survey(store: &Store, asked: Pair) -> Survey
    ensures walks { result.walked ≡ walked store.now.geometry store.now.words.now asked }
    ensures reads { result.head ≡ head_scanned store.now.geometry store.now.words.now asked }
{
    walk_noted(store, asked, &mut [])
}

// The same walk, which notes a line for each level that it reads, if the trail has room for it.
#[inline(always)]
pub fn walk_noted(store: &Store, asked: Pair, trail: &mut [u32]) -> Survey
    ensures walks { result.walked ≡ walked store.now.geometry store.now.words.now asked }
    ensures reads { result.head ≡ head_scanned store.now.geometry store.now.words.now asked }
    ensures notes { trail.new ≡ noted trail.old 0 (walk_lines store.now.geometry store.now.words.now asked) }
{
    let head = head_scan(store.words, head_at(store), asked);
    Survey {
        walked: walk_past(store, asked, head, trail),
        head,
    }
}

// The walk after the pass over the head.
#[inline(always)]
fn walk_past(store: &Store, asked: Pair, head: HeadRead, trail: &mut [u32]) -> Result<Found, Fault>
    requires { head ≡ head_scanned store.now.geometry store.now.words.now asked }
    ensures walks { result ≡ walked store.now.geometry store.now.words.now asked }
    ensures notes { trail.new ≡ noted trail.old 0 (walk_lines store.now.geometry store.now.words.now asked) }
{
    if !directory_right(store) {
        return Err(Fault::of(Part::Directory));
    }
    let step = head_step(store, asked, head);
    let look = Look {
        step,
        reach: head.reach,
    };
    note(trail, 0, Pid(0), look);
    match step {
        Ok(Seen::Decided(held)) => Ok(Found { held, level: 0 }),
        Ok(Seen::Follow(page)) => walk_levels(store, asked, page, trail),
        Ok(Seen::Nothing) => Ok(Found {
            held: false,
            level: store.geometry.levels,
        }),
        Err(flaw) => Err(flaw.told(Part::Head, 0, Pid(0))),
    }
}

// The walk over the lower levels, from a page of level 1 on.
#[inline(always)]
fn walk_levels(store: &Store, asked: Pair, first: Pid, trail: &mut [u32]) -> Result<Found, Fault>
    requires store_value { directory_right store.now.geometry store.now.words.now ≡ true }
    requires first_bound { first.0 < pages_of store.now.geometry store.now.words.now 1 }
    ensures walks { result ≡ walk_from store.now.geometry store.now.words.now asked 1 first.0 }
    ensures notes { trail.new ≡ noted trail.old 1 (lines_from store.now.geometry store.now.words.now asked 1 first.0) }
{
    let levels = store.geometry.levels;
    let mut page = first;
    for level in 1..levels {
        let look = page_look(store, asked, level, page);
        note(trail, level, page, look);
        match look.step {
            Ok(Seen::Decided(held)) => return Ok(Found { held, level }),
            Ok(Seen::Follow(next)) => page = next,
            Ok(Seen::Nothing) => break,
            Err(flaw) => return Err(flaw.told(Part::Page, level, page)),
        }
    }
    Ok(Found {
        held: false,
        level: levels,
    })
}

// Notes the line of a level, if the trail has room for it: read, its page, the slots at most the pair, the entry met, the page to follow.
fn note(trail: &mut [u32], level: u32, page: Pid, look: Look)
    requires { (level ≤ 3) × StepWithin 4294967295 (seen_in Page 0 0 look.step) }
    ensures { NotesLine trail.old level page look trail.new }
{
    let at = FIRST_LINE + LINE_WORDS * level as usize;
    let step = look.step;
    if at + LINE_WORDS <= trail.len() {
        trail[at + READ] = 1;
        trail[at + PAGE] = page.0;
        trail[at + REACH] = look.reach;
        trail[at + ENTRY] = entry_number(step);
        trail[at + FOLLOWED] = follow_number(step);
    }
}

// What stands for the entry met, 0 for none.
fn entry_number(step: Result<Seen, Flaw>) -> u32
    ensures { result ≡ entry_seen step }
{
    match step {
        Ok(Seen::Decided(true)) => NORMAL,
        Ok(Seen::Decided(false)) => FILTER,
        _ => 0,
    }
}

// The page to follow and one more, or 0 for none.
fn follow_number(step: Result<Seen, Flaw>) -> u32
    requires { StepWithin 4294967295 (seen_in Page 0 0 step) }
    ensures { result ≡ follow_seen step }
{
    match step {
        Ok(Seen::Follow(page)) => page.0 + 1,
        _ => 0,
    }
}
