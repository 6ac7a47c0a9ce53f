// One run of slots in lent words, the head's or a page's: what a pass over it finds, and the fence met stepping back.
#![tactic(auto)]

ghost use Rattle.std.specs.Prelude.{◌+◌, ◌-◌, ◌*◌, ◌<◌, ◌≤◌, ◌≡◌, true, length};
ghost use Rattle.slot.specs.Slot.{slot_at};
ghost use Rattle.rules.specs.Level.{fence_kind};
ghost use Rattle.rules.specs.Finding.{normal_kind};
ghost use Rattle.rules.specs.Sound.{legal, slots_from};
ghost use Rattle.page.specs.Scan.{Within, Scanned, started, stepped, scanned, may_follow};
ghost use Rattle.page.specs.declared.Scan.{Scan};
ghost use Rattle.slot.specs.declared.Slot.{Slot};
ghost use Rattle.page.specs.Tag.{legal_below, in_turn, head_tag, by_kind, internal_kind};
ghost use Rattle.page.specs.Tell.{fence_back, met_in};
ghost use Rattle.geometry.specs.Places.{words_in_slot};

use geometry::SLOT_WORDS;
use laws::{both, either, one_if};
use slot::{Kind, Pair, Pid, Slot, SlotNo, comes_before, rank_of, read_slot, same_pair};

// What a pass over slots has found so far, asked for a pair.
#[derive(Clone, Copy)]
pub struct Scan {
    // The last slot's rank, and whether it was a fence.
    pub last: u64,
    pub last_fence: bool,
    // Slot order and right tags, and the slots before the first that breaks one of them.
    pub formed: bool,
    pub breaking: u32,
    pub fences: u32,
    pub entries: u32,
    // The slots whose pair is at most the pair asked.
    pub reach: u32,
}

// The `count` slots that stand from a place on.
#[derive(Clone, Copy)]
pub struct Slots<'a> {
    pub words: &'a [u32],
    pub place: usize,
    pub count: usize,
    ghost inside: { place + words_in_slot * count ≤ length words.now },
    ghost few: { count ≤ 4096 },
}

// A pass over a page, whose fences may name the first `below` pages of the level below.
#[inline(always)]
pub fn scan_page(slots: &Slots, asked: Pair, below: u32) -> Scan
    ensures { result ≡ scanned asked (legal_below below) started (slots_from slots.now.words.now slots.now.place slots.now.count) }
{
    scan_slots(slots, asked, |_, slot| is_legal(slot, below))
}

// A pass over the head, whose fences name the pages below in turn, and whose index entries are fewer than `head`.
#[inline(always)]
pub fn scan_head(slots: &Slots, asked: Pair, below: u32, head: u32) -> Scan
    ensures { result ≡ scanned asked (head_tag below head) started (slots_from slots.now.words.now slots.now.place slots.now.count) }
{
    scan_slots(
        slots,
        asked,
        |scan, slot| head_takes(scan, slot, below, head),
    )
}

// A pass over slots. `right` tests a slot's tag, by what the pass has found before it.
#[inline(always)]
fn scan_slots<F: Fn(Scan, Slot) -> bool>(slots: &Slots, asked: Pair, right: F) -> Scan
    requires { (c : Scan) (s : Slot) → Within 4096 c → F.pre right c s }
    ensures { Scanned (F.post right) slots.now.words.now slots.now.place slots.now.count asked result }
{
    let mut scan = scan_start();
    for j in 0..slots.count {
        let slot = read_slot(slots.words, slots.place + SLOT_WORDS * j);
        scan = scan_step(scan, slot, asked, right(scan, slot));
    }
    scan
}

// Whether the head, after what a pass has found, may have a slot: its tag is in turn, and one more of its kind fits.
fn head_takes(scan: Scan, slot: Slot, below: u32, head: u32) -> bool
    requires { scan.entries + 1 < 4294967296 }
    ensures { result ≡ head_tag below head scan.fences scan.entries slot }
{
    let fits = by_kind(slot.kind, scan.fences < below, scan.entries + 1 < head);
    both(is_in_turn(slot, scan.fences), fits)
}

// A pass over no slots: any slot may follow the least fence.
fn scan_start() -> Scan
    ensures { result ≡ started }
{
    Scan {
        last: 0,
        last_fence: true,
        formed: true,
        breaking: 0,
        fences: 0,
        entries: 0,
        reach: 0,
    }
}

// The pass with one slot more. The caller has tested the slot's tag.
fn scan_step(scan: Scan, slot: Slot, asked: Pair, right: bool) -> Scan
    requires { Within 4096 scan }
    ensures { result ≡ stepped asked scan slot right }
{
    let rank = rank_of(slot.pair);
    let fence = is_fence(slot.kind);
    let fits = both(may_follow(scan.last, scan.last_fence, rank), right);
    let formed = both(scan.formed, fits);
    Scan {
        last: rank,
        last_fence: fence,
        formed,
        breaking: scan.breaking + one_if(formed),
        fences: scan.fences + one_if(fence),
        entries: scan.entries + one_if(!fence),
        reach: scan.reach + one_if(!comes_before(asked, slot.pair)),
    }
}

// Whether a rank may follow the last one: pairs never fall, and only a fence is followed by its own pair.
fn may_follow(last: u64, last_fence: bool, rank: u64) -> bool
    ensures { result ≡ may_follow last last_fence rank }
{
    either(last < rank, both(last == rank, last_fence))
}

// Whether a slot's tag is legal in a page: an index entry has page number 0, a fence names a page that is there.
fn is_legal(slot: Slot, below: u32) -> bool
    ensures { result ≡ legal true below slot }
{
    slot.page.0 < by_kind(slot.kind, below, 1)
}

// Whether a slot's tag is right in the head: an index entry has page number 0, a fence is external and names the next page.
fn is_in_turn(slot: Slot, fences: u32) -> bool
    ensures { result ≡ in_turn fences slot }
{
    let due = by_kind(slot.kind, fences, 0);
    both(slot.page.0 == due, !is_internal(slot.kind))
}

// What a slot of this kind gets, of what a fence gets and what an index entry gets.
fn by_kind<T: Copy>(kind: Kind, fence: T, entry: T) -> T
    ensures { result ≡ by_kind kind fence entry }
{
    match kind {
        Kind::Normal | Kind::Filter => entry,
        Kind::External | Kind::Internal => fence,
    }
}

fn is_internal(kind: Kind) -> bool
    ensures { result ≡ internal_kind kind }
{
    matches!(kind, Kind::Internal)
}

pub fn is_fence(kind: Kind) -> bool
    ensures { result ≡ fence_kind kind }
{
    match kind {
        Kind::Normal | Kind::Filter => false,
        Kind::External | Kind::Internal => true,
    }
}

pub fn is_normal(kind: Kind) -> bool
    ensures { result ≡ normal_kind kind }
{
    matches!(kind, Kind::Normal)
}

// Steps back from a slot of the run at a place, and gives the page of the first fence that it meets. The first slot of the run is a fence.
#[inline(always)]
pub fn fence_back(words: &[u32], place: usize, from: SlotNo) -> Pid
    requires words_in_slot_in_bounds { place + words_in_slot * from.0 + words_in_slot ≤ length words.now }
    requires place_value { fence_kind (slot_at words.now place).kind ≡ true }
    ensures { result ≡ fence_back words.now place from.0 }
{
    let mut j = from.0 as usize;
    let page = loop {
        let slot = read_slot(words, place + SLOT_WORDS * j);
        if is_fence(slot.kind) {
            break slot.page;
        }
        j -= 1;
    };
    page
}

// What the slot at a place says of a pair: no index entry of it, or whether its entry is normal.
pub fn met_at(words: &[u32], place: usize, asked: Pair) -> Option<bool>
    requires { place + words_in_slot ≤ length words.now }
    ensures { result ≡ met_in (slot_at words.now place) asked }
{
    let slot = read_slot(words, place);
    both(!is_fence(slot.kind), same_pair(asked, slot.pair)).then_some(is_normal(slot.kind))
}
