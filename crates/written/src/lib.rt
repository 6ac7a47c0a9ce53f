// Whether the head and each level are the writing of their own index entries over the pages below. The writing runs as a stream over the
// row of slots: n is the position in the row, r that of the next own entry, which fences ask for, p the next fence; the last fence's page is
// p − 1.
#![tactic(auto)]

ghost use Rattle.std.specs.Prelude.{◌+◌, ◌-◌, ◌*◌, ◌^◌, ◌≤◌, ◌<◌, ◌≡◌, ◌&&◌, length, is_some, IfSome};
ghost use Rattle.rules.specs.Level.{fence_of};
ghost use Rattle.rules.specs.Sound.{slots_from, entries_of};
ghost use Rattle.written.specs.Written.{level_written, head_written, LevelInside, HeadInside};
ghost use Rattle.layout.specs.Words.{level_run};
ghost use Rattle.layout.specs.Stream.{same_slot, is_index, passed, entry_next};
ghost use Rattle.written.specs.Row.{RowInside, Unfenced, first_below, row_place, row_slot, row_slots, next_entry, nothing_left, wanted_at, is_wanted, entry_fits, rises, row_written};
ghost use Rattle.written.specs.Tested.{filled, last_right, unused};
ghost use Rattle.geometry.specs.Places.{words_in_page, words_in_slot};

use entries::Entry;
use geometry::{ERASED, FIRST_SLOT, LevelPlace, PAGE_SLOTS, PAGE_WORDS, SLOT_WORDS};
use layout::{entry_next, fence_of, fenced_at, inner_fence};
use page::{is_fence, is_normal};
use slot::{Kind, Pair, Pid, Slot, comes_before, least_pair, read_slot};

// A row of slots: the head's, or those of a level's pages in order. It stands from start on, cut into pages of 21 or not; above the bottom
// an entry that is first in a page has an internal fence before it. Its fences name the pages of the level below.
#[derive(Clone, Copy)]
pub struct Row {
    pub start: usize,
    pub paged: bool,
    pub fenced: bool,
    pub slots: usize,
    pub below: LevelPlace,
}

// A row with the words that it stands in; the pages below stand there too.
#[derive(Clone, Copy)]
struct RowIn<'a> {
    words: &'a [u32],
    row: Row,
    ghost inside: { RowInside words.now row },
}

// The index entries of a level, where it is the writing of them over the pages below: its pages are filled left to right, its slots are the
// stream, and every word behind them is unused.
pub fn level_written(words: &[u32], own: LevelPlace, fenced: bool, below: LevelPlace) -> Option<u32>
    requires { LevelInside words.now own.start own.room own.pages below.start below.pages }
    ensures exact { is_some result ≡ level_written words.now own.start own.room own.pages fenced below.start below.pages }
    ensures counted { IfSome result (λ n. n ≡ length (entries_of (level_run words.now own.start own.pages))) }
{
    let start = own.start as usize;
    if !pages_filled(words, start, own.pages) {
        return None;
    }
    let last = (own.pages - 1) as usize;
    let count = words[start + PAGE_WORDS * last] as usize;
    let row = Row {
        start,
        paged: true,
        fenced,
        slots: PAGE_SLOTS as usize * last + count,
        below,
    };
    RowIn { words, row }.in_room(
        start + PAGE_WORDS * last + FIRST_SLOT + SLOT_WORDS * count,
        start + PAGE_WORDS * own.room as usize,
    )
}

// The index entries of the head, where it is the writing of them over the pages of level 1.
pub fn head_written(
    words: &[u32],
    start: usize,
    room: u32,
    count: u32,
    below: LevelPlace,
) -> Option<u32>
    requires { HeadInside words.now start room count below.start below.pages }
    ensures exact { is_some result ≡ head_written words.now start room count below.start below.pages }
    ensures counted { IfSome result (λ n. n ≡ length (entries_of (slots_from words.now start count))) }
{
    let slots = count as usize;
    let row = Row {
        start,
        paged: false,
        fenced: false,
        slots,
        below,
    };
    RowIn { words, row }.in_room(
        start + SLOT_WORDS * slots,
        start + SLOT_WORDS * room as usize,
    )
}

// Whether pages are filled left to right: all full but the last, which has a slot unless it is the only page.
fn pages_filled(words: &[u32], start: usize, pages: u32) -> bool
    requires { (1 ≤ pages) × (start + words_in_page * pages ≤ length words.now) }
    ensures { result ≡ filled words.now start pages }
{
    let last = pages - 1;
    for p in 0..last {
        if words[start + PAGE_WORDS * p as usize] != PAGE_SLOTS {
            return false;
        }
    }
    last_right(words[start + PAGE_WORDS * last as usize], last)
}

// Whether the last page's count is 1..21, or 0 in the only page.
#[tactic(auto, unfolding(crate::specs::Tested::last_right))]
fn last_right(count: u32, last: u32) -> bool
    ensures { result ≡ last_right count last }
{
    count <= PAGE_SLOTS && (1 <= count || last == 0)
}

// Whether the words from a place to another are all unused.
pub fn unused(words: &[u32], from: usize, to: usize) -> bool
    requires { to ≤ length words.now }
    ensures { result ≡ unused words.now from to }
{
    let mut all = true;
    for i in from..to {
        all &= words[i] == ERASED;
    }
    all
}

impl<'a> RowIn<'a> {
    // The index entries of the row, where it is the writing of them and the words behind it, to the end of its room, are unused.
    fn in_room(&self, used: usize, end: usize) -> Option<u32>
        requires { end ≤ length self.now.words.now }
        ensures exact { is_some result ≡ (row_written self.now.words.now self.now.row && unused self.now.words.now used end) }
        ensures counted { IfSome result (λ n. n ≡ length (entries_of (row_slots self.now.words.now self.now.row))) }
    {
        let entries = self.row_written()?;
        unused(self.words, used, end).then_some(entries)
    }

    // The index entries of the row, where it is the writing of them and they ascend; where it has no fences, by a pass without branches.
    fn row_written(&self) -> Option<u32>
        ensures exact { is_some result ≡ row_written self.now.words.now self.now.row }
        ensures counted { IfSome result (λ n. n ≡ length (entries_of (row_slots self.now.words.now self.now.row))) }
    {
        if self.row.below.pages == 0 && !self.row.fenced {
            return self.bottom_written();
        }
        self.stream_written()
    }

    // The same of a row that has no fences: index entries alone, which ascend.
    fn bottom_written(&self) -> Option<u32>
        requires { Unfenced self.now.row }
        ensures exact { is_some result ≡ row_written self.now.words.now self.now.row }
        ensures counted { IfSome result (λ n. n ≡ length (entries_of (row_slots self.now.words.now self.now.row))) }
    {
        let mut ok = true;
        let mut last = least_pair();
        for n in 0..self.row.slots {
            let slot = self.slot_of(n);
            ok &= is_index(slot) & rises(n as u32, last, slot.pair);
            last = slot.pair;
        }
        ok.then_some(self.row.slots as u32)
    }

    // The same as a stream: each slot is the one that the stream wants.
    fn stream_written(&self) -> Option<u32>
        ensures exact { is_some result ≡ row_written self.now.words.now self.now.row }
        ensures counted { IfSome result (λ n. n ≡ length (entries_of (row_slots self.now.words.now self.now.row))) }
    {
        let mut r = 0;
        let mut p: u32 = 0;
        let mut entries: u32 = 0;
        let mut last = least_pair();
        for n in 0..self.row.slots {
            let found = self.slot_of(n);
            if is_fence(found.kind) {
                r = self.entry_behind(n, r);
                if !self.is_wanted(n, r, p, found) {
                    return None;
                }
                p = passed(found.kind, p);
            } else {
                if !(self.entry_fits(n, p, found) & rises(entries, last, found.pair)) {
                    return None;
                }
                last = found.pair;
                entries += 1;
            }
        }
        (self.row.below.pages <= p).then_some(entries)
    }

    // Whether an index entry at position n is the slot that the writing has there: no fence is due before it, and its page number is 0.
    #[tactic(auto, unfolding(crate::specs::Row::entry_fits, crate::specs::Row::first_below))]
    fn entry_fits(&self, n: usize, p: u32, entry: Slot) -> bool
        ensures { result ≡ entry_fits self.now.words.now self.now.row n p entry }
    {
        !fenced_at(self.row.fenced, n) & self.comes_next(p, entry.pair) & is_index(entry)
    }

    // The position of the first index entry from n on: r, if that was found before and is not passed.
    fn entry_behind(&self, n: usize, r: usize) -> usize
        requires n_le_slots { n ≤ self.now.row.slots }
        requires r_value { n < r → r ≡ next_entry self.now.words.now self.now.row n }
        ensures { result ≡ next_entry self.now.words.now self.now.row n }
    {
        if n < r { r } else { self.next_entry(n) }
    }

    // Whether a slot is the one that the writing has at position n.
    #[tactic(auto, unfolding(crate::specs::Row::is_wanted))]
    fn is_wanted(&self, n: usize, r: usize, p: u32, found: Slot) -> bool
        ensures { result ≡ is_wanted self.now.words.now self.now.row n r p found }
    {
        !self.nothing_left(r, p) && same_slot(found, self.wanted(n, r, p))
    }

    // The slot that the writing has at position n, where an entry or a fence is left.
    fn wanted(&self, n: usize, r: usize, p: u32) -> Slot
        requires { self.now.row.slots ≤ r → p < self.now.row.below.pages }
        ensures { result ≡ wanted_at self.now.words.now self.now.row n r p }
    {
        if self.row.slots <= r {
            return self.fence_of(p);
        }
        let entry = self.slot_of(r);
        if !self.comes_next(p, entry.pair) {
            return self.fence_of(p);
        }
        if fenced_at(self.row.fenced, n) {
            return inner_fence(entry.pair, Pid(p));
        }
        entries::index_of(Entry {
            pair: entry.pair,
            normal: is_normal(entry.kind),
        })
    }

    // Whether neither an entry nor a fence is left.
    #[tactic(auto, unfolding(crate::specs::Row::nothing_left))]
    fn nothing_left(&self, r: usize, p: u32) -> bool
        ensures { result ≡ nothing_left self.now.row r p }
    {
        self.row.slots <= r && self.row.below.pages <= p
    }

    // Whether an entry of this pair comes before fence p.
    #[tactic(auto, unfolding(crate::specs::Row::first_below))]
    fn comes_next(&self, p: u32, pair: Pair) -> bool
        ensures { result ≡ entry_next (first_below self.now.words.now self.now.row) self.now.row.below.pages p pair }
    {
        let below = self.row.below;
        entry_next(self.words, below.start as usize, below.pages, Pid(p), pair)
    }

    // Fence p, of a page below.
    #[tactic(auto, unfolding(crate::specs::Row::first_below))]
    fn fence_of(&self, p: u32) -> Slot
        requires { p < self.now.row.below.pages }
        ensures { result ≡ fence_of (first_below self.now.words.now self.now.row) p }
    {
        fence_of(self.words, self.row.below.start as usize, Pid(p))
    }

    // The position of the first index entry from a position on, or of the row's end.
    fn next_entry(&self, from: usize) -> usize
        requires { from ≤ self.now.row.slots }
        ensures { result ≡ next_entry self.now.words.now self.now.row from }
    {
        for n in from..self.row.slots {
            if !is_fence(self.slot_of(n).kind) {
                return n;
            }
        }
        self.row.slots
    }

    // The slot at position n of the row.
    #[tactic(auto, unfolding(crate::specs::Row::row_slot))]
    fn slot_of(&self, n: usize) -> Slot
        requires { n < self.now.row.slots }
        ensures { result ≡ row_slot self.now.words.now self.now.row n }
    {
        read_slot(self.words, self.place_of(n))
    }

    // Where the slot at position n begins.
    #[tactic(auto, unfolding(crate::specs::Row::row_place))]
    fn place_of(&self, n: usize) -> usize
        requires { n < self.now.row.slots }
        ensures exact { result ≡ row_place self.now.row n }
        ensures inside { result + words_in_slot ≤ length self.now.words.now }
    {
        if self.row.paged {
            let slots = PAGE_SLOTS as usize;
            self.row.start + PAGE_WORDS * (n / slots) + FIRST_SLOT + SLOT_WORDS * (n % slots)
        } else {
            self.row.start + SLOT_WORDS * n
        }
    }
}

// The next fence after a slot of this kind.
fn passed(kind: Kind, p: u32) -> u32
    requires { p + 1 < 2 ^ 32 }
    ensures { result ≡ passed kind p }
{
    match kind {
        Kind::External => p + 1,
        _ => p,
    }
}

// Whether an entry is above the last of those before it, if there are any.
#[tactic(auto, unfolding(crate::specs::Row::rises))]
pub fn rises(entries: u32, last: Pair, pair: Pair) -> bool
    ensures { result ≡ rises entries last pair }
{
    (entries == 0) | comes_before(last, pair)
}

// Whether a slot is the one that its index entry is written in: no fence, with page number 0.
#[tactic(auto, unfolding(layout::specs::Stream::is_index))]
fn is_index(slot: Slot) -> bool
    ensures { result ≡ is_index slot }
{
    !is_fence(slot.kind) & (slot.page.0 == 0)
}

// Whether two slots are one.
pub fn same_slot(a: Slot, b: Slot) -> bool
    ensures { result ≡ same_slot a b }
{
    a == b
}
