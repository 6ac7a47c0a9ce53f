// What put, drop and ask test before they look for a pair: the directory, the head, and the form of a page. A pass over the head or a page
// also tells how far a pair reaches in it.
#![tactic(auto)]

ghost use Rattle.std.specs.Prelude.{◌+◌, ◌<◌, ◌≤◌, ◌≡◌, cond, length};
ghost use Rattle.geometry.specs.Geometry.{room};
ghost use Rattle.geometry.specs.Places.{words_in_slot, words_in_page};
ghost use Rattle.slot.specs.Slot.{slot_at};
ghost use Rattle.rules.specs.Sound.{directory_right, pages_right};
ghost use Rattle.form.specs.Passes.{count_fits, least_fence, marked_slot, page_at, PageTold, head_at, HeadFits, HeadTold};

use geometry::{
    FIRST_SLOT, HEAD_COUNT, HEAD_START, LIVE, MODE, OPEN_MODE, PAGE_COUNTS, PAGE_SLOTS, PAGE_WORDS,
    Store, at_level,
};
use laws::{both, either};
use page::{Slots, is_fence, scan_head, scan_page};
use slot::{Pair, Pid, least_pair, read_slot, same_pair};

// What a pass over a page tells of it: whether its count, slot order and tags are right, the slot to tell in either case (of a page that is
// right the number of its slots), and how many of its slots are at most the pair asked.
#[derive(Clone, Copy)]
pub struct PageRead {
    pub formed: Result<u32, u32>,
    pub reach: u32,
}

// What a pass over the head tells of it: whether it is right, the slot to tell in either case (of a head that is right 0), its index entries,
// and how many of its slots are at most the pair asked.
#[derive(Clone, Copy)]
pub struct HeadRead {
    pub formed: Result<u32, u32>,
    pub entries: u32,
    pub reach: u32,
}

// Whether the directory is right: live ≤ M; page counts are 1..Pg, or 0 without the level; the mode's word is an open store's.
pub fn directory_right(store: &Store) -> bool
    ensures { result ≡ directory_right store.now.geometry store.now.words.now }
{
    let words = store.words;
    let most = at_level(store.plan.capacities, store.geometry.levels - 1);
    let below = both(pages_right(store, 2), pages_right(store, 3));
    let pages = both(pages_right(store, 1), below);
    both(both(words[LIVE] <= most, pages), words[MODE] == OPEN_MODE)
}

// Whether the directory's page count of a level is 1..Pg, or 0 without the level.
fn pages_right(store: &Store, level: u32) -> bool
    requires { level ≤ 3 }
    ensures { result ≡ pages_right store.now.geometry store.now.words.now level }
{
    let pages = store.words[PAGE_COUNTS + level as usize];
    if level < store.geometry.levels {
        both(1 <= pages, pages <= at_level(store.plan.rooms, level))
    } else {
        pages == 0
    }
}

// Where a page stands and what its form is tested by: its first word, the pages of the level below, and whether it is the only page of the bottom.
#[derive(Clone, Copy)]
pub struct PageAt {
    pub place: usize,
    pub below: u32,
    pub alone: bool,
}

// A page of a lower level.
pub fn page_at(store: &Store, level: u32, page: Pid) -> PageAt
    requires { (1 ≤ level) × (level < store.now.geometry.levels) × (page.0 < room store.now.geometry level) }
    ensures exact { result ≡ page_at store.now.geometry store.now.words.now level page.0 }
    ensures inside { result.place + words_in_page ≤ length store.now.words.now }
{
    let own = store.level_place(level);
    let below = store.level_place(level + 1);
    PageAt {
        place: own.start as usize + PAGE_WORDS * page.0 as usize,
        below: below.pages,
        alone: both(level + 1 == store.geometry.levels, own.pages == 1),
    }
}

// A pass over a page for a pair.
#[inline(always)]
pub fn page_scan(words: &[u32], at: PageAt, asked: Pair) -> PageRead
    requires { at.place + words_in_page ≤ length words.now }
    ensures { PageTold words.now at asked result }
{
    let count = words[at.place];
    let slots = Slots {
        words,
        place: at.place + FIRST_SLOT,
        count: count.min(PAGE_SLOTS) as usize,
    };
    let scan = scan_page(&slots, asked, at.below);
    let fits = count_right(count, at.alone);
    PageRead {
        formed: marked_slot(both(fits, scan.formed), fits, scan.breaking),
        reach: scan.reach,
    }
}

// Whether a page's count is 1..21, or 0 in a bottom of one page, where the page stands alone.
fn count_right(count: u32, alone: bool) -> bool
    ensures { result ≡ count_fits count alone }
{
    both(count <= PAGE_SLOTS, either(1 <= count, alone))
}

// What the head is tested by: the slots that it has room for, the pages of level 1, and its capacity.
#[derive(Clone, Copy)]
pub struct HeadAt {
    pub room: u32,
    pub below: u32,
    pub head: u32,
}

// The head of a store.
pub fn head_at(store: &Store) -> HeadAt
    ensures { result ≡ head_at store.now.geometry store.now.words.now }
{
    let below = store.level_place(1);
    HeadAt {
        room: store.plan.head_room,
        below: below.pages,
        head: store.geometry.head,
    }
}

// A pass over the head for a pair.
#[inline(always)]
pub fn head_scan(words: &[u32], at: HeadAt, asked: Pair) -> HeadRead
    requires { HeadFits words.now at }
    ensures { HeadTold words.now at asked result }
{
    let count = words[HEAD_COUNT];
    let read = count.min(at.room);
    let slots = Slots {
        words,
        place: HEAD_START,
        count: read as usize,
    };
    let scan = scan_head(&slots, asked, at.below, at.head);
    let least = both(1 <= read, is_least_fence(words, HEAD_START));
    let begun = both(count <= at.room, least);
    let right = both(both(begun, scan.formed), scan.fences == at.below);
    HeadRead {
        formed: marked_slot(right, both(begun, scan.breaking < read), scan.breaking),
        entries: scan.entries,
        reach: scan.reach,
    }
}

// The slot to tell of a run, which is right or not: the one told, or slot 0.
fn marked_slot(right: bool, told: bool, slot: u32) -> Result<u32, u32>
    ensures { result ≡ marked_slot right (cond told slot 0) }
{
    let slot = if told { slot } else { 0 };
    if right { Ok(slot) } else { Err(slot) }
}

// Whether the slot at a place is a fence with the least pair.
fn is_least_fence(words: &[u32], place: usize) -> bool
    requires { place + words_in_slot ≤ length words.now }
    ensures { result ≡ least_fence (slot_at words.now place) }
{
    let slot = read_slot(words, place);
    both(is_fence(slot.kind), same_pair(least_pair(), slot.pair))
}
