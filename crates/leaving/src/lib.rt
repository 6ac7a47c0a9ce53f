// Where the words of a level, or of the head, first leave the writing that they should be. Slots are numbered through the pages of the room, and
// the head is one page. The writing runs as a stream over these numbers: `spot` is where the next own entry stands, `fence` is the next fence.
#![tactic(auto)]

ghost use Rattle.std.specs.Prelude.{◌+◌, ◌*◌, ◌≤◌, ◌<◌, ◌≡◌, length};
ghost use Rattle.geometry.specs.Places.{words_in_slot};
ghost use Rattle.slot.specs.Slot.{slot_at};
ghost use Rattle.layout.specs.Stream.{same_slot};
ghost use Rattle.entries.specs.Spot.{Standing};
ghost use Rattle.leaving.specs.Along.{Along};
ghost use Rattle.leaving.specs.Stands.{count_wanted, count_stands, place_of, unused_at};
ghost use Rattle.leaving.specs.Writing.{Within, writes, ahead, over_at, past_fence, Comes, Follows};
ghost use Rattle.leaving.specs.Search.{leaves_at};

use entries::{Entry, Run};
use geometry::{ERASED, LevelPlace, PAGE_WORDS, SLOT_WORDS};
use layout::{entry_next, fence_of, fenced_at, inner_fence};
use slot::{Pid, Slot, SlotNo, least_pair, read_slot};
use written::{same_slot, unused};

// What a level or the head should be: the writing of its own index entries, in the order in which they stand, over the pages of the level
// below, in the pages that it has room for.
#[derive(Clone, Copy)]
pub struct Writing {
    pub own: Run,
    pub room: u32,
    pub fenced: bool,
    pub below: LevelPlace,
}

// A writing with the words that it should stand in: its room and the pages below are there.
#[derive(Clone, Copy)]
struct WritingIn<'a> {
    words: &'a [u32],
    writing: Writing,
    ghost within: { Within words.now writing },
}

// What of a writing is still to come: its own entries from a spot on, and the fences from one on.
#[derive(Clone, Copy)]
struct Coming {
    spot: u64,
    fence: u32,
}

// A slot of a writing, and what comes behind it.
#[derive(Clone, Copy)]
struct Next {
    slot: Slot,
    coming: Coming,
}

// The number of the first slot that is not as the writing has it, with its page's count where it opens a page. If all are, this is the number of
// slots that there is room for.
pub fn leaves(words: &[u32], writing: Writing) -> u32
    requires { Within words.now writing }
    ensures { result ≡ leaves_at words.now writing }
{
    let at = WritingIn { words, writing };
    at.first_leaving(at.count_slots())
}

impl<'a> WritingIn<'a> {
    // The number of slots of the writing.
    fn count_slots(&self) -> u32
        ensures { result ≡ length (writes self.now.words.now self.now.writing) }
    {
        let mut coming = self.start();
        let mut total: u32 = 0;
        while !self.is_over(coming) {
            coming = self.next_slot(total, coming).coming;
            total += 1;
        }
        total
    }

    // The number of the first slot that is not as the writing, of `total` slots, has it.
    fn first_leaving(&self, total: u32) -> u32
        requires { total ≡ length (writes self.now.words.now self.now.writing) }
        ensures { result ≡ leaves_at self.now.words.now self.now.writing }
    {
        let end = self.writing.own.most * self.writing.room;
        let mut coming = self.start();
        for n in 0..end {
            if !self.count_stands(total, n) {
                return n;
            }
            if n < total {
                let next = self.next_slot(n, coming);
                if !self.slot_stands(n, next.slot) {
                    return n;
                }
                coming = next.coming;
            } else if !self.slot_unused(n) {
                return n;
            }
        }
        end
    }

    // Before the first slot, all of the writing is to come.
    fn start(&self) -> Coming
        ensures along { Along self.now.words.now self.now.writing 0 result.spot 0 }
        ensures none_passed { result.fence ≡ 0 }
    {
        Coming {
            spot: entries::skip_to(self.words, self.writing.own, 0, least_pair()),
            fence: 0,
        }
    }

    // Whether neither an entry nor a fence is left.
    #[tactic(auto, unfolding(crate::specs::Writing::over_at))]
    fn is_over(&self, coming: Coming) -> bool
        ensures { result ≡ over_at self.now.writing coming.spot coming.fence }
    {
        entries::is_ended(self.writing.own, coming.spot) && self.writing.below.pages <= coming.fence
    }

    // Slot n of the writing, which has a slot left, and what comes behind it.
    fn next_slot(&self, n: u32, coming: Coming) -> Next
        requires standing { Standing self.now.words.now self.now.writing.own coming.spot }
        requires in_bounds { 1 ≤ length (ahead self.now.words.now self.now.writing n coming.spot coming.fence) }
        ensures { Follows self.now.words.now self.now.writing n coming.spot coming.fence result.slot result.coming.spot result.coming.fence }
    {
        let own = self.writing.own;
        if entries::is_ended(own, coming.spot) {
            return self.next_fence(coming);
        }
        let entry = entries::entry_at(self.words, own, coming.spot);
        let below = self.writing.below;
        if !entry_next(
            self.words,
            below.start as usize,
            below.pages,
            Pid(coming.fence),
            entry.pair,
        ) {
            return self.next_fence(coming);
        }
        self.next_own(n, coming, entry)
    }

    // The slot of the next fence, which is left, and what comes behind it.
    #[tactic(auto, unfolding(crate::specs::Writing::past_fence))]
    fn next_fence(&self, coming: Coming) -> Next
        requires { coming.fence < self.now.writing.below.pages }
        ensures { result ≡ past_fence self.now.words.now self.now.writing coming.spot coming.fence }
    {
        Next {
            slot: fence_of(
                self.words,
                self.writing.below.start as usize,
                Pid(coming.fence),
            ),
            coming: Coming {
                spot: coming.spot,
                fence: coming.fence + 1,
            },
        }
    }

    // The slot of the next own entry or, where that would be first in a page, of the internal fence before it; and what comes behind it.
    fn next_own(&self, n: u32, coming: Coming, entry: Entry) -> Next
        requires standing { Standing self.now.words.now self.now.writing.own coming.spot }
        requires comes { Comes self.now.words.now self.now.writing coming.spot coming.fence entry }
        ensures { Follows self.now.words.now self.now.writing n coming.spot coming.fence result.slot result.coming.spot result.coming.fence }
    {
        if fenced_at(self.writing.fenced, n as usize) {
            return Next {
                slot: inner_fence(entry.pair, Pid(coming.fence)),
                coming,
            };
        }
        Next {
            slot: entries::index_of(entry),
            coming: Coming {
                spot: entries::skip_to(self.words, self.writing.own, coming.spot + 1, least_pair()),
                fence: coming.fence,
            },
        }
    }

    // Whether slot n opens no page, or the page's count is that of a writing of `total` slots.
    #[tactic(auto, unfolding(crate::specs::Stands::count_stands))]
    fn count_stands(&self, total: u32, n: u32) -> bool
        requires { n < self.now.writing.own.most * self.now.writing.room }
        ensures { result ≡ count_stands self.now.words.now self.now.writing.own total n }
    {
        let own = self.writing.own;
        n % own.most != 0
            || self.words[own.start as usize + PAGE_WORDS * (n / own.most) as usize]
                == count_wanted(total, own.most, n)
    }

    // Whether slot n is the slot that the writing has there.
    fn slot_stands(&self, n: u32, slot: Slot) -> bool
        requires { n < self.now.writing.own.most * self.now.writing.room }
        ensures { result ≡ same_slot (slot_at self.now.words.now (place_of self.now.writing.own n)) slot }
    {
        same_slot(read_slot(self.words, self.place_of(n)), slot)
    }

    // Whether slot n is unused.
    fn slot_unused(&self, n: u32) -> bool
        requires { n < self.now.writing.own.most * self.now.writing.room }
        ensures { result ≡ unused_at self.now.words.now (place_of self.now.writing.own n) }
    {
        let place = self.place_of(n);
        unused(self.words, place, place + SLOT_WORDS)
    }

    // The first word of slot n.
    #[tactic(auto, unfolding(crate::specs::Stands::place_of))]
    fn place_of(&self, n: u32) -> usize
        requires { n < self.now.writing.own.most * self.now.writing.room }
        ensures exact { result ≡ place_of self.now.writing.own n }
        ensures inside { result + words_in_slot ≤ length self.now.words.now }
    {
        let own = self.writing.own;
        entries::place_in(own, Pid(n / own.most), SlotNo(n % own.most))
    }
}

// The count of the page that slot n opens, in a writing of `total` slots. A page without slots is unused, unless it is the first.
fn count_wanted(total: u32, most: u32, n: u32) -> u32
    ensures { result ≡ count_wanted total most n }
{
    if 1 <= n && total <= n {
        return ERASED;
    }
    (total - n).min(most)
}
