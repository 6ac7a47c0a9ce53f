// What the writing of a level has at a place: the fence of a page below, the internal fence before an entry that would be first in its page,
// and whether an entry or a fence comes next.
#![tactic(auto)]

ghost use Rattle.std.specs.Prelude.{◌+◌, ◌-◌, ◌*◌, ◌≤◌, ◌≡◌, length};
ghost use Rattle.geometry.specs.Places.{words_in_page};
ghost use Rattle.rules.specs.Level.{internal, fence_of};
ghost use Rattle.layout.specs.Words.{first_pair};
ghost use Rattle.layout.specs.Stream.{entry_next, fenced_at};

use geometry::{FIRST_SLOT, PAGE_SLOTS, PAGE_WORDS};
use slot::{Kind, Pair, Pid, Slot, comes_before, least_pair, read_slot};

// Whether an entry at position `n` of a row has an internal fence before it: it would be first in its page, in a level that has fences.
#[tactic(auto, unfolding(crate::specs::Stream::fenced_at))]
pub fn fenced_at(fenced: bool, n: usize) -> bool
    ensures { result ≡ fenced_at fenced n }
{
    fenced && n % PAGE_SLOTS as usize == 0
}

// Whether an entry of this pair comes next: no fence is left of the `below` pages, or the fence of the next page is above the pair.
#[tactic(auto, unfolding(crate::specs::Stream::entry_next))]
pub fn entry_next(words: &[u32], below_start: usize, below: u32, next: Pid, pair: Pair) -> bool
    requires { below_start + words_in_page * below ≤ length words.now }
    ensures { result ≡ entry_next (first_pair words.now below_start) below next.0 pair }
{
    below <= next.0 || comes_before(pair, fence_of(words, below_start, next).pair)
}

// The fence of a page of the level below: of page 0 with the least pair, of any other with the pair in the page's first slot.
#[tactic(auto, using(crate::specs::Stream::fence_zero, crate::specs::Stream::fence_later), unfolding(rules::specs::Level::external, crate::specs::Words::first_pair))]
pub fn fence_of(words: &[u32], below_start: usize, page: Pid) -> Slot
    requires { below_start + words_in_page * page.0 + words_in_page ≤ length words.now }
    ensures { result ≡ fence_of (first_pair words.now below_start) page.0 }
{
    let pair = if page.0 == 0 {
        least_pair()
    } else {
        read_slot(
            words,
            below_start + PAGE_WORDS * page.0 as usize + FIRST_SLOT,
        )
        .pair
    };
    Slot {
        pair,
        kind: Kind::External,
        page,
    }
}

// The internal fence with a pair. It names the page of the last external fence, which is the one before the next.
#[tactic(auto, unfolding(rules::specs::Level::internal))]
pub fn inner_fence(pair: Pair, next: Pid) -> Slot
    ensures { result ≡ internal pair (next.0 - 1) }
{
    Slot {
        pair,
        kind: Kind::Internal,
        page: Pid(next.0.saturating_sub(1)),
    }
}
