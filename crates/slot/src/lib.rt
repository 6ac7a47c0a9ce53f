// A slot: a pair, a kind and a page number in three words. A page number, a floor and a slot number are kept apart.
#![tactic(auto)]

ghost use Rattle.std.specs.Prelude.{◌+◌, ◌*◌, ◌^◌, ◌≤◌, ◌<◌, ◌≡◌, length};
ghost use Rattle.std.proofs.lemmas.List.Edits.{sets};
ghost use Rattle.slot.specs.Pair.{rank, least, before, same};
ghost use Rattle.slot.specs.Tag.{kind_number, kind_of, page_of, tag_of};
ghost use Rattle.slot.specs.Slot.{slot_at, words_of};

// A page number within a level, pid.
#[derive(Clone, Copy, PartialEq, Eq)]
pub struct Pid(pub u32);

// A floor, rid.
#[derive(Clone, Copy, PartialEq, Eq)]
pub struct Rid(pub u32);

// A slot's number within its page or the head.
#[derive(Clone, Copy, PartialEq, Eq)]
pub struct SlotNo(pub u32);

#[derive(Clone, Copy, PartialEq, Eq)]
pub struct Pair {
    pub badge: u32,
    pub floor: Rid,
}

// Index entries are normal or filters; fences are external or internal.
#[derive(Clone, Copy, PartialEq, Eq)]
pub enum Kind {
    Normal,
    Filter,
    External,
    Internal,
}

// What three words hold. An index entry's page number is 0 in a store that is sound.
#[derive(Clone, Copy, PartialEq, Eq)]
pub struct Slot {
    pub pair: Pair,
    pub kind: Kind,
    pub page: Pid,
}

// The least pair.
pub fn least_pair() -> Pair
    ensures { result ≡ least }
{
    Pair {
        badge: 0,
        floor: Rid(0),
    }
}

// Whether a comes before b in the order of pairs: by rank, which takes no branch.
pub fn comes_before(a: Pair, b: Pair) -> bool
    ensures { result ≡ before a b }
{
    rank_of(a) < rank_of(b)
}

// Whether a and b are one pair.
pub fn same_pair(a: Pair, b: Pair) -> bool
    ensures { result ≡ same a b }
{
    a == b
}

// A pair's place in the order of pairs: by badge, then floor.
pub fn rank_of(pair: Pair) -> u64
    ensures { result ≡ rank pair }
{
    4294967296 * u64::from(pair.badge) + u64::from(pair.floor.0)
}

// The kind of a tag: its remainder by 4.
pub fn kind_of(tag: u32) -> Kind
    ensures { result ≡ kind_of tag }
{
    match tag % 4 {
        0 => Kind::Normal,
        1 => Kind::Filter,
        2 => Kind::External,
        _ => Kind::Internal,
    }
}

// The page number of a tag.
pub fn page_of(tag: u32) -> Pid
    ensures { result ≡ page_of tag }
{
    Pid(tag / 4)
}

// The tag of a kind and a page number: 4 × page number + kind.
pub fn tag_of(kind: Kind, page: Pid) -> u32
    requires { page.0 < 2 ^ 30 }
    ensures { result ≡ tag_of kind page }
{
    4 * page.0 + u32::from(kind)
}

// The number of a kind in a tag.
impl From<Kind> for u32 {
    ghost from_gives = { λ kind n. n ≡ kind_number kind };

    fn from(kind: Kind) -> u32 {
        match kind {
            Kind::Normal => 0,
            Kind::Filter => 1,
            Kind::External => 2,
            Kind::Internal => 3,
        }
    }
}

// The slot whose three words begin at a place.
pub fn read_slot(words: &[u32], place: usize) -> Slot
    requires { place + 3 ≤ length words.now }
    ensures { result ≡ slot_at words.now place }
{
    let tag = words[place + 2];
    Slot {
        pair: Pair {
            badge: words[place],
            floor: Rid(words[place + 1]),
        },
        kind: kind_of(tag),
        page: page_of(tag),
    }
}

// Puts a slot's three words at a place.
pub fn write_slot(words: &mut [u32], place: usize, slot: Slot)
    requires place_in_bounds { place + 3 ≤ length words.old }
    requires page_bound { slot.page.0 < 2 ^ 30 }
    ensures { words.new ≡ sets words.old place (words_of slot) }
{
    words[place] = slot.pair.badge;
    words[place + 1] = slot.pair.floor.0;
    words[place + 2] = tag_of(slot.kind, slot.page);
}
