// Every number that follows from a geometry alone: capacities, page rooms, and where a store's words stand.
#![tactic(auto)]

ghost use Rattle.std.specs.Prelude.{◌≤◌, max, ◌≡◌, length, get_or};
ghost use Rattle.geometry.specs.Geometry.{InRange, in_range, between, within, room_of, capacities, rooms};
ghost use Rattle.geometry.specs.Places.{directory_words, plan_of, store_words};
ghost use Rattle.geometry.specs.Bounds.{FourSmall, PlanSmall};
ghost use Rattle.geometry.specs.Directory.{geometry_of, level_place};
ghost use Rattle.geometry.specs.Lent.{Lent};

// The directory's words. The page count of level i stands at PAGE_COUNTS + i, for i from 1 to 3.
pub const HEAD: usize = 0;

pub const RATIO: usize = 1;

pub const LEVELS: usize = 2;

pub const LIVE: usize = 3;

pub const PAGE_COUNTS: usize = 3;

pub const MODE: usize = 7;

pub const HEAD_COUNT: usize = 8;

pub const HEAD_START: usize = 9;

// A store of fewer words has no directory to read.
pub const DIRECTORY_WORDS: usize = 9;

// What the mode's word holds in a store that takes puts and drops.
pub const OPEN_MODE: u32 = 0;

// A slot's words, a page's words, its first slot's place and its slots; what an unused word holds.
pub const SLOT_WORDS: usize = 3;

pub const PAGE_WORDS: usize = 64;

pub const FIRST_SLOT: usize = 1;

pub const PAGE_SLOTS: u32 = 21;

pub const ERASED: u32 = 4294967295;

// The greatest H, k and l that a store may have.
pub const MOST_HEAD: u32 = 64;

pub const MOST_RATIO: u32 = 8;

pub const MOST_LEVELS: u32 = 4;

// The head's capacity H, the ratio k and the number of levels l.
#[derive(Clone, Copy)]
pub struct Geometry {
    pub head: u32,
    pub ratio: u32,
    pub levels: u32,
}

// What a geometry fixes: for each level its capacity, its page room and the place of its first word,
// and the words of the store and of the work area. Level 0 is the head, whose place is its first slot's.
#[derive(Clone, Copy)]
pub struct Plan {
    pub capacities: [u32; 4],
    pub rooms: [u32; 4],
    pub starts: [u32; 4],
    pub head_room: u32,
    pub store_words: u32,
    pub work_words: u32,
}

// Where a level below the head stands: the place of its first word, the pages that it has room for, and the pages that it has.
#[derive(Clone, Copy)]
pub struct LevelPlace {
    pub start: u32,
    pub room: u32,
    pub pages: u32,
}

// The geometry in a store's directory.
pub fn stored_geometry(store: &[u32]) -> Geometry
    requires { directory_words ≤ length store.now }
    ensures { result ≡ geometry_of store.now }
{
    Geometry {
        head: store[HEAD],
        ratio: store[RATIO],
        levels: store[LEVELS],
    }
}

// A store to read: its words with the geometry that they are laid out by. Its length is exact.
#[derive(Clone, Copy)]
pub struct Store<'a> {
    pub words: &'a [u32],
    pub geometry: Geometry,
    pub plan: Plan,
    ghost lent: { Lent geometry plan words.now },
}

impl<'a> Store<'a> {
    // The words of a store whose geometry is known and in range.
    pub fn new(words: &'a [u32], geometry: Geometry) -> Store<'a>
        requires in_range { InRange geometry }
        requires exact { length words.now ≡ store_words geometry }
        ensures same { result.words.now ≡ words.now }
        ensures laid_out { result.geometry ≡ geometry }
        ensures planned { result.plan ≡ plan_of geometry }
    {
        let plan = plan_for(geometry);
        Store {
            words,
            geometry,
            plan,
        }
    }

    // Where a level stands. Below the bottom there is a level of no pages at the store's end.
    pub fn level_place(&self, level: u32) -> LevelPlace
        requires { (1 ≤ level) × (level ≤ 4) }
        ensures { result ≡ level_place self.now.geometry self.now.words.now level }
    {
        if self.geometry.levels <= level {
            return LevelPlace {
                start: self.plan.store_words,
                room: 0,
                pages: 0,
            };
        }
        LevelPlace {
            start: at_level(self.plan.starts, level),
            room: at_level(self.plan.rooms, level),
            pages: self.words[PAGE_COUNTS + level as usize],
        }
    }
}

// Whether H is 1..64, k is 2..8 and l is 2..4.
pub fn in_range(g: Geometry) -> bool
    ensures { result ≡ in_range g }
{
    if !between(1, MOST_HEAD, g.head) {
        return false;
    }
    if !between(2, MOST_RATIO, g.ratio) {
        return false;
    }
    between(2, MOST_LEVELS, g.levels)
}

fn between(least: u32, most: u32, n: u32) -> bool
    ensures { result ≡ between least most n }
{
    least <= n && n <= most
}

// The plan of a geometry in its ranges.
pub fn plan_for(g: Geometry) -> Plan
    requires { InRange g }
    ensures exact { result ≡ plan_of g }
    ensures small { PlanSmall result }
{
    let capacities = capacities(g);
    let rooms = rooms(g);
    let head_room = g.head + rooms[1];
    let first = 9 + 3 * head_room;
    let second = first + 64 * rooms[1];
    let third = second + 64 * rooms[2];
    Plan {
        capacities,
        rooms,
        starts: [9, first, second, third],
        head_room,
        store_words: third + 64 * rooms[3],
        work_words: 64 * rooms[1].max(rooms[2].max(rooms[3])),
    }
}

// cap(i) = H × kⁱ for each level, 0 for a level that does not exist.
pub fn capacities(g: Geometry) -> [u32; 4]
    requires { InRange g }
    ensures exact { result ≡ capacities g }
    ensures small { FourSmall 32768 result }
{
    let first = g.head * g.ratio;
    let second = first * g.ratio;
    let third = second * g.ratio;
    [g.head, first, within(g, 2, second), within(g, 3, third)]
}

// Pg(i) for each level, 0 for the head and for a level that does not exist.
pub fn rooms(g: Geometry) -> [u32; 4]
    requires { InRange g }
    ensures exact { result ≡ rooms g }
    ensures small { FourSmall 2000 result }
{
    let capacities = capacities(g);
    let first = capacities[0] + capacities[1];
    let second = first + capacities[2];
    let bottom = room_of(g, 3, capacities[3], 0, 0);
    let middle = room_of(g, 2, capacities[2], second, bottom);
    let top = room_of(g, 1, capacities[1], first, middle);
    [0, top, middle, bottom]
}

// Pg of a level with this capacity, this T and this Pg below it.
fn room_of(g: Geometry, level: u32, capacity: u32, total: u32, below: u32) -> u32
    requires { (level ≤ 3) × (capacity ≤ 131072) × (total ≤ 131072) × (below ≤ 131072) }
    ensures { result ≡ room_of g level capacity total below }
{
    if g.levels <= level {
        return 0;
    }
    if g.levels == level + 1 {
        return (capacity + 20) / 21;
    }
    (total + below + 19) / 20
}

// n where the level exists, else 0.
fn within(g: Geometry, level: u32, n: u32) -> u32
    ensures { result ≡ within g level n }
{
    if level < g.levels { n } else { 0 }
}

// The number of a level among four. The numbers are told apart by a match, so that they need no place in memory.
pub fn at_level(four: [u32; 4], level: u32) -> u32
    requires { level ≤ 3 }
    ensures { result ≡ get_or four level 0 }
{
    match level {
        0 => four[0],
        1 => four[1],
        2 => four[2],
        _ => four[3],
    }
}
