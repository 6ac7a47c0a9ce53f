// Numbers drawn by a 32-bit congruence, and pairs made of them.
ghost use Rattle.std.specs.Prelude.{◌<◌, ◌≤◌};

use slot::{Pair, Rid};

// The state of the congruence.
#[derive(Clone, Copy)]
pub struct Draws(pub u32);

impl Draws {
    // The next number, below n.
    pub fn number(&mut self, n: u32) -> u32
        requires { 0 < n }
        ensures { result < n }
    {
        self.0 = self.0.wrapping_mul(1664525).wrapping_add(1013904223);
        self.0 / 65536 % n
    }

    // The next pair, one of 2M where M is the most live pairs: 32 to a badge, and the greatest pair there is.
    pub fn pair(&mut self, most: u32) -> Pair
        requires { (1 ≤ most) × (most ≤ 32768) }
    {
        let v = self.number(2 * most);
        if v + 1 == 2 * most {
            return pair_of(u32::MAX, u32::MAX);
        }
        let floor = if v % 32 == 31 { u32::MAX } else { v % 32 };
        pair_of(v / 32, floor)
    }
}

fn pair_of(badge: u32, floor: u32) -> Pair {
    Pair {
        badge,
        floor: Rid(floor),
    }
}
