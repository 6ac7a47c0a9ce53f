// Numbers in a script of bytes, as the programs read them that run what the second program wrote.
#![tactic(auto)]

ghost use Rattle.std.specs.Prelude.{◌+◌, ◌≤◌, ◌≡◌, length, min};
ghost use Rattle.slot.specs.Pair.{pair};
ghost use Rattle.script.specs.Word.{word_at, geometry_at};

use geometry::Geometry;
use slot::{Pair, Rid};

// The 32-bit number at a place, lowest byte first, and 0 where fewer than four bytes are left.
pub fn word_at(script: &[u8], at: usize) -> u32
    ensures { result ≡ word_at script.now at }
{
    if script.len().saturating_sub(at) < 4 {
        return 0;
    }
    u32::from_le_bytes([script[at], script[at + 1], script[at + 2], script[at + 3]])
}

// Where the field that begins at `from` ends: its length stands at `at`, and it ends at the latest where the script ends.
pub fn field_end(script: &[u8], from: usize, at: usize) -> usize
    requires { from ≤ length script.now }
    ensures { result ≡ min (from + word_at script.now at) (length script.now) }
{
    (from + word_at(script, at) as usize).min(script.len())
}

// A badge and a floor.
pub fn pair_at(script: &[u8], at: usize) -> Pair
    requires { at ≤ length script.now + 16 }
    ensures { result ≡ pair (word_at script.now at) (word_at script.now (at + 4)) }
{
    Pair {
        badge: word_at(script, at),
        floor: Rid(word_at(script, at + 4)),
    }
}

// H, k and l.
pub fn geometry_at(script: &[u8], at: usize) -> Geometry
    requires { at ≤ length script.now + 16 }
    ensures { result ≡ geometry_at script.now at }
{
    Geometry {
        head: word_at(script, at),
        ratio: word_at(script, at + 4),
        levels: word_at(script, at + 8),
    }
}
