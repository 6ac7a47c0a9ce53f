// The input of the tool that tells why: a badge and a floor as text, and a chip's bytes. Judged, and a line for what is wrong with it.
#![tactic(auto)]

ghost use Rattle.std.specs.Prelude.{◌+◌, ◌≤◌, ◌≡◌, length};
ghost use Rattle.printing.specs.Grown.{Grown};
ghost use Rattle.why_input.specs.Input.{wrong_text, wrong_room, judged_input, ShortIfGood};

use lines::read_numeral;
use printing::Text;
use slot::{Pair, Rid};

// The most bytes of a chip: those of the largest geometry's store.
pub const MOST_BYTES: usize = 492352;

// What is wrong with the input: the badge or the floor is no number, the chip is too long or no whole number of words.
#[derive(Clone, Copy)]
pub enum Wrong {
    Badge,
    Floor,
    Long,
    Uneven,
}

// The pair asked for, or what is wrong with the input. Judges the badge, the floor, and then the number of the chip's bytes.
pub fn judge(badge: &[u8], floor: &[u8], chip: &[u8]) -> Result<Pair, Wrong>
    ensures judges { result ≡ judged_input badge.now floor.now chip.now }
    ensures short { ShortIfGood chip.now result }
{
    let badge = read_numeral(badge).ok_or(Wrong::Badge)?;
    let floor = read_numeral(floor).ok_or(Wrong::Floor)?;
    if MOST_BYTES < chip.len() {
        return Err(Wrong::Long);
    }
    if chip.len() % chip::WORD_BYTES != 0 {
        return Err(Wrong::Uneven);
    }
    Ok(Pair {
        badge,
        floor: Rid(floor),
    })
}

// Puts the line of wrong input behind the text.
pub fn wrong_line(text: &mut Text, wrong: Wrong)
    requires { text.old.end + wrong_room ≤ length text.old.room.now }
    ensures grown { Grown text.old (wrong_text wrong) text.new }
    ensures upper_bound { text.new.end ≤ text.old.end + wrong_room }
{
    match wrong {
        Wrong::Badge => text.bytes(b"why: the badge is no number from 0 to 4294967295\n"),
        Wrong::Floor => text.bytes(b"why: the floor is no number from 0 to 4294967295\n"),
        Wrong::Long => text.bytes(b"why: the chip has more than 492352 bytes\n"),
        Wrong::Uneven => text.bytes(b"why: the chip's bytes are no multiple of four\n"),
    }
}
