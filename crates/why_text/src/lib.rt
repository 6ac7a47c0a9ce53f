// The tool that tells why, bytes in and bytes out: a badge and a floor as text, and a chip's bytes.
#![tactic(auto)]

ghost use Rattle.std.specs.Prelude.{◌+◌, ◌/◌, ◌≤◌, ◌≡◌, length};
ghost use Rattle.std.proofs.lemmas.List.Edits.{sets};
ghost use Rattle.chip.specs.Bytes.{word_bytes, words_of};
ghost use Rattle.printing.specs.Grown.{Grown};
ghost use Rattle.why_lines.specs.Lines.{text_room};
ghost use Rattle.why_text.specs.Text.{why_text, told_in, Tells};

use call_why::why;
use chip::fill_words;
use printing::Text;
use slot::Pair;
use why_input::{judge, wrong_line};
use why_lines::reply_lines;

// The bytes that any text fits into, and the words that any chip fits into.
pub const TEXT_ROOM: usize = why_lines::TEXT_ROOM;

pub const WORD_ROOM: usize = 123088;

// What is wrong with the input is told on the error stream.
#[derive(Clone, Copy)]
pub enum Stream {
    Output,
    Error,
}

// The stream that the text is for, and its length.
#[derive(Clone, Copy)]
pub struct Told {
    pub stream: Stream,
    pub length: usize,
}

// Puts the text at the start of the buffer, and the chip's words at the start of the lent words. Where the buffer has fewer bytes than
// `TEXT_ROOM`, or fewer words than `WORD_ROOM` are lent, it puts nothing.
pub fn tell_why(badge: &[u8], floor: &[u8], chip: &[u8], words: &mut [u32], out: &mut [u8]) -> Told
    ensures { Tells (told_in (length out.old) (length words.old) badge.now floor.now chip.now) words.old out.old words.new out.new result }
{
    if out.len() < TEXT_ROOM || words.len() < WORD_ROOM {
        return Told {
            stream: Stream::Output,
            length: 0,
        };
    }
    let mut text = Text { room: out, end: 0 };
    match judge(badge, floor, chip) {
        Ok(pair) => {
            tell_chip(&mut text, pair, chip, words);
            Told {
                stream: Stream::Output,
                length: text.end,
            }
        }
        Err(wrong) => {
            wrong_line(&mut text, wrong);
            Told {
                stream: Stream::Error,
                length: text.end,
            }
        }
    }
}

// The text of a pair and a chip, whose words it stores.
fn tell_chip(text: &mut Text, pair: Pair, chip: &[u8], words: &mut [u32])
    requires word_bytes_in_bounds { length chip.now / word_bytes ≤ length words.old }
    requires text_room_in_bounds { text.old.end + text_room ≤ length text.old.room.now }
    ensures grown { Grown text.old (why_text (words_of chip.now) pair) text.new }
    ensures words_after { words.new ≡ sets words.old 0 (words_of chip.now) }
    ensures upper_bound { text.new.end ≤ text.old.end + text_room }
{
    fill_words(chip, words);
    let n = chip.len() / chip::WORD_BYTES;
    tell_store(text, &words[..n], pair);
}

// The text of a pair and a store.
fn tell_store(text: &mut Text, store: &[u32], pair: Pair)
    requires { text.old.end + text_room ≤ length text.old.room.now }
    ensures grown { Grown text.old (why_text store.now pair) text.new }
    ensures upper_bound { text.new.end ≤ text.old.end + text_room }
{
    let mut trail = [0; 22];
    let asked = why(store, pair, &mut trail);
    reply_lines(text, asked, &trail, pair);
}
