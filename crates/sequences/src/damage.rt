// A store damaged in one word, which is drawn, as is what it becomes.
ghost use Rattle.std.specs.Prelude.{◌<◌, ◌≤◌, length};
ghost use Rattle.sequences.specs.Fit.{Fit};

use crate::Sequence;
use crate::draws::Draws;

// Damages one word of the store in one of six ways: the fifth is a number drawn, and the sixth a word near by.
pub fn damage_word(s: Sequence, draws: &mut Draws, store: &mut [u32])
    requires { Fit s (length store.old) }
{
    let words = store.len();
    let at = draw_place(draws, s.head_words, words);
    let word = store[at];
    store[at] = match draws.number(6) {
        0 => word.wrapping_add(1),
        1 => word.wrapping_sub(1),
        2 => u32::MAX,
        3 => 0,
        4 => draws.number(100),
        _ => store[(at + 3) % words],
    };
}

// A place among the words of a store, every second time in the directory or the head.
fn draw_place(draws: &mut Draws, head: u32, words: usize) -> usize
    requires { (0 < head) × (head ≤ words) }
    ensures { result < words }
{
    if draws.number(2) == 0 {
        return draws.number(head) as usize;
    }
    let high = draws.number(65536) as usize;
    let low = draws.number(65536) as usize;
    (high * 65536 + low) % words
}
