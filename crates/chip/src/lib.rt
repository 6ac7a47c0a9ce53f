// A store's words from bytes, as a chip keeps them: four bytes to a word, the lowest byte first.
#![tactic(auto)]

ghost use Rattle.std.specs.Prelude.{◌+◌, ◌/◌, ◌≤◌, ◌<◌, ◌≡◌, length};
ghost use Rattle.std.proofs.lemmas.List.Edits.{sets};
ghost use Rattle.chip.specs.Bytes.{word_bytes, word_at, words_of};

pub const WORD_BYTES: usize = 4;

// Puts the words that the bytes make at the start of the lent words. Fewer than four bytes at the end make none.
pub fn fill_words(bytes: &[u8], words: &mut [u32])
    requires { length bytes.now / word_bytes ≤ length words.old }
    ensures { words.new ≡ sets words.old 0 (words_of bytes.now) }
{
    for i in 0..bytes.len() / WORD_BYTES {
        words[i] = word_at(bytes, WORD_BYTES * i);
    }
}

// The word that four bytes make, from a place on.
pub fn word_at(bytes: &[u8], at: usize) -> u32
    requires { at + word_bytes ≤ length bytes.now }
    ensures { result ≡ word_at bytes.now at }
{
    u32::from_le_bytes([bytes[at], bytes[at + 1], bytes[at + 2], bytes[at + 3]])
}
