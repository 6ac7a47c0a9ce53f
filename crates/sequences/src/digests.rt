// A digest of words: FNV-1a of 64 bits over each word's four bytes, lowest first.

#[derive(Clone, Copy)]
pub struct Digest(pub u64);

const PRIME: u64 = 1099511628211;

impl Digest {
    // The digest of no words.
    pub const EMPTY: Digest = Digest(14695981039346656037);

    // The digest of words.
    pub fn of(words: &[u32]) -> Digest {
        let mut digest = Digest::EMPTY;
        digest.add_words(words);
        digest
    }

    pub fn add_words(&mut self, words: &[u32]) {
        for word in words {
            self.add_word(*word);
        }
    }

    pub fn add_word(&mut self, word: u32) {
        for byte in word.to_le_bytes() {
            self.0 = (self.0 ^ u64::from(byte)).wrapping_mul(PRIME);
        }
    }
}
