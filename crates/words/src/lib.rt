// Words of a lent slice set to unused, and copied from another.
#![tactic(auto)]

ghost use Rattle.std.specs.Prelude.{◌+◌, ◌-◌, ◌≤◌, ◌≡◌, length, take, replicate};
ghost use Rattle.std.proofs.lemmas.List.Edits.{sets};
ghost use Rattle.geometry.specs.Places.{erased};

// Sets the words from a place to another to unused.
pub fn erase(words: &mut [u32], from: usize, to: usize)
    requires { to ≤ length words.old }
    ensures { words.new ≡ sets words.old from (replicate (to - from) erased) }
{
    words[from.min(to)..to].fill(geometry::ERASED);
}

// Copies the first n words of a slice to a place on.
pub fn copy_in(words: &mut [u32], place: usize, from: &[u32], n: usize)
    requires { (place + n ≤ length words.old) × (n ≤ length from.now) }
    ensures { words.new ≡ sets words.old place (take n from.now) }
{
    for j in 0..n {
        words[place + j] = from[j];
    }
}
