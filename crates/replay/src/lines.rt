// The parts of a line.
ghost use Rattle.std.specs.Prelude.{◌≤◌, ◌<◌, ◌≡◌, length};

use std::io;

// A reply's number and its values.
pub fn print_reply(rt: &impl Print, number: u32, values: &[u32]) -> io::Result<()> {
    print!(rt; "{number}")?;
    print_words(rt, values)
}

pub fn print_words(rt: &impl Print, words: &[u32]) -> io::Result<()> {
    for word in words {
        print_number(rt, *word)?;
    }
    Ok(())
}

pub fn print_number(rt: &impl Print, n: u32) -> io::Result<()> {
    print!(rt; " {n}")
}

pub fn end_line(rt: &impl Print) -> io::Result<()> {
    println!(rt)
}

// The words that are other than before, a run of one word as ` 12=0*3`.
pub fn print_changes(rt: &impl Print, before: &[u32], after: &[u32]) -> io::Result<()> {
    let n = before.len().min(after.len());
    let mut i = 0;
    while i < n {
        let end = run_end(before, after, i, n);
        if end == i {
            i += 1;
        } else {
            print_run(rt, i, after[i], end - i)?;
            i = end;
        }
    }
    Ok(())
}

// Where the words end that are other than before and the same as the one at a place.
fn run_end(before: &[u32], after: &[u32], from: usize, to: usize) -> usize
    requires { (from < to) × (to ≤ length before.now) × (to ≤ length after.now) }
    ensures { (from ≤ result) × (result ≤ to) }
{
    let word = after[from];
    for i in from..to {
        if before[i] == after[i] || after[i] != word {
            return i;
        }
    }
    to
}

fn print_run(rt: &impl Print, at: usize, word: u32, count: usize) -> io::Result<()> {
    print!(rt; " {at}={word}")?;
    if count != 1 {
        print!(rt; "*{count}")?;
    }
    Ok(())
}
