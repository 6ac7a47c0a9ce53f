// Replays stored calls. Standard input is a script of 32-bit numbers, lowest byte first:
//   1 n (count word) ..            a store, as n runs of one word each
//   2 badge floor                  ask
//   3                              check
//   4 badge floor badge floor n    list into n words, of which word j is 1000 + j
//   5 badge floor n                put, with a work area of n words, of which word j is j
//   6 badge floor n                drop, likewise
//   7 H k l                        format
//   8 badge floor                  why
// Each call prints a line: the reply's number and its values, after a list the words of the slice, and after a put, a drop or a format the
// words that it changed, those of the store behind `store` and those of the work area behind `work`. There ` 8=2 12=0*3` says that word 8
// is 2 now, and that words 12 to 14 are 0.
#![tactic(auto)]

ghost use Rattle.std.specs.Prelude.{◌+◌, ◌<◌, ◌≤◌, length, vec_capacity, vec_len, IfOk, ◌≡◌};

mod calls;
mod lines;
mod op;

use calls::{ask_line, check_line, edit_line, format_line, list_line, why_line};
use lines::end_line;
use op::{Op, UnknownOp};
use script::{geometry_at, pair_at, word_at};
use std::alloc::{AllocError, Global};
use std::io;
use std::io::Read;

// The most bytes of a script that are read.
const MOST_BYTES: usize = 1048576;

// What begins a store.
const STORE: u32 = 1;

fn main(rt: HostRuntime) -> io::Result<()> {
    let mut input = room(rt.alloc())?;
    rt.stdin().take(MOST_BYTES as u64).read_to_end(&mut input)?;
    let mut store = [0u32; 4096];
    replay(&rt, &input, &mut store)
}

// Room for a script, with no byte in it yet.
fn room(alloc: Global) -> Result<Vec<u8>, AllocError>
    ensures { IfOk result (λ v. (1048576 ≤ vec_capacity v) × (vec_len v ≡ 0)) }
{
    Vec::with_capacity(alloc, MOST_BYTES)
}

// Goes through a script to its end. A number that begins nothing has an empty line.
fn replay(rt: &impl Print, script: &[u8], store: &mut [u32]) -> io::Result<()> {
    let mut at = 0;
    let mut words = 0;
    while at < script.len() {
        let number = word_at(script, at);
        if number == STORE {
            let loaded = load(script, at + 4, store);
            at = loaded.next;
            words = loaded.words;
        } else {
            let n = words.min(store.len());
            at += turn(rt, script, at, Op::try_from(number), &mut store[..n])?;
        }
    }
    Ok(())
}

// Makes a call, where there is one, and gives how many bytes of the script it took.
fn turn(
    rt: &impl Print,
    script: &[u8],
    at: usize,
    op: Result<Op, UnknownOp>,
    store: &mut [u32],
) -> io::Result<usize>
    requires { at < length script.now }
    ensures { IfOk result (λ n. (4 ≤ n) × (n ≤ 24)) }
{
    let Ok(op) = op else {
        end_line(rt)?;
        return Ok(4);
    };
    call(rt, script, at, op, store)?;
    Ok(op.length())
}

// Makes one call and prints its line.
fn call(rt: &impl Print, script: &[u8], at: usize, op: Op, store: &mut [u32]) -> io::Result<()>
    requires { at < length script.now }
{
    let pair = pair_at(script, at + 4);
    let words = word_at(script, at + 12);
    match op {
        Op::Ask => ask_line(rt, store, pair),
        Op::Check => check_line(rt, store),
        Op::List => list_line(
            rt,
            store,
            pair,
            pair_at(script, at + 12),
            word_at(script, at + 20),
        ),
        Op::Edit(edit) => edit_line(rt, store, edit, pair, words),
        Op::Format => format_line(rt, store, geometry_at(script, at + 4)),
        Op::Why => why_line(rt, store, pair),
    }
}

// Where a store's runs end in the script, and how many words they filled.
#[derive(Clone, Copy)]
pub struct Loaded {
    pub next: usize,
    pub words: usize,
}

// Fills the store with the runs at a place of the script, as far as it goes.
fn load(script: &[u8], at: usize, store: &mut [u32]) -> Loaded
    requires { at ≤ length script.now + 4 }
    ensures { at < result.next }
{
    let runs = word_at(script, at) as usize;
    let mut words = 0;
    for run in 0..runs {
        let place = at + 4 + 8 * run;
        words = fill(
            store,
            words,
            word_at(script, place),
            word_at(script, place + 4),
        );
    }
    Loaded {
        next: at + 4 + 8 * runs,
        words,
    }
}

// Writes a word count times from a place on, as far as the store goes; where it stopped.
fn fill(store: &mut [u32], from: usize, count: u32, word: u32) -> usize {
    let start = from.min(store.len());
    let end = (start + count as usize).min(store.len());
    store[start..end].fill(word);
    end
}
