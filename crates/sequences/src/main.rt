// Makes long sequences of calls and tells them by digests, as the second program does: how numbers are drawn, what is called and what is
// printed stands at the head of second/src/replay.rs and second/src/digest.rs. Standard input is a list of sequences, each of seven 32-bit
// numbers, lowest byte first: H, k, l, the seed, the calls, the interval, and after how many calls the store is damaged (0 for never).
#![tactic(auto)]

ghost use Rattle.std.specs.Prelude.{◌≤◌, length};
ghost use Rattle.geometry.specs.Geometry.{InRange};
ghost use Rattle.sequences.specs.Fit.{Fit, WorkFit, Planned};

mod calls;
mod damage;
mod digests;
mod draws;
mod lines;

use calls::call;
use damage::damage_word;
use digests::Digest;
use draws::Draws;
use geometry::{Geometry, Plan};
use lines::{digest_line, title_line};
use script::{geometry_at, word_at};
use std::io;
use std::io::Read;

// The most bytes of the list that are read.
const MOST_BYTES: u64 = 4096;

// The bytes of one sequence in the list: seven numbers.
const SEQUENCE_BYTES: usize = 28;

// A sequence to make. M and the words before level 1 follow from the geometry.
#[derive(Clone, Copy)]
pub struct Sequence {
    pub geometry: Geometry,
    pub most: u32,
    pub head_words: u32,
    pub seed: u32,
    pub calls: u32,
    pub interval: u32,
    pub damage: u32,
}

// A sequence between two calls: where the congruence stands, the mode, the digest of replies.
#[derive(Clone, Copy)]
pub struct State {
    pub draws: Draws,
    pub filling: bool,
    pub replies: Digest,
}

fn main(rt: HostRuntime) -> io::Result<()> {
    let mut input = Vec::new(rt.alloc());
    rt.stdin().take(MOST_BYTES).read_to_end(&mut input)?;
    let mut store = vec![in rt.alloc(); 0u32; 123088]?;
    let mut work = vec![in rt.alloc(); 0u32; 99904]?;
    make_all(&rt, &input, &mut store, &mut work)
}

// Makes each sequence of a list.
fn make_all(rt: &impl Print, list: &[u8], store: &mut [u32], work: &mut [u32]) -> io::Result<()> {
    for numbers in list.chunks(SEQUENCE_BYTES) {
        make(rt, numbers, store, work)?;
    }
    Ok(())
}

// Makes the sequence of these numbers, in the first words of the store and of the work area, where they are long enough.
fn make(rt: &impl Print, numbers: &[u8], store: &mut [u32], work: &mut [u32]) -> io::Result<()> {
    let g = geometry_at(numbers, 0);
    if !geometry::in_range(g) {
        return Ok(());
    }
    let plan = geometry::plan_for(g);
    let words = plan.store_words as usize;
    let room = plan.work_words as usize;
    if store.len() < words {
        return Ok(());
    }
    if work.len() < room {
        return Ok(());
    }
    let s = sequence_of(numbers, g, plan);
    run(rt, s, &mut store[0..words], &mut work[0..room])
}

fn sequence_of(numbers: &[u8], g: Geometry, plan: Plan) -> Sequence
    requires { InRange g }
    ensures { Planned g plan result }
{
    let bottom = (g.levels - 1) as usize;
    Sequence {
        geometry: g,
        most: plan.capacities[bottom],
        head_words: plan.starts[1],
        seed: word_at(numbers, 12),
        calls: word_at(numbers, 16),
        interval: word_at(numbers, 20),
        damage: word_at(numbers, 24),
    }
}

// Makes a sequence's calls.
fn run(rt: &impl Print, s: Sequence, store: &mut [u32], work: &mut [u32]) -> io::Result<()>
    requires fit { Fit s (length store.old) }
    requires work_fit { WorkFit (length work.old) }
{
    title_line(rt, s)?;
    let mut state = State {
        draws: Draws(s.seed),
        filling: true,
        replies: Digest::EMPTY,
    };
    for made in 0..s.calls {
        turn(rt, s, &mut state, made + 1, store, work)?;
    }
    Ok(())
}

// Makes call number `calls`, with what comes before it, and prints the line after it.
fn turn(
    rt: &impl Print,
    s: Sequence,
    state: &mut State,
    calls: u32,
    store: &mut [u32],
    work: &mut [u32],
) -> io::Result<()>
    requires fit { Fit s (length store.old) }
    requires work_fit { WorkFit (length work.old) }
    requires le_calls { 1 ≤ calls }
{
    prepare(s, state, calls - 1, store, work);
    call(s, state, store, work);
    if is_told(s, calls) {
        digest_line(rt, calls, store, work, state)?;
    }
    Ok(())
}

// Whether a line is printed after `calls` calls.
fn is_told(s: Sequence, calls: u32) -> bool {
    calls == s.calls || s.interval == 0 || calls % s.interval == 0
}

// What comes before a call: a numbered work area after a merge, a fresh store, damage.
fn prepare(s: Sequence, state: &mut State, calls: u32, store: &mut [u32], work: &mut [u32])
    requires fit { Fit s (length store.old) }
    requires work_fit { WorkFit (length work.old) }
{
    renew(work);
    if s.damage == 0 {
        if calls == 0 {
            start(s, state, store, work);
        }
        return;
    }
    let damage = u64::from(s.damage);
    let place = u64::from(calls) % (damage + 8);
    if place == 0 {
        start(s, state, store, work);
    } else if place == damage {
        damage_word(s, &mut state.draws, store);
        damage_word(s, &mut state.draws, store);
    }
}

// Numbers the words of a work area that a merge erased.
fn renew(work: &mut [u32])
    requires { WorkFit (length work.old) }
{
    if work[0] == geometry::ERASED {
        number_words(work, 0);
    }
}

// Starts anew: a formatted store, a numbered work area, filling.
fn start(s: Sequence, state: &mut State, store: &mut [u32], work: &mut [u32])
    requires { WorkFit (length work.old) }
{
    store.fill(0);
    number_words(work, 0);
    state.filling = true;
    let number = index::format_reply(index::format(store, s.geometry));
    state.replies.add_words(&[number, 0]);
}

// Word j becomes first + j.
pub fn number_words(words: &mut [u32], first: u32)
    requires { (length words.old ≤ 1000000) × (first ≤ 1000000) }
{
    for (i, word) in words.iter_mut().enumerate() {
        *word = first + i as u32;
    }
}
