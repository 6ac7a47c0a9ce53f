// The calls of a sequence: each draws what it needs, is made, and gives its reply to the digest of replies.
ghost use Rattle.std.specs.Prelude.{◌≤◌, length};
ghost use Rattle.sequences.specs.Fit.{Fit, WorkFit};

use crate::digests::Digest;
use crate::{Sequence, State, number_words};
use index::{Changed, EditRefusal, ask_reply, check_reply, edit_reply, list_reply};
use slot::Pair;

// Makes one call.
pub fn call(s: Sequence, state: &mut State, store: &mut [u32], work: &mut [u32])
    requires fit { Fit s (length store.old) }
    requires work_fit { WorkFit (length work.old) }
{
    let choice = state.draws.number(64);
    match choice {
        0..=51 if (choice < 44) == state.filling => put_call(s, state, store, work, 0),
        0..=51 => drop_call(s, state, store, work),
        52..=60 => ask_call(s, state, store),
        61 => put_call(s, state, store, work, 1),
        62 => list_call(s, state, store),
        _ => check_call(state, store),
    }
}

// Puts a pair. It is lent the work area without its last `short` words.
fn put_call(s: Sequence, state: &mut State, store: &mut [u32], work: &mut [u32], short: usize)
    requires fit { Fit s (length store.old) }
    requires short_in_bounds { short ≤ length work.old }
{
    let pair = state.draws.pair(s.most);
    let lent = work.len() - short;
    let changed = index::put(store, &mut work[..lent], pair);
    add_edit(&mut state.replies, changed);
    if matches!(changed.answer, Err(EditRefusal::Full)) && state.draws.number(4) == 0 {
        state.filling = false;
    }
}

fn drop_call(s: Sequence, state: &mut State, store: &mut [u32], work: &mut [u32])
    requires { Fit s (length store.old) }
{
    let pair = state.draws.pair(s.most);
    let changed = index::drop(store, work, pair);
    add_edit(&mut state.replies, changed);
    // Accepted, and a quarter of the most live pairs is left, or fewer.
    if changed.answer.is_ok_and(|done| done.live <= s.most / 4) {
        state.filling = true;
    }
}

fn add_edit(replies: &mut Digest, changed: Changed) {
    let reply = edit_reply(changed);
    add_reply(replies, reply.number, &reply.values, &reply.values);
}

// Asks for a pair, and why the answer is as it is.
fn ask_call(s: Sequence, state: &mut State, store: &[u32])
    requires { Fit s (length store.now) }
{
    let pair = state.draws.pair(s.most);
    let reply = ask_reply(index::ask(store, pair));
    add_reply(
        &mut state.replies,
        reply.number,
        &reply.values[..2],
        &reply.values,
    );
    add_why(&mut state.replies, store, pair);
}

fn add_why(replies: &mut Digest, store: &[u32], pair: Pair) {
    let mut trail = [0; 22];
    let reply = ask_reply(index::why(store, pair, &mut trail));
    add_reply(replies, reply.number, &trail, &trail);
}

fn check_call(state: &mut State, store: &[u32]) {
    let reply = check_reply(index::check(store));
    add_reply(
        &mut state.replies,
        reply.number,
        &reply.values[..1],
        &reply.values,
    );
}

// Lists from one pair to another into fewer than 50 words.
fn list_call(s: Sequence, state: &mut State, store: &[u32])
    requires { Fit s (length store.now) }
{
    let first = state.draws.pair(s.most);
    let second = state.draws.pair(s.most);
    let n = state.draws.number(50) as usize;
    let mut slice = [0; 50];
    number_words(&mut slice, 1000);
    add_list(&mut state.replies, store, first, second, &mut slice[..n]);
}

// Lists into a slice, whose words are given to the digest too.
fn add_list(replies: &mut Digest, store: &[u32], first: Pair, second: Pair, slice: &mut [u32]) {
    let reply = list_reply(index::list(store, first, second, slice));
    add_reply(replies, reply.number, &reply.values[..2], &reply.values);
    replies.add_words(slice);
}

// Gives a reply to the digest: its number, and then what an answer tells, or of a refusal the first three values.
fn add_reply(replies: &mut Digest, number: u32, answer: &[u32], values: &[u32]) {
    replies.add_word(number);
    if number == 0 {
        replies.add_words(answer);
    } else if let Some(place) = values.get(..3) {
        replies.add_words(place);
    }
}
