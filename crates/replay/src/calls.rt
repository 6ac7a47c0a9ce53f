// The calls of a script: each is made on what is lent, and its line printed.
ghost use Rattle.std.specs.Prelude.{◌≤◌, ◌≡◌, length};

use crate::lines::{end_line, print_changes, print_reply, print_words};
use crate::op::Edit;
use geometry::Geometry;
use index::{ask_reply, check_reply, edit_reply, format_reply, list_reply};
use slot::Pair;
use std::io;

// The words that there are for a work area, for a list and for a copy of the store.
const MOST_WORDS: usize = 4096;

pub fn ask_line(rt: &impl Print, store: &[u32], pair: Pair) -> io::Result<()> {
    let reply = ask_reply(index::ask(store, pair));
    print_reply(rt, reply.number, &reply.values)?;
    end_line(rt)
}

// The line has every word of the trail, also after a refusal.
pub fn why_line(rt: &impl Print, store: &[u32], pair: Pair) -> io::Result<()> {
    let mut trail = [0u32; 22];
    let reply = ask_reply(index::why(store, pair, &mut trail));
    print_reply(rt, reply.number, &trail)?;
    end_line(rt)
}

pub fn check_line(rt: &impl Print, store: &[u32]) -> io::Result<()> {
    let reply = check_reply(index::check(store));
    print_reply(rt, reply.number, &reply.values)?;
    end_line(rt)
}

// Lists into a slice of `words` words, of which word j is 1000 + j.
pub fn list_line(
    rt: &impl Print,
    store: &[u32],
    first: Pair,
    second: Pair,
    words: u32,
) -> io::Result<()> {
    let mut room = numbered(1000);
    let n = MOST_WORDS.min(words as usize);
    list_into(rt, store, first, second, &mut room[..n])
}

fn list_into(
    rt: &impl Print,
    store: &[u32],
    first: Pair,
    second: Pair,
    slice: &mut [u32],
) -> io::Result<()> {
    let reply = list_reply(index::list(store, first, second, slice));
    print_reply(rt, reply.number, &reply.values)?;
    print_words(rt, slice)?;
    end_line(rt)
}

// Puts or drops a pair, with a work area of `words` words, of which word j is j.
pub fn edit_line(
    rt: &impl Print,
    store: &mut [u32],
    edit: Edit,
    pair: Pair,
    words: u32,
) -> io::Result<()> {
    let mut room = numbered(0);
    let n = MOST_WORDS.min(words as usize);
    edit_with(rt, store, &mut room[..n], edit, pair)
}

fn edit_with(
    rt: &impl Print,
    store: &mut [u32],
    work: &mut [u32],
    edit: Edit,
    pair: Pair,
) -> io::Result<()> {
    let before = copied(store);
    let fresh = copied(work);
    let changed = match edit {
        Edit::Put => index::put(store, work, pair),
        Edit::Drop => index::drop(store, work, pair),
    };
    let reply = edit_reply(changed);
    print_reply(rt, reply.number, &reply.values)?;
    print!(rt; " store")?;
    print_changes(rt, &before, store)?;
    print!(rt; " work")?;
    print_changes(rt, &fresh, work)?;
    end_line(rt)
}

pub fn format_line(rt: &impl Print, store: &mut [u32], g: Geometry) -> io::Result<()> {
    let before = copied(store);
    let number = format_reply(index::format(store, g));
    print!(rt; "{number} store")?;
    print_changes(rt, &before, store)?;
    end_line(rt)
}

// Word j is `first` + j.
fn numbered(first: u32) -> [u32; MOST_WORDS]
    requires { first ≤ 1000 }
    ensures { length result ≡ 4096 }
{
    let mut words = [first; MOST_WORDS];
    for (i, word) in words.iter_mut().enumerate() {
        *word = first + i as u32;
    }
    words
}

// A copy of words that are lent.
fn copied(lent: &[u32]) -> [u32; MOST_WORDS]
    ensures { length result ≡ 4096 }
{
    let n = lent.len().min(MOST_WORDS);
    let mut words = [0; MOST_WORDS];
    words[..n].copy_from_slice(&lent[..n]);
    words
}
