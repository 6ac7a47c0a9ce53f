// Runs the bench table's eleven cases with the public calls, and prints the replies and figures that the table speaks of. second/src/cases.rs
// makes the same calls, compares them with the table, and writes the same lines.
#![tactic(auto)]

ghost use Rattle.std.specs.Prelude.{◌≤◌};

use geometry::{Geometry, HEAD_START, PAGE_COUNTS, PAGE_WORDS, SLOT_WORDS};
use index::{Reply, ask_reply, edit_reply, format_reply, list_reply};
use slot::{Kind, Pair, Pid, Rid};
use std::io;

// A badge or floor above all others.
const GREATEST: u32 = u32::MAX;

// Where level 1 begins in a store of 21, 2, 2 and of 10, 4, 3: after H + Pg(1) head slots.
const LEVEL_1_OF_21_2_2: usize = 78;

const LEVEL_1_OF_10_4_3: usize = 48;

#[derive(Clone, Copy)]
pub enum Op {
    Put,
    Drop,
}

fn main(rt: HostRuntime) -> io::Result<()> {
    let mut store = [0u32; 152];
    let mut work = [0u32; 64];
    case_1(&rt, &mut store, &mut work)?;
    case_2(&rt, &mut store, &mut work)?;
    case_3(&rt, &mut store, &mut work)?;
    case_4(&rt, &mut store, &mut work)?;
    case_5(&rt, &mut store, &mut work)?;
    let mut two_pages = [0u32; 206];
    let mut two_page_work = [0u32; 128];
    case_6(&rt, &mut two_pages, &mut two_page_work)?;
    case_7(&rt, &mut two_pages, &mut two_page_work)?;
    let mut inner_fence = [0u32; 752];
    let mut inner_fence_work = [0u32; 512];
    case_8(&rt, &mut inner_fence, &mut inner_fence_work)?;
    case_9(&rt)?;
    case_10(&rt, &mut store, &mut work)?;
    case_11(&rt, &mut two_pages, &mut two_page_work)
}

// 4,2,3: put badges 1..4: the fourth merges into level 1, one page.
fn case_1(rt: &impl Print, store: &mut [u32], work: &mut [u32]) -> io::Result<()> {
    begin(rt, 1, store, 4, 2, 3)?;
    edit_all(rt, store, work, Op::Put, 1, 3, 0)?;
    edit_all(rt, store, work, Op::Put, 4, 4, 0)
}

// Then drop 2: live 3, head 1; put 2: live 4, head 0, no merge.
fn case_2(rt: &impl Print, store: &mut [u32], work: &mut [u32]) -> io::Result<()> {
    begin(rt, 2, store, 4, 2, 3)?;
    edit_all(rt, store, work, Op::Put, 1, 4, 0)?;
    edit_all(rt, store, work, Op::Drop, 2, 2, 0)?;
    edit_all(rt, store, work, Op::Put, 2, 2, 0)
}

// After 1, drop 1..4: live 0, level 1 has 0 entries, one page written.
fn case_3(rt: &impl Print, store: &mut [u32], work: &mut [u32]) -> io::Result<()> {
    begin(rt, 3, store, 4, 2, 3)?;
    edit_all(rt, store, work, Op::Put, 1, 4, 0)?;
    edit_all(rt, store, work, Op::Drop, 1, 4, 0)
}

// 4,2,3: put 1..8: pages 4 in all.
fn case_4(rt: &impl Print, store: &mut [u32], work: &mut [u32]) -> io::Result<()> {
    begin(rt, 4, store, 4, 2, 3)?;
    edit_all(rt, store, work, Op::Put, 1, 8, 0)
}

// Put 1..16: pages 8.
fn case_5(rt: &impl Print, store: &mut [u32], work: &mut [u32]) -> io::Result<()> {
    begin(rt, 5, store, 4, 2, 3)?;
    edit_all(rt, store, work, Op::Put, 1, 16, 0)?;
    when_full(rt, store, work)
}

// Put 17: reply 4. Put 16: reply 2. Drop 1, put 17: done.
fn when_full(rt: &impl Print, store: &mut [u32], work: &mut [u32]) -> io::Result<()> {
    edit_all(rt, store, work, Op::Put, 17, 17, 0)?;
    edit_all(rt, store, work, Op::Put, 16, 16, 0)?;
    edit_all(rt, store, work, Op::Drop, 1, 1, 0)?;
    edit_all(rt, store, work, Op::Put, 17, 17, 0)
}

// 21,2,2: put 1..42: pages 1, then 2; head fences (0,0) to page 0 and (22,0) to page 1.
fn case_6(rt: &impl Print, store: &mut [u32], work: &mut [u32]) -> io::Result<()> {
    begin(rt, 6, store, 21, 2, 2)?;
    edit_all(rt, store, work, Op::Put, 1, 21, 0)?;
    edit_all(rt, store, work, Op::Put, 22, 42, 0)?;
    slot_line(rt, "head slot 0: ", store, HEAD_START)?;
    slot_line(rt, "head slot 1: ", store, HEAD_START + SLOT_WORDS)
}

// There, ask 21 reads page 0, ask 22 page 1, ask 43 page 1 and says no: a page is read exactly if damage to its slot count is told.
fn case_7(rt: &impl Print, store: &mut [u32], work: &mut [u32]) -> io::Result<()> {
    begin(rt, 7, store, 21, 2, 2)?;
    edit_all(rt, store, work, Op::Put, 1, 42, 0)?;
    ask_pages(rt, store, 21)?;
    ask_pages(rt, store, 22)?;
    ask_pages(rt, store, 43)
}

// 10,4,3: put 1..30, floor 5: level 1 has two pages; the second opens with internal fence (21,5) to page 0; pages 4.
fn case_8(rt: &impl Print, store: &mut [u32], work: &mut [u32]) -> io::Result<()> {
    begin(rt, 8, store, 10, 4, 3)?;
    edit_all(rt, store, work, Op::Put, 1, 30, 5)?;
    number_line(rt, "level 1 has pages ", word_at(store, PAGE_COUNTS + 1))?;
    slot_line(
        rt,
        "level 1 page 1 slot 0: ",
        store,
        LEVEL_1_OF_10_4_3 + PAGE_WORDS + 1,
    )
}

// A fence to page 300 has tag 1202, and reads back as 300.
fn case_9(rt: &impl Print) -> io::Result<()> {
    number_line(rt, "case ", 9)?;
    let tag = slot::tag_of(Kind::External, Pid(300));
    number_line(rt, "tag ", tag)?;
    let page = slot::page_of(tag);
    number_line(rt, "page ", page.0)
}

// Fewer than H puts: pages 0. Pair (4294967295, 4294967295) is put, asked and dropped.
fn case_10(rt: &impl Print, store: &mut [u32], work: &mut [u32]) -> io::Result<()> {
    begin(rt, 10, store, 4, 2, 3)?;
    edit_all(rt, store, work, Op::Put, 1, 2, 0)?;
    edit_all(rt, store, work, Op::Put, GREATEST, GREATEST, GREATEST)?;
    ask_line(rt, store, GREATEST, GREATEST)?;
    edit_all(rt, store, work, Op::Drop, GREATEST, GREATEST, GREATEST)?;
    ask_line(rt, store, GREATEST, GREATEST)
}

// List 1..42 of case 6 into 5 words: two pairs, mark 1, fifth word as before.
fn case_11(rt: &impl Print, store: &mut [u32], work: &mut [u32]) -> io::Result<()> {
    begin(rt, 11, store, 21, 2, 2)?;
    edit_all(rt, store, work, Op::Put, 1, 42, 0)?;
    let mut slice = [1000, 1001, 1002, 1003, 1004];
    list_line(rt, store, 1, 42, &mut slice)?;
    print!(rt; "words")?;
    print_words(rt, &slice)?;
    println!(rt)
}

// The case's number, and the store of the empty set.
fn begin(
    rt: &impl Print,
    case: u32,
    store: &mut [u32],
    head: u32,
    ratio: u32,
    levels: u32,
) -> io::Result<()> {
    number_line(rt, "case ", case)?;
    let reply = format_reply(index::format(
        store,
        Geometry {
            head,
            ratio,
            levels,
        },
    ));
    println!(rt; "format {head},{ratio},{levels}: reply {reply}")
}

// Puts or drops the badges from a first to a last at one floor, and prints the pages written in all and the last reply.
fn edit_all(
    rt: &impl Print,
    store: &mut [u32],
    work: &mut [u32],
    op: Op,
    first: u32,
    last: u32,
    floor: u32,
) -> io::Result<()> {
    let mut pages: u32 = 0;
    for badge in first..last {
        pages = pages.wrapping_add(pages_of(edit(store, work, op, badge, floor)));
    }
    let reply = edit(store, work, op, last, floor);
    pages = pages.wrapping_add(pages_of(reply));
    let name = match op {
        Op::Put => "put",
        Op::Drop => "drop",
    };
    print!(rt; "{name} {first} to {last} at {floor} wrote {pages}")?;
    edit_line(rt, reply)
}

fn edit(store: &mut [u32], work: &mut [u32], op: Op, badge: u32, floor: u32) -> Reply<7> {
    let pair = pair(badge, floor);
    let changed = match op {
        Op::Put => index::put(store, work, pair),
        Op::Drop => index::drop(store, work, pair),
    };
    edit_reply(changed)
}

// The pages that an edit has written, which are the third value. A refusal has written none.
fn pages_of(reply: Reply<7>) -> u32 {
    if reply.number == 0 {
        reply.values[2]
    } else {
        0
    }
}

fn edit_line(rt: &impl Print, reply: Reply<7>) -> io::Result<()> {
    let [live, deepest, pages, head, one, two, three] = reply.values;
    if reply.number != 0 {
        return refusal_line(rt, reply.number, live, deepest, pages);
    }
    print!(rt; ": reply 0 live {live} deepest {deepest} pages {pages}")?;
    println!(rt; " entries {head} {one} {two} {three}")
}

fn refusal_line(rt: &impl Print, reply: u32, level: u32, page: u32, slot: u32) -> io::Result<()> {
    println!(rt; ": reply {reply} level {level} page {page} slot {slot}")
}

// Asks for a badge with every page as it is, and then with page 0 and with page 1 of level 1 damaged.
fn ask_pages(rt: &impl Print, store: &mut [u32], badge: u32) -> io::Result<()> {
    ask_line(rt, store, badge, 0)?;
    print!(rt; "page 0 damaged: ")?;
    ask_damaged(rt, store, badge, LEVEL_1_OF_21_2_2)?;
    print!(rt; "page 1 damaged: ")?;
    ask_damaged(rt, store, badge, LEVEL_1_OF_21_2_2 + PAGE_WORDS)
}

// Asks for a badge with the slot count at a place above 21, and mends it again.
fn ask_damaged(rt: &impl Print, store: &mut [u32], badge: u32, place: usize) -> io::Result<()> {
    if store.len() <= place {
        return Ok(());
    }
    let count = store[place];
    store[place] = 22;
    let told = ask_line(rt, store, badge, 0);
    store[place] = count;
    told
}

fn ask_line(rt: &impl Print, store: &[u32], badge: u32, floor: u32) -> io::Result<()> {
    print!(rt; "ask {badge} at {floor}")?;
    let reply = ask_reply(index::ask(store, pair(badge, floor)));
    let [first, second, third] = reply.values;
    if reply.number != 0 {
        return refusal_line(rt, reply.number, first, second, third);
    }
    println!(rt; ": reply 0 held {first} level {second}")
}

fn list_line(
    rt: &impl Print,
    store: &[u32],
    first: u32,
    last: u32,
    slice: &mut [u32],
) -> io::Result<()> {
    print!(rt; "list {first} to {last}")?;
    let reply = list_reply(index::list(store, pair(first, 0), pair(last, 0), slice));
    let [first, second, third] = reply.values;
    if reply.number != 0 {
        return refusal_line(rt, reply.number, first, second, third);
    }
    println!(rt; ": reply 0 pairs {first} mark {second}")
}

fn print_words(rt: &impl Print, words: &[u32]) -> io::Result<()> {
    for word in words {
        print!(rt; " {word}")?;
    }
    Ok(())
}

// The three words of the slot at a place.
fn slot_line(rt: &impl Print, name: &str, store: &[u32], place: usize) -> io::Result<()>
    requires { place ≤ 752 }
{
    let badge = word_at(store, place);
    let floor = word_at(store, place + 1);
    let tag = word_at(store, place + 2);
    println!(rt; "{name}{badge} {floor} {tag}")
}

// The word at a place, 0 past the end.
fn word_at(store: &[u32], place: usize) -> u32 {
    store.get(place).copied().unwrap_or(0)
}

fn pair(badge: u32, floor: u32) -> Pair {
    Pair {
        badge,
        floor: Rid(floor),
    }
}

fn number_line(rt: &impl Print, name: &str, n: u32) -> io::Result<()> {
    println!(rt; "{name}{n}")
}
