// The words of a trail, which tells why a pair is held or not: the values of ask's reply, then a line of words for each of the levels 0 to 3.
#![tactic(auto)]

// Held, 1 or 0, and the deciding level.
pub const HELD: usize = 0;

pub const DECIDED: usize = 1;

// The place of a fault, of which a refusal tells in the first words: its level, page and slot.
pub const FAULT_LEVEL: usize = 0;

pub const FAULT_PAGE: usize = 1;

pub const FAULT_SLOT: usize = 2;

// Where the line of level 0 begins, and the words of a line.
pub const FIRST_LINE: usize = 2;

pub const LINE_WORDS: usize = 5;

// A line: read, 1 or 0; the page; the slots at most the pair; the entry of the pair; the page followed and one more, 0 for none.
pub const READ: usize = 0;

pub const PAGE: usize = 1;

pub const REACH: usize = 2;

pub const ENTRY: usize = 3;

pub const FOLLOWED: usize = 4;

// What stands for an entry. 0 stands for none.
pub const NORMAL: u32 = 1;

pub const FILTER: u32 = 2;

// The levels that have a line.
pub const LEVELS: usize = 4;
