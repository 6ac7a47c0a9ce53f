// The lines of the levels that a walk read, from its trail, put into a lent buffer.
#![tactic(auto)]

ghost use Rattle.std.specs.Prelude.{◌+◌, ◌≤◌, length};
ghost use Rattle.trail_words.specs.Places.{trail_levels};
ghost use Rattle.printing.specs.Grown.{Grown};
ghost use Rattle.printing.specs.Line.{digits_room};
ghost use Rattle.why_levels.specs.Lines.{level_texts, level_text, place_text, step_text, if_any, entry_text};

use printing::Text;

// Puts the lines of the levels read behind the text.
pub fn level_lines(text: &mut Text, trail: &[u32; 22])
    requires { text.old.end + 324 ≤ length text.old.room.now }
    ensures grown { Grown text.old (level_texts trail.now trail_levels) text.new }
    ensures upper_bound { text.new.end ≤ text.old.end + 324 }
{
    for level in 0..trail_words::LEVELS {
        level_line(text, trail, level);
    }
}

// The line of a level, if it was read.
fn level_line(text: &mut Text, trail: &[u32; 22], level: usize)
    requires level_bound { level ≤ 3 }
    requires room { text.old.end + 81 ≤ length text.old.room.now }
    ensures grown { Grown text.old (level_text trail.now level) text.new }
    ensures upper_bound { text.new.end ≤ text.old.end + 81 }
{
    let start = trail_words::FIRST_LINE + trail_words::LINE_WORDS * level;
    if trail[start + trail_words::READ] == 0 {
        return;
    }
    place_told(
        text,
        level as u32,
        trail[start + trail_words::PAGE],
        trail[start + trail_words::REACH],
    );
    step_told(
        text,
        trail[start + trail_words::ENTRY],
        trail[start + trail_words::FOLLOWED],
    );
}

// The first words of a level's line: the level, the page, and the last slot at or below the pair.
fn place_told(text: &mut Text, level: u32, page: u32, reach: u32)
    requires { text.old.end + 48 ≤ length text.old.room.now }
    ensures grown { Grown text.old (place_text level page reach) text.new }
    ensures upper_bound { text.new.end ≤ text.old.end + 48 }
{
    text.named(b"level=", level);
    text.named(b" page=", page);
    put_if_any(text, b" slot=", reach);
}

// The last words of a level's line: the entry of the pair, and the page followed.
fn step_told(text: &mut Text, entry: u32, followed: u32)
    requires { text.old.end + 33 ≤ length text.old.room.now }
    ensures grown { Grown text.old (step_text entry followed) text.new }
    ensures upper_bound { text.new.end ≤ text.old.end + 33 }
{
    put_entry(text, entry);
    put_if_any(text, b" follows=", followed);
    text.bytes(b"\n");
}

// A name and the number that n is one more than. 0 stands for none, and gets nothing.
fn put_if_any(text: &mut Text, name: &[u8], n: u32)
    requires { text.old.end + (length name.now + digits_room) ≤ length text.old.room.now }
    ensures grown { Grown text.old (if_any name.now n) text.new }
    ensures upper_bound { text.new.end ≤ text.old.end + (length name.now + digits_room) }
{
    if n == 0 {
        return;
    }
    text.named(name, n - 1);
}

fn put_entry(text: &mut Text, entry: u32)
    requires { text.old.end + 13 ≤ length text.old.room.now }
    ensures grown { Grown text.old (entry_text entry) text.new }
    ensures upper_bound { text.new.end ≤ text.old.end + 13 }
{
    match entry {
        trail_words::NORMAL => text.bytes(b" entry=normal"),
        trail_words::FILTER => text.bytes(b" entry=filter"),
        _ => {}
    }
}
