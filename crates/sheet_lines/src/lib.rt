// The lines that a sheet prints, each put into a text: of a fault, of a call, and the last lines.
#![tactic(auto)]

ghost use Rattle.std.specs.Prelude.{◌+◌, ◌≤◌, ◌<◌, ◌≡◌, length};
ghost use Rattle.printing.specs.Grown.{Grown};
ghost use Rattle.printing.specs.Line.{line};
ghost use Rattle.sheet_lines.specs.Lines.{fault_name, name_of, level_name, level_lines, last_lines};

use printing::Text;
use reading::Operation;

// Prints the number of a faulty line.
pub fn fault_line(text: &mut Text, number: u32)
    requires { text.old.end + 26 ≤ length text.old.room.now }
    ensures grown { Grown text.old (line fault_name number) text.new }
    ensures upper_bound { text.new.end ≤ text.old.end + 26 }
{
    text.line(b"line=", u64::from(number));
}

// Prints the line of a call, with the number that the call told.
pub fn call_line(text: &mut Text, operation: Operation, told: u64)
    requires told_bound { told < 100 }
    requires room { text.old.end + 26 ≤ length text.old.room.now }
    ensures grown { Grown text.old (line (name_of operation) told) text.new }
    ensures upper_bound { text.new.end ≤ text.old.end + 8 }
{
    text.line(name_of(operation), told);
}

// The name of a call's line.
fn name_of(operation: Operation) -> &'static [u8]
    ensures { result.now ≡ name_of operation }
{
    match operation {
        Operation::Put => b"put=",
        Operation::Drop => b"drop=",
        Operation::Ask => b"ask=",
    }
}

// Prints the last lines.
pub fn last_lines(text: &mut Text, levels: u32, live: u32, counts: [u32; 4], pages: u64)
    requires levels_bound { levels ≤ 4 }
    requires room { text.old.end + 165 ≤ length text.old.room.now }
    ensures grown { Grown text.old (last_lines levels live counts pages) text.new }
    ensures upper_bound { text.new.end ≤ text.old.end + 165 }
{
    text.line(b"live=", u64::from(live));
    level_lines(text, levels as usize, counts);
    text.line(b"pages=", pages);
}

// The lines of the head and of each level that exists, with the index entries in it.
fn level_lines(text: &mut Text, levels: usize, counts: [u32; 4])
    requires levels_bound { levels ≤ 4 }
    requires room { text.old.end + 112 ≤ length text.old.room.now }
    ensures grown { Grown text.old (level_lines levels counts) text.new }
    ensures upper_bound { text.new.end ≤ text.old.end + 112 }
{
    for level in 0..levels {
        text.line(level_name(level), u64::from(counts[level]));
    }
}

// The name of the line of the head, or of a level below it.
fn level_name(level: usize) -> &'static [u8]
    ensures { result.now ≡ level_name level }
{
    match level {
        0 => b"head=",
        1 => b"level1=",
        2 => b"level2=",
        _ => b"level3=",
    }
}
