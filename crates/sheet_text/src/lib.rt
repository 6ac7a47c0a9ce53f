// The sheet program, bytes in and bytes out: what a sheet prints.
#![tactic(auto)]

ghost use Rattle.std.specs.Prelude.{◌≤◌, ◌≡◌, length, replicate};
ghost use Rattle.geometry.specs.Places.{store_words};
ghost use Rattle.printing.specs.Grown.{Grown};
ghost use Rattle.printing.specs.Printed.{Printed};
ghost use Rattle.reading.specs.Sheet.{most_words};
ghost use Rattle.reading.specs.Told.{Ready};
ghost use Rattle.sheet_calls.specs.Calls.{first_work};
ghost use Rattle.sheet_text.specs.Text.{sheet_of, text_room, printed_in};

use printing::Text;
use reading::Heading;
use sheet_calls::{begin, make_call};
use sheet_lines::{call_line, fault_line, last_lines};

// The bytes that the text of any sheet fits into.
pub const TEXT_ROOM: usize = 16640;

// Puts the text of a sheet at the start of the buffer, and gives its length; a buffer of fewer than `TEXT_ROOM` bytes gets none of it.
pub fn run_sheet(input: &[u8], out: &mut [u8]) -> usize
    ensures text { Printed out.old 0 (printed_in (length out.old) input.now) out.new result }
    ensures fits { result ≤ length out.old }
{
    if out.len() < TEXT_ROOM {
        return 0;
    }
    let mut text = Text { room: out, end: 0 };
    print_sheet(input, &mut text);
    text.end
}

// Puts the text of a sheet, or its first faulty line.
fn print_sheet(input: &[u8], text: &mut Text)
    requires at_start { text.old.end ≡ 0 }
    requires text_room_in_bounds { text_room ≤ length text.old.room.now }
    ensures grown { Grown text.old (sheet_of input.now) text.new }
    ensures fits { text.new.end ≤ length text.old.room.now }
{
    match reading::judge(input) {
        Ok(heading) => run_judged(input, heading, text),
        Err(line) => fault_line(text, line),
    }
}

// The text of a sheet without fault.
fn run_judged(input: &[u8], heading: Heading, text: &mut Text)
    requires ready { Ready input.now heading.geometry heading.next }
    requires at_start { text.old.end ≡ 0 }
    requires text_room_in_bounds { text_room ≤ length text.old.room.now }
    ensures grown { Grown text.old (sheet_of input.now) text.new }
    ensures fits { text.new.end ≤ length text.old.room.now }
{
    let plan = geometry::plan_for(heading.geometry);
    let store_words = plan.store_words as usize;
    let work_words = plan.work_words as usize;
    let mut store = zeros();
    let mut work = zeros();
    make_calls(
        input,
        heading,
        &mut store[0..store_words],
        &mut work[0..work_words],
        text,
    );
}

// Zeros, as many words as the longest store of a sheet has.
fn zeros() -> [u32; 4096]
    ensures { result ≡ replicate most_words 0 }
{
    [0; 4096]
}

// Formats a store of zeros, makes the calls that the requests ask for on it, each with its line, and prints the last lines.
fn make_calls(input: &[u8], heading: Heading, store: &mut [u32], work: &mut [u32], text: &mut Text)
    requires ready { Ready input.now heading.geometry heading.next }
    requires store_value { store.old ≡ replicate (store_words heading.geometry) 0 }
    requires work_value { work.old ≡ first_work heading.geometry }
    requires at_start { text.old.end ≡ 0 }
    requires text_room_in_bounds { text_room ≤ length text.old.room.now }
    ensures grown { Grown text.old (sheet_of input.now) text.new }
    ensures fits { text.new.end ≤ length text.old.room.now }
{
    let mut progress = begin(store, heading.geometry);
    let mut at = heading.next;
    while at < input.len() {
        let Ok(group) = reading::read_group(input, at) else {
            return;
        };
        progress = make_call(store, work, group.request, progress);
        call_line(text, group.request.operation, progress.told);
        at = group.next;
    }
    last_lines(
        text,
        heading.geometry.levels,
        store[geometry::LIVE],
        progress.entries,
        progress.pages,
    );
}
