// The lines that tell why a badge may call a floor or not, put into a lent buffer.
#![tactic(auto)]

ghost use Rattle.std.specs.Prelude.{◌+◌, ◌≤◌, ◌≡◌, length};
ghost use Rattle.fault.specs.Numbers.{number_of};
ghost use Rattle.printing.specs.Grown.{Grown};
ghost use Rattle.call_ask.specs.Ask.{ask_reply};
ghost use Rattle.why_lines.specs.Fault.{fault_told, fault_line, damage_text, page_text, writing_text, across_text, placeless, kind_text};
ghost use Rattle.why_lines.specs.Lines.{text_room, reply_text, answer_text, verdict_text, sentence_text, refusal_text, entry_of, pair_text, stands_text};

use fault::{Fault, Part};
use opening::Refusal;
use printing::Text;
use slot::Pair;
use walk::Found;
use why_levels::level_lines;

// The bytes that the lines of any reply fit into.
pub const TEXT_ROOM: usize = 512;

// Puts the lines of a reply behind the text: of what `why` came to, and the trail that it left.
pub fn reply_lines(text: &mut Text, asked: Result<Found, Refusal>, trail: &[u32; 22], pair: Pair)
    requires { text.old.end + text_room ≤ length text.old.room.now }
    ensures grown { Grown text.old (reply_text (ask_reply asked).number trail.now pair) text.new }
    ensures upper_bound { text.new.end ≤ text.old.end + text_room }
{
    match asked {
        Ok(_) => answer_lines(text, trail, pair),
        Err(Refusal::Range) => text.bytes(
            b"reply=1\nThe chip cannot be read: its first three words name no geometry.\n",
        ),
        Err(Refusal::Length) => text.bytes(
            b"reply=5\nThe chip cannot be read: its length is not the one that its geometry asks for.\n",
        ),
        Err(Refusal::Fault(fault)) => fault_lines(
            text,
            Fault::at(
                fault.part,
                trail[trail_words::FAULT_LEVEL],
                trail[trail_words::FAULT_PAGE],
                trail[trail_words::FAULT_SLOT],
            ),
        ),
    }
}

// The lines of a fault: the number of the reply with the place, and a sentence.
fn fault_lines(text: &mut Text, fault: Fault)
    requires { text.old.end + 182 ≤ length text.old.room.now }
    ensures grown { Grown text.old (fault_told (number_of fault.part) fault) text.new }
    ensures upper_bound { text.new.end ≤ text.old.end + 182 }
{
    fault_line(text, fault.part.into(), fault);
    text.bytes(b"\nThe store is damaged: ");
    damage_told(text, fault);
    text.bytes(b".\n");
}

// The number of the reply and the place of the fault.
fn fault_line(text: &mut Text, number: u32, fault: Fault)
    requires { text.old.end + 65 ≤ length text.old.room.now }
    ensures grown { Grown text.old (fault_line number fault.level fault.page fault.slot) text.new }
    ensures upper_bound { text.new.end ≤ text.old.end + 65 }
{
    text.named(b"reply=", number);
    text.named(b" level=", fault.level);
    text.named(b" page=", fault.page);
    text.named(b" slot=", fault.slot);
}

// What is damaged.
fn damage_told(text: &mut Text, fault: Fault)
    requires { text.old.end + 92 ≤ length text.old.room.now }
    ensures grown { Grown text.old (damage_text (number_of fault.part) fault.level fault.page fault.slot) text.new }
    ensures upper_bound { text.new.end ≤ text.old.end + 92 }
{
    match fault.part {
        Part::Directory => text.bytes(b"its directory is wrong"),
        Part::Head => text.named(b"the head is wrong at slot ", fault.slot),
        Part::Page => page_told(text, fault),
        Part::Writing => writing_told(text, fault),
        Part::Kinds => across_told(text, fault),
    }
}

// That the form of a page is wrong.
fn page_told(text: &mut Text, fault: Fault)
    requires { text.old.end + 63 ≤ length text.old.room.now }
    ensures grown { Grown text.old (page_text fault.level fault.page fault.slot) text.new }
    ensures upper_bound { text.new.end ≤ text.old.end + 63 }
{
    text.named(b"page ", fault.page);
    text.named(b" of level ", fault.level);
    text.named(b" is wrong at slot ", fault.slot);
}

// That a level is not the writing of its entries.
fn writing_told(text: &mut Text, fault: Fault)
    requires { text.old.end + 79 ≤ length text.old.room.now }
    ensures grown { Grown text.old (writing_text fault.level fault.page fault.slot) text.new }
    ensures upper_bound { text.new.end ≤ text.old.end + 79 }
{
    text.named(b"level ", fault.level);
    text.named(b" is not as it is written, at slot ", fault.slot);
    text.named(b" of page ", fault.page);
}

// That the levels do not fit together: an entry, or the number of pairs, which has no place.
fn across_told(text: &mut Text, fault: Fault)
    requires { text.old.end + 92 ≤ length text.old.room.now }
    ensures grown { Grown text.old (across_text fault.level fault.page fault.slot) text.new }
    ensures upper_bound { text.new.end ≤ text.old.end + 92 }
{
    if is_placeless(fault) {
        return text.bytes(b"the number of pairs is wrong");
    }
    kind_told(text, fault);
}

// That an entry is of the wrong kind.
fn kind_told(text: &mut Text, fault: Fault)
    requires { text.old.end + 92 ≤ length text.old.room.now }
    ensures grown { Grown text.old (kind_text fault.level fault.page fault.slot) text.new }
    ensures upper_bound { text.new.end ≤ text.old.end + 92 }
{
    text.named(b"an entry in level ", fault.level);
    text.named(b", page ", fault.page);
    text.named(b", slot ", fault.slot);
    text.bytes(b" does not fit the levels below");
}

// Whether a place is all zeros.
fn is_placeless(fault: Fault) -> bool
    ensures { result ≡ placeless fault.level fault.page fault.slot }
{
    fault.level == 0 && fault.page == 0 && fault.slot == 0
}

// The lines of an answer: those of the levels read, the verdict, and a sentence.
fn answer_lines(text: &mut Text, trail: &[u32; 22], pair: Pair)
    requires { text.old.end + 467 ≤ length text.old.room.now }
    ensures grown { Grown text.old (answer_text trail.now pair) text.new }
    ensures upper_bound { text.new.end ≤ text.old.end + 467 }
{
    level_lines(text, trail);
    verdict_line(text, trail[trail_words::HELD], trail[trail_words::DECIDED]);
    sentence(text, trail, pair);
}

// The line of the verdict: held or not, and the deciding level.
fn verdict_line(text: &mut Text, held: u32, decided: u32)
    requires { text.old.end + 35 ≤ length text.old.room.now }
    ensures grown { Grown text.old (verdict_text held decided) text.new }
    ensures upper_bound { text.new.end ≤ text.old.end + 35 }
{
    text.named(b"held=", held);
    text.named(b" decided=", decided);
    text.bytes(b"\n");
}

// Whether the badge may call the floor, and by what.
fn sentence(text: &mut Text, trail: &[u32; 22], pair: Pair)
    requires { text.old.end + 108 ≤ length text.old.room.now }
    ensures grown { Grown text.old (sentence_text trail.now pair) text.new }
    ensures upper_bound { text.new.end ≤ text.old.end + 108 }
{
    let decided = trail[trail_words::DECIDED];
    if trail[trail_words::HELD] == 1 {
        pair_told(text, b" may call floor ", pair);
        return stands_in(
            text,
            b": it was added, and the addition stands in level ",
            decided,
        );
    }
    refusal_told(text, pair, decided, entry_at(trail, decided));
}

// That the badge may not call the floor: a filter in the deciding level removed the pair, or no level decides.
fn refusal_told(text: &mut Text, pair: Pair, decided: u32, entry: u32)
    requires { text.old.end + 108 ≤ length text.old.room.now }
    ensures grown { Grown text.old (refusal_text pair decided entry) text.new }
    ensures upper_bound { text.new.end ≤ text.old.end + 108 }
{
    pair_told(text, b" may not call floor ", pair);
    if entry == trail_words::FILTER {
        return stands_in(
            text,
            b": it was removed, and the removal stands in level ",
            decided,
        );
    }
    text.bytes(b": no entry for it was found.\n");
}

// A badge and a floor, with what the badge may do between them.
fn pair_told(text: &mut Text, may: &[u8], pair: Pair)
    requires { text.old.end + (length may.now + 26) ≤ length text.old.room.now }
    ensures grown { Grown text.old (pair_text may.now pair) text.new }
    ensures upper_bound { text.new.end ≤ text.old.end + (length may.now + 26) }
{
    text.named(b"Badge ", pair.badge);
    text.named(may, pair.floor.0);
}

// The end of a sentence: what stands in a level.
fn stands_in(text: &mut Text, what: &[u8], level: u32)
    requires { text.old.end + (length what.now + 12) ≤ length text.old.room.now }
    ensures grown { Grown text.old (stands_text what.now level) text.new }
    ensures upper_bound { text.new.end ≤ text.old.end + (length what.now + 12) }
{
    text.named(what, level);
    text.bytes(b".\n");
}

// The entry of the pair in a level. A level that has no line has none.
fn entry_at(trail: &[u32; 22], level: u32) -> u32
    ensures { result ≡ entry_of trail.now level }
{
    if trail_words::LEVELS <= level as usize {
        return 0;
    }
    trail[trail_words::FIRST_LINE + trail_words::LINE_WORDS * level as usize + trail_words::ENTRY]
}
