// Text put into a lent buffer: bytes, a name with a number in decimal without leading zeros, and a line of these, which byte 10 ends.
#![tactic(auto)]

ghost use Rattle.std.specs.Prelude.{◌+◌, ◌<◌, ◌≤◌, ◌≡◌, length};
ghost use Rattle.printing.specs.Decimal.{decimal};
ghost use Rattle.printing.specs.Grown.{Grown};
ghost use Rattle.printing.specs.Line.{named, line, digits_room, number_room};

// A lent buffer, and how far it is filled.
#[derive(Drop)]
pub struct Text<'a> {
    pub room: &'a mut [u8],
    pub end: usize,
}

impl Text<'_> {
    // Puts a line behind the text. There must be room for a number of 20 digits.
    pub fn line(&mut self, name: &[u8], n: u64)
        requires { self.old.end + (length name.now + number_room) ≤ length self.old.room.now }
        ensures grown { Grown self.old (line name.now n) self.new }
        ensures upper_bound { self.new.end ≤ self.old.end + (length name.now + number_room) }
    {
        self.bytes(name);
        self.number(n);
        self.bytes(b"\n");
    }

    // Puts a name and a number behind the text. There must be room for ten digits.
    pub fn named(&mut self, name: &[u8], n: u32)
        requires { self.old.end + (length name.now + digits_room) ≤ length self.old.room.now }
        ensures grown { Grown self.old (named name.now n) self.new }
        ensures upper_bound { self.new.end ≤ self.old.end + (length name.now + digits_room) }
    {
        self.bytes(name);
        self.number(u64::from(n));
    }

    // Puts bytes behind the text.
    pub fn bytes(&mut self, text: &[u8])
        requires { self.old.end + length text.now ≤ length self.old.room.now }
        ensures { Grown self.old text.now self.new }
    {
        let end = self.end + text.len();
        self.room[self.end..end].copy_from_slice(text);
        self.end = end;
    }

    // Puts a number behind the text.
    #[tactic(auto, using(crate::specs::Decimal::length_digit, crate::specs::Decimal::length_more))]
    fn number(&mut self, n: u64)
        requires { self.old.end + length (decimal n) ≤ length self.old.room.now }
        ensures { Grown self.old (decimal n) self.new }
    {
        let first = self.end;
        if n < 10 {
            self.room[first] = digit(n);
            self.end = first + 1;
            return;
        }
        self.number(n / 10);
        let last = self.end;
        self.room[last] = digit(n % 10);
        self.end = last + 1;
    }
}

// The ASCII code of a digit.
fn digit(d: u64) -> u8
    requires { d < 10 }
    ensures { result ≡ 48 + d }
{
    b'0' + d as u8
}
