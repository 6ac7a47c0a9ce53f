// What a test of a store finds. Every call hands a fault on as it is, and only its reply looks into it.
#![tactic(auto)]

ghost use Rattle.std.specs.Prelude.{◌≡◌};
ghost use Rattle.fault.specs.Numbers.{number_of, fault_in, no_place};

// What is at fault and where. Level, page and slot are each 0 where they have no meaning; pages and slots count from 0, and the head is level 0,
// page 0.
#[derive(Clone, Copy, PartialEq, Eq)]
pub struct Fault {
    pub part: Part,
    pub level: u32,
    pub page: u32,
    pub slot: u32,
}

// What is at fault, in the order in which the whole store is tested: the directory; the head, as ask tests it; the form of a page; all else in
// a level's writing; kinds, alternation and live across levels.
#[derive(Clone, Copy, PartialEq, Eq)]
pub enum Part {
    Directory,
    Head,
    Page,
    Writing,
    Kinds,
}

impl Fault {
    // A fault of a part in a slot of a page of a level.
    pub fn at(part: Part, level: u32, page: u32, slot: u32) -> Fault
        ensures { result ≡ fault_in part level page slot }
    {
        Fault {
            part,
            level,
            page,
            slot,
        }
    }

    // A fault of a part, without a place.
    pub fn of(part: Part) -> Fault
        ensures { result ≡ no_place part }
    {
        Fault::at(part, 0, 0, 0)
    }
}

// The number of the reply that tells it.
impl From<Part> for u32 {
    ghost from_gives = { λ part n. n ≡ number_of part };

    fn from(part: Part) -> u32 {
        match part {
            Part::Directory => 10,
            Part::Head => 11,
            Part::Page => 12,
            Part::Writing => 13,
            Part::Kinds => 14,
        }
    }
}
