// What a number in the script begins.
ghost use Rattle.std.specs.Prelude.{◌≤◌};

#[derive(Clone, Copy)]
pub enum Op {
    Ask,
    Check,
    List,
    Edit(Edit),
    Format,
    Why,
}

#[derive(Clone, Copy)]
pub enum Edit {
    Put,
    Drop,
}

// A number that begins no call.
#[derive(Clone, Copy)]
pub struct UnknownOp;

impl TryFrom<u32> for Op {
    type Error = UnknownOp;

    fn try_from(number: u32) -> Result<Op, UnknownOp> {
        match number {
            2 => Ok(Op::Ask),
            3 => Ok(Op::Check),
            4 => Ok(Op::List),
            5 => Ok(Op::Edit(Edit::Put)),
            6 => Ok(Op::Edit(Edit::Drop)),
            7 => Ok(Op::Format),
            8 => Ok(Op::Why),
            _ => Err(UnknownOp),
        }
    }
}

impl Op {
    // How many bytes a call takes in the script.
    pub fn length(self) -> usize
        ensures { (4 ≤ result) × (result ≤ 24) }
    {
        match self {
            Op::Check => 4,
            Op::Ask | Op::Why => 12,
            Op::Edit(_) | Op::Format => 16,
            Op::List => 24,
        }
    }
}
