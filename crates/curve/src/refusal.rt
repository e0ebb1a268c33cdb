ghost use Rattle.std.specs.Prelude.{◌≡◌, Some};
ghost use Rattle.curve.specs.Refusals.{number_of, name_of};
ghost use Rattle.curve.specs.declared.refusal.Refusal.TheVariants.{Memory};

use std::alloc::{AllocError, AllocFailed};
use std::error::Error;
use std::fmt;

// Why a call is refused. Each has the number and the name of the rules' table; want of memory has no number.
#[derive(Clone, Copy, Debug, PartialEq, Eq, Hash)]
pub enum Refusal {
    Seats,
    Threshold,
    Length,
    Operand,
    Layout,
    Detail,
    Missing,
    Placed,
    Halted,
    Done,
    Seat,
    Common,
    Output,
    Unopened,
    Own,
    Memory,
}

impl Refusal {
    // The number in the rules' table. Want of memory has none, so it is no conversion.
    pub fn number(self) -> Option<u8>
        ensures { result ≡ number_of self }
    {
        match self {
            Refusal::Seats => Some(1),
            Refusal::Threshold => Some(2),
            Refusal::Length => Some(3),
            Refusal::Operand => Some(4),
            Refusal::Layout => Some(5),
            Refusal::Detail => Some(6),
            Refusal::Missing => Some(7),
            Refusal::Placed => Some(8),
            Refusal::Halted => Some(9),
            Refusal::Done => Some(10),
            Refusal::Seat => Some(11),
            Refusal::Common => Some(12),
            Refusal::Output => Some(13),
            Refusal::Unopened => Some(14),
            Refusal::Own => Some(15),
            Refusal::Memory => None,
        }
    }
}

// The name in the rules' table.
impl fmt::Display for Refusal {
    ghost output = { λ r. Some (name_of r) };

    fn fmt<W: fmt::Write>(&self, f: &mut fmt::Formatter<W>) -> fmt::Result {
        f.write_str(match self {
            Refusal::Seats => "seats",
            Refusal::Threshold => "threshold",
            Refusal::Length => "length",
            Refusal::Operand => "operand",
            Refusal::Layout => "layout",
            Refusal::Detail => "detail",
            Refusal::Missing => "missing",
            Refusal::Placed => "placed",
            Refusal::Halted => "halted",
            Refusal::Done => "done",
            Refusal::Seat => "seat",
            Refusal::Common => "common",
            Refusal::Output => "output",
            Refusal::Unopened => "unopened",
            Refusal::Own => "own",
            Refusal::Memory => "memory",
        })
    }
}

impl Error for Refusal {}

impl From<AllocError> for Refusal {
    ghost from_gives = { λ _ r. r ≡ Memory };

    fn from(_e: AllocError) -> Refusal {
        Self::Memory
    }
}

impl<T: Drop> From<AllocFailed<T>> for Refusal {
    ghost from_gives = { λ _ r. r ≡ Memory };

    fn from(_e: AllocFailed<T>) -> Refusal {
        Refusal::from(AllocError)
    }
}
