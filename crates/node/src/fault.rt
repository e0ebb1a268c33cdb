// Why a seat stopped.
ghost use Rattle.std.specs.Prelude.{◌≡◌, Some};
ghost use Rattle.node.specs.Faults.{number_of, gate_of, place_of, text_of};

use std::error::Error;
use std::fmt;

// The number of the fault of a row that does not open.
pub const OFF_CURVE: u8 = 41;

// A row that does not open, with the gate of its opening and the seat that is off the polynomial; or an output's value that is
// not zero off its layout, with its gate and the coordinate.
#[derive(Clone, Copy, Debug, PartialEq, Eq, Hash)]
pub enum Fault {
    Row { gate: usize, seat: usize },
    Lanes { gate: usize, coordinate: usize },
}

// Three numbers of one fault: a conversion to a number could give one alone.
impl Fault {
    // The number in the rules' table.
    pub fn number(self) -> u8
        ensures { result ≡ number_of self }
    {
        match self {
            Fault::Row { .. } => OFF_CURVE,
            Fault::Lanes { .. } => 42,
        }
    }

    pub fn gate(self) -> usize
        ensures { result ≡ gate_of self }
    {
        match self {
            Fault::Row { gate, .. } | Fault::Lanes { gate, .. } => gate,
        }
    }

    // The seat or the coordinate.
    pub fn place(self) -> usize
        ensures { result ≡ place_of self }
    {
        match self {
            Fault::Row { seat, .. } => seat,
            Fault::Lanes { coordinate, .. } => coordinate,
        }
    }
}

impl fmt::Display for Fault {
    ghost output = { λ f. Some (text_of f) };

    fn fmt<W: fmt::Write>(&self, f: &mut fmt::Formatter<W>) -> fmt::Result {
        let (number, gate, place) = (self.number(), self.gate(), self.place());
        write!(f, "fault {number} gate {gate} place {place}")
    }
}

impl Error for Fault {}
