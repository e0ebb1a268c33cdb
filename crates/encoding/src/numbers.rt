// What stands for nothing.
ghost use Rattle.std.specs.Prelude.{Some};
ghost use Rattle.encoding.specs.Numbers.{text_of};

use std::error::Error;
use std::fmt;

// A number that no layout, or no method, has.
#[derive(Clone, Copy, Debug, PartialEq, Eq, Hash)]
pub struct NoNumber(pub u32);

impl fmt::Display for NoNumber {
    ghost output = { λ e. Some (text_of e) };

    fn fmt<W: fmt::Write>(&self, f: &mut fmt::Formatter<W>) -> fmt::Result {
        write!(f, "nothing has number {}", self.0)
    }
}

impl Error for NoNumber {}
