// Why a line gets no answer of its own: it is misread, there is no memory for it, or what it asks for is refused. The last two are
// told as an answer is, and are no errors of the run.
ghost use Rattle.std.specs.Prelude.{◌≡◌};

use curve::refusal::Refusal;
use std::alloc::{AllocError, AllocFailed};
use std::fmt;

// What is wrong with a line.
#[derive(Clone, Copy)]
pub(crate) enum Misread {
    Text,
    Command,
    Ring,
    Few,
    Many,
    Number,
    Length,
    Coordinate,
    Byte,
    Code,
    Layout,
    Parts,
    Gap,
    High,
    Node,
    Kind,
    Exchange,
}

// A line that is misread, with the words that are wrong; want of memory for what the line says; or the refusal of the call that
// it asks for.
#[derive(Clone, Copy)]
pub(crate) enum Trouble<'a> {
    Line(Misread, &'a str),
    // Not `Refused(Refusal::Memory)`: this one comes before anything is changed, so the session is the very same, and that one is
    // a call's own answer.
    Memory,
    Refused(Refusal),
}

// A word that names nothing of its kind. Each kind reads its own words by a match, which the check goes through case by case: a
// table of names would be longer and say less.
#[derive(Clone, Copy, Debug, PartialEq, Eq)]
pub(crate) struct Unknown;

impl From<Refusal> for Trouble<'_> {
    ghost use Rattle.console.specs.declared.trouble.Trouble.TheVariants.{Refused};

    ghost from_gives = { λ refusal t. t ≡ Refused refusal };

    fn from(refusal: Refusal) -> Self {
        Trouble::Refused(refusal)
    }
}

impl From<AllocError> for Trouble<'_> {
    ghost use Rattle.console.specs.declared.trouble.Trouble.TheVariants.{Memory};

    ghost from_gives = { λ _ t. t ≡ Memory };

    fn from(_e: AllocError) -> Self {
        Self::Memory
    }
}

impl<T: Drop> From<AllocFailed<T>> for Trouble<'_> {
    ghost use Rattle.console.specs.declared.trouble.Trouble.TheVariants.{Memory};

    ghost from_gives = { λ _ t. t ≡ Memory };

    fn from(_e: AllocFailed<T>) -> Self {
        Trouble::from(AllocError)
    }
}

impl fmt::Display for Misread {
    fn fmt<W: fmt::Write>(&self, f: &mut fmt::Formatter<W>) -> fmt::Result {
        f.write_str(match self {
            Misread::Text => "not UTF-8",
            Misread::Command => "unknown command",
            Misread::Ring => "unknown ring",
            Misread::Few => "too few arguments",
            Misread::Many => "too many arguments, from here on",
            Misread::Number => "not a decimal number below 2^64",
            Misread::Length => "more coordinates than the ring has",
            Misread::Coordinate => "a coordinate that is not a decimal number below the modulus",
            Misread::Byte => "not a byte in the form 0x57",
            Misread::Code => "not a code of eight hexadecimal digits",
            Misread::Layout => "no layout, which are 0 to 3",
            Misread::Parts => "not one part for each seat",
            Misread::Gap => "a number that leaves a gap",
            Misread::High => "no word high before the high parts",
            Misread::Node => "no node was made yet",
            Misread::Kind => "no kind of exchange",
            Misread::Exchange => "no exchange was made yet",
        })
    }
}

impl fmt::Display for Trouble<'_> {
    fn fmt<W: fmt::Write>(&self, f: &mut fmt::Formatter<W>) -> fmt::Result {
        match *self {
            Trouble::Line(misread, words) => write!(f, "{misread}: {words}"),
            Trouble::Memory => write!(f, "refused {}", Refusal::Memory),
            Trouble::Refused(refusal) => match refusal.number() {
                Some(number) => write!(f, "refused {number} {refusal}"),
                None => write!(f, "refused {refusal}"),
            },
        }
    }
}
