// How numbers and the elements of a ring are written.
ghost use Rattle.std.specs.Prelude.{◌≡◌, ℕ, ◌<◌, List, codes, MatchOption, ◌≢◌};
ghost use Rattle.console.specs.Decimal.{ReadsDecimal};
ghost use Rattle.console.specs.Hexadecimal.{digit_code, byte_text};

use crate::trouble::{Misread, Trouble};
use ring::{Number, Ring};
use std::fmt;

// With a name, read and show of its own, and no FromStr or Display: the rings' types are the language's own, so no impl of those
// can stand here.
pub(crate) trait Notation: Ring + Clone {
    ghost called: { List ℕ };

    fn name() -> &'static str
        ensures { result.now ≡ called };

    // An element is its coordinates with commas, unless its ring has a form of its own.
    fn read(word: &str) -> Result<Self, Trouble<'_>> {
        read_coordinates(word)
    }

    fn show<W: fmt::Write>(self, f: &mut fmt::Formatter<W>) -> fmt::Result {
        show_coordinates(self, f)
    }
}

// An element as its ring writes it.
#[derive(Clone, Copy)]
pub(crate) struct Written<R>(pub(crate) R);

impl<R: Notation> fmt::Display for Written<R> {
    fn fmt<W: fmt::Write>(&self, f: &mut fmt::Formatter<W>) -> fmt::Result {
        self.0.show(f)
    }
}

impl Notation for [u64; 4] {
    ghost called = { codes "w4" };

    fn name() -> &'static str {
        "w4"
    }
}

impl Notation for u8 {
    ghost called = { codes "b8" };

    fn name() -> &'static str {
        "b8"
    }

    fn read(word: &str) -> Result<u8, Trouble<'_>> {
        read_byte(word).ok_or(Trouble::Line(Misread::Byte, word))
    }

    fn show<W: fmt::Write>(self, f: &mut fmt::Formatter<W>) -> fmt::Result {
        write!(f, "0x{self:02x}")
    }
}

// The number that decimal digits alone write: `parse` would take a plus too.
pub(crate) fn read_number(word: &str) -> Result<u64, Trouble<'_>>
    ensures { ReadsDecimal word.now result }
{
    if word.starts_with('+') {
        return Err(Trouble::Line(Misread::Number, word));
    }
    word.parse::<u64>()
        .map_err(|_| Trouble::Line(Misread::Number, word))
}

// Coordinates that are left out at the end are zero.
fn read_coordinates<R: Ring>(word: &str) -> Result<R, Trouble<'_>> {
    let mut sum = R::zero();
    for (place, part) in word.split(',').enumerate() {
        if place >= R::DEGREE {
            return Err(Trouble::Line(Misread::Length, word));
        }
        match read_number(part) {
            Ok(value) if u128::from(value) < R::MODULUS => {
                sum = sum.add(R::embed(value, place));
            }
            _ => return Err(Trouble::Line(Misread::Coordinate, word)),
        }
    }
    Ok(sum)
}

fn show_coordinates<R: Ring, W: fmt::Write>(element: R, f: &mut fmt::Formatter<W>) -> fmt::Result {
    for place in 0..R::DEGREE {
        if place > 0 {
            f.write_str(",")?;
        }
        let value = element.coordinate(place).wide();
        write!(f, "{value}")?;
    }
    Ok(())
}

// A byte is written with both its hexadecimal digits, in lower case.
fn read_byte(word: &str) -> Option<u8>
    ensures { MatchOption result ((b : ℕ) → b < 256 → word.now ≢ byte_text b) (λ b. word.now ≡ byte_text b) }
{
    match word.as_bytes() {
        [b'0', b'x', high, low] => Some(hexadecimal(*high)? * 16 + hexadecimal(*low)?),
        _ => None,
    }
}

// In lower case alone: `to_digit` and `from_str_radix` would take the other too.
fn hexadecimal(digit: u8) -> Option<u8>
    ensures { MatchOption result ((v : ℕ) → v < 16 → digit_code v ≢ digit) (λ v. (v < 16) × (digit_code v ≡ digit)) }
{
    match digit {
        b'0'..=b'9' => Some(digit - b'0'),
        b'a'..=b'f' => Some(digit - b'a' + 10),
        _ => None,
    }
}

// A gate's code is written with all its eight hexadecimal digits, in either case. Not by `from_str_radix`: it would take a plus
// too, and the library's one loop for every radix would then serve `read_number` as well, which is slower by a third.
pub(crate) fn read_code(word: &str) -> Result<u32, Trouble<'_>> {
    code_of(word.as_bytes()).ok_or(Trouble::Line(Misread::Code, word))
}

fn code_of(digits: &[u8]) -> Option<u32> {
    if digits.len() != 8 {
        return None;
    }
    digits.iter().try_fold(0, |code, digit| {
        Some(code << 4 | u32::from(hexadecimal(digit.to_ascii_lowercase())?))
    })
}
