// What a command answers, over the ring that it ran in.
ghost use Rattle.std.specs.Iterator.{IsFinite};

use crate::notation::{Notation, Written};
use circuit::checked::Circuit;
use curve::OffCurve;
use encoding::layout::Layout;
use encoding::values::read_lane;
use node::fault::{Fault, OFF_CURVE};
use std::fmt;

#[derive(Drop)]
pub(crate) enum Answer<R> {
    Ring,
    Element(R),
    Number(u64),
    Truth(bool),
    Shares(Vec<R>),
    Opened(Result<R, OffCurve>),
    Positions(Layout),
    Gates(usize),
    Constants(usize),
    Checked(Circuit),
    Plain(Circuit, Vec<R>),
    Done,
    Seen(Option<R>),
    Accepted,
    Fault(Fault),
}

impl<R: Notation> fmt::Display for Answer<R> {
    fn fmt<W: fmt::Write>(&self, f: &mut fmt::Formatter<W>) -> fmt::Result {
        match self {
            Answer::Ring => show_ring::<R, W>(f),
            Answer::Element(element) => element.show(f),
            Answer::Number(number) => write!(f, "{number}"),
            Answer::Truth(truth) => f.write_str(if *truth { "yes" } else { "no" }),
            Answer::Shares(shares) => {
                show_each("shares", shares.iter().map(|share| Written(*share)), f)
            }
            Answer::Opened(Ok(value)) => write!(f, "value {}", Written(*value)),
            Answer::Opened(Err(OffCurve { seat })) => write!(f, "fault {OFF_CURVE} place {seat}"),
            Answer::Positions(layout) => {
                let lanes = 0..layout.lane_count(R::DEGREE);
                show_each(
                    "positions",
                    lanes.map(|lane| layout.position(R::DEGREE, lane)),
                    f,
                )
            }
            Answer::Gates(count) => write!(f, "gates {count}"),
            Answer::Constants(count) => write!(f, "constants {count}"),
            Answer::Checked(circuit) => {
                show_each(
                    "ok layouts",
                    circuit.layouts().iter().map(|layout| u32::from(*layout)),
                    f,
                )
            }
            Answer::Plain(circuit, values) => {
                show_lanes(circuit.layouts(), values.as_slice(), f)
            }
            Answer::Done => f.write_str("ok"),
            Answer::Seen(Some(word)) => word.show(f),
            Answer::Seen(None) => f.write_str("empty"),
            Answer::Accepted => f.write_str("accepted"),
            Answer::Fault(fault) => write!(f, "{fault}"),
        }
    }
}

// A part of an answer is printed here alone, so it has a function and no type with a Display of its own.
fn show_ring<R: Notation, W: fmt::Write>(f: &mut fmt::Formatter<W>) -> fmt::Result {
    let (name, modulus, degree, points) = (R::name(), R::MODULUS, R::DEGREE, R::POINTS);
    write!(
        f,
        "ring {name} modulus {modulus} degree {degree} points {points}"
    )
}

// A word, and each item behind a space.
fn show_each<T: fmt::Display + Drop, I: Iterator<Item = T> + Drop, W: fmt::Write>(
    word: &str,
    items: I,
    f: &mut fmt::Formatter<W>,
) -> fmt::Result
    requires can { I.can_next items }
    requires ends { IsFinite (I.remaining items) }
{
    f.write_str(word)?;
    for item in items {
        write!(f, " {item}")?;
    }
    Ok(())
}

// The gates' lanes, with a bar between gates.
fn show_lanes<R: Notation, W: fmt::Write>(
    layouts: &[Layout],
    values: &[R],
    f: &mut fmt::Formatter<W>,
) -> fmt::Result {
    f.write_str("plain")?;
    for (gate, (layout, value)) in layouts.iter().zip(values).enumerate() {
        let bar = if gate > 0 { " |" } else { "" };
        let lanes = 0..layout.lane_count(R::DEGREE);
        show_each(bar, lanes.map(|lane| read_lane(*layout, *value, lane)), f)?;
    }
    Ok(())
}
