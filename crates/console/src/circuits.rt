// The commands on lists of gates.
ghost use Rattle.std.specs.Prelude.{◌≡◌, OnErr};

use crate::answer::Answer;
use crate::desk::Desk;
use crate::notation::Notation;
use crate::trouble::{Misread, Trouble, Unknown};
use crate::words::Words;
use circuit::checked::{Circuit, Limits};
use curve::refusal::Refusal;
use encoding::layout::Layout;
use encoding::methods::Standard;
use rules::plain::evaluate;
use std::str::FromStr;

#[derive(Clone, Copy)]
pub(crate) enum Circuits {
    Layout,
    Gates,
    Constants,
    Check,
    Plain,
}

impl FromStr for Circuits {
    type Err = Unknown;

    ghost use Rattle.console.specs.Names.{Reads, circuits_name};

    ghost from_str_gives = { Reads circuits_name };

    fn from_str(word: &str) -> Result<Circuits, Unknown> {
        match word {
            "layout" => Ok(Circuits::Layout),
            "gates" => Ok(Circuits::Gates),
            "constants" => Ok(Circuits::Constants),
            "check" => Ok(Circuits::Check),
            "plain" => Ok(Circuits::Plain),
            _ => Err(Unknown),
        }
    }
}

impl Circuits {
    pub(crate) fn answer<'a, R: Notation>(
        self,
        words: Words<'a>,
        desk: &mut Desk<R>,
    ) -> Result<Answer<R>, Trouble<'a>>
        ensures { OnErr result (desk.new ≡ desk.old) }
    {
        match self {
            Circuits::Layout => layout(words),
            Circuits::Gates => {
                desk.codes = words.codes(desk.heap)?;
                Ok(Answer::Gates(desk.codes.len()))
            }
            Circuits::Constants => {
                desk.constants = words.numbers(desk.heap)?;
                Ok(Answer::Constants(desk.constants.len()))
            }
            Circuits::Check => check(words, desk),
            Circuits::Plain => plain(words, desk),
        }
    }
}

fn layout<'a, R: Notation>(mut words: Words<'a>) -> Result<Answer<R>, Trouble<'a>> {
    let word = words.word()?;
    words.end()?;
    // By the word and not by its number: `00` is none.
    match word {
        "0" => Ok(Answer::Positions(Layout::Plain)),
        "1" => Ok(Answer::Positions(Layout::Lanes)),
        "2" => Ok(Answer::Positions(Layout::Left)),
        "3" => Ok(Answer::Positions(Layout::Right)),
        _ => Err(Trouble::Line(Misread::Layout, word)),
    }
}

// The present list, checked for so many inputs.
fn circuit_for<R: Notation>(desk: &Desk<R>, inputs: usize) -> Result<Circuit, Refusal> {
    let limits = Limits {
        degree: R::DEGREE,
        inputs,
        constants: desk.constants.len(),
    };
    Circuit::check::<Standard>(desk.heap, limits, desk.codes.as_slice())
}

fn check<'a, R: Notation>(mut words: Words<'a>, desk: &Desk<R>) -> Result<Answer<R>, Trouble<'a>> {
    let inputs = words.number()?;
    words.end()?;
    Ok(Answer::Checked(circuit_for(desk, inputs)?))
}

// The value of each gate of the present list for these inputs.
fn plain<'a, R: Notation>(words: Words<'a>, desk: &Desk<R>) -> Result<Answer<R>, Trouble<'a>> {
    let inputs: Vec<R> = words.elements(desk.heap)?;
    let circuit = circuit_for(desk, inputs.len())?;
    let constants = desk.constants.as_slice();
    let values = evaluate::<R, Standard>(desk.heap, &circuit, constants, inputs.as_slice())?;
    Ok(Answer::Plain(circuit, values))
}
