// The commands on single elements.

use crate::answer::Answer;
use crate::notation::Notation;
use crate::trouble::{Trouble, Unknown};
use crate::words::Words;
use ring::Number;
use std::str::FromStr;

#[derive(Clone, Copy)]
pub(crate) enum Algebra {
    Add,
    Sub,
    Mul,
    Same,
    Coordinate,
    Embed,
    Point,
    Inverse,
}

impl FromStr for Algebra {
    type Err = Unknown;

    ghost use Rattle.console.specs.Names.{Reads, algebra_name};

    ghost from_str_gives = { Reads algebra_name };

    fn from_str(word: &str) -> Result<Algebra, Unknown> {
        match word {
            "add" => Ok(Algebra::Add),
            "sub" => Ok(Algebra::Sub),
            "mul" => Ok(Algebra::Mul),
            "same" => Ok(Algebra::Same),
            "coordinate" => Ok(Algebra::Coordinate),
            "embed" => Ok(Algebra::Embed),
            "point" => Ok(Algebra::Point),
            "inverse" => Ok(Algebra::Inverse),
            _ => Err(Unknown),
        }
    }
}

impl Algebra {
    pub(crate) fn answer<'a, R: Notation>(
        self,
        words: Words<'a>,
    ) -> Result<Answer<R>, Trouble<'a>> {
        match self {
            Algebra::Add => combined(words, |a: R, b| a.add(b)),
            Algebra::Sub => combined(words, |a: R, b| a.sub(b)),
            Algebra::Mul => combined(words, |a: R, b| a.mul(b)),
            Algebra::Same => {
                let (a, b) = operands::<R>(words)?;
                Ok(Answer::Truth(a.same(b)))
            }
            Algebra::Coordinate => coordinate(words),
            Algebra::Point => point(words),
            Algebra::Embed => {
                let (value, place) = numbers(words)?;
                Ok(Answer::Element(R::embed(value as u64, place)))
            }
            Algebra::Inverse => {
                let (i, j) = numbers(words)?;
                Ok(Answer::Element(R::inverse(i, j)))
            }
        }
    }
}

// Two elements, and no word after them.
fn operands<'a, R: Notation>(mut words: Words<'a>) -> Result<(R, R), Trouble<'a>> {
    let a = words.element()?;
    let b = words.element()?;
    words.end()?;
    Ok((a, b))
}

// What an operation makes of two elements.
fn combined<'a, R: Notation, F: FnOnce(R, R) -> R>(
    words: Words<'a>,
    operation: F,
) -> Result<Answer<R>, Trouble<'a>>
    requires { (a b : R) → F.pre operation a b }
{
    let (a, b) = operands(words)?;
    Ok(Answer::Element(operation(a, b)))
}

// Two numbers, and no word after them.
fn numbers<'a>(mut words: Words<'a>) -> Result<(usize, usize), Trouble<'a>> {
    let i = words.number()?;
    let j = words.number()?;
    words.end()?;
    Ok((i, j))
}

fn coordinate<'a, R: Notation>(mut words: Words<'a>) -> Result<Answer<R>, Trouble<'a>> {
    let a: R = words.element()?;
    let place = words.number()?;
    words.end()?;
    Ok(Answer::Number(a.coordinate(place).wide()))
}

fn point<'a, R: Notation>(mut words: Words<'a>) -> Result<Answer<R>, Trouble<'a>> {
    let i = words.number()?;
    words.end()?;
    Ok(Answer::Element(R::point(i)))
}
