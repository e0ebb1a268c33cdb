// The commands on shares.

use crate::answer::Answer;
use crate::notation::Notation;
use crate::trouble::{Trouble, Unknown};
use crate::words::Words;
use std::alloc::Global;
use std::str::FromStr;

// More seats than these are refused before the length of the table matters.
pub(crate) const MOST_SEATS: usize = 31;

#[derive(Clone, Copy)]
pub(crate) enum Curves {
    Deal,
    Open,
}

impl FromStr for Curves {
    type Err = Unknown;

    ghost use Rattle.console.specs.Names.{Reads, curves_name};

    ghost from_str_gives = { Reads curves_name };

    fn from_str(word: &str) -> Result<Curves, Unknown> {
        match word {
            "deal" => Ok(Curves::Deal),
            "open" => Ok(Curves::Open),
            _ => Err(Unknown),
        }
    }
}

impl Curves {
    pub(crate) fn answer<'a, R: Notation>(
        self,
        heap: Global,
        words: Words<'a>,
    ) -> Result<Answer<R>, Trouble<'a>> {
        match self {
            Curves::Deal => deal(heap, words),
            Curves::Open => open(heap, words),
        }
    }
}

fn deal<'a, R: Notation>(heap: Global, mut words: Words<'a>) -> Result<Answer<R>, Trouble<'a>> {
    let seats = words.number()?;
    let degree = words.number()?;
    let secret: R = words.element()?;
    let others: Vec<R> = words.elements(heap)?;
    let shares = dealt(heap, seats, degree, secret, others.as_slice())?;
    Ok(Answer::Shares(shares))
}

// The shares that a polynomial deals: its value at zero and its other coefficients are given.
pub(crate) fn dealt<'a, R: Notation>(
    heap: Global,
    seats: usize,
    degree: usize,
    secret: R,
    others: &[R],
) -> Result<Vec<R>, Trouble<'a>> {
    let mut shares = vec![in heap; R::zero(); seats.min(MOST_SEATS)]?;
    curve::deal(seats, degree, secret, others, shares.as_mut_slice())?;
    Ok(shares)
}

fn open<'a, R: Notation>(heap: Global, mut words: Words<'a>) -> Result<Answer<R>, Trouble<'a>> {
    let degree = words.number()?;
    let row: Vec<R> = words.elements(heap)?;
    Ok(Answer::Opened(curve::open_row(degree, row.as_slice())?))
}
