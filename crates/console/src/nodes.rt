// The commands on the tables of shares, and on one node.
ghost use Rattle.std.specs.Prelude.{◌≡◌, OnErr};
ghost use Rattle.console.specs.Sessions.{AlikeDesks, AlikeNodes, Leaves};

use crate::answer::Answer;
use crate::curves::dealt;
use crate::dealing::{Dealing, Pair, part_of, put};
use crate::desk::Desk;
use crate::notation::{Notation, read_number};
use crate::trouble::{Misread, Trouble, Unknown};
use crate::words::Words;
use curve::refusal::Refusal;
use encoding::methods::Standard;
use node::{Lent, Node};
use std::alloc::{AllocError, Global};
use std::str::FromStr;

// A node at work: its seat's number and its work table.
#[derive(Drop)]
pub(crate) struct Working<R> {
    node: Node<R, Standard>,
    seat: usize,
    work: Vec<R>,
}

#[derive(Clone, Copy)]
pub(crate) enum Nodes {
    Seats,
    Threshold,
    Input,
    Pair,
    Node,
}

impl FromStr for Nodes {
    type Err = Unknown;

    ghost use Rattle.console.specs.Names.{Reads, nodes_name};

    ghost from_str_gives = { Reads nodes_name };

    fn from_str(word: &str) -> Result<Nodes, Unknown> {
        match word {
            "seats" => Ok(Nodes::Seats),
            "threshold" => Ok(Nodes::Threshold),
            "input" => Ok(Nodes::Input),
            "pair" => Ok(Nodes::Pair),
            "node" => Ok(Nodes::Node),
            _ => Err(Unknown),
        }
    }
}

impl Nodes {
    pub(crate) fn answer<'a, R: Notation>(
        self,
        words: Words<'a>,
        desk: &mut Desk<R>,
    ) -> Result<Answer<R>, Trouble<'a>>
        ensures { Leaves AlikeDesks result desk.new desk.old }
    {
        match self {
            Nodes::Seats => seats(words, desk),
            Nodes::Threshold => threshold(words, desk),
            Nodes::Input => input(words, desk),
            Nodes::Pair => pair(words, desk),
            Nodes::Node => node(words, desk),
        }
    }
}

// Another number of seats drops the tables, which have a part for each seat.
fn seats<'a, R: Notation>(
    mut words: Words<'a>,
    desk: &mut Desk<R>,
) -> Result<Answer<R>, Trouble<'a>>
    ensures { OnErr result (desk.new ≡ desk.old) }
{
    let seats = words.number()?;
    words.end()?;
    if seats != desk.dealing.seats {
        desk.dealing = Dealing {
            seats,
            threshold: desk.dealing.threshold,
            ..Dealing::new(desk.heap)
        };
    }
    Ok(Answer::Done)
}

fn threshold<'a, R: Notation>(
    mut words: Words<'a>,
    desk: &mut Desk<R>,
) -> Result<Answer<R>, Trouble<'a>>
    ensures { OnErr result (desk.new ≡ desk.old) }
{
    let threshold = words.number()?;
    words.end()?;
    desk.dealing.threshold = threshold;
    Ok(Answer::Done)
}

// How a row is given: by its parts, or by the coefficients of the polynomial that deals them.
#[derive(Clone, Copy)]
enum Form {
    Parts,
    Coefficients,
}

impl Form {
    // The word `from` says that coefficients follow.
    fn read(words: &mut Words<'_>) -> Form {
        if words.skip("from") {
            Form::Coefficients
        } else {
            Form::Parts
        }
    }

    // The parts of a row that is given so, for a polynomial of this degree: one for each seat.
    fn row<'a, R: Notation>(
        self,
        line: &'a str,
        elements: Vec<R>,
        desk: &Desk<R>,
        degree: usize,
    ) -> Result<Vec<R>, Trouble<'a>> {
        let seats = desk.dealing.seats;
        match self {
            Form::Parts if elements.len() == seats => Ok(elements),
            Form::Parts => Err(Trouble::Line(Misread::Parts, line)),
            Form::Coefficients => {
                let (secret, others) = elements.as_slice().split_first().ok_or(Refusal::Length)?;
                dealt(desk.heap, seats, degree, *secret, others)
            }
        }
    }
}

fn input<'a, R: Notation>(
    mut words: Words<'a>,
    desk: &mut Desk<R>,
) -> Result<Answer<R>, Trouble<'a>>
    ensures { Leaves AlikeDesks result desk.new desk.old }
{
    let line = words.line();
    let number = words.number()?;
    let form = Form::read(&mut words);
    let elements = words.elements(desk.heap)?;
    if number > desk.dealing.inputs.len() {
        return Err(Trouble::Line(Misread::Gap, line));
    }
    let parts = form.row(line, elements, desk, desk.dealing.threshold)?;
    put(&mut desk.dealing.inputs, number, parts)?;
    Ok(Answer::Done)
}

fn pair<'a, R: Notation>(mut words: Words<'a>, desk: &mut Desk<R>) -> Result<Answer<R>, Trouble<'a>>
    ensures { Leaves AlikeDesks result desk.new desk.old }
{
    let line = words.line();
    let number = words.number()?;
    let form = Form::read(&mut words);
    if !words.skip("high") {
        return Err(Trouble::Line(Misread::High, line));
    }
    let high = words.elements_until(desk.heap, "low")?;
    let low = words.elements(desk.heap)?;
    if number > desk.dealing.pairs.len() {
        return Err(Trouble::Line(Misread::Gap, line));
    }
    let threshold = desk.dealing.threshold;
    // Both rows are dealt before either is refused: want of memory for one is told before the other's refusal.
    let high = form.row(line, high, desk, threshold.saturating_mul(2));
    let low = form.row(line, low, desk, threshold);
    if let Err(Trouble::Memory) = low {
        return Err(Trouble::Memory);
    }
    let (high, low) = (high?, low?);
    put(&mut desk.dealing.pairs, number, Pair { high, low })?;
    Ok(Answer::Done)
}

// `node S` makes one, `node post` and `node take W1 .. Wn` drive it.
fn node<'a, R: Notation>(mut words: Words<'a>, desk: &mut Desk<R>) -> Result<Answer<R>, Trouble<'a>>
    ensures { Leaves AlikeDesks result desk.new desk.old }
{
    let line = words.line();
    match words.word()? {
        "post" => {
            words.end()?;
            post(line, desk)
        }
        "take" => {
            let row = words.elements(desk.heap)?;
            take(line, row.as_slice(), desk)
        }
        seat => {
            words.end()?;
            make(read_number(seat)? as usize, desk)
        }
    }
}

// The tables that a seat is lent, gathered from those of all seats.
#[derive(Drop)]
struct Gathered<R> {
    constants: Vec<u64>,
    inputs: Vec<R>,
    high: Vec<R>,
    low: Vec<R>,
}

impl<R: Notation> Gathered<R> {
    fn new(
        heap: Global,
        constants: &[u64],
        dealing: &Dealing<R>,
        seat: usize,
    ) -> Result<Gathered<R>, AllocError> {
        let Dealing { inputs, pairs, .. } = dealing;
        Ok(Gathered {
            constants: Vec::from_slice(heap, constants)?,
            inputs: inputs
                .iter()
                .filter_map(|row| part_of(row.as_slice(), seat))
                .collect(heap)?,
            high: pairs
                .iter()
                .filter_map(|pair| part_of(pair.high.as_slice(), seat))
                .collect(heap)?,
            low: pairs
                .iter()
                .filter_map(|pair| part_of(pair.low.as_slice(), seat))
                .collect(heap)?,
        })
    }

    fn lent(&self) -> Lent<'_, R> {
        Lent {
            constants: self.constants.as_slice(),
            inputs: self.inputs.as_slice(),
            high: self.high.as_slice(),
            low: self.low.as_slice(),
        }
    }
}

impl<R: Notation> Working<R> {
    fn post(&self, gathered: &Gathered<R>) -> Result<Answer<R>, Refusal> {
        Ok(Answer::Element(self.node.post(gathered.lent(), self.work.as_slice())?))
    }

    fn take(&mut self, gathered: &Gathered<R>, row: &[R]) -> Result<Answer<R>, Refusal>
        ensures { OnErr result (AlikeNodes self.new self.old) }
    {
        match self
            .node
            .take(gathered.lent(), row, self.work.as_mut_slice())?
        {
            Some(fault) => Ok(Answer::Fault(fault)),
            None => Ok(Answer::Accepted),
        }
    }
}

fn make<'a, R: Notation>(seat: usize, desk: &mut Desk<R>) -> Result<Answer<R>, Trouble<'a>>
    ensures { OnErr result (desk.new ≡ desk.old) }
{
    let gathered = Gathered::new(desk.heap, desk.constants.as_slice(), &desk.dealing, seat)?;
    let mut work = vec![in desk.heap; R::zero(); desk.codes.len()]?;
    let node = Node::make(
        desk.heap,
        desk.dealing.seats,
        desk.dealing.threshold,
        seat,
        desk.codes.as_slice(),
        gathered.lent(),
        work.as_mut_slice(),
    )?;
    desk.working = Some(Working { node, seat, work });
    Ok(Answer::Done)
}

fn post<'a, R: Notation>(line: &'a str, desk: &Desk<R>) -> Result<Answer<R>, Trouble<'a>> {
    let Some(working) = &desk.working else {
        return Err(Trouble::Line(Misread::Node, line));
    };
    let gathered = Gathered::new(
        desk.heap,
        desk.constants.as_slice(),
        &desk.dealing,
        working.seat,
    )?;
    Ok(working.post(&gathered)?)
}

fn take<'a, R: Notation>(
    line: &'a str,
    row: &[R],
    desk: &mut Desk<R>,
) -> Result<Answer<R>, Trouble<'a>>
    ensures { Leaves AlikeDesks result desk.new desk.old }
{
    let Some(working) = &mut desk.working else {
        return Err(Trouble::Line(Misread::Node, line));
    };
    let gathered = Gathered::new(
        desk.heap,
        desk.constants.as_slice(),
        &desk.dealing,
        working.seat,
    )?;
    Ok(working.take(&gathered, row)?)
}
