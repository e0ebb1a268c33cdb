// What a session keeps between commands, in the ring that is chosen.
ghost use Rattle.console.specs.Sessions.{IsBare, AlikeDesks, Leaves};

use crate::answer::Answer;
use crate::any_exchange::AnyExchange;
use crate::arithmetic::Algebra;
use crate::circuits::Circuits;
use crate::curves::Curves;
use crate::dealing::Dealing;
use crate::exchanges::Exchanges;
use crate::nodes::{Nodes, Working};
use crate::notation::Notation;
use crate::trouble::{Misread, Trouble};
use crate::words::Words;
use std::alloc::Global;

#[derive(Drop)]
pub(crate) struct Desk<R> {
    pub(crate) heap: Global,
    pub(crate) codes: Vec<u32>,
    pub(crate) constants: Vec<u64>,
    // It is the console's until a bench takes it.
    pub(crate) exchange: Option<AnyExchange<R>>,
    pub(crate) dealing: Dealing<R>,
    pub(crate) working: Option<Working<R>>,
}

impl<R: Notation> Desk<R> {
    pub(crate) fn new(heap: Global) -> Desk<R>
        ensures { IsBare result }
    {
        Desk {
            heap,
            codes: Vec::new(heap),
            constants: Vec::new(heap),
            exchange: None,
            dealing: Dealing::new(heap),
            working: None,
        }
    }

    // What a command answers. One that is not understood changes nothing, and a refused one nothing that is kept.
    pub(crate) fn answer<'a>(
        &mut self,
        command: &'a str,
        words: Words<'a>,
    ) -> Result<Answer<R>, Trouble<'a>>
        ensures { Leaves AlikeDesks result self.new self.old }
    {
        // One enum over the five groups would repeat these five lines and add a match.
        if let Ok(algebra) = command.parse::<Algebra>() {
            return algebra.answer(words);
        }
        if let Ok(curves) = command.parse::<Curves>() {
            return curves.answer(self.heap, words);
        }
        if let Ok(circuits) = command.parse::<Circuits>() {
            return circuits.answer(words, self);
        }
        if let Ok(exchanges) = command.parse::<Exchanges>() {
            return exchanges.answer(words, self);
        }
        if let Ok(nodes) = command.parse::<Nodes>() {
            return nodes.answer(words, self);
        }
        Err(Trouble::Line(Misread::Command, command))
    }
}
