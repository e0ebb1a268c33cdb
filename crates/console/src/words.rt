// A command line as words, which are taken one after another.
use crate::notation::{Notation, read_code, read_number};
use crate::trouble::{Misread, Trouble};
use std::alloc::Global;
use std::iter::Peekable;
use std::str::SplitWhitespace;

#[derive(Drop)]
pub(crate) struct Words<'a> {
    line: &'a str,
    rest: Peekable<SplitWhitespace<'a>>,
}

// The part of a line before its comment.
pub(crate) fn command_of(line: &str) -> &str {
    line.split_once('#').unwrap_or((line, "")).0.trim()
}

impl<'a> Words<'a> {
    pub(crate) fn new(line: &'a str) -> Words<'a> {
        Words {
            line,
            rest: line.split_whitespace().peekable(),
        }
    }

    // The whole line.
    pub(crate) fn line(&self) -> &'a str {
        self.line
    }

    pub(crate) fn word(&mut self) -> Result<&'a str, Trouble<'a>> {
        self.rest
            .next()
            .ok_or(Trouble::Line(Misread::Few, self.line))
    }

    pub(crate) fn number(&mut self) -> Result<usize, Trouble<'a>> {
        Ok(read_number(self.word()?)? as usize)
    }

    // A receiver's number, or none for `all`.
    pub(crate) fn receiver(&mut self) -> Result<Option<usize>, Trouble<'a>> {
        match self.word()? {
            "all" => Ok(None),
            word => Ok(Some(read_number(word)? as usize)),
        }
    }

    pub(crate) fn element<R: Notation>(&mut self) -> Result<R, Trouble<'a>> {
        R::read(self.word()?)
    }

    // Passes over the next word if it is this one.
    pub(crate) fn skip(&mut self, word: &'a str) -> bool {
        self.rest.next_if_eq(&word).is_some()
    }

    // The words up to this one, each an element.
    pub(crate) fn elements_until<R: Notation>(
        &mut self,
        heap: Global,
        end: &str,
    ) -> Result<Vec<R>, Trouble<'a>> {
        // No chain, as in `elements`.
        let mut all = Vec::new(heap);
        for word in self.rest.by_ref() {
            if word == end {
                return Ok(all);
            }
            all.push(R::read(word)?)?;
        }
        Err(Trouble::Line(Misread::Few, self.line))
    }

    // All words that are left, each an element.
    pub(crate) fn elements<R: Notation>(self, heap: Global) -> Result<Vec<R>, Trouble<'a>> {
        // No chain: the proof of `map` covers no closure whose result is named by R alone.
        let mut all = Vec::new(heap);
        for word in self.rest {
            all.push(R::read(word)?)?;
        }
        Ok(all)
    }

    // All words that are left, each a decimal number.
    pub(crate) fn numbers(self, heap: Global) -> Result<Vec<u64>, Trouble<'a>> {
        self.rest.map(read_number).try_collect(heap)
    }

    // All words that are left, each a gate's code.
    pub(crate) fn codes(self, heap: Global) -> Result<Vec<u32>, Trouble<'a>> {
        self.rest.map(read_code).try_collect(heap)
    }

    pub(crate) fn end(mut self) -> Result<(), Trouble<'a>> {
        match self.rest.next() {
            Some(word) => Err(Trouble::Line(Misread::Many, word)),
            None => Ok(()),
        }
    }
}
