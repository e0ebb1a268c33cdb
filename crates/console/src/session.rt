// One run of the console: which ring is chosen, and which commands there are.
ghost use Rattle.std.specs.Prelude.{◌≡◌};
ghost use Rattle.console.specs.Sessions.{chosen_of, IsBlank, AlikeSessions, Leaves};

use crate::answer::Answer;
use crate::desk::Desk;
use crate::notation::Notation;
use crate::trouble::{Misread, Trouble, Unknown};
use crate::words::Words;
use std::alloc::Global;
use std::fmt;
use std::str::FromStr;

// Each ring once more in Session and in Reply: one enum with a parameter for each ring would leave these three their names
// and blocks, and say less.
#[derive(Clone, Copy)]
pub(crate) enum Chosen {
    W4,
    B8,
}

// The chosen ring, with what is kept in it.
#[derive(Drop)]
pub(crate) enum Session {
    W4(Desk<[u64; 4]>),
    B8(Desk<u8>),
}

// The answer to a command, in the ring that it was given in.
#[derive(Drop)]
pub(crate) enum Reply {
    W4(Answer<[u64; 4]>),
    B8(Answer<u8>),
}

impl FromStr for Chosen {
    type Err = Unknown;

    ghost use Rattle.console.specs.Names.{Reads, ring_name};

    ghost from_str_gives = { Reads ring_name };

    fn from_str(word: &str) -> Result<Chosen, Unknown> {
        if word == <[u64; 4] as Notation>::name() {
            Ok(Chosen::W4)
        } else if word == <u8 as Notation>::name() {
            Ok(Chosen::B8)
        } else {
            Err(Unknown)
        }
    }
}

impl Chosen {
    fn read<'a>(mut words: Words<'a>) -> Result<Chosen, Trouble<'a>> {
        let word = words.word()?;
        words.end()?;
        word.parse().map_err(|_| Trouble::Line(Misread::Ring, word))
    }

    fn describe(self) -> Reply {
        match self {
            Chosen::W4 => Reply::W4(Answer::Ring),
            Chosen::B8 => Reply::B8(Answer::Ring),
        }
    }

    // A session in this ring with nothing kept yet.
    fn begin(self, heap: Global) -> Session
        ensures ring { chosen_of result ≡ self }
        ensures blank { IsBlank result }
    {
        match self {
            Chosen::W4 => Session::W4(Desk::new(heap)),
            Chosen::B8 => Session::B8(Desk::new(heap)),
        }
    }
}

impl Session {
    pub(crate) fn new(heap: Global) -> Session
        ensures ring { chosen_of result ≡ Chosen.W4 }
        ensures blank { IsBlank result }
    {
        Chosen::W4.begin(heap)
    }

    // What is answered to a command. One that is not understood changes nothing, and a refused one nothing that is kept.
    pub(crate) fn answer<'a>(
        &mut self,
        heap: Global,
        mut words: Words<'a>,
    ) -> Result<Reply, Trouble<'a>>
        ensures { Leaves AlikeSessions result self.new self.old }
    {
        let command = words.word()?;
        if command == "ring" {
            let ring = Chosen::read(words)?;
            *self = ring.begin(heap);
            return Ok(ring.describe());
        }
        match self {
            Session::W4(desk) => Ok(Reply::W4(desk.answer(command, words)?)),
            Session::B8(desk) => Ok(Reply::B8(desk.answer(command, words)?)),
        }
    }
}

impl fmt::Display for Reply {
    fn fmt<W: fmt::Write>(&self, f: &mut fmt::Formatter<W>) -> fmt::Result {
        match self {
            Reply::W4(answer) => write!(f, "{answer}"),
            Reply::B8(answer) => write!(f, "{answer}"),
        }
    }
}
