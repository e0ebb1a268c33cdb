// The commands on exchanges.
ghost use Rattle.std.specs.Prelude.{◌≡◌, OnErr};
ghost use Rattle.console.specs.Sessions.{AlikeDesks, Leaves};

use crate::answer::Answer;
use crate::any_exchange::{AnyExchange, Call, Kind};
use crate::desk::Desk;
use crate::notation::Notation;
use crate::trouble::{Misread, Trouble, Unknown};
use crate::words::Words;
use std::str::FromStr;

#[derive(Clone, Copy)]
pub(crate) enum Exchanges {
    Exchange,
    Place,
    Look,
    Missing,
    Turn,
}

impl FromStr for Exchanges {
    type Err = Unknown;

    ghost use Rattle.console.specs.Names.{Reads, exchanges_name};

    ghost from_str_gives = { Reads exchanges_name };

    fn from_str(word: &str) -> Result<Exchanges, Unknown> {
        match word {
            "exchange" => Ok(Exchanges::Exchange),
            "place" => Ok(Exchanges::Place),
            "look" => Ok(Exchanges::Look),
            "missing" => Ok(Exchanges::Missing),
            "turn" => Ok(Exchanges::Turn),
            _ => Err(Unknown),
        }
    }
}

impl Exchanges {
    pub(crate) fn answer<'a, R: Notation>(
        self,
        words: Words<'a>,
        desk: &mut Desk<R>,
    ) -> Result<Answer<R>, Trouble<'a>>
        ensures left { Leaves AlikeDesks result desk.new desk.old }
        ensures kept { (desk.new.codes ≡ desk.old.codes) × (desk.new.constants ≡ desk.old.constants) }
    {
        let line = words.line();
        let call = match self {
            Exchanges::Exchange => return make(words, desk),
            Exchanges::Place => place(words)?,
            Exchanges::Look => look(words)?,
            Exchanges::Missing => alone(words, Call::Missing)?,
            Exchanges::Turn => alone(words, Call::Turn)?,
        };
        match &mut desk.exchange {
            Some(exchange) => Ok(exchange.answer(call)?),
            None => Err(Trouble::Line(Misread::Exchange, line)),
        }
    }
}

// Keeps a new exchange. A refusal leaves the one that is there.
fn make<'a, R: Notation>(mut words: Words<'a>, desk: &mut Desk<R>) -> Result<Answer<R>, Trouble<'a>>
    ensures unchanged { OnErr result (desk.new ≡ desk.old) }
    ensures kept { (desk.new.codes ≡ desk.old.codes) × (desk.new.constants ≡ desk.old.constants) }
{
    let word = words.word()?;
    let seats = words.number()?;
    words.end()?;
    let kind = word
        .parse::<Kind>()
        .map_err(|_| Trouble::Line(Misread::Kind, word))?;
    desk.exchange = Some(AnyExchange::make(desk.heap, kind, seats)?);
    Ok(Answer::Done)
}

// The sender, the receiver or `all`, and the element.
fn place<'a, R: Notation>(mut words: Words<'a>) -> Result<Call<R>, Trouble<'a>> {
    let sender = words.number()?;
    let receiver = words.receiver()?;
    let word = words.element()?;
    let call = match receiver {
        Some(receiver) => Call::PlaceForOne {
            sender,
            receiver,
            word,
        },
        None => Call::PlaceForAll { sender, word },
    };
    alone(words, call)
}

// The receiver and the sender.
fn look<'a, R: Notation>(mut words: Words<'a>) -> Result<Call<R>, Trouble<'a>> {
    let receiver = words.number()?;
    let sender = words.number()?;
    alone(words, Call::Look { receiver, sender })
}

// The call, if no word is left.
fn alone<'a, R: Notation>(words: Words<'a>, call: Call<R>) -> Result<Call<R>, Trouble<'a>> {
    words.end()?;
    Ok(call)
}
