// An exchange of any kind, so that a session can keep one.
ghost use Rattle.std.specs.Prelude.{◌≡◌, ◌≤◌, false, IfOk, OnErr, Ok, Err, vec_len};
ghost use Rattle.curve.specs.Curve.{seats_wrong};
ghost use Rattle.curve.specs.declared.refusal.Refusal.TheVariants.{Memory};
ghost use Rattle.exchange.specs.Tables.{lines_page, board_page};
ghost use Rattle.console.specs.Exchanges.{kind_of, page_of, common_of, veiled_of, Made, called};

use crate::answer::Answer;
use crate::curves::MOST_SEATS;
use crate::notation::Notation;
use crate::trouble::Unknown;
use curve::refusal::Refusal;
use exchange::Exchange;
use exchange::board::Board;
use exchange::curtain::Curtain;
use exchange::lines::Lines;
use std::alloc::Global;
use std::str::FromStr;

// What a line asks for before any exchange is made, so it is no AnyExchange yet.
#[derive(Clone, Copy)]
pub(crate) enum Kind {
    Lines,
    Board,
    CurtainLines,
    CurtainBoard,
}

#[derive(Drop)]
pub(crate) enum AnyExchange<R> {
    Lines(Lines<R>),
    Board(Board<R>),
    CurtainLines(Curtain<Lines<R>>),
    CurtainBoard(Curtain<Board<R>>),
}

// A call of an exchange.
#[derive(Drop)]
pub(crate) enum Call<R> {
    PlaceForAll {
        sender: usize,
        word: R,
    },
    PlaceForOne {
        sender: usize,
        receiver: usize,
        word: R,
    },
    Look {
        receiver: usize,
        sender: usize,
    },
    Missing,
    Turn,
}

impl FromStr for Kind {
    type Err = Unknown;

    ghost use Rattle.console.specs.Names.{Reads, kind_name};

    ghost from_str_gives = { Reads kind_name };

    fn from_str(word: &str) -> Result<Kind, Unknown> {
        match word {
            "lines" => Ok(Kind::Lines),
            "board" => Ok(Kind::Board),
            "curtain-lines" => Ok(Kind::CurtainLines),
            "curtain-board" => Ok(Kind::CurtainBoard),
            _ => Err(Unknown),
        }
    }
}

impl<R: Notation> AnyExchange<R> {
    pub(crate) fn make(heap: Global, kind: Kind, seats: usize) -> Result<AnyExchange<R>, Refusal>
        ensures kind { IfOk result (λ x. kind_of x ≡ kind) }
        ensures page { Made R.Ring.points.count seats page_of result }
    {
        match kind {
            Kind::Lines => Ok(AnyExchange::Lines(lines(heap, seats)?)),
            Kind::Board => Ok(AnyExchange::Board(board(heap, seats)?)),
            Kind::CurtainLines => Ok(AnyExchange::CurtainLines(Curtain::new(lines(heap, seats)?))),
            Kind::CurtainBoard => Ok(AnyExchange::CurtainBoard(Curtain::new(board(heap, seats)?))),
        }
    }

    pub(crate) fn answer(&mut self, call: Call<R>) -> Result<Answer<R>, Refusal>
        ensures kind { kind_of self.new ≡ kind_of self.old }
        ensures page { (result, page_of self.new) ≡ called (common_of (kind_of self.old)) (veiled_of (kind_of self.old)) (page_of self.old) call }
        ensures unchanged { OnErr result (page_of self.new ≡ page_of self.old) }
    {
        // Four equal arms: the cases differ in type, and a dyn made here would leave the four arms.
        match self {
            AnyExchange::Lines(exchange) => call.answer(exchange),
            AnyExchange::Board(exchange) => call.answer(exchange),
            AnyExchange::CurtainLines(exchange) => call.answer(exchange),
            AnyExchange::CurtainBoard(exchange) => call.answer(exchange),
        }
    }
}

impl<R: Notation> Call<R> {
    fn answer<X: Exchange<R>>(self, exchange: &mut X) -> Result<Answer<R>, Refusal>
        ensures page { (result, X.Exchange.page exchange.new) ≡ called X.Exchange.common X.Exchange.veiled (X.Exchange.page exchange.old) self }
        ensures unchanged { OnErr result (X.Exchange.page exchange.new ≡ X.Exchange.page exchange.old) }
    {
        match self {
            Call::PlaceForAll { sender, word } => {
                exchange.place_for_all(sender, word)?;
                Ok(Answer::Done)
            }
            Call::PlaceForOne {
                sender,
                receiver,
                word,
            } => {
                exchange.place_for_one(sender, receiver, word)?;
                Ok(Answer::Done)
            }
            Call::Look { receiver, sender } => {
                Ok(Answer::Seen(exchange.look(receiver, sender)?))
            }
            Call::Missing => Ok(Answer::Number(exchange.missing() as u64)),
            Call::Turn => {
                exchange.turn();
                Ok(Answer::Done)
            }
        }
    }
}

fn lines<R: Notation>(heap: Global, seats: usize) -> Result<Lines<R>, Refusal>
    ensures { Made R.Ring.points.count seats (λ x. lines_page x.seats x.table.items) result }
{
    let most = seats.min(MOST_SEATS);
    seated(Lines::new(table(heap, most * most)?), seats)
}

fn board<R: Notation>(heap: Global, seats: usize) -> Result<Board<R>, Refusal>
    ensures { Made R.Ring.points.count seats (λ x. board_page x.seats x.table.items) result }
{
    seated(Board::new(table(heap, seats.min(MOST_SEATS))?), seats)
}

// The exchange with so many seats.
fn seated<R: Notation, X: Exchange<R> + Drop>(mut exchange: X, seats: usize) -> Result<X, Refusal>
    requires { seats_wrong R.Ring.points.count seats ≡ false → X.Exchange.need seats ≤ (X.Exchange.page exchange).room }
    ensures { Made R.Ring.points.count seats X.Exchange.page result }
{
    exchange.set_seats(seats)?;
    Ok(exchange)
}

// A table of so many empty places.
fn table<R: Notation>(heap: Global, places: usize) -> Result<Vec<Option<R>>, Refusal>
    ensures { elim result [ Ok t ↦ vec_len t ≡ places | Err e ↦ e ≡ Memory ] }
{
    Ok(vec![in heap; None; places]?)
}
