#![tactic(auto)]

ghost use Rattle.std.specs.Prelude.{◌≡◌, ℕ, Bool, true, []};
ghost use Rattle.exchange.specs.Laws.{SheetLaws};
ghost use Rattle.exchange.specs.Sheet.{Page, Proper, seat, place_all, place_one, looked, missing as missing_of, turned, set_seats, word_in, row_seen, gather, collected};

use curve::refusal::Refusal;
use ring::Ring;
use table::test_seat;

pub mod board;
pub mod curtain;
pub mod lines;
mod table;

// Where words wait to be read: a sheet of squares, one for each receiver and each sender, each empty or with one word.
pub trait Exchange<R: Ring> {
    // The whole state.
    ghost page: { Self → Page R };

    // Whether words are for all: none is placed for one receiver alone.
    ghost common: { Bool };

    // Whether words are hidden until every square is filled.
    ghost veiled: { Bool };

    // How many places of its table so many seats need.
    ghost need: { ℕ → ℕ };

    fn seats(&self) -> usize
        ensures { result ≡ (page self.now).seats };

    fn is_common(&self) -> bool
        ensures { result ≡ common };

    fn is_veiled(&self) -> bool
        ensures { result ≡ veiled };

    // Fills the sender's squares, all of which are to be empty.
    fn place_for_all(&mut self, sender: usize, word: R) -> Result<(), Refusal>
        ensures { (result, page self.new) ≡ place_all (page self.old) sender word };

    // Fills one square.
    fn place_for_one(&mut self, sender: usize, receiver: usize, word: R) -> Result<(), Refusal>
        ensures { (result, page self.new) ≡ place_one common (page self.old) sender receiver word };

    // What the receiver sees of the sender.
    fn look(&self, receiver: usize, sender: usize) -> Result<Option<R>, Refusal>
        ensures { result ≡ looked veiled (page self.now) receiver sender };

    // The number of empty squares.
    fn missing(&self) -> usize
        ensures { result ≡ missing_of (page self.now) };

    // Empties all squares.
    fn turn(&mut self)
        ensures { page self.new ≡ turned (page self.old) };

    // Takes n seats, and empties all squares.
    fn set_seats(&mut self, n: usize) -> Result<(), Refusal>
        ensures { (result, page self.new) ≡ set_seats R.Ring.points.count need (page self.old) n };

    ghost proper: { (x : Self) → Proper common (page x) };
}

// The word that a receiver sees of a sender. Nowhere else is taken apart what `look` answers.
fn word_seen<R: Ring, X: Exchange<R>>(
    exchange: &X,
    receiver: usize,
    sender: usize,
) -> Result<R, Refusal>
    ensures { result ≡ word_in (looked X.Exchange.veiled (X.Exchange.page exchange.now) receiver sender) }
{
    exchange.look(receiver, sender)?.ok_or(Refusal::Missing)
}

// Whether a seat sees a word of every seat.
fn test_row<R: Ring, X: Exchange<R>>(exchange: &X, receiver: usize) -> Result<(), Refusal>
    requires { seat (X.Exchange.page exchange.now).seats receiver ≡ true }
    ensures { result ≡ (gather (row_seen X.Exchange.veiled (X.Exchange.page exchange.now) receiver) []).0 }
{
    for k in 1..=exchange.seats() {
        word_seen(exchange, receiver, k)?;
    }
    Ok(())
}

// Writes the words that a receiver sees of the seats 1 to n into a row of n places.
pub fn collect_row<R: Ring, X: Exchange<R>>(
    exchange: &X,
    receiver: usize,
    row: &mut [R],
) -> Result<(), Refusal>
    ensures { (result, row.new) ≡ collected X.Exchange.veiled (X.Exchange.page exchange.now) receiver row.old }
{
    let n = exchange.seats();
    if row.len() != n {
        return Err(Refusal::Length);
    }
    test_seat(n, receiver)?;
    test_row(exchange, receiver)?;
    for (k, place) in row.iter_mut().enumerate() {
        *place = word_seen(exchange, receiver, k + 1)?;
    }
    Ok(())
}

// What the calls mean for the squares of any sheet.
pub fn sheet_laws<R>()
    ensures { SheetLaws R }
{}
