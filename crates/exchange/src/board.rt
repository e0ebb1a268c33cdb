// A board: what is placed is for all, so a sender has one word, which stands in all of its squares.
ghost use Rattle.std.specs.Prelude.{◌≡◌, ◌≤◌, true, false, vec_len};
ghost use Rattle.exchange.specs.Sheet.{blank};
ghost use Rattle.exchange.specs.Tables.{board_page};
ghost use Rattle.std.proofs.Common.{rules, arith};

use crate::Exchange;
use crate::table::{clear, clear_for, count_empty, place, test_seat};
use curve::refusal::Refusal;
use ring::Ring;

// Not one type with the lines, which place, read and count words otherwise: what the two share is the functions of tables.
#[derive(Debug, Drop)]
pub struct Board<R> {
    seats: usize,
    // By a rule of the project the caller's, so it may have more places than the seats need.
    table: Vec<Option<R>>,
    ghost few: { seats ≤ 31 },
    ghost room: { seats ≤ vec_len table },
}

impl<R> Board<R> {
    // A board without seats yet, over a table whose places it may use.
    pub fn new(table: Vec<Option<R>>) -> Self
        ensures { board_page result.seats result.table.items ≡ blank 0 (vec_len table) }
    {
        Board { seats: 0, table }
    }
}

impl<R: Ring> Exchange<R> for Board<R> {
    ghost page = { λ x. board_page x.seats x.table.items };

    ghost common = { true };

    ghost veiled = { false };

    ghost need = { λ n. n };

    ghost proper = { first_of (Prim.search rules, Prim.grind (arith, Self.row.coded.inj)) };

    fn seats(&self) -> usize {
        self.seats
    }

    fn is_common(&self) -> bool {
        true
    }

    fn is_veiled(&self) -> bool {
        false
    }

    fn place_for_all(&mut self, sender: usize, word: R) -> Result<(), Refusal> {
        test_seat(self.seats, sender)?;
        let square = sender - 1;
        place(&mut self.table[square..=square], word)
    }

    fn place_for_one(&mut self, sender: usize, receiver: usize, _word: R) -> Result<(), Refusal> {
        test_seat(self.seats, sender)?;
        test_seat(self.seats, receiver)?;
        Err(Refusal::Common)
    }

    fn look(&self, receiver: usize, sender: usize) -> Result<Option<R>, Refusal> {
        test_seat(self.seats, receiver)?;
        test_seat(self.seats, sender)?;
        Ok(self.table[sender - 1])
    }

    fn missing(&self) -> usize {
        self.seats * count_empty(&self.table[..self.seats])
    }

    fn turn(&mut self) {
        clear(&mut self.table);
    }

    fn set_seats(&mut self, n: usize) -> Result<(), Refusal> {
        clear_for(&mut self.table, n, n)?;
        self.seats = n;
        Ok(())
    }
}
