// Lines: each sender has a square of its own for each receiver, and may tell each another word.
ghost use Rattle.std.specs.Prelude.{◌≡◌, pred, ◌+◌, ◌*◌, ◌<◌, ◌≤◌, true, false, vec_len};
ghost use Rattle.exchange.specs.Sheet.{blank, seat};
ghost use Rattle.exchange.specs.Tables.{lines_page};
ghost use Rattle.std.proofs.Common.{rules, arith};

use crate::Exchange;
use crate::table::{clear, clear_for, count_empty, place, test_seat};
use curve::refusal::Refusal;
use ring::Ring;

#[derive(Debug, Drop)]
pub struct Lines<R> {
    seats: usize,
    // By a rule of the project the caller's, so it may have more places than the seats need.
    table: Vec<Option<R>>,
    ghost few: { seats ≤ 31 },
    ghost room: { seats * seats ≤ vec_len table },
}

// The place of a square among those of n seats.
fn place_of(n: usize, receiver: usize, sender: usize) -> usize
    requires few { n ≤ 31 }
    requires receives { seat n receiver ≡ true }
    requires sends { seat n sender ≡ true }
    ensures is { result ≡ pred sender * n + pred receiver }
    ensures inside { result < n * n }
{
    (sender - 1) * n + (receiver - 1)
}

impl<R> Lines<R> {
    // Lines without seats yet, over a table whose places they may use.
    pub fn new(table: Vec<Option<R>>) -> Self
        ensures { lines_page result.seats result.table.items ≡ blank 0 (vec_len table) }
    {
        Lines { seats: 0, table }
    }
}

impl<R: Ring> Exchange<R> for Lines<R> {
    ghost page = { λ x. lines_page x.seats x.table.items };

    ghost common = { false };

    ghost veiled = { false };

    ghost need = { λ n. n * n };

    ghost proper = { first_of (Prim.search rules, Prim.grind (arith, Self.row.coded.inj)) };

    fn seats(&self) -> usize {
        self.seats
    }

    fn is_common(&self) -> bool {
        false
    }

    fn is_veiled(&self) -> bool {
        false
    }

    fn place_for_all(&mut self, sender: usize, word: R) -> Result<(), Refusal> {
        test_seat(self.seats, sender)?;
        let start = place_of(self.seats, 1, sender);
        place(&mut self.table[start..start + self.seats], word)
    }

    fn place_for_one(&mut self, sender: usize, receiver: usize, word: R) -> Result<(), Refusal> {
        test_seat(self.seats, sender)?;
        test_seat(self.seats, receiver)?;
        let square = place_of(self.seats, receiver, sender);
        place(&mut self.table[square..=square], word)
    }

    fn look(&self, receiver: usize, sender: usize) -> Result<Option<R>, Refusal> {
        test_seat(self.seats, receiver)?;
        test_seat(self.seats, sender)?;
        Ok(self.table[place_of(self.seats, receiver, sender)])
    }

    fn missing(&self) -> usize {
        count_empty(&self.table[..self.seats * self.seats])
    }

    fn turn(&mut self) {
        clear(&mut self.table);
    }

    fn set_seats(&mut self, n: usize) -> Result<(), Refusal> {
        // n * n may not fit before the test of n.
        clear_for(&mut self.table, n, n.saturating_mul(n))?;
        self.seats = n;
        Ok(())
    }
}
