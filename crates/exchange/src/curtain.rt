ghost use Rattle.std.specs.Prelude.{◌≡◌, true};
ghost use Rattle.std.proofs.Common.{rules};

use crate::Exchange;
use curve::refusal::Refusal;
use ring::Ring;

// Veils an exchange: no word is seen until every square is filled.
#[derive(Debug, Drop)]
pub struct Curtain<X> {
    behind: X,
}

impl<X> Curtain<X> {
    pub fn new(exchange: X) -> Self
        ensures { result.behind ≡ exchange }
    {
        Curtain { behind: exchange }
    }
}

impl<R: Ring, X: Exchange<R>> Exchange<R> for Curtain<X> {
    ghost page = { λ x. X.Exchange.page x.behind };

    ghost common = { X.Exchange.common };

    ghost veiled = { true };

    ghost need = { X.Exchange.need };

    ghost proper = { Prim.search rules };

    fn seats(&self) -> usize {
        self.behind.seats()
    }

    fn is_common(&self) -> bool {
        self.behind.is_common()
    }

    fn is_veiled(&self) -> bool {
        true
    }

    fn place_for_all(&mut self, sender: usize, word: R) -> Result<(), Refusal> {
        self.behind.place_for_all(sender, word)
    }

    fn place_for_one(&mut self, sender: usize, receiver: usize, word: R) -> Result<(), Refusal> {
        self.behind.place_for_one(sender, receiver, word)
    }

    fn look(&self, receiver: usize, sender: usize) -> Result<Option<R>, Refusal> {
        let seen = self.behind.look(receiver, sender)?;
        if self.behind.missing() > 0 {
            return Ok(None);
        }
        Ok(seen)
    }

    fn missing(&self) -> usize {
        self.behind.missing()
    }

    fn turn(&mut self) {
        self.behind.turn()
    }

    fn set_seats(&mut self, n: usize) -> Result<(), Refusal> {
        self.behind.set_seats(n)
    }
}
