// What one seat keeps between calls.
ghost use Rattle.std.specs.Prelude.{◌≡◌, [], IfOk, None};
ghost use Rattle.node.specs.Seats.{keeps, present as present_of, opening_or_refused, TakesBy};
ghost use Rattle.node.specs.Tables.{tables};

use crate::Lent;
use crate::fault::Fault;
use crate::openings::open_at;
use crate::work::{keep, stage};
use circuit::checked::Circuit;
use circuit::openings::Opening;
use curve::refusal::Refusal;
use encoding::methods::Methods;
use ring::Ring;
use std::alloc::{AllocError, Global};
use std::marker::Model;

// The values it has opened, in room for one at each opening, and its fault once it has stopped.
#[derive(Debug, Drop)]
pub struct Seat<R> {
    opened: Vec<R>,
    // Not the vector's capacity, which may be more than the openings: memory is asked for at making alone.
    room: usize,
    fault: Option<Fault>,
}

impl<R> Model for Seat<R> {
    ghost use Rattle.std.specs.Prelude.{◌≤◌, vec_capacity};
    ghost use Rattle.node.specs.Seats.{Keeps, keeps};

    ghost Value = { Keeps R };

    ghost view = { λ s. keeps s.opened.items s.room s.fault };

    ghost invariant = { λ s. s.room ≤ vec_capacity s.opened };
}

impl<R: Ring> Seat<R> {
    // A seat that has opened nothing, with room for so many values.
    pub fn new(heap: Global, room: usize) -> Result<Seat<R>, AllocError>
        ensures { IfOk result (λ s. s ≡ keeps [] room None) }
    {
        let opened = Vec::with_capacity(heap, room)?;
        Ok(Seat {
            opened,
            room,
            fault: None,
        })
    }

    // The values it has opened, in order.
    pub fn opened(&self) -> &[R]
        ensures { result.now ≡ self.now.opened }
    {
        self.opened.as_slice()
    }

    // Its fault, if it has stopped.
    pub fn fault(&self) -> Option<Fault>
        ensures { result ≡ self.now.fault }
    {
        self.fault
    }

    // The opening whose number is that of the values opened so far.
    fn present(&self, circuit: &Circuit) -> Option<Opening>
        ensures { result ≡ present_of circuit.now.codes self.now }
    {
        let number = self.opened.len();
        if number >= self.room {
            return None;
        }
        circuit.openings().get(number).copied()
    }

    // The opening it is at, or why there is none: it has stopped, or all openings are done.
    pub fn opening(&self, circuit: &Circuit) -> Result<Opening, Refusal>
        ensures { result ≡ opening_or_refused circuit.now.codes self.now }
    {
        if self.fault.is_some() {
            return Err(Refusal::Halted);
        }
        self.present(circuit).ok_or(Refusal::Done)
    }

    // What a row makes of the seat. The value that it opens to is kept, and the gates up to the next opening's are worked out; or
    // the fault is recorded, and the work table is left.
    pub fn take<M: Methods>(
        &mut self,
        circuit: &Circuit,
        threshold: usize,
        row: &[R],
        lent: Lent<'_, R>,
        work: &mut [R],
    ) -> Result<Option<Fault>, Refusal>
        ensures { TakesBy R.Ring M.Methods.method circuit.now threshold (tables lent.entry) row.now self.old work.old result self.new work.new (opening_or_refused circuit.now.codes self.old) }
    {
        let opening = self.opening(circuit)?;
        match open_at(circuit, opening, threshold, row)? {
            Ok(value) => {
                let next = stage(circuit, self.opened.len() + 1);
                keep::<R, M>(circuit, opening, next, value, lent, work);
                self.opened.push_reserved(value);
                Ok(None)
            }
            Err(fault) => {
                self.fault = Some(fault);
                Ok(Some(fault))
            }
        }
    }
}
