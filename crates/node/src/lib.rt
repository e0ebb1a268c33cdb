// One seat: its shares of every gate, the words it shows, and what it makes of the rows it is handed.
#![tactic(auto)]

ghost use Rattle.std.specs.Prelude.{◌≡◌, ℕ, ◌-◌, map, length, replicate, MatchResult};
ghost use Rattle.curve.specs.Curve.{K, tested, word as word_at};
ghost use Rattle.node.specs.Nodes.{lengths, fitting, making_refused, node_opening, Posts, Takes, Made, NotMade};
ghost use Rattle.node.specs.Tables.{tables};

use circuit::checked::{Circuit, Limits};
use circuit::openings::{Opening, count_products};
use curve::refusal::Refusal;
use curve::test_seats;
use encoding::methods::Methods;
use fault::Fault;
use ring::Ring;
use rules::gates::entry_at;
use seat::Seat;
use std::alloc::Global;
use std::marker::{Model, PhantomData};
use work::{settle, shown_word, stage};

pub mod fault;
pub mod openings;
pub mod seat;
pub mod work;

// The tables that a node is lent at a call: the constants, and its parts of the inputs and of the pairs. High and low parts are two
// tables, since they are dealt, lent and read apart.
#[derive(Clone, Copy, Debug)]
pub struct Lent<'a, R> {
    pub constants: &'a [u64],
    pub inputs: &'a [R],
    pub high: &'a [R],
    pub low: &'a [R],
}

// One seat with a list of its own.
#[derive(Drop)]
pub struct Node<R, M> {
    seats: usize,
    threshold: usize,
    number: usize,
    circuit: Circuit,
    seat: Seat<R>,
    methods: PhantomData<M>,
}

impl<R, M> Model for Node<R, M> {
    ghost use Rattle.node.specs.Nodes.{State};

    ghost Value = { State R };

    ghost view = { λ n. record { seats = n.seats; threshold = n.threshold; number = n.number; plan = n.circuit; keeps = n.seat } };
}

// Whether tables of these lengths fit a list.
fn fit<R: Ring>(lent: Lent<'_, R>, circuit: &Circuit, work: &[R]) -> bool
    ensures { result ≡ fitting circuit.now (lengths (tables lent.entry) work.now) }
{
    let pairs = circuit.pairs();
    lent.constants.len() == circuit.constants()
        && lent.inputs.len() == circuit.inputs()
        && lent.high.len() == pairs
        && lent.low.len() == pairs
        && work.len() == circuit.codes().len()
}

// The word of a seat in a row; zero where the row has none.
fn word_of_seat<R: Ring>(row: &[R], number: usize) -> R
    ensures { R.Ring.element result ≡ word_at R.Ring row.now (number - 1) }
{
    entry_at(row, number.saturating_sub(1))
}

// Sets every entry to zero. Not by `fill`, which asks that a clone of zero cannot fail.
fn clear<R: Ring>(work: &mut [R])
    ensures { map R.Ring.element work.new ≡ replicate (length work.old) (K R.Ring).𝟎 }
{
    for entry in work {
        *entry = R::zero();
    }
}

// What making tests before the list is checked: seats, threshold, seat, length.
fn making_tests<R: Ring>(
    seats: usize,
    threshold: usize,
    number: usize,
    codes: &[u32],
    lent: Lent<'_, R>,
    work: &[R],
) -> Result<(), Refusal>
    ensures { result ≡ tested (making_refused R.Ring.points.count seats threshold number codes.now (lengths (tables lent.entry) work.now)) }
{
    test_seats::<R>(seats)?;
    if threshold.saturating_mul(3) >= seats {
        return Err(Refusal::Threshold);
    }
    if !(1..=seats).contains(&number) {
        return Err(Refusal::Seat);
    }
    let pairs = count_products(codes);
    if lent.high.len() != pairs || lent.low.len() != pairs || work.len() != codes.len() {
        return Err(Refusal::Length);
    }
    Ok(())
}

impl<R: Ring, M: Methods> Node<R, M> {
    // A node over these tables. It copies the list, sets its work table to zero, and works out the gates before the first
    // opening. Seats, threshold and number come together here and in the tests above alone, so they are no struct.
    pub fn make(
        heap: Global,
        seats: usize,
        threshold: usize,
        number: usize,
        codes: &[u32],
        lent: Lent<'_, R>,
        work: &mut [R],
    ) -> Result<Node<R, M>, Refusal>
        ensures { MatchResult result (λ x. Made R.Ring M.Methods.method seats threshold number codes.now (tables lent.entry) work.old x work.new) (λ e. NotMade R.Ring M.Methods.method seats threshold number codes.now (tables lent.entry) work.old e work.new) }
    {
        making_tests(seats, threshold, number, codes, lent, work)?;
        let limits = Limits {
            degree: R::DEGREE,
            inputs: lent.inputs.len(),
            constants: lent.constants.len(),
        };
        let circuit = Circuit::check::<M>(heap, limits, codes)?;
        let seat = Seat::new(heap, circuit.openings().len())?;
        clear(work);
        let first = stage(&circuit, 0);
        settle::<R, M>(&circuit, 0, first, lent, work);
        Ok(Node {
            seats,
            threshold,
            number,
            circuit,
            seat,
            methods: PhantomData,
        })
    }

    // The opening it is at, or why there is none.
    fn opening(&self, lent: Lent<'_, R>, work: &[R]) -> Result<Opening, Refusal>
        ensures { result ≡ node_opening self.now (tables lent.entry) work.now }
    {
        if !fit(lent, &self.circuit, work) {
            return Err(Refusal::Length);
        }
        self.seat.opening(&self.circuit)
    }

    // The word of the present opening. It changes nothing.
    pub fn post(&self, lent: Lent<'_, R>, work: &[R]) -> Result<R, Refusal>
        ensures { Posts R.Ring M.Methods.method self.now (tables lent.entry) work.now result }
    {
        let opening = self.opening(lent, work)?;
        Ok(shown_word(&self.circuit, opening, work, lent.high))
    }

    // Takes the row of all seats' words at the present opening.
    pub fn take(
        &mut self,
        lent: Lent<'_, R>,
        row: &[R],
        work: &mut [R],
    ) -> Result<Option<Fault>, Refusal>
        ensures { Takes R.Ring M.Methods.method (tables lent.entry) row.now self.old work.old result self.new work.new }
    {
        let opening = self.opening(lent, work)?;
        if row.len() != self.seats {
            return Err(Refusal::Length);
        }
        let own = shown_word(&self.circuit, opening, work, lent.high);
        if !word_of_seat(row, self.number).same(own) {
            return Err(Refusal::Own);
        }
        self.seat
            .take::<M>(&self.circuit, self.threshold, row, lent, work)
    }

    // The values it has opened, in order.
    pub fn opened(&self) -> &[R]
        ensures { result.now ≡ self.now.keeps.opened }
    {
        self.seat.opened()
    }

    // Its fault, if it has stopped.
    pub fn fault(&self) -> Option<Fault>
        ensures { result ≡ self.now.keeps.fault }
    {
        self.seat.fault()
    }
}
