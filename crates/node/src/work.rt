// A seat's work table, worked out gate by gate. These calls take tables of any length: what a table lacks reads as zero, and a
// gate past the table's end is passed over. The circuit, the lent tables and the work table come one by one: a struct of them
// would hold the work table, which is lent on at each call.
ghost use Rattle.std.specs.Prelude.{◌≡◌, ℕ, ◌-◌, map, slice_set};
ghost use Rattle.curve.specs.Curve.{K};
ghost use Rattle.node.specs.Tables.{tables};
ghost use Rattle.node.specs.Work.{stage as stage_of, part_of, shown, gate_worked, gates_settled, value_kept};

use crate::Lent;
use circuit::checked::Circuit;
use circuit::openings::Opening;
use encoding::layout::Layout;
use encoding::methods::Methods;
use ring::Ring;
use rules::gates::{Opened, entry_at, entry_of, word_of};

// Not by `get_mut`, which says nothing of the other entries.
fn put<R: Copy>(table: &mut [R], place: usize, value: R)
    ensures { table.new ≡ slice_set table.old place value }
{
    if place < table.len() {
        table[place] = value;
    }
}

// The part that an opening has of the parts of all pairs; zero at an output.
fn part<R: Ring>(all: &[R], opening: Opening) -> R
    ensures { R.Ring.element result ≡ part_of (K R.Ring).𝟎 (map R.Ring.element all.now) opening }
{
    match opening {
        Opening::Product { pair, .. } => entry_at(all, pair),
        Opening::Output { .. } => R::zero(),
    }
}

// The gate of opening number k, or the number of gates where there is none.
pub fn stage(circuit: &Circuit, k: usize) -> usize
    ensures { result ≡ stage_of circuit.now.codes k }
{
    circuit
        .openings()
        .get(k)
        .map_or(circuit.codes().len(), |opening| opening.gate())
}

// The word that is shown at an opening, from the work table and the high parts.
pub fn shown_word<R: Ring>(circuit: &Circuit, opening: Opening, work: &[R], high: &[R]) -> R
    ensures { R.Ring.element result ≡ shown (K R.Ring) circuit.now.codes (map R.Ring.element work.now) opening (map R.Ring.element high.now) }
{
    word_of(circuit.gate(opening.gate()), work, part(high, opening))
}

// Works out a gate of the table, where this was opened.
fn work_out<R: Ring, M: Methods>(
    circuit: &Circuit,
    gate: usize,
    lent: Lent<'_, R>,
    work: &mut [R],
    opened: Opened<R>,
)
    ensures { map R.Ring.element work.new ≡ gate_worked R.Ring M.Methods.method circuit.now (tables lent.entry) work.old gate (R.Ring.element opened.value) (R.Ring.element opened.low) }
{
    let entry = entry_of::<R, M>(
        circuit.gate(gate),
        circuit.layout(gate),
        lent.constants,
        lent.inputs,
        work,
        opened,
    );
    put(work, gate, entry);
}

// Works out the gates from one up to another, none of which is opened.
pub fn settle<R: Ring, M: Methods>(
    circuit: &Circuit,
    from: usize,
    to: usize,
    lent: Lent<'_, R>,
    work: &mut [R],
)
    ensures { map R.Ring.element work.new ≡ gates_settled R.Ring M.Methods.method circuit.now (tables lent.entry) work.old from (to - from) }
{
    let nothing = Opened {
        value: R::zero(),
        low: R::zero(),
    };
    for gate in from..to {
        work_out::<R, M>(circuit, gate, lent, work, nothing);
    }
}

// Works out the gate of an opening from the value that was opened, and the gates up to the next opening's.
pub fn keep<R: Ring, M: Methods>(
    circuit: &Circuit,
    opening: Opening,
    next: usize,
    value: R,
    lent: Lent<'_, R>,
    work: &mut [R],
)
    ensures { map R.Ring.element work.new ≡ value_kept R.Ring M.Methods.method circuit.now (tables lent.entry) work.old opening (R.Ring.element value) next }
{
    let opened = Opened {
        value,
        low: part(lent.low, opening),
    };
    let gate = opening.gate();
    work_out::<R, M>(circuit, gate, lent, work, opened);
    settle::<R, M>(circuit, gate.saturating_add(1), next, lent, work);
}
