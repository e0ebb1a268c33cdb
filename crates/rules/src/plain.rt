// Plain evaluation: every gate's value, with nothing shared.
ghost use Rattle.std.specs.Prelude.{◌≡◌, ◌&&◌, map, length, MatchResult, ◌==◌, slice_index};
ghost use Rattle.circuit.specs.Kinds.{gate_from};
ghost use Rattle.curve.specs.Curve.{K, listed, word as word_at};
ghost use Rattle.encoding.specs.Layouts.{positions, read_at};
ghost use Rattle.ring.specs.Model.{degree};
ghost use Rattle.rules.specs.Clear.{seen, clear_gate};
ghost use Rattle.rules.specs.Theorems.{ValuesAre, EvaluationRefused, EvaluationIsPlain, KeptAdds};

use crate::gates::{Opened, entry_at, entry_of, picked_by, read_by, word_of};
use circuit::checked::Circuit;
use circuit::kinds::Kind;
use circuit::split;
use curve::refusal::Refusal;
use encoding::layout::Layout;
use encoding::methods::Methods;
use ring::Ring;
use std::alloc::Global;

// Writes the lanes of a value in this layout, from lane 0 on; 0 where there is no such lane.
pub fn read_lanes<R: Ring>(layout: Layout, value: R, lanes: &mut [u64])
    ensures { lanes.new ≡ listed (length lanes.old) (λ l. slice_index (read_at (positions layout (degree R.Ring.shape)) (R.Ring.element value).0) l) }
{
    read_by(value, |lane| layout.position(R::DEGREE, lane), lanes)
}

// An element's coordinates at the positions of a layout, and zero elsewhere.
pub fn seen_through<R: Ring>(layout: Layout, value: R) -> R
    ensures { R.Ring.element result ≡ seen R.Ring.shape layout (R.Ring.element value) }
{
    picked_by(value, |lane| layout.position(R::DEGREE, lane), layout)
}

// The value of a gate from the values of those before it. An opening answers its word, and there is no pair to add.
fn value_of<R: Ring, M: Methods>(
    gate: (u32, u32, u32, u32),
    layout: Layout,
    constants: &[u64],
    inputs: &[R],
    values: &[R],
) -> R
    ensures { R.Ring.element result ≡ clear_gate R.Ring.shape M.Methods.method constants.now (word_at R.Ring inputs.now) layout (word_at R.Ring values.now) (gate_from gate) }
{
    let (kind, _, first, _) = gate;
    if Kind::from(kind) == Kind::In {
        return seen_through(layout, entry_at(inputs, first as usize));
    }
    let opened = Opened {
        value: word_of(gate, values, R::zero()),
        low: R::zero(),
    };
    entry_of::<R, M>(gate, layout, constants, inputs, values, opened)
}

// Whether there are as many constants and inputs as the list is for.
fn counts_fit(circuit: &Circuit, constants: usize, inputs: usize) -> bool
    ensures { result ≡ (constants == circuit.now.constants && inputs == circuit.now.inputs) }
{
    constants == circuit.constants() && inputs == circuit.inputs()
}

// The value of every gate of a list, in order, from the constants and the inputs' values.
pub fn evaluate<R: Ring, M: Methods>(
    heap: Global,
    circuit: &Circuit,
    constants: &[u64],
    inputs: &[R],
) -> Result<Vec<R>, Refusal>
    ensures { MatchResult result (λ v. ValuesAre R.Ring M.Methods.method circuit.now.codes circuit.now.layouts circuit.now.inputs circuit.now.constants constants.now inputs.now v.items) (λ e. EvaluationRefused R.Ring M.Methods.method circuit.now.codes circuit.now.layouts circuit.now.inputs circuit.now.constants constants.now inputs.now e) }
{
    if !counts_fit(circuit, constants.len(), inputs.len()) {
        return Err(Refusal::Length);
    }
    let mut values = Vec::with_capacity(heap, circuit.codes().len())?;
    for (&code, &layout) in circuit.codes().iter().zip(circuit.layouts()) {
        let value = value_of::<R, M>(split(code), layout, constants, inputs, values.as_slice());
        values.push_reserved(value);
    }
    Ok(values)
}

// For every list that is taken, plain evaluation is the only choice of lanes that satisfies every gate's rule, and the
// gates' values have these lanes.
pub fn evaluation_is_plain<R: Ring, M: Methods>()
    ensures { EvaluationIsPlain M.Methods.method R.Ring.shape }
{}

// What a method keeps of a sum is the sum of what it keeps.
pub fn what_is_kept_adds<R: Ring, M: Methods>()
    ensures { KeptAdds M.Methods.method R.Ring.shape }
{}
