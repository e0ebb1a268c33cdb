// What a row comes to at an opening: a value, or the fault that stops the seat.
ghost use Rattle.std.specs.Prelude.{◌≡◌, ℕ, ◌*◌, length};
ghost use Rattle.circuit.specs.Openings.{degree_of};
ghost use Rattle.curve.specs.Curve.{curve_refused};
ghost use Rattle.ring.specs.Model.{degree};
ghost use Rattle.node.specs.Openings.{Differ, Strays, ValueComesTo, OpenedAt};

use crate::fault::Fault;
use circuit::checked::Circuit;
use circuit::openings::Opening;
use curve::refusal::Refusal;
use curve::{OffCurve, open_row};
use encoding::layout::Layout;
use ring::{Number, Ring};
use rules::plain::seen_through;

// The lowest coordinate at which two elements differ.
fn first_difference<R: Ring>(a: R, b: R) -> Option<usize>
    ensures { Differ (degree R.Ring.shape) (R.Ring.element a).0 (R.Ring.element b).0 result }
{
    (0..R::DEGREE).find(|place| a.coordinate(*place).wide() != b.coordinate(*place).wide())
}

// The lowest coordinate of a value that is not zero and is no position of the layout.
fn stray<R: Ring>(layout: Layout, value: R) -> Option<usize>
    ensures { Strays (degree R.Ring.shape) layout (R.Ring.element value).0 result }
{
    first_difference(value, seen_through(layout, value))
}

// What an opened value comes to: at a product anything is taken, at an output a value that is zero off its layout.
fn taken<R: Ring>(circuit: &Circuit, opening: Opening, value: R) -> Result<R, Fault>
    ensures { ValueComesTo R.Ring circuit.now.layouts opening value result }
{
    if let Opening::Output { gate, .. } = opening {
        if let Some(coordinate) = stray(circuit.layout(gate), value) {
            return Err(Fault::Lanes { gate, coordinate });
        }
    }
    Ok(value)
}

// Opens a row at an opening.
pub fn open_at<R: Ring>(
    circuit: &Circuit,
    opening: Opening,
    threshold: usize,
    row: &[R],
) -> Result<Result<R, Fault>, Refusal>
    ensures { OpenedAt R.Ring circuit.now.layouts threshold row.now opening result (curve_refused R.Ring.points.count (length row.now) (degree_of threshold opening)) }
{
    let degree = opening.thresholds().saturating_mul(threshold);
    match open_row(degree, row)? {
        Ok(value) => Ok(taken(circuit, opening, value)),
        Err(OffCurve { seat }) => Ok(Err(Fault::Row {
            gate: opening.gate(),
            seat,
        })),
    }
}
