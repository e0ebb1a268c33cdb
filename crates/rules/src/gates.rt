// The rules of single gates. They are the same for shares and for values.
ghost use Rattle.std.specs.Prelude.{◌≡◌, ℕ, ◌<◌, List, [], map, length, replicate, slice_index, slice_index_or};
ghost use Rattle.circuit.specs.Kinds.{gate_from};
ghost use Rattle.curve.specs.Curve.{K, listed, word as word_at};
ghost use Rattle.encoding.specs.Layouts.{positions, read_at};
ghost use Rattle.ring.specs.Model.{degree};
ghost use Rattle.rules.specs.Rules.{word, after};
ghost use Rattle.rules.specs.Elements.{Answers, value, number_at, picked, known, parts};

use circuit::kinds::Kind;
use circuit::layout_named;
use encoding::encodings::Encoding;
use encoding::layout::Layout;
use encoding::methods::{Method, Methods};
use encoding::values::lay_out;
use ring::{Number, Ring};

// As many lanes as any layout of a ring with at most 16 coordinates has, and more. Lanes are read into a table of fixed size,
// since no memory is asked for after making.
const ROOM: usize = 16;

// What a product or an output is worked out from: the value that was opened, and the low part of the pair.
#[derive(Clone, Copy, Debug)]
pub struct Opened<R> {
    pub value: R,
    pub low: R,
}

// What stands at a place of a table; zero past its end.
pub fn entry_at<R: Ring>(entries: &[R], place: usize) -> R
    ensures { R.Ring.element result ≡ word_at R.Ring entries.now place }
{
    entries.get(place).copied().unwrap_or(R::zero())
}

// A number in every lane of a layout.
fn in_every_lane<R: Ring>(layout: Layout, number: u64) -> R
    ensures { R.Ring.element result ≡ value R.Ring.shape layout (replicate (length (positions layout (degree R.Ring.shape))) number) }
{
    lay_out(layout, &[number; ROOM])
}

// A number at one coordinate.
fn number<R: Ring>(value: u64, place: usize) -> R
    ensures { R.Ring.element result ≡ number_at R.Ring.shape value place }
{
    R::embed(value, place)
}

// The factor that moves a plain value to a lane of a layout; zero where there is no such lane.
fn lane_factor<R: Ring>(layout: Layout, lane: usize) -> R
    ensures { R.Ring.element result ≡ number_at R.Ring.shape 1 (slice_index_or (positions layout (degree R.Ring.shape)) lane (degree R.Ring.shape)) }
{
    number(1, layout.position(R::DEGREE, lane))
}

// Writes what stands at the position of each lane, from lane 0 on; 0 where the position is past the coordinates.
pub(crate) fn read_by<R: Ring, F: Fn(usize) -> usize>(element: R, position: F, lanes: &mut [u64])
    requires { F.IsAlwaysCallable position }
    ensures { (ps : List ℕ) → Answers (F.post position) (degree R.Ring.shape) (length lanes.old) ps → lanes.new ≡ listed (length lanes.old) (λ l. slice_index (read_at ps (R.Ring.element element).0) l) }
{
    for (lane, out) in lanes.iter_mut().enumerate() {
        *out = element.coordinate(position(lane)).wide();
    }
}

// What stands at the position of each lane, in a layout with as many lanes.
pub(crate) fn picked_by<R: Ring, F: Fn(usize) -> usize>(
    element: R,
    position: F,
    layout: Layout,
) -> R
    requires { F.IsAlwaysCallable position }
    ensures { (ps : List ℕ) → Answers (F.post position) (degree R.Ring.shape) 16 ps → length ps ≡ length (positions layout (degree R.Ring.shape)) → R.Ring.element result ≡ value R.Ring.shape layout (read_at ps (R.Ring.element element).0) }
{
    let mut lanes = [0; ROOM];
    read_by(element, position, &mut lanes);
    lay_out(layout, &lanes)
}

// The out layout of what an encoding reads from an element.
fn kept_by<R: Ring, E: Encoding>(product: R) -> R
    ensures { R.Ring.element result ≡ picked R.Ring.shape E.Encoding.enc (R.Ring.element product) }
{
    picked_by(product, |lane| E::read_position(R::DEGREE, lane), E::out())
}

// The same by a method's number; zero where there is no such method.
fn kept<R: Ring, M: Methods>(method: u32, product: R) -> R
    ensures { R.Ring.element result ≡ (known R.Ring.shape M.Methods.method []).pick method (R.Ring.element product) }
{
    match Method::try_from(method) {
        Ok(Method::Zero) => kept_by::<R, M::Zero>(product),
        Ok(Method::One) => kept_by::<R, M::One>(product),
        Ok(Method::Two) => kept_by::<R, M::Two>(product),
        Err(_) => R::zero(),
    }
}

// The word that is shown at a gate: a product less the high part of its pair, or an output; zero at any other gate.
// A gate comes as four numbers by a rule of the project: a code is split into a four-part tuple.
pub fn word_of<R: Ring>(gate: (u32, u32, u32, u32), entries: &[R], high: R) -> R
    ensures { R.Ring.element result ≡ word (K R.Ring) (parts (λ i. (K R.Ring).𝟎) (R.Ring.element high) (K R.Ring).𝟎) 0 (word_at R.Ring entries.now) (gate_from gate) }
{
    let (kind, _, first, second) = gate;
    let left = entry_at(entries, first as usize);
    match Kind::from(kind) {
        Kind::Mul => left.mul(entry_at(entries, second as usize)).sub(high),
        Kind::Out => left,
        _ => R::zero(),
    }
}

// The entry of a gate in this layout: from the inputs' parts and the entries so far, and at a product or an output from
// what was opened there. A gate comes as at `word_of`. Constants, inputs and entries come one by one, since those who call
// hold them apart: node lends the first two and writes the third, evaluation has all three as arguments of its own.
pub fn entry_of<R: Ring, M: Methods>(
    gate: (u32, u32, u32, u32),
    layout: Layout,
    constants: &[u64],
    inputs: &[R],
    entries: &[R],
    opened: Opened<R>,
) -> R
    ensures { R.Ring.element result ≡ after (K R.Ring) (known R.Ring.shape M.Methods.method constants.now) (parts (word_at R.Ring inputs.now) (K R.Ring).𝟎 (R.Ring.element opened.low)) 0 (word_at R.Ring entries.now) layout (R.Ring.element opened.value) (gate_from gate) }
{
    let (kind, detail, first, second) = gate;
    let (first, second) = (first as usize, second as usize);
    let left = entry_at(entries, first);
    let constant = constants.get(second).copied().unwrap_or(0);
    match Kind::from(kind) {
        Kind::In => entry_at(inputs, first),
        Kind::Add => left.add(entry_at(entries, second)),
        Kind::Sub => left.sub(entry_at(entries, second)),
        Kind::Scale => left.mul(number(constant, 0)),
        Kind::Offset => left.add(in_every_lane(layout, constant)),
        Kind::Place => left.mul(lane_factor(layout_named(detail), second)),
        Kind::Mul => kept::<R, M>(detail, opened.value).add(opened.low),
        Kind::Out => opened.value,
    }
}
