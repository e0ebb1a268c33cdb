// One gate, judged by the gates before it.
ghost use Rattle.std.specs.Prelude.{◌≡◌, ℕ, if◌then◌else◌, Ok, Err, take, slice_index};
ghost use Rattle.encoding.specs.Encodings.{Enc};
ghost use Rattle.encoding.specs.Numbers.{method_number};
ghost use Rattle.circuit.specs.Gates.{setting_for, operand, layout_at, input_agrees, agrees, gate_judged};
ghost use Rattle.circuit.specs.Judging.{ruled, layouts_of};
ghost use Rattle.curve.specs.declared.refusal.Refusal.TheVariants.{Operand};
ghost use Rattle.circuit.specs.declared.kinds.Kind.TheVariants.{In, Add, Scale, Place, Mul, Out};

use crate::checked::Limits;
use crate::kinds::Kind;
use crate::{layout_named, split};
use curve::refusal::Refusal;
use encoding::encodings::Encoding;
use encoding::layout::Layout;
use encoding::methods::{Method, Methods};

pub(crate) fn code_at(codes: &[u32], gate: usize) -> u32
    ensures { result ≡ slice_index codes.now gate }
{
    codes.get(gate).copied().unwrap_or(0)
}

pub(crate) fn layout_of(layouts: &[Layout], gate: usize) -> Layout
    ensures { result ≡ layout_at layouts.now gate }
{
    layouts.get(gate).copied().unwrap_or(Layout::Plain)
}

// Refuses a gate for which a test does not hold.
fn test(holds: bool, refusal: Refusal) -> Result<(), Refusal>
    ensures { result ≡ if holds then Ok tt else Err refusal }
{
    if holds { Ok(()) } else { Err(refusal) }
}

// Whether a gate gives the input no other layout.
fn input_agrees(code: u32, input: u32, layout: Layout) -> bool
    ensures { result ≡ input_agrees input layout code }
{
    let (kind, detail, first, _) = split(code);
    Kind::from(kind) != Kind::In || first != input || layout_named(detail) == layout
}

// The codes of the gates before this one: a slice, for a loop over `take` tests for two ends at each code.
fn codes_before(codes: &[u32], gate: usize) -> &[u32]
    ensures { result.now ≡ take gate codes.now }
{
    &codes[..gate.min(codes.len())]
}

// Whether no gate before this one has given the input another layout.
fn inputs_agree(codes: &[u32], gate: usize, input: u32, layout: Layout) -> bool
    ensures { result ≡ agrees (take gate codes.now) input layout }
{
    codes_before(codes, gate)
        .iter()
        .all(|code| input_agrees(*code, input, layout))
}

// The left, right and result layout of an encoding.
fn layouts<E: Encoding>() -> (Layout, Layout, Layout)
    ensures { result ≡ layouts_of E.Encoding.enc }
{
    (E::left(), E::right(), E::out())
}

// The layouts of the encoding that stands at a method.
fn method_layouts<M: Methods>(method: Method) -> (Layout, Layout, Layout)
    ensures { result ≡ layouts_of (M.Methods.method (method_number method)) }
{
    match method {
        Method::Zero => layouts::<M::Zero>(),
        Method::One => layouts::<M::One>(),
        Method::Two => layouts::<M::Two>(),
    }
}

// A gate that is being judged: its fields, its place in its list, the layouts of the gates before it, and what the list is
// checked for.
#[derive(Clone, Copy)]
struct Candidate<'a> {
    limits: Limits,
    codes: &'a [u32],
    layouts: &'a [Layout],
    gate: usize,
    detail: u32,
    first: u32,
    second: u32,
}

impl Candidate<'_> {
    // Whether a gate comes before this one and is no output.
    fn is_operand(self, number: u32) -> bool
        ensures { result ≡ operand self.entry.codes.now self.entry.gate number }
    {
        let earlier = number as usize;
        earlier < self.gate && Kind::from(split(code_at(self.codes, earlier)).0) != Kind::Out
    }

    // The layout of an operand; a gate that is none is refused.
    fn operand_layout(self, number: u32) -> Result<Layout, Refusal>
        ensures { result ≡ if operand self.entry.codes.now self.entry.gate number then Ok (layout_at self.entry.layouts.now number) else Err Operand }
    {
        test(self.is_operand(number), Refusal::Operand)?;
        Ok(layout_of(self.layouts, number as usize))
    }

    // IN: a layout, an input, and 0.
    fn check_in(self) -> Result<Layout, Refusal>
        ensures { (method : ℕ → Enc) → result ≡ ruled self.entry method In }
    {
        let layout = Layout::try_from(self.detail).map_err(|_| Refusal::Detail)?;
        test(self.second == 0, Refusal::Detail)?;
        test((self.first as usize) < self.limits.inputs, Refusal::Operand)?;
        let agree = inputs_agree(self.codes, self.gate, self.first, layout);
        test(agree, Refusal::Layout)?;
        Ok(layout)
    }

    // ADD and SUB: two gates of one layout.
    fn check_sum(self) -> Result<Layout, Refusal>
        ensures { (method : ℕ → Enc) → result ≡ ruled self.entry method Add }
    {
        test(self.detail == 0, Refusal::Detail)?;
        let first = self.operand_layout(self.first)?;
        let second = self.operand_layout(self.second)?;
        test(first == second, Refusal::Layout)?;
        Ok(first)
    }

    // SCALE and OFFSET: a gate and a constant.
    fn check_constant(self) -> Result<Layout, Refusal>
        ensures { (method : ℕ → Enc) → result ≡ ruled self.entry method Scale }
    {
        test(self.detail == 0, Refusal::Detail)?;
        let layout = self.operand_layout(self.first)?;
        test(
            (self.second as usize) < self.limits.constants,
            Refusal::Operand,
        )?;
        Ok(layout)
    }

    // PLACE: a new layout, a plain gate, and a lane of the new layout.
    fn check_place(self) -> Result<Layout, Refusal>
        ensures { (method : ℕ → Enc) → result ≡ ruled self.entry method Place }
    {
        let layout = Layout::try_from(self.detail).map_err(|_| Refusal::Detail)?;
        let first = self.operand_layout(self.first)?;
        let lanes = layout.lane_count(self.limits.degree);
        test((self.second as usize) < lanes, Refusal::Operand)?;
        test(first == Layout::Plain, Refusal::Layout)?;
        Ok(layout)
    }

    // MUL: a method, a gate in its left layout, and one in its right layout.
    fn check_mul<M: Methods>(self) -> Result<Layout, Refusal>
        ensures { result ≡ ruled self.entry M.Methods.method Mul }
    {
        let method = Method::try_from(self.detail).map_err(|_| Refusal::Detail)?;
        let first = self.operand_layout(self.first)?;
        let second = self.operand_layout(self.second)?;
        let (left, right, out) = method_layouts::<M>(method);
        test(first == left, Refusal::Layout)?;
        test(second == right, Refusal::Layout)?;
        Ok(out)
    }

    // OUT: a gate, and 0.
    fn check_out(self) -> Result<Layout, Refusal>
        ensures { (method : ℕ → Enc) → result ≡ ruled self.entry method Out }
    {
        test(self.detail == 0 && self.second == 0, Refusal::Detail)?;
        self.operand_layout(self.first)
    }
}

// The layout of a gate, or why it is refused: detail, then operand, then layout.
pub(crate) fn check_gate<M: Methods>(
    limits: Limits,
    codes: &[u32],
    layouts: &[Layout],
    gate: usize,
) -> Result<Layout, Refusal>
    ensures { result ≡ gate_judged (setting_for limits M.Methods.method) codes.now layouts.now gate }
{
    let (kind, detail, first, second) = split(code_at(codes, gate));
    let candidate = Candidate {
        limits,
        codes,
        layouts,
        gate,
        detail,
        first,
        second,
    };
    match Kind::from(kind) {
        Kind::In => candidate.check_in(),
        Kind::Add | Kind::Sub => candidate.check_sum(),
        Kind::Scale | Kind::Offset => candidate.check_constant(),
        Kind::Place => candidate.check_place(),
        Kind::Mul => candidate.check_mul::<M>(),
        Kind::Out => candidate.check_out(),
    }
}
