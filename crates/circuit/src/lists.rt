// Whole lists of gates, checked gate by gate.
ghost use Rattle.std.specs.Prelude.{◌≡◌, false, ◌||◌, ◌⊎◌, length, take, Ok, Err, MatchResult, ◌==◌, nat_lt};
ghost use Rattle.circuit.specs.Gates.{setting, setting_for};
ghost use Rattle.circuit.specs.Lists.{lengths_wrong, list_checked};
ghost use Rattle.curve.specs.declared.refusal.Refusal.TheVariants.{Memory};

use crate::checked::Limits;
use crate::gates::check_gate;
use curve::refusal::Refusal;
use encoding::layout::Layout;
use encoding::methods::Methods;
use std::alloc::Global;

// The most gates, inputs and constants that a list may have.
pub(crate) const MOST: usize = 1024;

fn lengths_refused(limits: Limits, count: usize) -> bool
    ensures { result ≡ (count == 0 || nat_lt 1024 count || nat_lt 1024 limits.inputs || nat_lt 1024 limits.constants) }
{
    count == 0 || count > MOST || limits.inputs > MOST || limits.constants > MOST
}

// Writes the layouts of the gates of a list into the front of a table, or says why the list is refused: length, then the
// gates in order.
pub(crate) fn check_list<M: Methods>(
    limits: Limits,
    codes: &[u32],
    layouts: &mut [Layout; MOST],
) -> Result<(), Refusal>
    ensures { MatchResult result (λ _. list_checked (setting_for limits M.Methods.method) codes.now ≡ Ok (take (length codes.now) layouts.new)) (λ e. list_checked (setting_for limits M.Methods.method) codes.now ≡ Err e) }
{
    if lengths_refused(limits, codes.len()) {
        return Err(Refusal::Length);
    }
    // By number: a layout is written behind those that judge it, and an iterator would hold the table that it writes.
    for gate in 0..codes.len() {
        layouts[gate] = check_gate::<M>(limits, codes, &layouts[..gate], gate)?;
    }
    Ok(())
}

// The layouts of the gates of a list, or why it is refused: length, then the gates in order.
pub fn check<M: Methods>(
    heap: Global,
    degree: usize,
    inputs: usize,
    constants: usize,
    codes: &[u32],
) -> Result<Vec<Layout>, Refusal>
    ensures { MatchResult result (λ v. list_checked (setting degree inputs constants M.Methods.method) codes.now ≡ Ok v.items) (λ e. (list_checked (setting degree inputs constants M.Methods.method) codes.now ≡ Err e) ⊎ ((e ≡ Memory) × (lengths_wrong (setting degree inputs constants M.Methods.method) codes.now ≡ false))) }
{
    let limits = Limits {
        degree,
        inputs,
        constants,
    };
    let mut layouts = [Layout::Plain; MOST];
    check_list::<M>(limits, codes, &mut layouts)?;
    Ok(Vec::from_slice(heap, &layouts[..codes.len()])?)
}
