// The tables of shares that a node or a bench is lent: how many seats and which threshold, and every seat's parts of the inputs
// and of the pairs.
ghost use Rattle.std.specs.Prelude.{◌≡◌, ◌∷◌, ◌++◌, [], nat_lt, slice_set, if◌then◌else◌, vec_len, IfOk, OnErr};

use crate::notation::Notation;
use curve::refusal::Refusal;
use std::alloc::Global;

#[derive(Drop)]
pub(crate) struct Dealing<R> {
    pub(crate) seats: usize,
    pub(crate) threshold: usize,
    // A row for each input, with a part for each seat.
    pub(crate) inputs: Vec<Vec<R>>,
    pub(crate) pairs: Vec<Pair<R>>,
}

// The rows of one pair, each with a part for each seat.
#[derive(Drop)]
pub(crate) struct Pair<R> {
    pub(crate) high: Vec<R>,
    pub(crate) low: Vec<R>,
}

impl<R: Notation> Dealing<R> {
    pub(crate) fn new(heap: Global) -> Dealing<R>
        ensures rows { (result.inputs.items ≡ []) × (result.pairs.items ≡ []) }
        ensures numbers { (result.seats ≡ 0) × (result.threshold ≡ 0) }
    {
        Dealing {
            seats: 0,
            threshold: 0,
            inputs: Vec::new(heap),
            pairs: Vec::new(heap),
        }
    }
}

// Puts an entry in the place of an earlier one, or after the last. Want of memory is a refusal, which puts nothing.
pub(crate) fn put<T: Drop>(entries: &mut Vec<T>, number: usize, entry: T) -> Result<(), Refusal>
    ensures put { IfOk result (λ _. entries.new.items ≡ (if nat_lt number (vec_len entries.old) then slice_set entries.old.items number entry else entries.old.items ++ entry ∷ [])) }
    ensures refused { OnErr result (entries.new.items ≡ entries.old.items) }
{
    match entries.get_mut(number) {
        Some(place) => *place = entry,
        None => entries.push(entry)?,
    }
    Ok(())
}

// A seat's part of a row.
pub(crate) fn part_of<R: Notation>(row: &[R], seat: usize) -> Option<R> {
    row.get(seat.saturating_sub(1)).copied()
}
