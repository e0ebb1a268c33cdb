// The openings of a list of gates: which gates are opened, in which order, and to which degree.
ghost use Rattle.std.specs.Prelude.{◌≡◌, ◌==◌, ℕ, ◌*◌, length, IfOk};
ghost use Rattle.circuit.specs.Kinds.{gate_of};
ghost use Rattle.circuit.specs.Openings.{gate_opened, degree_of, product_count, products, openings_of};

use crate::kinds::Kind;
use crate::split;
use std::alloc::{AllocError, Global};

// A gate whose word all seats show in one round: a product, with the pair that masks it, or an output, with its number.
#[derive(Clone, Copy, Debug, PartialEq, Eq, Hash)]
pub enum Opening {
    Product { gate: usize, pair: usize },
    Output { gate: usize, number: usize },
}

impl Opening {
    // The gate that is opened.
    pub fn gate(self) -> usize
        ensures { result ≡ gate_opened self }
    {
        match self {
            Opening::Product { gate, .. } | Opening::Output { gate, .. } => gate,
        }
    }

    // How many thresholds the degree of the polynomial through its words is.
    pub fn thresholds(self) -> usize
        ensures { (t : ℕ) → degree_of t self ≡ result * t }
    {
        match self {
            Opening::Product { .. } => 2,
            Opening::Output { .. } => 1,
        }
    }
}

fn is_product(code: u32) -> bool
    ensures { result ≡ (product_count (gate_of code) == 1) }
{
    Kind::from(split(code).0) == Kind::Mul
}

// How many products a list has.
pub fn count_products(codes: &[u32]) -> usize
    ensures { result ≡ products codes.now (length codes.now) }
{
    let mut count = 0;
    for code in codes {
        count += usize::from(is_product(*code));
    }
    count
}

// The openings of a list, in the order of their gates.
pub(crate) fn openings_of(heap: Global, codes: &[u32]) -> Result<Vec<Opening>, AllocError>
    ensures { IfOk result (λ v. v.items ≡ openings_of codes.now) }
{
    let mut openings = Vec::with_capacity(heap, codes.len())?;
    let mut pair = 0;
    let mut number = 0;
    for (gate, code) in codes.iter().enumerate() {
        match Kind::from(split(*code).0) {
            Kind::Mul => {
                openings.push_reserved(Opening::Product { gate, pair });
                pair += 1;
            }
            Kind::Out => {
                openings.push_reserved(Opening::Output { gate, number });
                number += 1;
            }
            _ => {}
        }
    }
    Ok(openings)
}
