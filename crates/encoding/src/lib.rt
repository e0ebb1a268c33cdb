// What a value looks like inside one ring element, and what one multiplication computes.
#![tactic(auto)]

ghost use Rattle.std.specs.Prelude.{◌≡◌};
ghost use Rattle.encoding.specs.Encodings.{Enc, Sound};
ghost use Rattle.encoding.specs.Theorems.{HalfIsLargest, LanesComeBack};

pub mod encodings;
pub mod layout;
pub mod methods;
pub mod numbers;
pub mod values;

use encodings::Encoding;

// Half of the degree, rounded up, is the largest s with 2 (s - 1) below the degree.
pub fn half_is_largest()
    ensures { HalfIsLargest }
{}

// Lanes that are laid out are read back, modulo q.
pub fn lanes_come_back()
    ensures { LanesComeBack }
{}

// For every modulus and every monic polynomial, reading the product of a left and a right value gives the subcircuit.
pub fn encoding_law<E: Encoding>()
    ensures { Sound E.Encoding.enc }
{}
