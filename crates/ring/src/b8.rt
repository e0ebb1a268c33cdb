ghost use Rattle.std.specs.Prelude.{◌≡◌, if◌then◌else◌};
ghost use Rattle.algebra.specs.Quotient.{modulo, shift};
ghost use Rattle.ring.specs.B8.{b8, bits, b8_element, b8_points};
ghost use Rattle.ring.specs.Model.{coordinate_of, degree};
ghost use Rattle.ring.specs.Bytes.{b8_laws};
ghost use Rattle.std.proofs.Common.{rules};

use crate::Ring;
use crate::tables::B8_INVERSES;

// The product with X: a bit that leaves at the top comes back as X^4 + X^3 + X + 1.
fn doubled(a: u8) -> u8
    ensures { bits result ≡ shift (modulo 2) b8.h (bits a) }
{
    if a < 128 { a * 2 } else { (a - 128) * 2 ^ 27 }
}

// Whether coordinate `place` is 1.
fn bit(a: u8, place: usize) -> bool
    ensures { (if result then 1 else 0) ≡ coordinate_of (bits a) place }
{
    place < 8 && a >> place & 1 == 1
}

impl Ring for u8 {
    type Coordinate = bool;

    const MODULUS: u128 = 2;

    ghost MODULUS = { b8.q };

    const DEGREE: usize = 8;

    ghost DEGREE = { degree b8 };

    const POINTS: usize = 256;

    ghost POINTS = { b8_points.count };

    ghost shape = { b8 };

    ghost element = { b8_element };

    ghost points = { b8_points };

    ghost counts = { Prim.search rules };

    ghost limits = { Prim.search rules };

    ghost pointed = { b8_laws };

    fn zero() -> u8 {
        0x00
    }

    fn add(self, other: u8) -> u8 {
        self ^ other
    }

    // Modulo 2 a number is its own negative.
    fn sub(self, other: u8) -> u8 {
        self.add(other)
    }

    // From the top bit of `self` down: times X, and `other` more where the bit is set.
    fn mul(self, other: u8) -> u8 {
        let mut sum = 0;
        for c in (0..8usize).rev() {
            sum = doubled(sum);
            if bit(self, c) {
                sum ^= other;
            }
        }
        sum
    }

    fn same(self, other: u8) -> bool {
        self == other
    }

    fn coordinate(self, place: usize) -> bool {
        bit(self, place)
    }

    fn embed(value: u64, place: usize) -> u8 {
        if place < 8 && value % 2 == 1 {
            1 << place
        } else {
            0
        }
    }

    fn point(number: usize) -> u8 {
        (number % 256) as u8
    }

    fn inverse(i: usize, j: usize) -> u8 {
        B8_INVERSES[(i ^ j) % 256]
    }
}
