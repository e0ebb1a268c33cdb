ghost use Rattle.std.specs.Prelude.{◌≡◌, ◌^◌};
ghost use Rattle.algebra.specs.Poly.{poly_product};
ghost use Rattle.algebra.specs.Quotient.{modulo, product, unit};
ghost use Rattle.ring.specs.Model.{degree};
ghost use Rattle.ring.specs.W4.{w4, w4_element, w4_points, seven};
ghost use Rattle.ring.specs.Words.{w4_laws};
ghost use Rattle.std.proofs.Common.{rules};

use crate::Ring;
use crate::tables::W4_INVERSES;
use std::array;

// The plain product of polynomials: sum k is that of all products of coordinates whose places add up to k.
fn sums(a: [u64; 4], b: [u64; 4]) -> [u64; 7]
    ensures { result ≡ poly_product (modulo (2 ^ 64)) (w4_element a).0 (w4_element b).0 }
{
    let [a0, a1, a2, a3] = a;
    let [b0, b1, b2, b3] = b;
    [
        a0.wrapping_mul(b0),
        a0.wrapping_mul(b1).wrapping_add(a1.wrapping_mul(b0)),
        a0.wrapping_mul(b2)
            .wrapping_add(a1.wrapping_mul(b1))
            .wrapping_add(a2.wrapping_mul(b0)),
        a0.wrapping_mul(b3)
            .wrapping_add(a1.wrapping_mul(b2))
            .wrapping_add(a2.wrapping_mul(b1))
            .wrapping_add(a3.wrapping_mul(b0)),
        a1.wrapping_mul(b3)
            .wrapping_add(a2.wrapping_mul(b2))
            .wrapping_add(a3.wrapping_mul(b1)),
        a2.wrapping_mul(b3).wrapping_add(a3.wrapping_mul(b2)),
        a3.wrapping_mul(b3),
    ]
}

// The remainder of seven sums: X^4 is - X - 1, so each of the sums 4, 5 and 6 is taken from two places below.
fn reduced(s: [u64; 7]) -> [u64; 4]
    ensures { (w4_element result).0 ≡ product (modulo (2 ^ 64)) w4.h (seven s) (unit (modulo (2 ^ 64)) w4.h) }
{
    let [s0, s1, s2, s3, s4, s5, s6] = s;
    [
        s0.wrapping_sub(s4),
        s1.wrapping_sub(s4).wrapping_sub(s5),
        s2.wrapping_sub(s5).wrapping_sub(s6),
        s3.wrapping_sub(s6),
    ]
}

impl Ring for [u64; 4] {
    type Coordinate = u64;

    const MODULUS: u128 = 18446744073709551616;

    ghost MODULUS = { w4.q };

    const DEGREE: usize = 4;

    ghost DEGREE = { degree w4 };

    const POINTS: usize = 16;

    ghost POINTS = { w4_points.count };

    ghost shape = { w4 };

    ghost element = { w4_element };

    ghost points = { w4_points };

    ghost counts = { Prim.search rules };

    ghost limits = { Prim.search rules };

    ghost pointed = { w4_laws };

    fn zero() -> [u64; 4] {
        [0, 0, 0, 0]
    }

    fn add(self, other: [u64; 4]) -> [u64; 4] {
        array::from_fn(|c| self[c].wrapping_add(other[c]))
    }

    fn sub(self, other: [u64; 4]) -> [u64; 4] {
        array::from_fn(|c| self[c].wrapping_sub(other[c]))
    }

    fn mul(self, other: [u64; 4]) -> [u64; 4] {
        reduced(sums(self, other))
    }

    fn same(self, other: [u64; 4]) -> bool {
        self == other
    }

    fn coordinate(self, place: usize) -> u64 {
        self.get(place).copied().unwrap_or(0)
    }

    fn embed(value: u64, place: usize) -> [u64; 4] {
        let mut e = [0, 0, 0, 0];
        if place < 4 {
            e[place] = value;
        }
        e
    }

    fn point(number: usize) -> [u64; 4] {
        let i = (number % 16) as u64;
        [i % 2, i / 2 % 2, i / 4 % 2, i / 8]
    }

    fn inverse(i: usize, j: usize) -> [u64; 4] {
        W4_INVERSES[i % 16][j % 16]
    }
}
