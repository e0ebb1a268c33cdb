#![tactic(auto)]

ghost use Rattle.std.specs.Prelude.{◌≡◌, ℕ, ◌≤◌, true, if◌then◌else◌};
ghost use Rattle.algebra.specs.Quotient.{Shape, Element};
ghost use Rattle.algebra.specs.Ring.{CommRing, sub};
ghost use Rattle.ring.specs.Model.{ring, coordinate_of, embedded, Points, PointLaws, Counts, Limits, Laws};

pub mod b8;
mod tables;
pub mod w4;

// What a coordinate is held in: a number of at most 64 bits. Not `Into<u64>`: clauses read the number as a function of the
// value, and of `into` they know a relation.
pub trait Number: Copy {
    ghost value: { Self → ℕ };

    fn wide(self) -> u64
        ensures { result ≡ value self };
}

impl Number for u64 {
    ghost value = { λ x. x };

    fn wide(self) -> u64 {
        self
    }
}

impl Number for bool {
    ghost value = { λ x. (if x then 1 else 0) };

    fn wide(self) -> u64 {
        u64::from(self)
    }
}

// A ring of the engine. Each element stands for a list of d numbers below q, and the operations are those of
// polynomials modulo a monic one of degree d.
pub trait Ring: Copy {
    type Coordinate: Number;

    // The number q, below which each coordinate stands.
    const MODULUS: u128;

    ghost MODULUS: { ℕ };

    // The number d of coordinates.
    const DEGREE: usize;

    ghost DEGREE: { ℕ };

    // The number of evaluation points.
    const POINTS: usize;

    ghost POINTS: { ℕ };

    ghost shape: { Shape };

    ghost element: { Self → Element shape };

    ghost points: { Points shape };

    fn zero() -> Self
        ensures { element result ≡ (ring shape).𝟎 };

    fn add(self, other: Self) -> Self
        ensures { element result ≡ (ring shape).◌⊕◌ (element self) (element other) };

    fn sub(self, other: Self) -> Self
        ensures { element result ≡ sub (ring shape) (element self) (element other) };

    fn mul(self, other: Self) -> Self
        ensures { element result ≡ (ring shape).◌⊗◌ (element self) (element other) };

    // Whether the two are one element: an operation of the ring, which knows elements and not how they are held.
    fn same(self, other: Self) -> bool
        ensures { (result ≡ true → element self ≡ element other) × (element self ≡ element other → result ≡ true) };

    // The coordinate at a place; 0 at the degree and past it.
    fn coordinate(self, place: usize) -> Self::Coordinate
        ensures { Self.Coordinate.Number.value result ≡ coordinate_of (element self).0 place };

    // The number, modulo q, at one coordinate; zero at the degree and past it.
    fn embed(value: u64, place: usize) -> Self
        ensures { (element result).0 ≡ embedded shape value place };

    // Point numbers wrap at their count.
    fn point(number: usize) -> Self
        ensures { element result ≡ points.at number };

    // The inverse of the difference of two points; zero if they are one.
    fn inverse(i: usize, j: usize) -> Self
        ensures { element result ≡ points.inv i j };

    // The constants are those of the shape and of the points.
    ghost counts: { Counts MODULUS DEGREE POINTS shape points };

    ghost limits: { Limits shape };

    ghost pointed: { PointLaws shape points };
}

// The laws that every ring of the engine keeps.
pub fn ring_laws<R: Ring>()
    ensures { Laws R.Ring.shape R.Ring.points }
{}
