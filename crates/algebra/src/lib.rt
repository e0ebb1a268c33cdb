// Theory only: each function carries one theorem in its contract and does nothing.
#![tactic(auto)]

ghost use Rattle.algebra.specs.Poly.{PolyArithmetic, FewRoots, SomeThrough, OneThrough, LagrangeValue};
ghost use Rattle.algebra.specs.Quotient.{QuotientIsRing, ProductIsRemainder};
ghost use Rattle.algebra.specs.Solver.{SolverSound, SolverUses};

// An identity of ring expressions that the solver's test passes holds in every commutative ring.
pub fn solver_is_sound<E>()
    ensures { SolverSound E }
{}

// The same for an identity that holds once a multiple of a known equation is added across.
pub fn solver_uses_a_hypothesis<E>()
    ensures { SolverUses E }
{}

// Values and lengths of sums, scalings and products of polynomials.
pub fn polynomials_compute<E>()
    ensures { PolyArithmetic E }
{}

// At most m coefficients and m roots at points with invertible differences: the zero polynomial.
pub fn roots_are_few<E>()
    ensures { FewRoots E }
{}

// Through any m values there is a polynomial with m coefficients.
pub fn some_polynomial_runs_through<E>()
    ensures { SomeThrough E }
{}

// Two polynomials with at most m coefficients through the same m values are one.
pub fn one_polynomial_runs_through<E>()
    ensures { OneThrough E }
{}

// Its value anywhere is Lagrange's sum.
pub fn value_is_lagranges_sum<E>()
    ensures { LagrangeValue E }
{}

// Lists of d numbers below q are a commutative ring, for every q of at least 2 and every monic polynomial of degree d of at least 1.
pub fn quotient_is_a_ring()
    ensures { QuotientIsRing }
{}

// Their product is the remainder of the plain product of polynomials, and the only one.
pub fn product_is_the_remainder()
    ensures { ProductIsRemainder }
{}
