#![tactic(auto)]

ghost use Rattle.std.specs.Prelude.{◌≡◌, ℕ, ◌+◌, ◌<◌, ◌≤◌, ◌∷◌, map, length};
ghost use Rattle.algebra.specs.Poly.{val, factor as lagrange_factor, lagrange};
ghost use Rattle.algebra.specs.Ring.{ops};
ghost use Rattle.curve.specs.Curve.{K, seats_refused, curve_refused, tested, word, Dealt, Opened, OpensOnce, ComesBack};

use refusal::Refusal;
use ring::Ring;

pub mod refusal;

// Why a row does not open: the lowest seat whose word is off the polynomial through the first ones.
#[derive(Clone, Copy, Debug, PartialEq, Eq, Hash)]
pub struct OffCurve {
    pub seat: usize,
}

// There are 1 to 31 seats, and fewer than points.
pub fn test_seats<R: Ring>(n: usize) -> Result<(), Refusal>
    ensures { result ≡ tested (seats_refused R.Ring.points.count n) }
{
    if n == 0 || n > 31 || n >= R::POINTS {
        return Err(Refusal::Seats);
    }
    Ok(())
}

// The tests that dealing and opening share: the number of seats, then the degree.
fn tests<R: Ring>(n: usize, degree: usize) -> Result<(), Refusal>
    ensures { result ≡ tested (curve_refused R.Ring.points.count n degree) }
{
    test_seats::<R>(n)?;
    if degree >= n {
        return Err(Refusal::Threshold);
    }
    Ok(())
}

// The value at x of the polynomial with these coefficients, by Horner's rule.
fn value_at<R: Ring>(secret: R, others: &[R], x: R) -> R
    ensures { R.Ring.element result ≡ val (ops (K R.Ring)) (map R.Ring.element (secret ∷ others.now)) (R.Ring.element x) }
{
    let mut sum = R::zero();
    for other in others.iter().rev() {
        sum = other.add(x.mul(sum));
    }
    secret.add(x.mul(sum))
}

// Writes the shares of `secret` for n seats: the values of the polynomial `secret` + c1 X + .. at the points 1 to n.
pub fn deal<R: Ring>(
    n: usize,
    degree: usize,
    secret: R,
    others: &[R],
    shares: &mut [R],
) -> Result<(), Refusal>
    ensures { Dealt R.Ring n degree secret others.now shares.old result shares.new }
{
    tests::<R>(n, degree)?;
    if others.len() != degree || shares.len() != n {
        return Err(Refusal::Length);
    }
    for (i, share) in shares.iter_mut().enumerate() {
        *share = value_at(secret, others, R::point(i + 1));
    }
    Ok(())
}

// Lagrange's factor at x of the seat at place i, among the first m seats.
fn factor<R: Ring>(m: usize, i: usize, x: R) -> R
    requires { i < m }
    ensures { R.Ring.element result ≡ lagrange_factor (K R.Ring) m (λ k. R.Ring.points.at (k + 1)) (λ k l. R.Ring.points.inv (k + 1) (l + 1)) (R.Ring.element x) i }
{
    let mut product = R::embed(1, 0);
    for j in 0..m {
        if j != i {
            product = product.mul(x.sub(R::point(j + 1)).mul(R::inverse(i + 1, j + 1)));
        }
    }
    product
}

// The value at x of the polynomial through the first m words of a row. Not of a part of it: opening speaks of the words of the
// whole row, also of the polynomial through the first ones.
fn interpolated<R: Ring>(row: &[R], m: usize, x: R) -> R
    requires { m ≤ length row.now }
    ensures { R.Ring.element result ≡ lagrange (K R.Ring) m (λ k. R.Ring.points.at (k + 1)) (λ k l. R.Ring.points.inv (k + 1) (l + 1)) (word R.Ring row.now) (R.Ring.element x) }
{
    let mut sum = R::zero();
    for (i, word) in row[..m].iter().enumerate() {
        sum = sum.add(word.mul(factor(m, i, x)));
    }
    sum
}

// Opens a row: the value at zero of the polynomial of at most this degree through all words, or the lowest seat off
// the one through the first `degree` + 1.
pub fn open_row<R: Ring>(degree: usize, row: &[R]) -> Result<Result<R, OffCurve>, Refusal>
    ensures { Opened R.Ring degree row.now result }
{
    tests::<R>(row.len(), degree)?;
    let m = degree + 1;
    for (k, word) in row[m..].iter().enumerate() {
        let seat = m + k + 1;
        if !interpolated(row, m, R::point(seat)).same(*word) {
            return Ok(Err(OffCurve { seat }));
        }
    }
    Ok(Ok(interpolated(row, m, R::zero())))
}

// A row has one answer at most.
pub fn openings_are_unique<R: Ring>()
    ensures { OpensOnce R.Ring }
{}

// What was dealt comes back when its shares are opened.
pub fn dealt_values_come_back<R: Ring>()
    ensures { ComesBack R.Ring }
{}
