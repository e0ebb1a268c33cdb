ghost use Rattle.std.specs.Prelude.{◌≡◌, ℕ, ◌+◌, ◌*◌, ◌%◌, ◌<◌, min, length, slice_index, slice_index_or};
ghost use Rattle.encoding.specs.Encodings.{Enc, Sound, dot, plain_product, lanes_product, inner_product};
ghost use Rattle.encoding.specs.Sound.{plain_sound, lanes_sound, inner_sound};

use crate::layout::{Layout, half_of};
use ring::Ring;

// What one multiplication of ring elements computes of the lanes of its factors.
pub trait Encoding {
    ghost enc: { Enc };

    // The layout of the left factor.
    fn left() -> Layout
        ensures { result ≡ enc.left };

    // The layout of the right factor.
    fn right() -> Layout
        ensures { result ≡ enc.right };

    // The layout of the result.
    fn out() -> Layout
        ensures { result ≡ enc.out };

    // The coordinate at which a lane of the result is read; the degree, which is none, where there is no such lane.
    fn read_position(degree: usize, lane: usize) -> usize
        ensures { result ≡ slice_index_or (enc.read degree) lane degree };

    // A lane of the subcircuit of the factors' lanes; 0 where there is no such lane.
    fn product_lane<R: Ring>(left: &[u64], right: &[u64], lane: usize) -> u64
        ensures { result ≡ slice_index (enc.sub R.Ring.shape.q left.now right.now) lane };

    ghost sound: { Sound enc };
}

// The product of two numbers modulo q.
fn product_of<R: Ring>(a: u64, b: u64) -> u64
    ensures { result ≡ (a * b) % R.Ring.shape.q }
{
    (u128::from(a) * u128::from(b) % R::MODULUS) as u64
}

// The sum of two numbers modulo q.
fn sum_of<R: Ring>(a: u64, b: u64) -> u64
    ensures { result ≡ (a + b) % R.Ring.shape.q }
{
    ((u128::from(a) + u128::from(b)) % R::MODULUS) as u64
}

// The sum of the products of the lanes.
fn dot_of<R: Ring>(left: &[u64], right: &[u64]) -> u64
    ensures { result ≡ dot left.now right.now % R.Ring.shape.q }
{
    left.iter()
        .zip(right)
        .fold(0, |sum, (&a, &b)| sum_of::<R>(sum, product_of::<R>(a, b)))
}

// The product of single lanes.
#[derive(Clone, Copy, Debug)]
pub struct PlainProduct;

impl Encoding for PlainProduct {
    ghost enc = { plain_product };

    ghost sound = { plain_sound };

    fn left() -> Layout {
        Layout::Plain
    }

    fn right() -> Layout {
        Layout::Plain
    }

    fn out() -> Layout {
        Layout::Plain
    }

    fn read_position(degree: usize, lane: usize) -> usize {
        match lane {
            0 => 0,
            _ => degree,
        }
    }

    fn product_lane<R: Ring>(left: &[u64], right: &[u64], lane: usize) -> u64 {
        match lane {
            0 => product_of::<R>(
                left.first().copied().unwrap_or(0),
                right.first().copied().unwrap_or(0),
            ),
            _ => 0,
        }
    }
}

// The products lane by lane.
#[derive(Clone, Copy, Debug)]
pub struct LanesProduct;

impl Encoding for LanesProduct {
    ghost enc = { lanes_product };

    ghost sound = { lanes_sound };

    fn left() -> Layout {
        Layout::Lanes
    }

    fn right() -> Layout {
        Layout::Lanes
    }

    fn out() -> Layout {
        Layout::Lanes
    }

    fn read_position(degree: usize, lane: usize) -> usize {
        let position = Layout::Lanes.position(degree, lane);
        if position < degree {
            2 * position
        } else {
            degree
        }
    }

    fn product_lane<R: Ring>(left: &[u64], right: &[u64], lane: usize) -> u64 {
        match (left.get(lane), right.get(lane)) {
            (Some(&a), Some(&b)) => product_of::<R>(a, b),
            _ => 0,
        }
    }
}

// The sum of the lanes' products.
#[derive(Clone, Copy, Debug)]
pub struct DotProduct;

impl Encoding for DotProduct {
    ghost enc = { inner_product };

    ghost sound = { inner_sound };

    fn left() -> Layout {
        Layout::Left
    }

    fn right() -> Layout {
        Layout::Right
    }

    fn out() -> Layout {
        Layout::Plain
    }

    fn read_position(degree: usize, lane: usize) -> usize {
        match lane {
            0 => half_of(degree).saturating_sub(1),
            _ => degree,
        }
    }

    fn product_lane<R: Ring>(left: &[u64], right: &[u64], lane: usize) -> u64 {
        match lane {
            0 => dot_of::<R>(left, right),
            _ => 0,
        }
    }
}
