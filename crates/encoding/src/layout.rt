ghost use Rattle.std.specs.Prelude.{◌≡◌, length, filter, slice_index_or};
ghost use Rattle.encoding.specs.Layouts.{half, no_two, positions};
ghost use Rattle.std.specs.List.{range_with_len};
ghost use Rattle.encoding.specs.Numbers.{IsLayoutOf, number_of};

use crate::numbers::NoNumber;

// Where the lanes of a value stand among an element's coordinates.
#[derive(Clone, Copy, Debug, PartialEq, Eq, Hash)]
pub enum Layout {
    Plain,
    Lanes,
    Left,
    Right,
}

pub(crate) fn half_of(degree: usize) -> usize
    ensures { result ≡ half degree }
{
    degree.div_ceil(2)
}

// Whether all digits in base three are 0 or 1.
fn lacks_two(number: usize) -> bool
    ensures { result ≡ no_two number }
{
    number == 0 || number % 3 != 2 && lacks_two(number / 3)
}

// How many numbers below `end` lack the digit 2. One loop, here and in `find_lane`: a chain over `filter` is two, which the
// compiler does not unroll where the degree is known.
fn count_lanes(end: usize) -> usize
    ensures { result ≡ length (filter no_two (range_with_len 0 end)) }
{
    let mut count = 0;
    for p in 0..end {
        if lacks_two(p) {
            count += 1;
        }
    }
    count
}

// The number at place `lane` among those below `end` that lack the digit 2, or `other`.
fn find_lane(end: usize, lane: usize, other: usize) -> usize
    ensures { result ≡ slice_index_or (filter no_two (range_with_len 0 end)) lane other }
{
    let mut count = 0;
    for p in 0..end {
        if lacks_two(p) {
            if count == lane {
                return p;
            }
            count += 1;
        }
    }
    other
}

impl TryFrom<u32> for Layout {
    type Error = NoNumber;

    ghost try_from_gives = { IsLayoutOf };

    fn try_from(number: u32) -> Result<Self, NoNumber> {
        match number {
            0 => Ok(Layout::Plain),
            1 => Ok(Layout::Lanes),
            2 => Ok(Layout::Left),
            3 => Ok(Layout::Right),
            _ => Err(NoNumber(number)),
        }
    }
}

impl From<Layout> for u32 {
    ghost from_gives = { λ layout number. number ≡ number_of layout };

    fn from(layout: Layout) -> u32 {
        match layout {
            Layout::Plain => 0,
            Layout::Lanes => 1,
            Layout::Left => 2,
            Layout::Right => 3,
        }
    }
}

impl Layout {
    pub fn lane_count(self, degree: usize) -> usize
        ensures { result ≡ length (positions self degree) }
    {
        let end = half_of(degree);
        match self {
            Layout::Plain => 1,
            Layout::Lanes => count_lanes(end),
            Layout::Left | Layout::Right => end,
        }
    }

    // The position of a lane; the degree, which is no coordinate, where there is no such lane.
    pub fn position(self, degree: usize, lane: usize) -> usize
        ensures { result ≡ slice_index_or (positions self degree) lane degree }
    {
        let end = half_of(degree);
        match self {
            Layout::Plain if lane == 0 => 0,
            Layout::Lanes => find_lane(end, lane, degree),
            Layout::Left if lane < end => lane,
            Layout::Right if lane < end => end - 1 - lane,
            _ => degree,
        }
    }
}
