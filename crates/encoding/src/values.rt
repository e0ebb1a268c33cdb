// Values of lanes as ring elements.
ghost use Rattle.std.specs.Prelude.{◌≡◌, slice_index};
ghost use Rattle.encoding.specs.Encodings.{laid};
ghost use Rattle.encoding.specs.Layouts.{positions, read_at};
ghost use Rattle.ring.specs.Model.{degree};

use crate::layout::Layout;
use ring::{Number, Ring};

// The element with lane l at the layout's l-th position, and zero elsewhere; lanes past the layout's are left out.
pub fn lay_out<R: Ring>(layout: Layout, lanes: &[u64]) -> R
    ensures { (R.Ring.element result).0 ≡ laid R.Ring.shape layout lanes.now }
{
    let count = layout.lane_count(R::DEGREE).min(lanes.len());
    let mut sum = R::zero();
    for (l, &lane) in lanes[..count].iter().enumerate() {
        sum = sum.add(R::embed(lane, layout.position(R::DEGREE, l)));
    }
    sum
}

// What stands at a lane's position; 0 where there is no such lane.
pub fn read_lane<R: Ring>(layout: Layout, value: R, lane: usize) -> u64
    ensures { result ≡ slice_index (read_at (positions layout (degree R.Ring.shape)) (R.Ring.element value).0) lane }
{
    value.coordinate(layout.position(R::DEGREE, lane)).wide()
}
