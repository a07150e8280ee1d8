ghost use Rattle.std.specs.Prelude.{◌≡◌, length, map, slice_index_or};
ghost use Rattle.live_points.specs.declared.point.LivePoint as point;
ghost use Rattle.sample_design.specs.Order.{order_of};

use live_points::LivePoint;
use smarts_base::Draws;

/// Puts the points of a run, which stand in its order, into the order in which they are visited.
// The exchanges that make that order are made of the points themselves: none is copied.
pub fn put_in_visit_order(points: &mut Vec<LivePoint>, seed: u64)
    ensures { (d : point.LivePoint) →
        points.new.items ≡ map (λ p. slice_index_or points.old.items p d) (order_of (length points.old.items) seed) }
{
    let mut draws = Draws { state: seed };
    for i in (1..points.len()).rev() {
        let other = draws.draw() as usize % (i + 1);
        points.swap(i, other);
    }
}
