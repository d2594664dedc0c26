// Both orders, by two plans of the same path: the returned one, and the best of those that have the fork the other way.

ghost use Rattle.std.specs.Prelude.{◌≡◌, true, false, ◌+◌, ◌^◌, ◌≤◌, ◌<◌, length};
ghost use Rattle.planner.specs.HeldFork.{state_of};
ghost use Rattle.orders.specs.Allowed.{is_allowed};
ghost use Rattle.orders.specs.Lent.{order_in};
ghost use Rattle.fork_cost.specs.Cost.{state_in, last_apart, told};
ghost use Rattle.fork_cost.specs.Local.{Judged, times_by, plan_by, OrderLeft, BothLeft, CostLeft, cost_from};

use crate::ForkCost;
use base::stop_count;
use orders::fork_bits;
use path::PathBytes;
use planner::plan_held;

// Whether the returned order has the fork exchanged, the total of that order and of the best one that has the fork the other way.
#[derive(Clone, Copy)]
pub struct Both {
    pub exchanged: bool,
    pub total: u64,
    pub other: u64,
}

// The path, the fork and the work space are the call's own parameters, passed on to the planner: a struct of the `&mut` would have each contract
// say that it still holds the same buffers.

// Writes the order that is wanted among those that have `fork` exchanged or not, fork 0 for all orders, and answers its total: no plan of judged bytes is refused.
fn write_order(
    path: PathBytes<'_>,
    fork: u16,
    exchanged: bool,
    order: &mut [u16],
    totals: &mut [u64],
    pivots: &mut [u16],
) -> u64
    requires { Judged path (length totals.old) (length pivots.old) × (fork < 2 ^ path.k) × (length order.old ≡ 2 ^ path.k) }
    ensures { let plan = plan_by path.entry fork exchanged in OrderLeft path.entry.k plan.order plan.total order.new totals.old pivots.old totals.new pivots.new result }
{
    plan_held(path, fork, exchanged, order, totals, pivots).unwrap()
}

// Whether an allowed order has a fork exchanged: its bit in the order's fork string.
fn has_exchanged(k: u16, fork: u16, order: &[u16]) -> bool
    requires { (k ≤ 10) × (fork < 2 ^ k) × (2 ^ k ≤ length order.now) × (is_allowed k (order_in k order.now) ≡ true) }
    ensures { state_of result ≡ state_in k (order_in k order.now) fork }
{
    let mut bits = [0u8; 128];
    fork_bits(k, order, &mut bits).unwrap();
    let byte = bits[fork as usize / 8];
    (byte >> (fork % 8)) % 2 == 1
}

// Writes the returned order, and the best one that has the fork the other way.
fn plan_both(
    path: PathBytes<'_>,
    fork: u16,
    totals: &mut [u64],
    pivots: &mut [u16],
    returned: &mut [u16],
    opposite: &mut [u16],
) -> Both
    requires { Judged path (length totals.old) (length pivots.old) × (0 < fork) × (fork < 2 ^ path.k) × (length returned.old ≡ 2 ^ path.k) × (length opposite.old ≡ 2 ^ path.k) }
    ensures { BothLeft path.entry.k (times_by path.entry) fork returned.new opposite.new totals.old pivots.old totals.new pivots.new result }
{
    let total = write_order(path, 0, false, returned, totals, pivots);
    let exchanged = has_exchanged(path.k, fork, returned);
    let other = write_order(path, fork, !exchanged, opposite, totals, pivots);
    Both {
        exchanged,
        total,
        other,
    }
}

// The last place at which two orders part, and 0 where they are alike.
fn last_apart(order: &[u16], other: &[u16]) -> usize
    requires { (length order.now ≤ 1024) × (length other.now ≡ length order.now) }
    ensures { (result ≡ last_apart order.now other.now (length order.now)) × (result < 65536) }
{
    // Counted down from the last place.
    for p in (0..order.len()).rev() {
        if order[p] != other[p] {
            return p;
        }
    }
    0
}

// What is told of the two orders: dearer by their difference, or a tie with the place where they part.
fn cost_from(both: Both, place: usize) -> ForkCost
    requires { (both.total ≤ both.other) × (place < 65536) }
    ensures { told result ≡ cost_from both place }
{
    if both.other == both.total {
        ForkCost::Tie {
            exchanged: both.exchanged,
            total: both.other,
            place: place as u16,
        }
    } else {
        ForkCost::Dearer {
            exchanged: both.exchanged,
            total: both.other,
            more: both.other - both.total,
        }
    }
}

// Plans both orders in `orders`, which has 2n places, tells what the fork costs, and clears the work space.
pub fn compare(
    path: PathBytes<'_>,
    fork: u16,
    totals: &mut [u64],
    pivots: &mut [u16],
    orders: &mut [u16],
) -> ForkCost
    requires { Judged path (length totals.old) (length pivots.old) × (0 < fork) × (fork < 2 ^ path.k) × (length orders.old ≡ 2 ^ path.k + 2 ^ path.k) }
    ensures { CostLeft path.entry.k (times_by path.entry) fork orders.new totals.old pivots.old totals.new pivots.new result }
{
    let (returned, opposite) = orders.split_at_mut(stop_count(path.k));
    let both = plan_both(path, fork, totals, pivots, returned, opposite);
    let place = last_apart(returned, opposite);
    orders.fill(0);
    cost_from(both, place)
}
