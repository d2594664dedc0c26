// Round trips: for each last stop one pass, in which the first stop costs the move that closes the tour; then the places before the best of
// them are halved.

ghost use Rattle.std.specs.Prelude.{◌≡◌, ◌+◌, ◌*◌, ◌^◌, ◌≤◌, ◌<◌, length};
ghost use Rattle.planner.specs.Method.{RoomFor};
ghost use Rattle.planner.specs.Tour.{TourSizes, EndWeighed, EndHeld, TourWritten, LeftByTour};

use crate::halve::{Choice, UNREACHED, keep, solve};
use rows::ByTable;

// The closed total of the best tour that ends with the stop `last`.
fn closed_total(
    n: usize,
    table: &[u32],
    totals: &mut [u64],
    pivots: &mut [u16],
    last: usize,
    k: u32,
) -> u64
    requires { TourSizes n k (length table.now) × (last < n) × (length totals.old ≡ n + n) × (length pivots.old ≡ n + n) }
    ensures { EndWeighed n k table.now last result }
{
    let costs = ByTable::new(n, table, Some(last));
    rows::pass_if_any(costs, totals, pivots, 0, 0, 0, k);
    totals[n + last]
}

// The last stop of the best tour, and its closed total; of equals the smallest stop.
fn best_end(n: usize, table: &[u32], totals: &mut [u64], pivots: &mut [u16], k: u32) -> Choice
    requires { TourSizes n k (length table.now) × (length totals.old ≡ n + n) × (length pivots.old ≡ n + n) }
    ensures { EndHeld n k table.now n result }
{
    let mut held = Choice {
        total: UNREACHED,
        stop: 0,
    };
    for last in 0..n {
        held = keep(held, closed_total(n, table, totals, pivots, last, k), last);
    }
    held
}

// Writes the best tour of two stops or more, and answers its closed total. Every place is a stop first, as in the planner's method.
fn best_tour(
    n: usize,
    table: &[u32],
    order: &mut [u16],
    totals: &mut [u64],
    pivots: &mut [u16],
    k: u32,
) -> u64
    requires { TourSizes n k (length table.now) × (length order.old ≡ n) × (length totals.old ≡ n + n) × (length pivots.old ≡ n + n) }
    ensures { TourWritten n k table.now order.new result }
{
    order.fill(0);
    let held = best_end(n, table, totals, pivots, k);
    let last = held.stop;
    order[n - 1] = last as u16;
    let costs = ByTable::new(n, table, Some(last)).unwrap();
    solve(costs, order, totals, pivots, 0, k);
    held.total
}

// Writes the best tour of 2^k stops, and answers its closed total. One stop has no move.
fn any_tour(
    n: usize,
    table: &[u32],
    order: &mut [u16],
    totals: &mut [u64],
    pivots: &mut [u16],
    k: u32,
) -> u64
    requires { (k ≤ 10) × (n ≡ 2 ^ k) × (length table.now ≡ n * n) × (length order.old ≡ n) × (length totals.old ≡ n + n) × (length pivots.old ≡ n + n) }
    ensures { TourWritten n k table.now order.new result }
{
    if k == 0 {
        order[0] = 0;
        return 0;
    }
    best_tour(n, table, order, totals, pivots, k)
}

// The same in the front of lent buffers, with the work space 0 again.
pub fn whole_tour(
    n: usize,
    table: &[u32],
    order: &mut [u16],
    totals: &mut [u64],
    pivots: &mut [u16],
    k: u32,
) -> u64
    requires { RoomFor n k (length order.old) (length totals.old) (length pivots.old) × (length table.now ≡ n * n) }
    ensures { LeftByTour n k table.now order.old totals.old pivots.old order.new totals.new pivots.new result }
{
    let totals = &mut totals[..n + n];
    let pivots = &mut pivots[..n + n];
    let total = any_tour(n, table, &mut order[..n], totals, pivots, k);
    totals.fill(0);
    pivots.fill(0);
    total
}
