// Leaves: four stops led through three places in registers, from the even row to the odd row, and all the stops of a block so.

ghost use Rattle.std.specs.Prelude.{◌≡◌, ◌+◌, ◌*◌, ◌%◌, ◌≤◌, length};
ghost use Rattle.rows.specs.Row.{SomeRow, TwoRows};
ghost use Rattle.rows.specs.Way.{three_on, MakesRow};

use crate::cost::Costs;
use crate::row::{Fours, load_four, store_four};
use crate::way;

// A LEAF: three places from `place` on, t = 0, 1, 0, for the stops i to i + 3, in registers: from the even row to the odd row. FIRST says whether the
// first of them is early, REST whether the others are, so that the compiler makes a body for each side of the middle.
#[tactic(auto, using(crate::proofs::Blocks::trail_first, crate::proofs::Blocks::trail_second, crate::proofs::Blocks::trail_third))]
pub fn leaf<C: Costs, const FIRST: bool, const REST: bool>(
    costs: C,
    totals: &mut [u64],
    pivots: &mut [u16],
    place: usize,
    i: usize,
) -> u64
    requires two_rows { TwoRows (C.costing costs).stops (length totals.old) (length pivots.old) }
    requires place_value { (place % 4 ≡ 1) × (place + 3 ≤ (C.costing costs).stops) × (i % 4 ≡ 0) × (i + 4 ≤ (C.costing costs).stops) }
    requires some_row { SomeRow place 0 i 4 totals.old pivots.old }
    ensures { MakesRow place (place + 3) (three_on (C.costing costs) FIRST REST place) 0 i 4 (C.costing costs).stops i 4 16 totals pivots result }
{
    let n = costs.stops();
    let o = load_four(totals, pivots, FIRST, i);
    let x = way::crossed(costs, place, o, i, FIRST);
    let y = way::paired(costs, place + 1, x, i, REST);
    let z = way::crossed(costs, place + 2, y, i, REST);
    store_four(totals, pivots, n + i, z)
}

// Three places, all early or none, for all stops of a block, four at a time.
pub fn leaves<C: Costs, const EARLY: bool>(
    costs: C,
    totals: &mut [u64],
    pivots: &mut [u16],
    place: usize,
    block: Fours,
) -> u64
    requires two_rows { TwoRows (C.costing costs).stops (length totals.old) (length pivots.old) }
    requires place_value { (place % 4 ≡ 1) × (place + 3 ≤ (C.costing costs).stops) × (block.base + block.size ≤ (C.costing costs).stops) }
    requires some_row { SomeRow place 0 block.base block.size totals.old pivots.old }
    ensures { MakesRow place (place + 3) (three_on (C.costing costs) EARLY EARLY place) 0 block.base block.size (C.costing costs).stops block.base block.size (4 * block.size) totals pivots result }
{
    let mut count = 0;
    for i in (block.base..block.base + block.size).step_by(4) {
        count += leaf::<C, EARLY, EARLY>(costs, totals, pivots, place, i);
    }
    count
}
