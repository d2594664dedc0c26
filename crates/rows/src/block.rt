// The rows of a block of places, in chunks of four: the row of each chunk's first place stands in the even row, that of its last in the odd row.

ghost use Rattle.std.specs.Prelude.{◌≡◌, true, ℕ, ◌+◌, ◌-◌, ◌*◌, ◌%◌, ◌^◌, ◌≤◌, ◌<◌, length};
ghost use Rattle.tree.specs.Neighbour.{trail};
ghost use Rattle.rows.specs.Row.{along, last_row, SomeRow, TwoRows};
ghost use Rattle.rows.specs.Way.{MakesRows};
ghost use Rattle.rows.specs.Pass.{AlignedBlock, BlockClosed, weighings, pass_weighings};

use crate::cost::Costs;
use crate::row::Fours;
use crate::{leaves, row};

// Four places from `place` on, a multiple of 4, for the stops of a block: from the odd row to the odd row. All of them are early, or none.
fn chunk<C: Costs, const EARLY: bool>(
    costs: C,
    totals: &mut [u64],
    pivots: &mut [u16],
    place: usize,
    block: Fours,
) -> u64
    requires two_rows { TwoRows (C.costing costs).stops (length totals.old) (length pivots.old) }
    requires place_nonzero { (0 < place) × (place % 4 ≡ 0) × (place + 4 ≤ (C.costing costs).stops) × (block.base + block.size ≤ (C.costing costs).stops) × BlockClosed (trail place) block.base block.size }
    requires some_row { SomeRow place (C.costing costs).stops block.base block.size totals.old pivots.old }
    ensures { MakesRows (C.costing costs).stops place (place + 4) (along (C.costing costs) EARLY place 4) (C.costing costs).stops (C.costing costs).stops block.base block.size (weighings block.size place 4) totals pivots result }
{
    let t = usize::trailing_zeros(place);
    let first = row::next_row::<C, EARLY>(costs, totals, pivots, place, t, block);
    let rest = leaves::leaves::<C, EARLY>(costs, totals, pivots, place + 1, block);
    first + rest
}

// The places from `from` to before `end`, both multiples of 4.
fn chunks<C: Costs, const EARLY: bool>(
    costs: C,
    totals: &mut [u64],
    pivots: &mut [u16],
    from: usize,
    end: usize,
    block: Fours,
) -> u64
    requires two_rows { TwoRows (C.costing costs).stops (length totals.old) (length pivots.old) }
    requires from_nonzero { (0 < from) × (from ≤ end) × (end ≤ (C.costing costs).stops) × (from % 4 ≡ 0) × (end % 4 ≡ 0) × (block.base + block.size ≤ (C.costing costs).stops) }
    requires by_index { (p : ℕ) → from ≤ p → p < end → BlockClosed (trail p) block.base block.size }
    requires some_row { SomeRow from (C.costing costs).stops block.base block.size totals.old pivots.old }
    ensures { MakesRows (C.costing costs).stops from end (along (C.costing costs) EARLY from (end - from)) (C.costing costs).stops (C.costing costs).stops block.base block.size (weighings block.size from (end - from)) totals pivots result }
{
    let mut count = 0;
    for place in (from..end).step_by(4) {
        count += chunk::<C, EARLY>(costs, totals, pivots, place, block);
    }
    count
}

// The first half of a block of 2 half places from `left` on, after its first place: from the even row to the odd row.
fn first_half<C: Costs>(
    costs: C,
    totals: &mut [u64],
    pivots: &mut [u16],
    left: usize,
    half: usize,
    block: Fours,
) -> u64
    requires two_rows { TwoRows (C.costing costs).stops (length totals.old) (length pivots.old) }
    requires le_half { (4 ≤ half) × (half % 4 ≡ 0) × (left % 4 ≡ 0) × (left + 2 * half ≤ (C.costing costs).stops) × (block.base + block.size ≤ (C.costing costs).stops) }
    requires by_index { (p : ℕ) → left < p → p < left + half → BlockClosed (trail p) block.base block.size }
    requires some_row { SomeRow (left + 1) 0 block.base block.size totals.old pivots.old }
    ensures { MakesRows (C.costing costs).stops (left + 1) (left + half) (along (C.costing costs) true (left + 1) (half - 1)) 0 (C.costing costs).stops block.base block.size (weighings block.size (left + 1) (half - 1)) totals pivots result }
{
    let first = leaves::leaves::<C, true>(costs, totals, pivots, left + 1, block);
    let rest = chunks::<C, true>(costs, totals, pivots, left + 4, left + half, block);
    first + rest
}

// The rows of a block of 8 or more places after the first.
fn large_block<C: Costs>(
    costs: C,
    totals: &mut [u64],
    pivots: &mut [u16],
    left: usize,
    base: usize,
    m: u32,
) -> u64
    requires two_rows { TwoRows (C.costing costs).stops (length totals.old) (length pivots.old) }
    requires lt_m { (2 < m) × AlignedBlock (C.costing costs).stops left m × AlignedBlock (C.costing costs).stops base m }
    requires some_row { SomeRow (left + 1) 0 base (2 ^ m) totals.old pivots.old }
    ensures { MakesRows (C.costing costs).stops (left + 1) (left + 2 ^ m) (last_row (C.costing costs) left (2 ^ (m - 1))) 0 (C.costing costs).stops base (2 ^ m) (pass_weighings m) totals pivots result }
{
    let half = row::two_to(m - 1);
    let end = left + 2 * half;
    let stops = Fours {
        base,
        size: 2 * half,
    };
    let early = first_half(costs, totals, pivots, left, half, stops);
    let late = chunks::<C, false>(costs, totals, pivots, left + half, end, stops);
    early + late
}

// The rows of a block of 2^m places after the first, for as many stops; the last one is left in the odd row.
pub fn block<C: Costs>(
    costs: C,
    totals: &mut [u64],
    pivots: &mut [u16],
    left: usize,
    base: usize,
    m: u32,
) -> u64
    requires two_rows { TwoRows (C.costing costs).stops (length totals.old) (length pivots.old) }
    requires m_nonzero { (0 < m) × AlignedBlock (C.costing costs).stops left m × AlignedBlock (C.costing costs).stops base m }
    requires some_row { SomeRow (left + 1) 0 base (2 ^ m) totals.old pivots.old }
    ensures { MakesRows (C.costing costs).stops (left + 1) (left + 2 ^ m) (last_row (C.costing costs) left (2 ^ (m - 1))) 0 (C.costing costs).stops base (2 ^ m) (pass_weighings m) totals pivots result }
{
    if m == 1 {
        return row::pair(costs, totals, pivots, left + 1, base);
    }
    if m == 2 {
        return leaves::leaf::<C, true, false>(costs, totals, pivots, left + 1, base);
    }
    large_block(costs, totals, pivots, left, base, m)
}
