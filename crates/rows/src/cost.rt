// What a move costs: the trait of all costs by place, and the moves to four stops. How a cost is read is known to the impls alone.

ghost use Rattle.std.specs.Prelude.{◌≡◌, ◌+◌, ◌^◌, ◌≤◌, ◌<◌};
ghost use Rattle.rows.specs.Costing.{Costing};
ghost use Rattle.rows.specs.Way.{Priced, CrossedMoves, PairedMoves, FourMoves};

use crate::way::Four;

// COSTS BY PLACE, for at most 1,024 stops: which stop may stand where, what the first stop costs, and what each move costs. A pass needs no more of
// them, and each impl says which record of costs it is.
pub trait Costs: Copy {
    ghost costing: { Self → Costing };

    // The number of stops.
    fn stops(self) -> usize
        ensures { result ≡ (costing self).stops };

    // Whether stop i may stand in `place`.
    fn fits(self, place: usize, i: usize) -> bool
        requires { i < 1024 }
        ensures { result ≡ (costing self).fits place i };

    // What stop i costs in place 0.
    fn of_start(self, i: usize) -> u64
        requires { i < (costing self).stops }
        ensures { (result ≡ (costing self).start i) × (result < 2 ^ 33) };

    // What the move from one stop to another costs where it leads into `place`.
    fn of_move(self, place: usize, from: usize, to: usize) -> u64
        requires { (place < (costing self).stops) × (from < (costing self).stops) × (to < (costing self).stops) }
        ensures { Priced ((costing self).weight place) from to result };

    ghost small: { (c : Self) → (costing c).stops ≤ 1024 };
}

// The moves to the stops i to i + 3, each from the other of its pair.
pub fn crossed<C: Costs>(costs: C, place: usize, i: usize) -> Four<u64>
    requires place_lt_n { (place < (C.costing costs).stops) × (i + 4 ≤ (C.costing costs).stops) }
    ensures { CrossedMoves ((C.costing costs).weight place) i result }
{
    let a = costs.of_move(place, i + 1, i);
    let b = costs.of_move(place, i, i + 1);
    let c = costs.of_move(place, i + 3, i + 2);
    let d = costs.of_move(place, i + 2, i + 3);
    Four { a, b, c, d }
}

// The moves to the stops i and i + 1 from the stop `high`, and to the stops i + 2 and i + 3 from the stop `low`.
pub fn paired<C: Costs>(costs: C, place: usize, i: usize, low: usize, high: usize) -> Four<u64>
    requires place_lt_n { (place < (C.costing costs).stops) × (i + 4 ≤ (C.costing costs).stops) }
    requires low_lt_n { (low < (C.costing costs).stops) × (high < (C.costing costs).stops) }
    ensures { PairedMoves ((C.costing costs).weight place) i low high result }
{
    let a = costs.of_move(place, high, i);
    let b = costs.of_move(place, high, i + 1);
    let c = costs.of_move(place, low, i + 2);
    let d = costs.of_move(place, low, i + 3);
    Four { a, b, c, d }
}

// The moves from one stop to the stops `to` to `to` + 3.
pub fn to_four<C: Costs>(costs: C, place: usize, from: usize, to: usize) -> Four<u64>
    requires place_lt_n { (place < (C.costing costs).stops) × (from < (C.costing costs).stops) × (to + 4 ≤ (C.costing costs).stops) }
    ensures { FourMoves ((C.costing costs).weight place) from to result }
{
    let a = costs.of_move(place, from, to);
    let b = costs.of_move(place, from, to + 1);
    let c = costs.of_move(place, from, to + 2);
    let d = costs.of_move(place, from, to + 3);
    Four { a, b, c, d }
}
