// One row from another, four stops at a time. The even row stands from 0 on, the odd row from n on; the rows of the places between the first of
// a chunk of four places and its last are in registers.

ghost use Rattle.std.specs.Prelude.{◌≡◌, true, false, ℕ, ◌+◌, ◌*◌, ◌%◌, ◌^◌, ◌≤◌, ◌<◌, length};
ghost use Rattle.walks.specs.Best.{Found};
ghost use Rattle.tree.specs.Neighbour.{trail, may_follow};
ghost use Rattle.tree.specs.Block.{beside_of};
ghost use Rattle.rows.specs.Row.{next, first_row, Row, SomeRow, Kept, TwoRows};
ghost use Rattle.rows.specs.Way.{Leads, Loaded, Written, EachFour, InFour, MakesRow, MakesRows};
ghost use Rattle.rows.specs.Pass.{BlockClosed};

use crate::cost::Costs;
use crate::way::{self, Four, Way};

// The stops of a block that are taken four at a time: `size` of them from `base` on, both multiples of 4.
#[derive(Clone, Copy)]
pub struct Fours {
    pub base: usize,
    pub size: usize,
    ghost starts: { base % 4 ≡ 0 },
    ghost whole: { size % 4 ≡ 0 },
}

// 2^m. A shift, taken for every four stops: the library's `pow`, a loop over the exponent's bits, is no plainer.
pub fn two_to(m: u32) -> usize
    requires { m ≤ 10 }
    ensures { result ≡ 2 ^ m }
{
    1usize << m
}

// The first of the aligned block of 2^t stops beside the one that stop i is in.
pub fn beside(i: usize, t: u32) -> usize
    requires { (i < 1024) × (t < 10) }
    ensures { result ≡ beside_of i t }
{
    ((i >> t) ^ 1) << t
}

// The way to stop i that stands at `at`. Where the next place is early the stop is its own pivot, and none is read.
fn load(totals: &[u64], pivots: &[u16], at: usize, early: bool, i: usize) -> Way
    requires { (at < length totals.now) × (at < length pivots.now) × (i < 1024) }
    ensures { Loaded early totals.now pivots.now at i result }
{
    if early {
        Way {
            total: totals[at],
            pivot: i as u16,
            count: 0,
        }
    } else {
        Way {
            total: totals[at],
            pivot: pivots[at],
            count: 0,
        }
    }
}

// The ways to the stops i to i + 3 in the even row.
pub fn load_four(totals: &[u64], pivots: &[u16], early: bool, i: usize) -> Four<Way>
    requires { (i + 3 < length totals.now) × (i + 3 < length pivots.now) × (i + 3 < 1024) }
    ensures { InFour (λ j. Loaded early totals.now pivots.now j j) i result }
{
    let a = load(totals, pivots, i, early, i);
    let b = load(totals, pivots, i + 1, early, i + 1);
    let c = load(totals, pivots, i + 2, early, i + 2);
    let d = load(totals, pivots, i + 3, early, i + 3);
    Four { a, b, c, d }
}

// Writes four ways from `at` on, and sums up their weighings.
pub fn store_four(totals: &mut [u64], pivots: &mut [u16], at: usize, ways: Four<Way>) -> u64
    requires at_in_bounds { (at + 3 < length totals.old) × (at + 3 < length pivots.old) × (at + 3 < 4096) }
    requires each_four { EachFour (λ w. w.count < 2 ^ 32) ways }
    ensures value { result ≡ ways.a.count + ways.b.count + ways.c.count + ways.d.count }
    ensures in_four { InFour (Written totals.new pivots.new) at ways }
    ensures kept { Kept at 4 totals.old totals.new × Kept at 4 pivots.old pivots.new }
{
    totals[at] = ways.a.total;
    pivots[at] = ways.a.pivot;
    totals[at + 1] = ways.b.total;
    pivots[at + 1] = ways.b.pivot;
    totals[at + 2] = ways.c.total;
    pivots[at + 2] = ways.c.pivot;
    totals[at + 3] = ways.d.total;
    pivots[at + 3] = ways.d.pivot;
    ways.a.count + ways.b.count + ways.c.count + ways.d.count
}

// The first row of the places from `left` on, for the stops of a block: the even row.
pub fn first_row<C: Costs>(
    costs: C,
    totals: &mut [u64],
    pivots: &mut [u16],
    before: usize,
    left: usize,
    base: usize,
    size: usize,
)
    requires two_rows { TwoRows (C.costing costs).stops (length totals.old) (length pivots.old) }
    requires before_lt_n { (before < (C.costing costs).stops) × (left < (C.costing costs).stops) × (base + size ≤ (C.costing costs).stops) }
    requires by_index { (i : ℕ) → base ≤ i → i < base + size → 0 < left → may_follow left before i ≡ true }
    ensures row { Row (left + 1) (first_row (C.costing costs) before left) 0 base size totals.new pivots.new }
    ensures kept { Kept base size totals.old totals.new × Kept base size pivots.old pivots.new }
{
    // A number and not a place of the row: it is the stop whose way begins here, so an iterator over both parts with a number beside is no plainer.
    for i in base..base + size {
        let begun = way::first(costs, before, left, i);
        totals[i] = begun.total;
        pivots[i] = begun.pivot;
    }
}

// The stop `to` in the odd row, in a late place, from the only stop before it, in the even row.
fn other<C: Costs>(
    costs: C,
    totals: &mut [u64],
    pivots: &mut [u16],
    place: usize,
    from: usize,
    to: usize,
) -> u64
    requires two_rows { TwoRows (C.costing costs).stops (length totals.old) (length pivots.old) }
    requires place_lt_n { (place < (C.costing costs).stops) × (trail place ≡ 0) × (beside_of to 0 ≡ from) × (from < (C.costing costs).stops) × (to < (C.costing costs).stops) }
    requires some_row { SomeRow place 0 from 1 totals.old pivots.old }
    ensures { MakesRow place (place + 1) (next (C.costing costs) place false) 0 from 1 (C.costing costs).stops to 1 1 totals pivots result }
{
    let n = costs.stops();
    let before = load(totals, pivots, from, false, from);
    let cost = costs.of_move(place, from, to);
    let way = way::only(costs, place, before, cost, false, to, 0);
    totals[n + to] = way.total;
    pivots[n + to] = way.pivot;
    way.count
}

// The second and last place of two, for the stops i and i + 1: each has the other before it.
#[tactic(auto, using(crate::proofs::Blocks::beside_even, crate::proofs::Blocks::beside_odd))]
pub fn pair<C: Costs>(
    costs: C,
    totals: &mut [u64],
    pivots: &mut [u16],
    place: usize,
    i: usize,
) -> u64
    requires two_rows { TwoRows (C.costing costs).stops (length totals.old) (length pivots.old) }
    requires place_lt_n { (place < (C.costing costs).stops) × (trail place ≡ 0) × (i % 2 ≡ 0) × (i + 2 ≤ (C.costing costs).stops) }
    requires some_row { SomeRow place 0 i 2 totals.old pivots.old }
    ensures { MakesRows (C.costing costs).stops place (place + 1) (next (C.costing costs) place false) 0 (C.costing costs).stops i 2 2 totals pivots result }
{
    let one = other(costs, totals, pivots, place, i + 1, i);
    let two = other(costs, totals, pivots, place, i, i + 1);
    one + two
}

// The cheapest ways to the stops `to` to `to` + 3 in `place` from their 2^t candidates in the odd row; t is 2 or more, so that the four have the
// same.
fn cheapest_four<C: Costs, const EARLY: bool>(
    costs: C,
    totals: &[u64],
    pivots: &[u16],
    place: usize,
    t: u32,
    to: usize,
) -> Four<Way>
    requires two_rows { TwoRows (C.costing costs).stops (length totals.now) (length pivots.now) }
    requires place_lt_n { (place < (C.costing costs).stops) × (t ≡ trail place) × (2 ≤ t) × (t < 10) × (to % 4 ≡ 0) × (to + 4 ≤ (C.costing costs).stops) × (beside_of to t + 2 ^ t ≤ (C.costing costs).stops) }
    requires some_row { SomeRow place (C.costing costs).stops (beside_of to t) (2 ^ t) totals.now pivots.now }
    ensures in_four { InFour (λ i w. w.count ≡ 2 ^ t) to result }
    ensures by_index { (row : ℕ → Found ℕ) → Row place row (C.costing costs).stops (beside_of to t) (2 ^ t) totals.now pivots.now → InFour (Leads (place + 1) (next (C.costing costs) place EARLY row)) to result }
{
    let n = costs.stops();
    let first = beside(to, t);
    let none = way::start(0, 0);
    let mut held = Four {
        a: none,
        b: none,
        c: none,
        d: none,
    };
    for j in first..first + two_to(t) {
        let before = load(totals, pivots, n + j, EARLY, j);
        held = way::weigh_four(costs, place, held, before, j, to);
    }
    way::settle_four(costs, place, held, EARLY, to)
}

// The stops `to` to `to` + 3 in the even row, from their candidates in the odd row.
fn four_columns<C: Costs, const EARLY: bool>(
    costs: C,
    totals: &mut [u64],
    pivots: &mut [u16],
    place: usize,
    t: u32,
    to: usize,
) -> u64
    requires two_rows { TwoRows (C.costing costs).stops (length totals.old) (length pivots.old) }
    requires place_lt_n { (place < (C.costing costs).stops) × (t ≡ trail place) × (2 ≤ t) × (t < 10) × (to % 4 ≡ 0) × (to + 4 ≤ (C.costing costs).stops) × (beside_of to t + 2 ^ t ≤ (C.costing costs).stops) }
    requires some_row { SomeRow place (C.costing costs).stops (beside_of to t) (2 ^ t) totals.old pivots.old }
    ensures { MakesRow place (place + 1) (next (C.costing costs) place EARLY) (C.costing costs).stops (beside_of to t) (2 ^ t) 0 to 4 (4 * 2 ^ t) totals pivots result }
{
    let ways = cheapest_four::<C, EARLY>(costs, totals, pivots, place, t, to);
    store_four(totals, pivots, to, ways)
}

// The row of `place`, the even row, from the odd row, for the stops of a block.
pub fn next_row<C: Costs, const EARLY: bool>(
    costs: C,
    totals: &mut [u64],
    pivots: &mut [u16],
    place: usize,
    t: u32,
    block: Fours,
) -> u64
    requires two_rows { TwoRows (C.costing costs).stops (length totals.old) (length pivots.old) }
    requires place_lt_n { (place < (C.costing costs).stops) × (t ≡ trail place) × (2 ≤ t) × (t < 10) × (block.base + block.size ≤ (C.costing costs).stops) × BlockClosed t block.base block.size }
    requires some_row { SomeRow place (C.costing costs).stops block.base block.size totals.old pivots.old }
    ensures { MakesRow place (place + 1) (next (C.costing costs) place EARLY) (C.costing costs).stops block.base block.size 0 block.base block.size (2 ^ t * block.size) totals pivots result }
{
    let mut count = 0;
    for i in (block.base..block.base + block.size).step_by(4) {
        count += four_columns::<C, EARLY>(costs, totals, pivots, place, t, i);
    }
    count
}
