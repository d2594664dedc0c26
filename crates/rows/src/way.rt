// Ways: the best total of a stop, with its pivot and the count of weighings. Candidates are weighed one by one, and the cheapest way is held.

ghost use Rattle.std.specs.Prelude.{◌≡◌, true, cond, ℕ, ◌+◌, ◌%◌, ◌^◌, ◌≤◌, ◌<◌};
ghost use Rattle.walks.specs.Best.{Found};
ghost use Rattle.tree.specs.Neighbour.{trail, may_follow};
ghost use Rattle.rows.specs.Row.{unreached, nothing, next, first_row};
ghost use Rattle.rows.specs.Way.{Weighing, Weighed, Settled, Leads, Light, OnlyBefore, TwoBefore, EachFour, InFour, ByFour, Grown};

use crate::cost::{self, Costs};

// The best way to a stop: its total, its stop in the middle place, and how many candidates were weighed for it.
#[derive(Clone, Copy)]
pub struct Way {
    pub total: u64,
    pub pivot: u16,
    pub count: u64,
}

// What belongs to four neighbouring stops.
#[derive(Clone, Copy)]
pub struct Four<T> {
    pub a: T,
    pub b: T,
    pub c: T,
    pub d: T,
}

// A total above that of every way: nothing is held yet.
const NOTHING: u64 = 18_446_744_073_709_551_615;

// Nothing held, beside the pivot of the candidate that is weighed first and the count so far.
pub fn start(pivot: u16, count: u64) -> Way
    ensures { (result.total ≡ nothing) × (result.count ≡ count) }
{
    Way {
        total: NOTHING,
        pivot,
        count,
    }
}

// Weighs one candidate: the way to it, and the cost of the move from it. No other function considers one, and the count grows here alone.
#[tactic(auto, unfolding(walks::specs::Rows::turn))]
fn weigh(held: Way, before: Way, cost: u64) -> Way
    requires { Light before × (cost < 2 ^ 33) × (held.count ≤ 2 ^ 32) }
    ensures { Weighing before cost held result }
{
    let total = before.total + cost;
    let count = held.count + 1;
    if total < held.total {
        Way {
            total,
            pivot: before.pivot,
            count,
        }
    } else {
        Way {
            total: held.total,
            pivot: held.pivot,
            count,
        }
    }
}

// No walk leads there: a number above every total.
const UNREACHED: u64 = 9_223_372_036_854_775_808;

// The total of stop i in `place`, and no walk where it does not fit.
fn fitting<C: Costs>(costs: C, place: usize, total: u64, i: usize) -> u64
    requires { i < 1024 }
    ensures { result ≡ cond ((C.costing costs).fits place i) total unreached }
{
    if costs.fits(place, i) {
        total
    } else {
        UNREACHED
    }
}

// What is held for stop i in `place` once all are weighed (`early` stays a flag here and above: it is a constant where these are called, so each side has code of its own, and a
// const parameter through all of them would say no more): in an early place, up to the middle one, the stop is its own pivot.
fn settle<C: Costs>(costs: C, place: usize, held: Way, early: bool, i: usize) -> Way
    requires { i < 1024 }
    ensures { Settled (C.costing costs) place early i held result }
{
    let total = fitting(costs, place, held.total, i);
    if early {
        Way {
            total,
            pivot: i as u16,
            count: held.count,
        }
    } else {
        Way {
            total,
            pivot: held.pivot,
            count: held.count,
        }
    }
}

// The way to stop i as the first of the places from `left` on, at this cost: nothing is weighed.
fn begun<C: Costs>(costs: C, left: usize, cost: u64, i: usize) -> Way
    requires { i < 1024 }
    ensures { (result.total ≡ cond ((C.costing costs).fits left i) cost unreached) × (result.pivot ≡ i) × (result.count ≡ 0) }
{
    Way {
        total: fitting(costs, left, cost, i),
        pivot: i as u16,
        count: 0,
    }
}

// The same after the stop `before`; before place 0 there is none.
#[tactic(auto, using(crate::proofs::Ways::first_start, crate::proofs::Ways::first_move))]
pub fn first<C: Costs>(costs: C, before: usize, left: usize, i: usize) -> Way
    requires before_lt_n { (before < (C.costing costs).stops) × (left < (C.costing costs).stops) × (i < (C.costing costs).stops) }
    requires i_value { 0 < left → may_follow left before i ≡ true }
    ensures { Leads (left + 1) (first_row (C.costing costs) before left) i result }
{
    if left == 0 {
        let start = costs.of_start(i);
        begun(costs, left, start, i)
    } else {
        let cost = costs.of_move(left, before, i);
        begun(costs, left, cost, i)
    }
}

// The way to the stop `to` from the only stop that may come before it, at this cost.
pub fn only<C: Costs>(
    costs: C,
    place: usize,
    before: Way,
    cost: u64,
    early: bool,
    to: usize,
    count: u64,
) -> Way
    requires { (to < 1024) × Light before × (cost < 2 ^ 33) × (count < 2 ^ 32) }
    ensures count_value { result.count ≡ count + 1 }
    ensures leads { (row : ℕ → Found ℕ) (from : ℕ) → OnlyBefore (C.costing costs) place row from before to cost → Leads (place + 1) (next (C.costing costs) place early row) to result }
{
    let held = weigh(start(before.pivot, count), before, cost);
    settle(costs, place, held, early, to)
}

// The way to the stop `to` from the only two, at these costs.
fn of_two<C: Costs>(
    costs: C,
    place: usize,
    x: Way,
    y: Way,
    c: u64,
    d: u64,
    early: bool,
    to: usize,
    count: u64,
) -> Way
    requires { (to < 1024) × Light x × Light y × (c < 2 ^ 33) × (d < 2 ^ 33) × (count < 2 ^ 32) }
    ensures count_value { result.count ≡ count + 2 }
    ensures leads { (row : ℕ → Found ℕ) (f : ℕ) → TwoBefore (C.costing costs) place row f x y to c d → Leads (place + 1) (next (C.costing costs) place early row) to result }
{
    let one = weigh(start(x.pivot, count), x, c);
    let both = weigh(one, y, d);
    settle(costs, place, both, early, to)
}

// A place with t = 0 for the stops i to i + 3.
pub fn crossed<C: Costs>(costs: C, place: usize, o: Four<Way>, i: usize, early: bool) -> Four<Way>
    requires place_lt_n { (place < (C.costing costs).stops) × (trail place ≡ 0) × (i % 4 ≡ 0) × (i + 4 ≤ (C.costing costs).stops) }
    requires each_four { EachFour Light o }
    ensures by_four { ByFour (Grown 1) i o result }
    ensures by_index { (row : ℕ → Found ℕ) → InFour (Leads place row) i o → InFour (Leads (place + 1) (next (C.costing costs) place early row)) i result }
{
    let w = cost::crossed(costs, place, i);
    let a = only(costs, place, o.b, w.a, early, i, o.a.count);
    let b = only(costs, place, o.a, w.b, early, i + 1, o.b.count);
    let c = only(costs, place, o.d, w.c, early, i + 2, o.c.count);
    let d = only(costs, place, o.c, w.d, early, i + 3, o.d.count);
    Four { a, b, c, d }
}

// A place with t = 1 for the stops i to i + 3.
pub fn paired<C: Costs>(costs: C, place: usize, o: Four<Way>, i: usize, early: bool) -> Four<Way>
    requires place_lt_n { (place < (C.costing costs).stops) × (trail place ≡ 1) × (i % 4 ≡ 0) × (i + 4 ≤ (C.costing costs).stops) }
    requires each_four { EachFour Light o }
    ensures by_four { ByFour (Grown 2) i o result }
    ensures by_index { (row : ℕ → Found ℕ) → InFour (Leads place row) i o → InFour (Leads (place + 1) (next (C.costing costs) place early row)) i result }
{
    let v = cost::paired(costs, place, i, i, i + 2);
    let w = cost::paired(costs, place, i, i + 1, i + 3);
    let a = of_two(costs, place, o.c, o.d, v.a, w.a, early, i, o.a.count);
    let b = of_two(costs, place, o.c, o.d, v.b, w.b, early, i + 1, o.b.count);
    let c = of_two(costs, place, o.a, o.b, v.c, w.c, early, i + 2, o.c.count);
    let d = of_two(costs, place, o.a, o.b, v.d, w.d, early, i + 3, o.d.count);
    Four { a, b, c, d }
}

// Weighs one candidate for the stops `to` to `to` + 3.
pub fn weigh_four<C: Costs>(
    costs: C,
    place: usize,
    held: Four<Way>,
    before: Way,
    from: usize,
    to: usize,
) -> Four<Way>
    requires place_lt_n { (place < (C.costing costs).stops) × (from < (C.costing costs).stops) × (to + 4 ≤ (C.costing costs).stops) }
    requires light { Light before × EachFour (λ w. w.count < 2 ^ 32) held }
    ensures { ByFour (Weighed ((C.costing costs).weight place) from before) to held result }
{
    let w = cost::to_four(costs, place, from, to);
    let a = weigh(held.a, before, w.a);
    let b = weigh(held.b, before, w.b);
    let c = weigh(held.c, before, w.c);
    let d = weigh(held.d, before, w.d);
    Four { a, b, c, d }
}

// What is held for the stops i to i + 3 in `place`, once all are weighed.
pub fn settle_four<C: Costs>(
    costs: C,
    place: usize,
    held: Four<Way>,
    early: bool,
    i: usize,
) -> Four<Way>
    requires { i + 3 < 1024 }
    ensures { ByFour (Settled (C.costing costs) place early) i held result }
{
    let a = settle(costs, place, held.a, early, i);
    let b = settle(costs, place, held.b, early, i + 1);
    let c = settle(costs, place, held.c, early, i + 2);
    let d = settle(costs, place, held.d, early, i + 3);
    Four { a, b, c, d }
}
