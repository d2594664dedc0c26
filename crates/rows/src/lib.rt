// Rows of best totals: for any costs by place, one pass over a block of places finds for each stop the best walk to it and its stop in the middle
// place (Algorithm 2 of document 000 makes one pass for each block that it halves).
//
// No public function has a `requires` but the readings of the trait `Costs`, which ask for places and stops that there are. `pass` and `start_cost` take
// costs; `pass_if_any` and `start_cost_if_any` take costs or none, as `new` of `ByTable`, `ByPlaces` and `ByPath` answers, so that they are total for
// any slices. The contract of a pass cites `specs/Pass.antt` and, through it, the best walks of `walks`. What a move costs is known to the impls of
// `Costs` alone, in `tables` and `by_path`, and the compiler makes the code of a pass for each of them; `way` weighs candidates for up to four stops in
// registers, `row` makes one row from another and `leaves` three at once, `block` makes those of a block of places, `ready` tests what a pass is asked for.
//
// `totals` and `pivots` stay two parameters: a struct that holds both `&mut` would ask two clauses more of each function that writes through it, that the slices are still
// the caller's, and is no plainer.
// `before` and `left`, `from` and `to` stay numbers: a struct of two would be made for one call and taken apart in it, and is no plainer. That a place or a stop is below
// the number of stops is asked where it is used: that number is the costs', so that no type of places or stops can keep the fact.

#![tactic(auto)]

mod block;
mod by_path;
mod cost;
mod fork;
mod leaves;
mod ready;
mod row;
mod tables;
mod way;

ghost use Rattle.std.specs.Prelude.{◌≡◌, None, IfSome};
ghost use Rattle.rows.specs.Pass.{MakesPass, StartTold};

pub use by_path::ByPath;
pub use cost::Costs;
pub use fork::Held;
pub use tables::{ByPlaces, ByTable};

// One pass over the 2^m places from `left` on, for the 2^m stops from `base` on, after the stop `before` (before place 0 there is none, and it is not
// looked at but for being a stop). The last row is left in the numbers n to 2n - 1 of `totals` and `pivots`; the answer is the number of weighings.
pub fn pass<C: Costs>(
    costs: C,
    totals: &mut [u64],
    pivots: &mut [u16],
    before: usize,
    left: usize,
    base: usize,
    m: u32,
) -> u64
    ensures { MakesPass (C.costing costs) totals pivots before left base m result }
{
    pass_if_any(Some(costs), totals, pivots, before, left, base, m)
}

// The same by costs, if there are any. No costs, which is what `new` answers for slices that do not suffice, are refused as any other call that is not
// asked for rightly: 0, and nothing is written. So `pass_if_any(ByTable::new(n, table, None), ..)` is total for any n and any slices.
pub fn pass_if_any<C: Costs>(
    costs: Option<C>,
    totals: &mut [u64],
    pivots: &mut [u16],
    before: usize,
    left: usize,
    base: usize,
    m: u32,
) -> u64
    ensures made { IfSome costs (λ c. MakesPass (C.costing c) totals pivots before left base m result) }
    ensures refused { costs ≡ None → (result ≡ 0) × (totals.new ≡ totals.old) × (pivots.new ≡ pivots.old) }
{
    let Some(costs) = costs else {
        return 0;
    };
    let size = totals.len();
    let marks = pivots.len();
    if ready::ready(costs.stops(), size, marks, before, left, base, m) {
        let stops = row::two_to(m);
        row::first_row(costs, totals, pivots, before, left, base, stops);
        block::block(costs, totals, pivots, left, base, m)
    } else {
        0
    }
}

// What stop i costs in place 0, and 0 where there is no such stop.
pub fn start_cost<C: Costs>(costs: C, i: usize) -> u64
    ensures { StartTold (C.costing costs) i result }
{
    start_cost_if_any(Some(costs), i)
}

// The same by costs, if there are any, and 0 where there are none: total for any slices as `pass_if_any` is.
pub fn start_cost_if_any<C: Costs>(costs: Option<C>, i: usize) -> u64
    ensures told { IfSome costs (λ c. StartTold (C.costing c) i result) }
    ensures refused { costs ≡ None → result ≡ 0 }
{
    match costs {
        Some(costs) if i < costs.stops() => costs.of_start(i),
        Some(_) => 0,
        None => 0,
    }
}
