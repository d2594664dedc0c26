// Passes over the places of four stops, and what a stop costs in place 0, by costs and by costs that there may be none of, and writes a line for each
// call: the number of weighings and the last row with what lies behind it, or that every lent place is as it was. Every lent place holds 77 before.

#![tactic(auto)]

use rows::{ByPlaces, ByTable, Costs};
use std::io;
use test_support::write::{Numbers, Unfailing};
use test_support::{count, table};

// The entry of row a and column b is `row` times a, `column` times b and `product` times a times b.
#[derive(Clone, Copy)]
struct Rule {
    row: u32,
    column: u32,
    product: u32,
}

impl table::Rule for Rule {
    fn entry(self, a: u32, b: u32) -> u32 {
        let both = self.product.wrapping_mul(a).wrapping_mul(b);
        let a = self.row.wrapping_mul(a);
        a.wrapping_add(self.column.wrapping_mul(b))
            .wrapping_add(both)
    }
}

// Each move takes 10 times the stop it leaves, and the stop it leads to.
const MOVES: Rule = Rule {
    row: 10,
    column: 1,
    product: 0,
};

// Each stop costs its number times one more than its place.
const PLACES: Rule = Rule {
    row: 1,
    column: 0,
    product: 1,
};

// What is lent: two rows of four stops, and a place more.
#[derive(Drop)]
struct Rows {
    totals: [u64; 9],
    pivots: [u16; 9],
}

impl Rows {
    // As it is before a call.
    fn new() -> Rows {
        Rows {
            totals: [77; 9],
            pivots: [77; 9],
        }
    }

    // The line of a pass that made so many weighings.
    fn write(&self, rt: &impl Print, name: &str, weighings: u64) -> io::Result<()> {
        if count::all(&self.totals, 77) && count::all(&self.pivots, 77) {
            return println!(rt; "{name}: {weighings}, untouched");
        }
        let totals = Numbers(&self.totals[4..]);
        let pivots = Numbers(&self.pivots[4..]);
        println!(rt; "{name}: {weighings}, totals{totals}, pivots{pivots}")
    }
}

// What a pass is asked: the stop before, the first place, the first stop, and m. All places; the later half after each stop that it may follow, and
// after one that it may not; no place; a stop before that is none; places and stops that begin amid a block.
const PASSES: [(usize, usize, usize, u32); 10] = [
    (0, 0, 0, 2),
    (2, 2, 0, 1),
    (3, 2, 0, 1),
    (0, 2, 2, 1),
    (1, 2, 2, 1),
    (1, 2, 0, 1),
    (0, 0, 0, 0),
    (4, 0, 0, 2),
    (2, 1, 0, 1),
    (2, 2, 1, 1),
];

// All of them by these costs, and the first with too short a buffer.
fn passes<C: Costs>(rt: &impl Print, costs: C) -> io::Result<()> {
    for (before, left, base, m) in PASSES {
        let mut rows = Rows::new();
        let (totals, pivots) = (&mut rows.totals, &mut rows.pivots);
        let weighings = rows::pass(costs, totals, pivots, before, left, base, m);
        rows.write(rt, "pass", weighings)?;
    }
    let mut rows = Rows::new();
    let weighings = rows::pass(costs, &mut rows.totals[..7], &mut rows.pivots, 0, 0, 0, 2);
    rows.write(rt, "pass, totals too short", weighings)?;
    let weighings = rows::pass(costs, &mut rows.totals, &mut rows.pivots[..7], 0, 0, 0, 2);
    rows.write(rt, "pass, pivots too short", weighings)
}

// The pass over all places, and what each stop costs in place 0, by these costs, or by none.
fn if_any<C: Costs>(rt: &impl Print, costs: Option<C>) -> io::Result<()> {
    let mut rows = Rows::new();
    let weighings = rows::pass_if_any(costs, &mut rows.totals, &mut rows.pivots, 0, 0, 0, 2);
    rows.write(rt, "pass, if any", weighings)?;
    let starts: [u64; 5] = std::array::from_fn(|i| rows::start_cost_if_any(costs, i));
    println!(rt; "start, if any{}", Numbers(&starts))
}

// All calls by these costs.
fn calls<C: Costs>(rt: &impl Print, costs: C) -> io::Result<()> {
    passes(rt, costs)?;
    let starts: [u64; 5] = std::array::from_fn(|i| rows::start_cost(costs, i));
    println!(rt; "start{}", Numbers(&starts))?;
    if_any(rt, Some(costs))
}

// All calls by these costs, if there are any.
fn named<C: Costs>(rt: &impl Print, name: &str, costs: Option<C>) -> io::Result<()> {
    println!(rt; "{name}")?;
    match costs {
        Some(costs) => calls(rt, costs),
        None => if_any::<C>(rt, None),
    }
}

// By a table, alone, with a closing stop and with one that is no stop; by a table of places beside it; and by tables of another length.
fn run(rt: &impl Print) -> io::Result<()> {
    let mut moves = [77u32; 17];
    let mut places = [77u32; 17];
    table::make_in(&mut moves, 4, 16, MOVES);
    table::make_in(&mut places, 4, 16, PLACES);
    let square = &moves[..16];
    named(rt, "table", ByTable::new(4, square, None))?;
    named(rt, "closing stop 3", ByTable::new(4, square, Some(3)))?;
    named(rt, "closing stop 4", ByTable::new(4, square, Some(4)))?;
    named(rt, "table of 15", ByTable::new(4, &moves[..15], None))?;
    let Some(by_table) = ByTable::new(4, square, Some(1)) else {
        return println!(rt; "no table");
    };
    named(rt, "places", ByPlaces::new(by_table, &places[..16]))?;
    named(rt, "places of 17", ByPlaces::new(by_table, &places))
}

// By a handle that tells no failure.
fn main() {
    let _written = run(&Unfailing);
}
