// Runs the planner on known tables and writes a line for each call: the call and k, the tables' rules, the lent lengths, the refusal's number or 0, the
// total and by how many weighings it was found, the whole lent order, and of `totals` and `pivots` how many numbers are 0 and how many are as they were
// lent. Every lent number is 77. A plan's line has no word before k; that of `places`, where places cost extra, has the rules and lengths of both tables,
// and its second table's rows are stops and its columns places; that of a round trip begins with `tour`, and its total is the closed one. `slower`
// compares two tables.

#![tactic(auto)]

mod call;
mod large;
mod lent;
mod places;
mod plans;
mod slower;
mod table;
mod tours;

use std::io;
use test_support::write::Unfailing;

// All calls.
fn run(rt: &impl Print) -> io::Result<()> {
    plans::run(rt)?;
    large::at_ten(rt, 3)?;
    large::at_ten(rt, 5)?;
    places::run(rt)?;
    tours::run(rt)?;
    slower::run(rt)
}

// By a handle that tells no failure.
fn main() {
    let _written = run(&Unfailing);
}
