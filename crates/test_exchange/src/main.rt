// Exchanges forks in known orders, and writes what each call answered, one line to a call: the refusal's number and whether every lent
// place is as it was, or 0 and what every lent place then holds. Every lent place holds 77 before.

#![tactic(auto)]

mod call;
mod large;
mod small;

use std::io;
use test_support::write::Unfailing;

// All exchanges.
fn run(rt: &impl Print) -> io::Result<()> {
    small::run(rt)?;
    large::run(rt)
}

// By a handle that tells no failure.
fn main() {
    let _written = run(&Unfailing);
}
