// What forks cost the other way, as a line leader reads it. A line says of a fork whether it is exchanged in the returned order, what the best order that
// has it the other way takes, how much more that is, and why it was not chosen; or the refusal's number.

#![tactic(auto)]

mod asked;
mod large;
mod paths;
mod words;
mod work;

use std::io;
use test_support::cases::{self, PrintCases};

// The calls, between which nothing is kept.
#[derive(Drop)]
struct Calls;

impl PrintCases for Calls {
    // A `match` on the letter stays: each arm is one call, and a table of functions would name the same letters beside them.
    fn run<R: Print>(&mut self, rt: &R, letter: u8, line: &[u8]) -> io::Result<()> {
        match letter {
            b'e' => asked::every(rt, line),
            b'f' => asked::fork(rt, line),
            b't' => large::ten(rt, line),
            _ => println!(rt; ": no such case"),
        }
    }
}

// Reads the cases and runs them: one call, with this program's own cases.
fn main() {
    cases::run_unfailing(&mut Calls)
}
