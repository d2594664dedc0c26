// Runs the calls on paths, stops and travel times on known bytes and stops, and writes what each answered, one line to a call: the refusal's
// number and whether every lent place is as it was, or 0, the values, and what every lent place then holds. Every lent place holds 77 before.

#![tactic(auto)]

mod large;
mod lists;
mod reading;
mod rewriting;
mod sample;
mod stops;
mod table;
mod writing;

use std::io;
use test_support::cases::{self, PrintCases};

// The calls, between which nothing is kept.
#[derive(Drop)]
struct Calls;

impl PrintCases for Calls {
    // A `match` on the letter stays: each arm is one call, and a table of functions would name the same letters beside them.
    fn run<R: Print>(&mut self, rt: &R, letter: u8, line: &[u8]) -> io::Result<()> {
        match letter {
            b'r' => reading::read(rt, line),
            b'w' => writing::write(rt, line),
            b'c' => rewriting::copy(rt, line),
            b's' => stops::stop(rt, line),
            b'm' => stops::moved(rt, line),
            b'b' => stops::between(rt, line),
            b't' => table::table(rt, line),
            b'p' => table::pair(rt, line),
            b'f' => table::from(rt, line),
            b'l' => large::call(rt, line),
            _ => println!(rt; ": no such call"),
        }
    }
}

// Reads the cases and runs them: one call, with this program's own cases.
fn main() {
    cases::run_unfailing(&mut Calls)
}
