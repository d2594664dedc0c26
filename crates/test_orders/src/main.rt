// Runs the calls on orders, fork bits and order files on known numbers and bytes, and writes what each answered, one line to a call: the
// refusal's number and whether every lent place is as it was, or 0, the values, and what every lent place then holds. Every lent place holds
// 77 before.

#![tactic(auto)]

mod file;
mod known;
mod large;
mod order;
mod unsummed;

use std::io;
use test_support::cases::{self, PrintCases};

// The calls, between which nothing is kept.
#[derive(Drop)]
struct Calls;

impl PrintCases for Calls {
    // A `match` on the letter stays: each arm is one call, and a table of functions would name the same letters beside them.
    fn run<R: Print>(&mut self, rt: &R, letter: u8, line: &[u8]) -> io::Result<()> {
        match letter {
            b'b' => order::bits(rt, line),
            b'o' => order::order(rt, line),
            b't' => order::total(rt, line),
            b'w' => file::write(rt, line),
            b'r' => file::read(rt, line),
            b'a' => file::again(rt, line),
            b'u' => unsummed::read(rt, line),
            b'l' => large::call(rt, line),
            _ => println!(rt; ": no such call"),
        }
    }
}

// Reads the cases and runs them: one call, with this program's own cases.
fn main() {
    cases::run_unfailing(&mut Calls)
}
