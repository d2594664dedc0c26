// Plans lists of filled stops on known trays and writes a line for each call: k, the table's rule, the lent lengths, the lent bytes, the refusal's
// number and whether every lent place is as it was, or 0, the total, the list's length, and what every lent place then holds; of the
// work space how many numbers are 0 and how many as they were lent. Every lent place holds 77 before.

#![tactic(auto)]

mod call;
mod lent;
mod refused;
mod table;

use call::planned;
use std::io;
use test_support::write::Unfailing;

// Each tray of k in turn: bit i of its number, which is below `trays`, says that stop i is empty.
fn every<R: Print>(rt: &R, k: u16, trays: u64, rule: u32) -> io::Result<()> {
    for empty in 0..trays {
        planned(rt, k, rule, empty)?;
    }
    Ok(())
}

// k, and a tray of it: sixteen stops, and the most stops.
const TRAYS: [(u16, u64); 10] = [
    (4, 0),
    (4, 0x0ff0),
    (4, 0xa5c3),
    (4, 0x00ff),
    (4, 0xfeff),
    (4, 0xffff),
    (6, 0),
    (6, 0x0123_4567_89ab_cdef),
    (6, 0xffff_fffe_ffff_7fff),
    (6, 0xffff_ffff_ffff_ffff),
];

// All of them by one rule: every tray of up to eight stops, and some of more.
fn ruled<R: Print>(rt: &R, rule: u32) -> io::Result<()> {
    every(rt, 0, 2, rule)?;
    every(rt, 1, 4, rule)?;
    every(rt, 2, 16, rule)?;
    every(rt, 3, 256, rule)?;
    for (k, empty) in TRAYS {
        planned(rt, k, rule, empty)?;
    }
    Ok(())
}

// All calls.
fn run(rt: &impl Print) -> io::Result<()> {
    for rule in 0..4 {
        ruled(rt, rule)?;
    }
    refused::run(rt)
}

// By a handle that tells no failure.
fn main() {
    let _written = run(&Unfailing);
}
