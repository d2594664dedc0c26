// What each k foretells, and plans.

use crate::call::{self, Call, Sizes};
use planner::Foretold;
use std::io;

// What k foretells, and its line: bytes of work space, and weighings.
fn foretell(rt: &impl Print, k: u16) -> io::Result<()> {
    match planner::foretell(k) {
        Ok(Foretold { bytes, weighings }) => {
            println!(rt; "k {k}: bytes {bytes}, weighings {weighings}")
        }
        Err(refusal) => println!(rt; "k {k}: {}", refusal.number()),
    }
}

// k and the rule: the starred examples of document 01, then tables that are not symmetric, and tables of many ties.
const RULED: [(u16, u32); 17] = [
    (0, 0),
    (1, 4),
    (1, 5),
    (1, 6),
    (2, 0),
    (2, 7),
    (2, 1),
    (2, 2),
    (2, 3),
    (3, 0),
    (3, 1),
    (3, 2),
    (3, 3),
    (4, 0),
    (4, 1),
    (4, 2),
    (4, 3),
];

// Every length is enough but one, and k above 10 is found first.
const REFUSED: [Sizes; 9] = [
    (2, 15, 0, 4, 8, 8),
    (2, 17, 0, 4, 8, 8),
    (2, 16, 0, 3, 8, 8),
    (2, 16, 0, 4, 7, 8),
    (2, 16, 0, 4, 8, 7),
    (2, 16, 0, 4, 8, 8),
    (10, 16, 0, 4, 8, 8),
    (11, 16, 0, 4, 8, 8),
    (65535, 16, 0, 4, 8, 8),
];

// All calls.
pub fn run<R: Print>(rt: &R) -> io::Result<()> {
    for k in 0..12 {
        foretell(rt, k)?;
    }
    foretell(rt, 65535)?;
    call::ruled(rt, Call::Plan, &RULED)?;
    call::sized(rt, Call::Plan, 0, &REFUSED)
}
