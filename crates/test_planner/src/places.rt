// Plans where places cost extra.

use crate::call::{self, Asked, Call, Sizes};
use crate::lent::Lengths;
use std::io;

// k and the rules of the two tables. A second table all zero, and one that is the same everywhere: the plain order, and ties as before.
const SAME: [(u16, u32, u32); 11] = [
    (0, 0, 9),
    (1, 4, 9),
    (1, 6, 9),
    (2, 7, 9),
    (3, 1, 9),
    (4, 3, 9),
    (1, 5, 0),
    (2, 0, 0),
    (2, 7, 8),
    (3, 3, 8),
    (4, 1, 8),
];

// A place's cost changes the order: for document 01's example with the total 50 the last place, and place 0. For n = 1 the total is the entry.
const CHANGED: [(u16, u32, u32); 9] = [
    (0, 0, 2),
    (1, 4, 4),
    (1, 4, 5),
    (1, 6, 1),
    (1, 9, 2),
    (2, 7, 10),
    (2, 7, 11),
    (2, 9, 10),
    (2, 9, 4),
];

// Tables that are not symmetric, and tables of many ties.
const RULED: [(u16, u32, u32); 9] = [
    (2, 1, 2),
    (2, 3, 3),
    (3, 1, 1),
    (3, 0, 3),
    (3, 3, 2),
    (4, 1, 3),
    (4, 2, 1),
    (4, 3, 3),
    (4, 9, 2),
];

// Every length is enough but one or two, and k above 10 is found first.
const REFUSED: [Sizes; 15] = [
    (2, 15, 16, 4, 8, 8),
    (2, 17, 16, 4, 8, 8),
    (2, 16, 15, 4, 8, 8),
    (2, 16, 17, 4, 8, 8),
    (2, 16, 0, 4, 8, 8),
    (2, 16, 16, 3, 8, 8),
    (2, 16, 16, 4, 7, 8),
    (2, 16, 16, 4, 8, 7),
    (2, 17, 15, 4, 8, 8),
    (2, 16, 17, 3, 8, 8),
    (2, 16, 16, 4, 8, 8),
    (10, 16, 16, 4, 8, 8),
    (11, 16, 16, 4, 8, 8),
    (11, 15, 17, 3, 7, 7),
    (65535, 16, 0, 4, 8, 8),
];

// The plans by rules.
fn ruled<R: Print>(rt: &R, cases: &[(u16, u32, u32)]) -> io::Result<()> {
    for (k, rule, extra) in cases {
        let asked = Asked {
            call: Call::Places(*extra),
            k: *k,
            rule: *rule,
        };
        asked.example(rt, Lengths::enough(*k))?;
    }
    Ok(())
}

// All calls.
pub fn run<R: Print>(rt: &R) -> io::Result<()> {
    ruled(rt, &SAME)?;
    ruled(rt, &CHANGED)?;
    ruled(rt, &RULED)?;
    call::sized(rt, Call::Places(10), 7, &REFUSED)
}
