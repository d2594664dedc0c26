// Round trips.

use crate::call::{self, Call, Sizes};
use std::io;

// k and the rule. For n = 1 the total is 0 whatever the diagonal; for n = 2 the tour is 1, 0 whatever the table.
const SMALL: [(u16, u32); 7] = [(0, 0), (0, 2), (0, 9), (1, 2), (1, 3), (1, 4), (1, 5)];

// Document 01's example with the total 50 closed; a table whose only move that takes any time closes the open order, and one whose moves to larger
// stops are the cheaper ones: tours of another order than the planner's. Tables of ties.
const CLOSED: [(u16, u32); 8] = [
    (2, 7),
    (2, 10),
    (2, 4),
    (2, 5),
    (2, 0),
    (2, 9),
    (3, 0),
    (4, 6),
];

// Tables that are not symmetric, and tables of many ties.
const RULED: [(u16, u32); 11] = [
    (2, 1),
    (2, 2),
    (2, 3),
    (3, 1),
    (3, 2),
    (3, 3),
    (3, 4),
    (4, 1),
    (4, 2),
    (4, 3),
    (4, 4),
];

// Every length is enough but one or two, and k above 7 is found first.
const REFUSED: [Sizes; 13] = [
    (2, 15, 0, 4, 8, 8),
    (2, 17, 0, 4, 8, 8),
    (2, 16, 0, 3, 8, 8),
    (2, 16, 0, 4, 7, 8),
    (2, 16, 0, 4, 8, 7),
    (2, 17, 0, 3, 8, 8),
    (2, 16, 0, 4, 8, 8),
    (7, 16, 0, 4, 8, 8),
    (8, 16, 0, 4, 8, 8),
    (8, 15, 0, 3, 7, 7),
    (10, 16, 0, 4, 8, 8),
    (11, 16, 0, 4, 8, 8),
    (65535, 15, 0, 4, 8, 8),
];

// All calls.
pub fn run<R: Print>(rt: &R) -> io::Result<()> {
    call::ruled(rt, Call::Tour, &SMALL)?;
    call::ruled(rt, Call::Tour, &CLOSED)?;
    call::ruled(rt, Call::Tour, &RULED)?;
    call::sized(rt, Call::Tour, 7, &REFUSED)
}
