// Calls that are refused, and calls whose lengths are just enough, by a table of four rows, where stop 1 is empty.

use crate::call::Asked;
use crate::lent::Lengths;
use std::io;

// A call: k, the lengths of the table, the bytes, the list, the fork bits and the work space, and the changes of the bytes.
type Refused = (u16, usize, usize, usize, usize, usize, u64);

// Every length is enough but one: a table not n² long, then another buffer.
const LENGTHS: [Refused; 10] = [
    (2, 16, 4, 4, 1, 16, 0),
    (2, 15, 4, 4, 1, 16, 0),
    (2, 17, 4, 4, 1, 16, 0),
    (2, 16, 3, 4, 1, 16, 0),
    (2, 16, 4, 3, 1, 16, 0),
    (2, 16, 4, 4, 0, 16, 0),
    (2, 16, 4, 4, 1, 15, 0),
    (4, 256, 16, 16, 1, 256, 0),
    (6, 4096, 63, 64, 8, 4096, 0),
    (6, 4096, 64, 64, 7, 4096, 0),
];

// The list's buffer needs n places, also where no stop is filled.
const NO_LIST: [Refused; 2] = [
    (2, 16, 4, 4, 1, 16, 0x0001_0101_0201_0301),
    (2, 16, 4, 0, 1, 16, 0x0001_0101_0201_0301),
];

// Other values among the first n bytes, and after them.
const VALUES: [Refused; 5] = [
    (2, 16, 5, 5, 2, 17, 0x0002),
    (2, 16, 5, 5, 2, 17, 0x0102),
    (2, 16, 5, 5, 2, 17, 0x03ff),
    (2, 16, 5, 5, 2, 17, 0x0402),
    (6, 4096, 64, 64, 8, 4096, 0),
];

// k above 6.
const WRONG_K: [Refused; 3] = [
    (7, 4096, 65, 65, 9, 4097, 0),
    (10, 4096, 65, 65, 9, 4097, 0),
    (65535, 4096, 65, 65, 9, 4097, 0),
];

// Two faults at once: k before the lengths, the lengths before the bytes.
const TWO_FAULTS: [Refused; 7] = [
    (7, 0, 0, 0, 0, 0, 0),
    (7, 4096, 65, 65, 9, 4097, 0x0002),
    (2, 15, 4, 4, 1, 16, 0x0002),
    (2, 16, 3, 4, 1, 16, 0x0002),
    (2, 16, 4, 3, 1, 16, 0x0002),
    (2, 16, 4, 4, 0, 16, 0x0002),
    (2, 16, 4, 4, 1, 15, 0x0002),
];

// Calls, one after another.
fn calls<R: Print>(rt: &R, all: &[Refused]) -> io::Result<()> {
    for (k, table, empties, list, bits, work, changes) in all {
        let lengths = Lengths {
            table: *table,
            empties: *empties,
            list: *list,
            bits: *bits,
            work: *work,
        };
        let asked = Asked {
            k: *k,
            rule: 1,
            n: 4,
            empty: 2,
            changes: *changes,
        };
        asked.example(rt, lengths)?;
    }
    Ok(())
}

// All of them.
pub fn run<R: Print>(rt: &R) -> io::Result<()> {
    calls(rt, &LENGTHS)?;
    calls(rt, &NO_LIST)?;
    calls(rt, &VALUES)?;
    calls(rt, &WRONG_K)?;
    calls(rt, &TWO_FAULTS)
}
