// Known orders, tables and files.

use std::array;
use test_support::{part, table};

// Hexadecimal digit i of a number, counted from the last one: 0 before its first.
fn digit(number: u64, i: usize) -> u16 {
    if i < 16 {
        ((number >> (4 * i)) % 16) as u16
    } else {
        0
    }
}

// The last `count` hexadecimal digits of a number as the first stops of an order, as many as there are places for.
pub fn stops(count: usize, digits: u64) -> [u16; 17] {
    array::from_fn(|i| if i < count {
        digit(digits, count - 1 - i)
    } else {
        0
    })
}

// Entry i of the table of a word: `fifty`, that of the 50 example; `pair`, 3 from 0 to 1 and 7 from 1 to 0; `rule`, numbers near the largest.
fn entry(word: u8, i: usize) -> u32 {
    match (word, i) {
        (b'f', _) => table::fifty(i / 4, i % 4),
        (b'r', _) => u32::MAX - (i % 1048576 * 37 % 101) as u32,
        (_, 1) => 3,
        (_, 2) => 7,
        _ => 9,
    }
}

// A table of 65 places.
pub fn table(word: u8) -> [u32; 65] {
    array::from_fn(|i| entry(word, i))
}

// Puts the table of `rule`, as long as there are places.
pub fn fill(table: &mut [u32]) {
    for (i, place) in table.iter_mut().enumerate() {
        *place = entry(b'r', i);
    }
}

// The file of the 50 example, whose records begin at 0, 6, 26 and 31. In each file the total lies at 10 and the stops at 18.
const FIFTY: &[u8] =
    b"\x04\x00\x04\x00\x02\x00\x12\x00\x05\x00\x32\x00\x00\x00\x00\x00\x00\x00\x02\x00\x03\x00\x01\x00\x00\x00\x03\x00\x06\x00\x06\x02\x00\x03\x00";

// That of 0, 1 with total 3, at 0, 6, 22 and 27.
const PAIR: &[u8] =
    b"\x04\x00\x04\x00\x01\x00\x0e\x00\x05\x00\x03\x00\x00\x00\x00\x00\x00\x00\x00\x00\x01\x00\x03\x00\x06\x00\x00\x02\x00\x03\x00";

// That of k = 0, at 0, 6, 20 and 25.
const ONE: &[u8] =
    b"\x04\x00\x04\x00\x00\x00\x0c\x00\x05\x00\x00\x00\x00\x00\x00\x00\x00\x00\x00\x00\x03\x00\x06\x00\x00\x02\x00\x03\x00";

// The file of a word, `fifty`, `pair` or else `one`, after the changes, and zeros after it.
pub fn file(word: u8, changes: u64) -> [u8; 40] {
    let mut file = [0u8; 40];
    let known = match word {
        b'f' => FIFTY,
        b'p' => PAIR,
        _ => ONE,
    };
    part::copy(&mut file, known);
    part::change(&mut file, changes);
    file
}
