// Orders: their fork bits, the order of fork bits, and totals. The handle and k go together in three functions: each hands them on to one call, so a
// struct of them would be made only to be taken apart.

use crate::known;
use std::io;
use test_support::write::{self, Bytes};
use test_support::{count, part, text};

// Makes the fork bits of an order, in these bytes, and writes the answer.
pub fn make_bits<R: Print>(rt: &R, k: u16, order: &[u16], bits: &mut [u8]) -> io::Result<()> {
    match orders::fork_bits(k, order, bits) {
        Ok(()) => println!(rt; ": 0, bits{}", Bytes(bits)),
        Err(refusal) => write::refusal(rt, refusal, count::all(bits, 77)),
    }
}

// Makes the order of fork bits, in these places, and writes the answer.
pub fn make_order<R: Print>(rt: &R, k: u16, bits: &[u8], order: &mut [u16]) -> io::Result<()> {
    let made = orders::order_of_bits(k, bits, order);
    write::made(rt, "order", made, order)
}

// Sums an order's total, and writes the answer.
pub fn sum_total(rt: &impl Print, k: u16, order: &[u16], table: &[u32]) -> io::Result<()> {
    match orders::order_total(k, order, table) {
        Ok(total) => println!(rt; ": 0, total {total}"),
        Err(refusal) => println!(rt; ": {}", refusal.number()),
    }
}

// `bits K COUNT STOPS ROOM`: the bits of so many stops, one hexadecimal digit each, in at most 3 bytes.
pub fn bits<R: Print>(rt: &R, line: &[u8]) -> io::Result<()> {
    let count = text::size(line, 3);
    let order = known::stops(count, text::hex(line, 4));
    let mut out = [77u8; 3];
    make_bits(
        rt,
        text::short(line, 2),
        part::first(&order, count),
        part::first_mut(&mut out, text::size(line, 5)),
    )
}

// `order K COUNT BITS ROOM`: the order of the first so many of two bytes of bits, in at most 17 places.
pub fn order<R: Print>(rt: &R, line: &[u8]) -> io::Result<()> {
    let bits = ((text::hex(line, 4) % 65536) as u16).to_be_bytes();
    let mut order = [77u16; 17];
    make_order(
        rt,
        text::short(line, 2),
        part::first(&bits, text::size(line, 3)),
        part::first_mut(&mut order, text::size(line, 5)),
    )
}

// `total TABLE K COUNT STOPS SIZE`: the total of so many stops, one hexadecimal digit each, by a table of at most 65 places.
pub fn total(rt: &impl Print, line: &[u8]) -> io::Result<()> {
    let count = text::size(line, 4);
    let order = known::stops(count, text::hex(line, 5));
    let table = known::table(text::letter(line, 2));
    sum_total(
        rt,
        text::short(line, 3),
        part::first(&order, count),
        part::first(&table, text::size(line, 6)),
    )
}
