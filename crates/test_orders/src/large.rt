// Orders, fork bits and an order file for k = 10.

use crate::{file, known, order};
use std::{array, io};
use test_support::{part, text};

// Byte i of a mixed set of forks.
fn mixed(i: usize) -> u8 {
    (i % 128 * 73 % 256) as u8
}

// The mixed set, of which bit 0 is 0, in so many bytes.
fn forks<const N: usize>() -> [u8; N] {
    array::from_fn(mixed)
}

// The order of the mixed set, and 77 past it.
fn mixed_order() -> [u16; 1025] {
    let mut order = [77u16; 1025];
    let _made = orders::order_of_bits(10, &forks::<128>(), &mut order);
    order
}

// The same with one stop changed: words 3 and 4 of a case, a place and the stop put there.
fn changed_order(line: &[u8]) -> [u16; 1025] {
    let mut order = mixed_order();
    part::put(&mut order, text::size(line, 3), text::short(line, 4));
    order
}

// `large order AT BYTE ROOM`: the order of the mixed set with one byte changed, in at most 1025 places.
fn order_of<R: Print>(rt: &R, line: &[u8]) -> io::Result<()> {
    let mut bits = forks::<129>();
    part::put(&mut bits, text::size(line, 3), text::byte(line, 4));
    let mut order = [77u16; 1025];
    let order = part::first_mut(&mut order, text::size(line, 5));
    order::make_order(rt, 10, &bits, order)
}

// `large bits AT STOP ROOM`: the fork bits of the changed order, in at most 129 bytes.
fn bits_of<R: Print>(rt: &R, line: &[u8]) -> io::Result<()> {
    let mut bits = [77u8; 129];
    let bits = part::first_mut(&mut bits, text::size(line, 5));
    order::make_bits(rt, 10, &changed_order(line), bits)
}

// `large total AT STOP`: the total of the changed order.
fn total(rt: &impl Print, line: &[u8], table: &[u32]) -> io::Result<()> {
    order::sum_total(rt, 10, &changed_order(line), table)
}

// `large write ROOM`: the file of the order of the mixed set, in at most 2203 bytes.
fn write(rt: &impl Print, line: &[u8], table: &[u32]) -> io::Result<()> {
    let mut out = [77u8; 2203];
    let out = part::first_mut(&mut out, text::size(line, 3));
    file::write_file(rt, 10, &mixed_order(), table, out)
}

// `large read LENGTH AT BYTE`: the first so many bytes of that file, and a zero after it, with one byte changed. Its records begin at 0, 6, 2066 and
// 2198; the total lies at 10, the stops at 18, the bits at 2070.
fn read(rt: &impl Print, line: &[u8], table: &[u32]) -> io::Result<()> {
    let mut file = [0u8; 2203];
    let _written = order_file::write_order_file(10, &mixed_order(), table, &mut file);
    part::put(&mut file, text::size(line, 4), text::byte(line, 5));
    let file = part::first(&file, text::size(line, 3));
    let mut order = [77u16; 1025];
    let mut bits = [77u8; 129];
    file::read_file(rt, 10, table, file, &mut order, &mut bits)
}

// What the second word of a case calls, of what takes a table, by the table of the rule.
fn by_table(rt: &impl Print, line: &[u8], table: &mut [u32]) -> io::Result<()> {
    known::fill(table);
    match text::letter(line, 2) {
        b't' => total(rt, line, table),
        b'w' => write(rt, line, table),
        _ => read(rt, line, table),
    }
}

// The same with places for that table.
fn with_table(rt: &impl Print, line: &[u8]) -> io::Result<()> {
    let mut table = [0u32; 1048576];
    by_table(rt, line, &mut table)
}

// What the second word of a case calls: a `match` on its letter as in `main`, whose arms are this program's own calls.
pub fn call<R: Print>(rt: &R, line: &[u8]) -> io::Result<()> {
    match text::letter(line, 2) {
        b'o' => order_of(rt, line),
        b'b' => bits_of(rt, line),
        _ => with_table(rt, line),
    }
}
