// Order files written and read.

use crate::known;
use std::io;
use test_support::write::{self, Bytes, Numbers};
use test_support::{count, part, sum, text};

// Writes the file of an order, to these bytes, and then the answer: how many bytes, and every lent place.
pub fn write_file<R: Print>(
    rt: &R,
    k: u16,
    order: &[u16],
    table: &[u32],
    out: &mut [u8],
) -> io::Result<()> {
    match order_file::write_order_file(k, order, table, out) {
        Ok(count) => println!(rt; ": 0, bytes {count},{}", Bytes(out)),
        Err(refusal) => write::refusal(rt, refusal, count::all(out, 77)),
    }
}

// A file that was read: its total, the order and the bits, or their sums where the order is long.
fn write_read(rt: &impl Print, total: u64, order: &[u16], bits: &[u8]) -> io::Result<()> {
    print!(rt; ": 0, total {total}, order{}", Numbers(order))?;
    if 255 < order.len() {
        println!(rt; ", bits {}", sum::of(bits))
    } else {
        println!(rt; ", bits{}", Bytes(bits))
    }
}

// Reads the file of an order into these buffers, and writes the answer.
pub fn read_file(
    rt: &impl Print,
    k: u16,
    table: &[u32],
    file: &[u8],
    order: &mut [u16],
    bits: &mut [u8],
) -> io::Result<()> {
    match order_file::read_order_file(k, table, file, order, bits) {
        Ok(total) => write_read(rt, total, order, bits),
        Err(refusal) => {
            let same = count::all(order, 77) && count::all(bits, 77);
            write::refusal(rt, refusal, same)
        }
    }
}

// `write TABLE K COUNT STOPS SIZE ROOM`: the file of so many stops, one hexadecimal digit each, by a table of at most 65 places, in at most 44 bytes.
pub fn write<R: Print>(rt: &R, line: &[u8]) -> io::Result<()> {
    let count = text::size(line, 4);
    let order = known::stops(count, text::hex(line, 5));
    let table = known::table(text::letter(line, 2));
    let mut out = [77u8; 44];
    write_file(
        rt,
        text::short(line, 3),
        part::first(&order, count),
        part::first(&table, text::size(line, 6)),
        part::first_mut(&mut out, text::size(line, 7)),
    )
}

// `read FILE LENGTH CHANGES K SIZE PLACES ROOM`: the first so many bytes of the changed file, by its table of at most 65 places, into an order of at
// most 5 places and at most 2 bytes of bits.
pub fn read<R: Print>(rt: &R, line: &[u8]) -> io::Result<()> {
    let file = known::file(text::letter(line, 2), text::hex(line, 4));
    let table = known::table(text::letter(line, 2));
    let mut order = [77u16; 5];
    let mut bits = [77u8; 2];
    read_file(
        rt,
        text::short(line, 5),
        part::first(&table, text::size(line, 6)),
        part::first(&file, text::size(line, 3)),
        part::first_mut(&mut order, text::size(line, 7)),
        part::first_mut(&mut bits, text::size(line, 8)),
    )
}

// `again K COUNT STOPS SIZE LENGTH`: the file of so many stops by the rule is written, and then so many of its bytes are read.
pub fn again(rt: &impl Print, line: &[u8]) -> io::Result<()> {
    let k = text::short(line, 2);
    let count = text::size(line, 3);
    let order = known::stops(count, text::hex(line, 4));
    let table = known::table(b'r');
    let table = part::first(&table, text::size(line, 5));
    let mut out = [77u8; 43];
    let _written = order_file::write_order_file(k, part::first(&order, count), table, &mut out);
    let mut order = [77u16; 9];
    let mut bits = [77u8; 2];
    let file = part::first(&out, text::size(line, 6));
    read_file(rt, k, table, file, &mut order, &mut bits)
}
