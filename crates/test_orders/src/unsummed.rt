// Order files read without a table: everything is judged but the total.

use crate::known;
use std::io;
use test_support::write::{self, Numbers};
use test_support::{count, part, text};

// `unsummed LENGTH CHANGES K PLACES`: the first so many bytes of the changed file of the 50 example, into at most 5 places.
pub fn read<R: Print>(rt: &R, line: &[u8]) -> io::Result<()> {
    let file = known::file(b'f', text::hex(line, 3));
    let bytes = part::first(&file, text::size(line, 2));
    let mut all = [77u16; 5];
    let order = part::first_mut(&mut all, text::size(line, 5));
    match order_file::read_unsummed(text::short(line, 4), bytes, order) {
        Ok(total) => println!(rt; ": 0, total {total}, order{}", Numbers(order)),
        Err(refusal) => write::refusal(rt, refusal, count::all(order, 77)),
    }
}
