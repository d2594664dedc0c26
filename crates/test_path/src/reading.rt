// Paths read into lent lists.

use crate::lists::{Lengths, Lent};
use crate::sample;
use path::Heading;
use std::io;
use test_support::{part, text, write};

// Reads into these lists, and writes the answer: version and k, and every lent place.
pub fn read_into(rt: &impl Print, bytes: &[u8], highest: u16, mut lent: Lent) -> io::Result<()> {
    match lent.read(bytes, highest) {
        Ok(Heading { version, k }) => println!(rt; ": 0, version {version}, k {k}{lent}"),
        Err(refusal) => write::refusal(rt, refusal, lent.untouched()),
    }
}

// The most places of each list.
const MOST: Lengths = Lengths {
    coords: 7,
    speeds: 3,
    blends: 3,
    dwells: 3,
};

// `read PATH LENGTH CHANGES HIGHEST COORDINATES SPEEDS BLENDS DWELLS`: the lent lengths are at most 7, 3, 3 and 3.
pub fn read<R: Print>(rt: &R, line: &[u8]) -> io::Result<()> {
    let bytes = sample::path(line);
    let path = part::first(&bytes, text::size(line, 3));
    let lent = Lent::new(Lengths::given(line, 6).at_most(MOST));
    read_into(rt, path, text::short(line, 5), lent)
}
