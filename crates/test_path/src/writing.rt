// Paths written from lent stops.

use crate::lists::Lengths;
use crate::stops;
use base::Refusal;
use std::io;
use stop::Stops;
use test_support::write::{self, Bytes};
use test_support::{count, part, text};

// The answer to a writing into this buffer: how many bytes, and every lent place.
pub fn answer(rt: &impl Print, written: Result<u64, Refusal>, out: &[u8]) -> io::Result<()> {
    match written {
        Ok(count) => println!(rt; ": 0, bytes {count},{}", Bytes(out)),
        Err(refusal) => write::refusal(rt, refusal, count::all(out, 77)),
    }
}

// Writes the path of these stops, to these bytes, and then the answer.
pub fn write_stops<R: Print>(
    rt: &R,
    version: u16,
    k: u16,
    stops: Stops<'_>,
    out: &mut [u8],
) -> io::Result<()> {
    let written = path::write_path(version, k, stops, out);
    answer(rt, written, out)
}

// `write VERSION K X SPEED BLEND BLEND DWELL DWELL COORDINATES SPEEDS BLENDS DWELLS ROOM`: a stop at X, 20000, 0 of speed 1 and the first blend and
// dwell, one at 10, -1, 256 of the given speed and the second blend and dwell, and a third one that is out of range; the lent lengths are at most
// 7, 3, 3, 3 and 57.
pub fn write<R: Print>(rt: &R, line: &[u8]) -> io::Result<()> {
    let stops = Stops {
        coords: &[stops::coordinate(line, 4), 20000, 0, 10, -1, 256, 20001],
        speeds: &[1, text::short(line, 5), 0],
        blends: &[text::short(line, 6), text::short(line, 7), 501],
        dwells: &[text::short(line, 8), text::short(line, 9), 5001],
    };
    let mut out = [77u8; 57];
    write_stops(
        rt,
        text::short(line, 2),
        text::short(line, 3),
        Lengths::given(line, 10).part(stops),
        part::first_mut(&mut out, text::size(line, 14)),
    )
}
