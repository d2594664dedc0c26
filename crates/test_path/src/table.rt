// Tables of travel times, of lent stops and of path bytes.

use crate::lists::Lengths;
use crate::{sample, stops};
use path::PathBytes;
use std::io;
use stop::Stops;
use test_support::{part, text, write};

// Makes the table of these stops, in these places, and writes the answer.
pub fn make<R: Print>(rt: &R, k: u16, stops: Stops<'_>, table: &mut [u32]) -> io::Result<()> {
    let made = times::make_table(k, stops, table);
    write::made(rt, "times", made, table)
}

// Makes the table of a path's bytes, in these places, and writes the answer.
pub fn make_from<R: Print>(rt: &R, path: PathBytes<'_>, table: &mut [u32]) -> io::Result<()> {
    let made = times::table_from(path, table);
    write::made(rt, "times", made, table)
}

// `table K X SPEED BLEND DWELL COORDINATES SPEEDS BLENDS DWELLS SIZE`: the stops of the 50 example but for the first one's x and speed and the last
// one's blend and dwell; the lent lengths are at most 12, 4, 4, 4 and 17.
pub fn table<R: Print>(rt: &R, line: &[u8]) -> io::Result<()> {
    let x = stops::coordinate(line, 3);
    let stops = Stops {
        coords: &[x, 0, 0, 30, 0, 0, 10, 0, 0, 20, 0, 0],
        speeds: &[text::short(line, 4), 100, 100, 100],
        blends: &[0, 0, 0, text::short(line, 5)],
        dwells: &[0, 0, 0, text::short(line, 6)],
    };
    let mut table = [77u32; 17];
    make(
        rt,
        text::short(line, 2),
        Lengths::given(line, 7).part(stops),
        part::first_mut(&mut table, text::size(line, 11)),
    )
}

// `pair SPEED SPEED DWELL DWELL`: two stops of their own speeds and dwells, 7 apart on the z axis and 5 on the y axis, with a third one lent that is
// out of range.
pub fn pair<R: Print>(rt: &R, line: &[u8]) -> io::Result<()> {
    let stops = Stops {
        coords: &[1, 2, 3, 1, -3, 10, 20001, 0, 0],
        speeds: &[text::short(line, 2), text::short(line, 3), 0],
        blends: &[500, 0, 501],
        dwells: &[text::short(line, 4), text::short(line, 5), 5001],
    };
    make(rt, 1, stops, &mut [77; 4])
}

// `from PATH LENGTH CHANGES VERSION K SIZE`: at most 5 places.
pub fn from<R: Print>(rt: &R, line: &[u8]) -> io::Result<()> {
    let bytes = sample::path(line);
    let mut table = [77u32; 5];
    let table = part::first_mut(&mut table, text::size(line, 7));
    make_from(rt, sample::lent(line, &bytes), table)
}
