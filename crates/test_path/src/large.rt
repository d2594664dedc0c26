// Paths and tables for k = 10.

ghost use Rattle.std.specs.Prelude.{◌<◌};

use crate::lists::{Lengths, Lent};
use crate::{reading, rewriting, table, writing};
use arrayvec::{ArrayVec, CapacityError};
use path::PathBytes;
use std::io;
use test_support::{part, text};

// The places of the lists of 1,024 stops.
const LENGTHS: Lengths = Lengths {
    coords: 3072,
    speeds: 1024,
    blends: 1024,
    dwells: 1024,
};

// The most places that a list is lent: one more than that.
const MOST: Lengths = Lengths {
    coords: 3073,
    speeds: 1025,
    blends: 1025,
    dwells: 1025,
};

// The most bytes of a path, and the most places of a table: one more than version 6 and the stops need.
const BYTES: usize = 22541;

const TIMES: usize = 1048577;

// Adds the coordinates of stop i: 19 i, -1 - 17 i, and 20000, -20000, 20000, ..
fn push_point(bytes: &mut ArrayVec<u8, BYTES>, i: u16) -> Result<(), CapacityError> {
    let i = i32::from(i);
    let height: i32 = if i % 2 == 0 { 20000 } else { -20000 };
    bytes.try_extend_from_slice(&(19 * i).to_le_bytes())?;
    bytes.try_extend_from_slice(&(-1 - 17 * i).to_le_bytes())?;
    bytes.try_extend_from_slice(&height.to_le_bytes())
}

// Adds the record of stop i, of speed 977 + i, from version 5 on blend i mod 501, and in version 6 dwell 37 i mod 5001.
fn push_stop(bytes: &mut ArrayVec<u8, BYTES>, version: u16, i: u16) -> Result<(), CapacityError>
    requires { i < 1024 }
{
    let (length, kept) = match version {
        4 => (16, 1),
        5 => (18, 2),
        _ => (20, 3),
    };
    let fields = [977 + i, i % 501, 37 * i % 5001];
    part::push_within(bytes, &[length, 2])?;
    push_point(bytes, i)?;
    part::push_within(bytes, part::first(&fields, kept))
}

// Adds the path of 1,024 stops in a version.
fn push_path(bytes: &mut ArrayVec<u8, BYTES>, version: u16) -> Result<(), CapacityError> {
    part::push_within(bytes, &[6, 1, version, 10])?;
    for i in 0..1024 {
        push_stop(bytes, version, i)?;
    }
    part::push_within(bytes, &[2, 3])
}

// That path, for which there is room.
fn whole_path(version: u16) -> ArrayVec<u8, BYTES> {
    let mut bytes = ArrayVec::new();
    let _pushed = push_path(&mut bytes, version);
    bytes
}

// The path, and zeros after it, with one byte changed: words 3, 5 and 6 of a case, the version, a place and the byte put there. Word 4, how many bytes
// are lent, is the caller's.
fn path_of(line: &[u8]) -> [u8; BYTES] {
    let mut bytes = [0u8; BYTES];
    part::copy(&mut bytes, whole_path(text::short(line, 3)).as_slice());
    part::put(&mut bytes, text::size(line, 5), text::byte(line, 6));
    bytes
}

// As much of that path as a case lends, by word 4, as bytes of its version.
fn lent_path<'a>(line: &[u8], bytes: &'a [u8]) -> PathBytes<'a> {
    PathBytes {
        bytes: part::first(bytes, text::size(line, 4)),
        version: text::short(line, 3),
        k: 10,
    }
}

// `large read VERSION LENGTH AT BYTE COORDINATES SPEEDS BLENDS DWELLS`: the lent lengths are at most 3073, 1025, 1025 and 1025.
fn read<R: Print>(rt: &R, line: &[u8]) -> io::Result<()> {
    let bytes = path_of(line);
    let lent = Lent::new(Lengths::given(line, 7).at_most(MOST));
    reading::read_into(rt, part::first(&bytes, text::size(line, 4)), 6, lent)
}

// `large copy VERSION LENGTH AT BYTE WANTED ROOM`: at most 22541 bytes of room.
fn copy<R: Print>(rt: &R, line: &[u8]) -> io::Result<()> {
    let bytes = path_of(line);
    let mut out = [77u8; BYTES];
    rewriting::rewrite(
        rt,
        lent_path(line, &bytes),
        text::short(line, 7),
        part::first_mut(&mut out, text::size(line, 8)),
    )
}

// `large from VERSION LENGTH AT BYTE SIZE`: at most 1048577 places.
fn from<R: Print>(rt: &R, line: &[u8]) -> io::Result<()> {
    let bytes = path_of(line);
    let mut table = [77u32; TIMES];
    let table = part::first_mut(&mut table, text::size(line, 7));
    table::make_from(rt, lent_path(line, &bytes), table)
}

// The stops of the path of a version, as they are read.
fn stops_of(version: u16) -> Lent {
    let bytes = whole_path(version);
    let mut lent = Lent::new(LENGTHS);
    let _read = lent.read(bytes.as_slice(), 6);
    lent
}

// `large write VERSION WANTED BLEND DWELL ROOM`: the stops of the path of one version are written in another, with the last one's blend and dwell
// changed, to at most 22541 bytes.
fn write<R: Print>(rt: &R, line: &[u8]) -> io::Result<()> {
    let mut lent = stops_of(text::short(line, 3));
    part::put(&mut lent.blends, 1023, text::short(line, 5));
    part::put(&mut lent.dwells, 1023, text::short(line, 6));
    let mut out = [77u8; BYTES];
    writing::write_stops(
        rt,
        text::short(line, 4),
        10,
        lent.stops(),
        part::first_mut(&mut out, text::size(line, 7)),
    )
}

// `large table VERSION SPEED SIZE`: the table of the path's stops, with the last one's speed changed, in at most 1048577 places.
fn table<R: Print>(rt: &R, line: &[u8]) -> io::Result<()> {
    let mut lent = stops_of(text::short(line, 3));
    part::put(&mut lent.speeds, 1023, text::short(line, 4));
    let mut table = [77u32; TIMES];
    let table = part::first_mut(&mut table, text::size(line, 5));
    table::make(rt, 10, lent.stops(), table)
}

// What the second word of a case calls: a `match` on its letter as in `main`, whose arms are this program's own calls.
pub fn call<R: Print>(rt: &R, line: &[u8]) -> io::Result<()> {
    match text::letter(line, 2) {
        b'r' => read(rt, line),
        b'w' => write(rt, line),
        b'c' => copy(rt, line),
        b'f' => from(rt, line),
        _ => table(rt, line),
    }
}
