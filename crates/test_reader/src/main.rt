// Draws from good, cut, damaged and over-long paths beside the whole reading of the same bytes, also past the end. What it writes is
// compared with `stdout`.

#![tactic(auto)]

mod draw;

use draw::Given;
use std::io;
use stop::Stops;
use test_support::part;
use test_support::write::Unfailing;

// A path of version 6 of 4 stops, which differ in every field. Its records begin at 0, 8, 30, 52, 74 and 96.
fn good() -> [u8; 100] {
    let stops = Stops {
        coords: &[0, 1, 2, 30, -1, 0, 20000, -20000, 0, 20, 0, 0],
        speeds: &[100, 101, 1, 2000],
        blends: &[0, 7, 500, 9],
        dwells: &[40, 0, 5000, 256],
    };
    let mut bytes = [0u8; 100];
    let _written = path::write_path(6, 2, stops, &mut bytes);
    bytes
}

// Its first 2 stops as an older version, without their dwells and in version 4 without their blends, with at least one byte after the end.
fn older(version: u16) -> [u8; 53] {
    let stops = Stops {
        coords: &[0, 1, 2, 30, -1, 0],
        speeds: &[100, 101],
        blends: &[0, if version == 5 { 7 } else { 0 }],
        dwells: &[0, 0],
    };
    let mut bytes = [0u8; 53];
    let _written = path::write_path(version, 1, stops, &mut bytes);
    bytes
}

// The path cut at each length, and whole.
fn cuts(rt: &impl Print) -> io::Result<()> {
    for length in 0..101 {
        print!(rt; "cut at {length}")?;
        Given::of(part::first(&good(), length), 6).both(rt)?;
    }
    Ok(())
}

// The path with another value in one byte.
fn damaged(rt: &impl Print, at: usize, value: u8) -> io::Result<()> {
    let mut bytes = good();
    part::put(&mut bytes, at, value);
    print!(rt; "byte {at} is {value}")?;
    Given::of(&bytes, 6).both(rt)
}

// The path with 11 in each byte, one at a time, and with a field just out of range.
fn damages(rt: &impl Print) -> io::Result<()> {
    for at in 0..100 {
        damaged(rt, at, 11)?;
    }
    damaged(rt, 18, 1)?;
    damaged(rt, 26, 0)?;
    damaged(rt, 27, 255)?;
    damaged(rt, 28, 0)?;
    damaged(rt, 29, 255)
}

// Paths of an older version: the version, how many bytes, and up to which version the reader knows.
const OLDER: [(u16, usize, u16); 12] = [
    (4, 48, 4),
    (4, 48, 5),
    (4, 48, 6),
    (4, 49, 4),
    (4, 49, 6),
    (4, 48, 3),
    (4, 48, 7),
    (4, 0, 7),
    (5, 52, 4),
    (5, 52, 5),
    (5, 52, 6),
    (5, 53, 6),
];

// The paths of older versions.
fn versions(rt: &impl Print) -> io::Result<()> {
    for (version, length, highest) in OLDER {
        print!(rt; "version {version}, {length} bytes, highest {highest}")?;
        Given::of(part::first(&older(version), length), highest).both(rt)?;
    }
    Ok(())
}

// The whole path for readers of other versions.
fn known(rt: &impl Print) -> io::Result<()> {
    for highest in [4, 5, 7] {
        print!(rt; "version 6, highest {highest}")?;
        Given::of(&good(), highest).both(rt)?;
    }
    Ok(())
}

// Cursors that draws reach, and others, with a version.
const CURSORS: [(usize, u16); 13] = [
    (0, 6),
    (8, 6),
    (30, 6),
    (74, 6),
    (96, 6),
    (7, 6),
    (9, 6),
    (51, 6),
    (100, 6),
    (usize::MAX, 6),
    (30, 5),
    (30, 4),
    (30, 9),
];

// One draw from each cursor.
fn cursors(rt: &impl Print) -> io::Result<()> {
    for (at, version) in CURSORS {
        draw::step(rt, &good(), at, version)?;
    }
    Ok(())
}

// The last draws from a path of 1,024 stops with speed 1, dwell 3 and zeros, good, cut and over-long.
fn large(rt: &impl Print) -> io::Result<()> {
    let stops = Stops {
        coords: &[0; 3072],
        speeds: &[1; 1024],
        blends: &[0; 1024],
        dwells: &[3; 1024],
    };
    let mut bytes = [0u8; 22541];
    let _written = path::write_path(6, 10, stops, &mut bytes);
    for length in [22540, 22541, 22539, 22535] {
        print!(rt; "1024 stops, {length} bytes:")?;
        Given::of(part::first(&bytes, length), 6).numbered(rt, 1022..1027)?;
        println!(rt; "")?;
    }
    Ok(())
}

// All of them.
fn run(rt: &impl Print) -> io::Result<()> {
    cuts(rt)?;
    damages(rt)?;
    versions(rt)?;
    known(rt)?;
    cursors(rt)?;
    large(rt)
}

// By a handle that tells no failure.
fn main() {
    let _written = run(&Unfailing);
}
