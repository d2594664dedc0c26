// Path bytes written in another version.

use crate::{sample, writing};
use path::PathBytes;
use std::io;
use test_support::{part, text};

// Writes a path's bytes in another version, to these bytes, and then the answer.
pub fn rewrite<R: Print>(
    rt: &R,
    path: PathBytes<'_>,
    wanted: u16,
    out: &mut [u8],
) -> io::Result<()> {
    let written = path::rewrite_path(path, wanted, out);
    writing::answer(rt, written, out)
}

// `copy PATH LENGTH CHANGES VERSION K WANTED ROOM`: at most 57 bytes of room.
pub fn copy<R: Print>(rt: &R, line: &[u8]) -> io::Result<()> {
    let bytes = sample::path(line);
    let mut out = [77u8; 57];
    rewrite(
        rt,
        sample::lent(line, &bytes),
        text::short(line, 7),
        part::first_mut(&mut out, text::size(line, 8)),
    )
}
