// The sample path, in three versions.

use path::PathBytes;
use test_support::{part, text};

// A path of version 6 with two stops, -20000, 20000, 0, speed 1, blend 500, dwell 5000, and 10, -1, 256, speed 2000, blend 0, dwell 3. Its records
// begin at 0, 8, 30 and 52.
const LATEST: &[u8] =
    b"\x06\x00\x01\x00\x06\x00\x01\x00\x14\x00\x02\x00\xe0\xb1\xff\xff\x20\x4e\x00\x00\x00\x00\x00\x00\x01\x00\xf4\x01\x88\x13\x14\x00\x02\x00\x0a\x00\x00\x00\xff\xff\xff\xff\x00\x01\x00\x00\xd0\x07\x00\x00\x03\x00\x02\x00\x03\x00";

// The same stops in version 5, without their dwells. Its records begin at 0, 8, 28 and 48.
const NEW: &[u8] =
    b"\x06\x00\x01\x00\x05\x00\x01\x00\x12\x00\x02\x00\xe0\xb1\xff\xff\x20\x4e\x00\x00\x00\x00\x00\x00\x01\x00\xf4\x01\x12\x00\x02\x00\x0a\x00\x00\x00\xff\xff\xff\xff\x00\x01\x00\x00\xd0\x07\x00\x00\x02\x00\x03\x00";

// The same stops in version 4, without their blends too. Its records begin at 0, 8, 26 and 44.
const OLD: &[u8] =
    b"\x06\x00\x01\x00\x04\x00\x01\x00\x10\x00\x02\x00\xe0\xb1\xff\xff\x20\x4e\x00\x00\x00\x00\x00\x00\x01\x00\x10\x00\x02\x00\x0a\x00\x00\x00\xff\xff\xff\xff\x00\x01\x00\x00\xd0\x07\x02\x00\x03\x00";

// Words 2 and 4 of a case: `old`, `new` or else `latest`, and the changes that are made to that path; zeros follow it. Word 3, how many of its bytes
// are lent, is the caller's.
pub fn path(line: &[u8]) -> [u8; 60] {
    let mut bytes = [0u8; 60];
    let sample = match text::letter(line, 2) {
        b'o' => OLD,
        b'n' => NEW,
        _ => LATEST,
    };
    part::copy(&mut bytes, sample);
    part::change(&mut bytes, text::hex(line, 4));
    bytes
}

// As much of that path as word 3 of a case lends, as bytes of the version and k of words 5 and 6.
pub fn lent<'a>(line: &[u8], bytes: &'a [u8]) -> PathBytes<'a> {
    PathBytes {
        bytes: part::first(bytes, text::size(line, 3)),
        version: text::short(line, 5),
        k: text::short(line, 6),
    }
}
