// What is set between the calls.

use crate::session::Session;
use test_support::{part, text};

// A path of version 5, the four stops of the 50 example: x = 0, 30, 10, 20, speeds 100, the rest 0.
const FIFTY: &[u8] =
    b"\x06\x00\x01\x00\x05\x00\x02\x00\x12\x00\x02\x00\x00\x00\x00\x00\x00\x00\x00\x00\x00\x00\x00\x00\x64\x00\x00\x00\x12\x00\x02\x00\x1e\x00\x00\x00\x00\x00\x00\x00\x00\x00\x00\x00\x64\x00\x00\x00\x12\x00\x02\x00\x0a\x00\x00\x00\x00\x00\x00\x00\x00\x00\x00\x00\x64\x00\x00\x00\x12\x00\x02\x00\x14\x00\x00\x00\x00\x00\x00\x00\x00\x00\x00\x00\x64\x00\x00\x00\x02\x00\x03\x00";

impl Session {
    // No path, and every place of every buffer holds 77.
    pub fn new() -> Session {
        Session {
            bytes: [0; 92],
            order: [77; 5],
            sums: [77; 5],
            marks: [77; 9],
            stops: [77; 33],
            kept: [77; 33],
        }
    }

    // `path CHANGES`: the path, its bytes changed as four hexadecimal digits say, a place and the byte put there, or 0 for none. Every place of every
    // buffer then holds 77.
    pub fn begin(&mut self, line: &[u8]) {
        *self = Session::new();
        part::copy(&mut self.bytes, FIFTY);
        part::change(&mut self.bytes, text::hex(line, 2));
    }

    // One number of a buffer, PLACE and VALUE after its word: `order`, `value` (a sum of the screen), `used` (a mark), `stop`, or else `t` (a sum that is
    // kept).
    pub fn put(&mut self, letter: u8, line: &[u8]) {
        let at = text::size(line, 2);
        match letter {
            b'o' => part::put(&mut self.order, at, text::short(line, 3)),
            b'v' => part::put(&mut self.sums, at, text::number(line, 3)),
            b'u' => part::put(&mut self.marks, at, text::byte(line, 3)),
            b's' => part::put(&mut self.stops, at, text::short(line, 3)),
            _ => part::put(&mut self.kept, at, text::number(line, 3)),
        }
    }
}
