// The fields of a stop's record that lies within the bytes, read with no test for each byte. These functions have a `requires`: none is
// public.
ghost use Rattle.std.specs.Prelude.{◌≡◌, ◌+◌, ◌≤◌, length, take, drop};
ghost use Rattle.records.specs.Field.{number_of, signed};
ghost use Rattle.path.specs.Path.{stop_of, stop_size, stop_place, stop_in};
ghost use Rattle.path.specs.Local.{field_since};

use crate::PathBytes;
use crate::judge::{HEAD_SIZE, stop_size};
use records::{BLEND_SINCE, DWELL_SINCE, to_signed};
use stop::Stop;

// The number of the two bytes from `at` on.
pub fn word16(bytes: &[u8], at: usize) -> u16
    requires { at + 2 ≤ length bytes.now }
    ensures { result ≡ number_of (take 2 (drop at bytes.now)) }
{
    u16::from_le_bytes([bytes[at], bytes[at + 1]])
}

// The coordinate in the four bytes from `at` on.
fn coordinate_in(bytes: &[u8], at: usize) -> i32
    requires { at + 4 ≤ length bytes.now }
    ensures { result ≡ signed (number_of (take 4 (drop at bytes.now))) }
{
    to_signed(u32::from_le_bytes([bytes[at], bytes[at + 1], bytes[at + 2], bytes[at + 3]]))
}

// The 2-byte field at `at` that stops have from version `since` on: 0 in an older version.
fn field_since(bytes: &[u8], since: u16, version: u16, at: usize) -> u16
    requires { since ≤ version → at + 2 ≤ length bytes.now }
    ensures { result ≡ field_since since version (drop at bytes.now) }
{
    if version < since {
        return 0;
    }
    word16(bytes, at)
}

impl PathBytes<'_> {
    // The stop whose content begins at `at`.
    pub(crate) fn stop_at(self, at: usize) -> Stop
        requires { at + stop_size self.version ≤ 4 + length self.bytes.now }
        ensures { result ≡ stop_of self.entry.version (drop at self.entry.bytes.now) }
    {
        let bytes = self.bytes;
        Stop {
            at: [
                coordinate_in(bytes, at),
                coordinate_in(bytes, at + 4),
                coordinate_in(bytes, at + 8),
            ],
            speed: word16(bytes, at + 12),
            blend: field_since(bytes, BLEND_SINCE, self.version, at + 14),
            dwell: field_since(bytes, DWELL_SINCE, self.version, at + 16),
        }
    }

    // Stop i, whose record lies within the bytes: nothing is tested.
    pub(crate) fn stop_within(self, i: usize) -> Stop
        requires { stop_place self.version i + stop_size self.version ≤ length self.bytes.now }
        ensures { result ≡ stop_in self.entry.version i self.entry.bytes.now }
    {
        self.stop_at(HEAD_SIZE + 4 + i * stop_size(self.version))
    }
}
