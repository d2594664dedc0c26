// The records of a path put into bytes, each whole or not at all. Some functions have a `requires`: the module is private.
//
// The bytes and a place in them stay two parameters, as in `records`. The version goes with a stop or a k as a number: a struct of both would be made for one call.
ghost use Rattle.std.specs.Prelude.{◌≡◌, [], ◌++◌, ◌+◌, ◌≤◌, length};
ghost use Rattle.records.specs.Field.{bytes_of};
ghost use Rattle.records.specs.Put.{put};
ghost use Rattle.records.specs.Kind.{kind_number};
ghost use Rattle.records.specs.Record.{record_bytes, record_length, end_kind};
ghost use Rattle.path.specs.Path.{stop_size};
ghost use Rattle.path.specs.Written.{point_bytes, pace_bytes, stop_bytes, head_bytes};

use crate::judge::stop_size;
use records::{BLEND_SINCE, DWELL_SINCE, Kind, put_pair, put_signed, put16};
use stop::Stop;

// Writes the length of a kind and version, and the kind.
fn put_start(out: &mut [u8], at: usize, kind: Kind, version: u16)
    ensures { out.new ≡ put out.old at (bytes_of 2 (record_length (kind_number kind) version 0) ++ bytes_of 2 (kind_number kind)) }
{
    put_pair(out, at, kind.length(version) as u16, kind.number())
}

// Writes x, y and z.
fn put_point(out: &mut [u8], at: usize, point: [i32; 3])
    requires { at + 12 ≤ length out.old }
    ensures { out.new ≡ put out.old at (point_bytes point) }
{
    put_signed(out, at, point[0]);
    put_signed(out, at + 4, point[1]);
    put_signed(out, at + 8, point[2]);
}

// Writes what comes after the point of a stop, where there is room for it: the speed, and of blend and dwell what the version has.
fn put_pace(out: &mut [u8], at: usize, version: u16, speed: u16, blend: u16, dwell: u16)
    requires { at + stop_size version ≤ 16 + length out.old }
    ensures { out.new ≡ put out.old at (pace_bytes version speed blend dwell) }
{
    if version < BLEND_SINCE {
        put16(out, at, speed);
        return;
    }
    put_pair(out, at, speed, blend);
    if DWELL_SINCE <= version {
        put16(out, at + 4, dwell);
    }
}

// Writes the record of a stop to its own part of the output. The start and the point are as long in each version: of a slice of so many bytes no test
// is left in the compiled code.
fn put_record(part: &mut [u8], version: u16, s: Stop)
    requires { length part.old ≡ stop_size version }
    ensures { part.new ≡ stop_bytes version s }
{
    let (front, pace) = part.split_at_mut(16);
    put_start(front, 0, Kind::Stop, version);
    put_point(front, 4, s.at);
    put_pace(pace, 0, version, s.speed, s.blend, s.dwell);
}

// Writes the record of a stop where there is room for it.
pub fn put_stop(out: &mut [u8], at: usize, version: u16, s: Stop)
    requires { at + stop_size version ≤ length out.old }
    ensures { out.new ≡ put out.old at (stop_bytes version s) }
{
    let end = at + stop_size(version);
    put_record(&mut out[at..end], version, s)
}

// Writes the head of a path.
pub fn put_head(out: &mut [u8], version: u16, k: u16)
    requires { 8 ≤ length out.old }
    ensures { out.new ≡ put out.old 0 (head_bytes version k) }
{
    put_start(out, 0, Kind::Path, version);
    put_pair(out, 4, version, k)
}

// Writes the end record.
pub fn put_end(out: &mut [u8], at: usize)
    ensures { out.new ≡ put out.old at (record_bytes end_kind []) }
{
    put_start(out, at, Kind::End, 4)
}
