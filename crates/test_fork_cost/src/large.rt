// One fork of a path for k = 10, version 6, by a rule.

ghost use Rattle.std.specs.Prelude.{◌<◌};

use crate::words;
use crate::work::Work;
use arrayvec::{ArrayVec, CapacityError};
use std::io;
use test_support::{part, text};

// The bytes of a path of version 6 of 1,024 stops.
const SIZE: usize = 22540;

// Adds the record of stop i: x = 10 (37 i mod 31), y = z = 0, speed 1000 or, where i is odd, 2000, blend 10, dwell i mod 4.
fn push_stop(bytes: &mut ArrayVec<u8, SIZE>, i: u16) -> Result<(), CapacityError>
    requires { i < 1024 }
{
    let x = 37 * i % 31 * 10;
    part::push_within(bytes, &[20, 2])?;
    part::push_within(bytes, &[x, 0, 0, 0, 0, 0])?;
    part::push_within(bytes, &[1000 + i % 2 * 1000, 10, i % 4])
}

// Adds the whole path.
fn push_path(bytes: &mut ArrayVec<u8, SIZE>) -> Result<(), CapacityError> {
    part::push_within(bytes, &[6, 1, 6, 10])?;
    for i in 0..1024 {
        push_stop(bytes, i)?;
    }
    part::push_within(bytes, &[2, 3])
}

// `ten FORK`: what this fork of the path costs the other way.
pub fn ten<R: Print>(rt: &R, line: &[u8]) -> io::Result<()> {
    let mut bytes = ArrayVec::new();
    let _pushed = push_path(&mut bytes);
    let mut work = Work::<2049, 2050, 2051>::new();
    words::write_cost(
        rt,
        work.fork_cost(bytes.as_slice(), 6, text::short(line, 2)),
    )?;
    print!(rt; "; ")?;
    work.write(rt)
}
