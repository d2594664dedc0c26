// Stops made, and the times of moves.

use crate::sample;
use path::PathBytes;
use std::io;
use stop::Stop;
use test_support::write::Numbers;
use test_support::{part, text};

// The coordinate in word i of a case, below 0 after a sign.
pub fn coordinate(line: &[u8], i: usize) -> i32 {
    let number = ((text::number(line, i) % 4294967296) as u32).cast_signed();
    if text::letter(line, i) == b'-' {
        return number.wrapping_neg();
    }
    number
}

// `stop X Y Z SPEED BLEND DWELL`: a refused stop is written as zeros.
pub fn stop(rt: &impl Print, line: &[u8]) -> io::Result<()> {
    let asked = given(line, 2);
    match Stop::new(asked.at, asked.speed, asked.blend, asked.dwell) {
        Ok(stop) => {
            print!(rt; ": 0, stop{}", Numbers(&stop.at))?;
            println!(rt; " {} {} {}", stop.speed, stop.blend, stop.dwell)
        }
        Err(refusal) => println!(rt; ": {}, stop 0 0 0 0 0 0", refusal.number()),
    }
}

// The stop of the six numbers from word `at` on.
fn given(line: &[u8], at: u8) -> Stop {
    let i = usize::from(at);
    Stop {
        at: [
            coordinate(line, i),
            coordinate(line, i + 1),
            coordinate(line, i + 2),
        ],
        speed: text::short(line, i + 3),
        blend: text::short(line, i + 4),
        dwell: text::short(line, i + 5),
    }
}

// `move X Y Z SPEED BLEND DWELL X Y Z SPEED BLEND DWELL`
pub fn moved(rt: &impl Print, line: &[u8]) -> io::Result<()> {
    match times::move_time(given(line, 2), given(line, 8)) {
        Ok(time) => println!(rt; ": 0, time {time}"),
        Err(refusal) => println!(rt; ": {}", refusal.number()),
    }
}

// `between PATH LENGTH CHANGES VERSION FROM TO`
pub fn between(rt: &impl Print, line: &[u8]) -> io::Result<()> {
    let bytes = sample::path(line);
    let path = PathBytes {
        bytes: part::first(&bytes, text::size(line, 3)),
        version: text::short(line, 5),
        k: 1,
    };
    let time = times::time_in(path, text::size(line, 6), text::size(line, 7));
    println!(rt; ": time {time}")
}
