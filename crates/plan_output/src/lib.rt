// What the program writes for the bytes that it reads: the order file of a path, or one kind 7 record.
//
// No public function has a `requires`. The output is a value: it needs no lent buffer.

#![tactic(auto)]

ghost use Rattle.std.specs.Prelude.{◌≤◌};
ghost use Rattle.plan_output.specs.Output.{longest_file, IsOutput};

use base::Refusal;
use jobs::plan_file;
use records::{Kind, put_pair, put16};

// The highest version that the program knows.
pub const HIGHEST: u16 = 6;

// The bytes of the longest order file, that of 64 stops.
pub const LONGEST_FILE: usize = 162;

// The bytes of the longest accepted path, and one more: what comes after them cannot change the output.
pub const ENOUGH_INPUT: usize = 1_421;

// The bytes of a kind 7 record.
const REFUSED_SIZE: usize = 6;

// The first `count` bytes are the output; the others are 0. The program has no heap, so the output is an array and not a `Vec`.
#[derive(Clone, Copy)]
pub struct Output {
    pub bytes: [u8; LONGEST_FILE],
    pub count: usize,
    ghost within: { count ≤ longest_file },
}

impl Output {
    ghost use Rattle.std.specs.Prelude.{◌≡◌, length, take};
    ghost use Rattle.base.specs.Refusal.{refusal_number};
    ghost use Rattle.base.specs.Outcome.{over};
    ghost use Rattle.plan_output.specs.Output.{zeros, refused_bytes};

    // The kind 7 record of a refusal.
    fn refusal(refusal: Refusal) -> Output
        ensures whole { result.bytes ≡ over (refused_bytes (refusal_number refusal)) zeros }
        ensures size { result.count ≡ length (refused_bytes (refusal_number refusal)) }
    {
        let mut bytes = [0u8; LONGEST_FILE];
        put_pair(
            &mut bytes,
            0,
            Kind::Refused.length(HIGHEST) as u16,
            Kind::Refused.number(),
        );
        put16(&mut bytes, 4, refusal.number());
        Output {
            bytes,
            count: REFUSED_SIZE,
        }
    }

    // The bytes of the output. One line, as of `all_orders_output`: the two types keep other facts of other sizes.
    pub fn as_bytes(&self) -> &[u8]
        ensures { result.now ≡ take self.now.count self.now.bytes }
    {
        &self.bytes[..self.count]
    }
}

// The output for path bytes, of any length.
pub fn output_for(path: &[u8]) -> Output
    ensures { IsOutput path.now result.bytes result.count }
{
    let mut bytes = [0u8; LONGEST_FILE];
    match plan_file(path, HIGHEST, &mut bytes) {
        Ok(size) => Output {
            bytes,
            count: size as usize,
        },
        Err(refusal) => Output::refusal(refusal),
    }
}
