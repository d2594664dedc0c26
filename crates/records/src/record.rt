// The kinds of record, their lengths, and what stands at a place of some bytes.
ghost use Rattle.std.specs.Prelude.{◌≡◌, drop};
ghost use Rattle.base.specs.Outcome.{said, done};
ghost use Rattle.records.specs.Kind.{Names, kind_number};
ghost use Rattle.records.specs.Record.{record_length, take_record};

use crate::field::{after, field16};
use base::Refusal;

// The kinds, each with its number.
#[derive(Clone, Copy, Debug, PartialEq, Eq)]
pub enum Kind {
    // The head of a path.
    Path = 1,
    // A stop of it.
    Stop = 2,
    // The end of a path or an order file.
    End = 3,
    // The head of an order file.
    Order = 4,
    // Its total and stops.
    Stops = 5,
    // Its fork bits.
    Forks = 6,
    // What the program writes for a refusal.
    Refused = 7,
}

// The kind of a number. Unknown numbers are no kind at all.
impl TryFrom<u16> for Kind {
    type Error = Refusal;

    ghost try_from_gives = { Names };

    fn try_from(number: u16) -> Result<Self, Refusal> {
        match number {
            1 => Ok(Kind::Path),
            2 => Ok(Kind::Stop),
            3 => Ok(Kind::End),
            4 => Ok(Kind::Order),
            5 => Ok(Kind::Stops),
            6 => Ok(Kind::Forks),
            7 => Ok(Kind::Refused),
            0 | 8..=65535 => Err(Refusal::WrongKind),
        }
    }
}

// The first version whose stops have a blend.
pub const BLEND_SINCE: u16 = 5;

// The first version whose stops have a dwell.
pub const DWELL_SINCE: u16 = 6;

// The lengths that records say, without the part for n of kinds 5 and 6: a row for each kind from 0 on, which is none, with versions 4, 5 and 6.
const LENGTHS: [[usize; 3]; 8] = [
    [0, 0, 0],
    [6, 6, 6],
    [16, 18, 20],
    [2, 2, 2],
    [4, 4, 4],
    [10, 10, 10],
    [2, 2, 2],
    [4, 4, 4],
];

impl Kind {
    // Its number, the discriminant, as `Refusal::number`.
    pub fn number(self) -> u16
        ensures { result ≡ kind_number self }
    {
        self as u16
    }

    // The length that a record of this kind and a version says, without the part for n of kinds 5 and 6.
    pub fn length(self, version: u16) -> usize
        ensures { result ≡ record_length (kind_number self) version 0 }
    {
        record_length(self.number(), version)
    }
}

// The length of a kind by its number; 0 for no kind. A call takes any number, which a `Kind` would not. A column of the table has the lengths of the
// versions with as many of a stop's later fields, blend and dwell. It is read at a constant column, at no memory access where the kind is known.
pub fn record_length(kind: u16, version: u16) -> usize
    ensures { result ≡ record_length kind version 0 }
{
    if 7 < kind {
        return 0;
    }
    let row = kind as usize;
    if version < BLEND_SINCE {
        return LENGTHS[row][0];
    }
    if version < DWELL_SINCE {
        return LENGTHS[row][1];
    }
    LENGTHS[row][2]
}

// Whether a record of a kind and length stands at `at`, or the refusal. The kind may be any number.
#[tactic(auto, unfolding(crate::specs::Record::take_record, crate::specs::Record::is_due, crate::specs::Record::is_kind, crate::specs::Record::kind_said, crate::specs::Record::length_said))]
pub fn judge_record(s: &[u8], at: usize, kind: u16, long: usize) -> Result<(), Refusal>
    ensures { said result ≡ done (take_record kind long (drop at s.now)) }
{
    let t = after(s, at);
    if t.len() < 4 {
        return Err(Refusal::Truncated);
    }
    if Kind::try_from(field16(t, 2))?.number() != kind {
        return Err(Refusal::WrongKind);
    }
    if (field16(t, 0) as usize) != long {
        return Err(Refusal::WrongLength);
    }
    if t.len() - 2 < long {
        return Err(Refusal::Truncated);
    }
    Ok(())
}
