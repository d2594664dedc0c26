// A call's answer as one signed 64-bit number, for callers in C and other languages: a value as it is, a refusal as its number made negative.
//
// No public function has a `requires`: a value too large for the result counts as the largest.

#![tactic(auto)]

ghost use Rattle.std.specs.Prelude.{◌≡◌};
ghost use Rattle.base.specs.Outcome.{said};
ghost use Rattle.signed.specs.Result.{nothing, itself, negative, given, signed};

use base::Refusal;

// The largest signed 64-bit number.
const LARGEST: u64 = 9_223_372_036_854_775_807;

// A refusal's number, made negative: a number and no `Refusal`, since a call takes any.
pub fn refusal(number: u16) -> i64
    ensures { result ≡ negative number }
{
    -(number as i64)
}

// A value; one that is too large counts as the largest.
pub fn value(v: u64) -> i64
    ensures { result ≡ given v }
{
    v.min(LARGEST) as i64
}

// A call's answer: its value, or the number of its refusal made negative.
pub fn answer(answered: Result<u64, Refusal>) -> i64
    ensures { result ≡ signed itself (said answered) }
{
    match answered {
        Ok(v) => value(v),
        Err(reason) => refusal(reason.number()),
    }
}

// The answer of a call that gives nothing beside what it writes: 0, or the number of its refusal made negative.
pub fn done(answered: Result<(), Refusal>) -> i64
    ensures { result ≡ signed nothing (said answered) }
{
    answer(answered.map(|()| 0))
}
