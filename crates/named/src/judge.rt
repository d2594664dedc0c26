// What comes before anything is written: the lengths, the screen's records, the name, and what was kept under it.
ghost use Rattle.std.specs.Prelude.{◌≡◌, ◌*◌, ◌≤◌, ◌^◌, length};
ghost use Rattle.base.specs.Outcome.{and_then, done, said};
ghost use Rattle.base.specs.Size.{max_k};
ghost use Rattle.screen.specs.Records.{lent_records};
ghost use Rattle.screen.specs.Times.{times_of};
ghost use Rattle.named.specs.Names.{names, places_of, named, lent_under};

use base::{Refusal, stop_count};
use path::PathBytes;
use screen::judge_records;

// How many names there are, and the mark of a used one: a byte, as C lends the marks.
pub const NAMES: usize = 8;

pub const USED: u8 = 1;

// What is kept for all names: the marks, the stops and the sums.
#[derive(Clone, Copy)]
pub struct Kept<'a> {
    pub marks: &'a [u8],
    pub stops: &'a [u16],
    pub sums: &'a [u64],
}

// So many stops all that is lent is enough for: none where a mark is missing.
pub fn places(marks: usize, stops: usize, kept: usize, order: usize, sums: usize) -> usize
    ensures { result ≡ places_of marks stops kept order sums }
{
    if marks < NAMES {
        return 0;
    }
    order.min(sums).min(stops.min(kept) / NAMES)
}

// The refusal of the screen's records and then of the name (15). The name, the order and the sums are the call's own parameters, each judged here
// once.
pub fn judge_keep(
    path: PathBytes<'_>,
    name: u16,
    order: &[u16],
    sums: &[u64],
) -> Result<(), Refusal>
    ensures { said result ≡ done (and_then (lent_records (times_of path.entry) path.entry.k order.now sums.now) (named name)) }
{
    judge_records(path, order, sums)?;
    if name == 0 || NAMES < name as usize {
        return Err(Refusal::NoSuchName);
    }
    Ok(())
}

// The refusal to come back: the same, then nothing kept (16), then that of what was kept.
pub fn judge_back(
    path: PathBytes<'_>,
    name: u16,
    order: &[u16],
    sums: &[u64],
    kept: Kept<'_>,
) -> Result<(), Refusal>
    requires { (path.k ≤ max_k) × (names ≤ length kept.marks.now) × (names * 2 ^ path.k ≤ length kept.stops.now) × (names * 2 ^ path.k ≤ length kept.sums.now) }
    ensures { said result ≡ done (and_then (and_then (lent_records (times_of path.entry) path.entry.k order.now sums.now) (named name))
        (λ _. lent_under (times_of path.entry) path.entry.k name kept.entry.marks.now kept.entry.stops.now kept.entry.sums.now)) }
{
    judge_keep(path, name, order, sums)?;
    let m = (name as usize) - 1;
    if kept.marks[m] != USED {
        return Err(Refusal::NothingKept);
    }
    let at = m * stop_count(path.k);
    judge_records(path, &kept.stops[at..], &kept.sums[at..])
}
