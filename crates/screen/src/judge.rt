// What comes before the calls write: the path with the places of what is lent, and for an exchange the records and the fork.
ghost use Rattle.std.specs.Prelude.{◌≡◌, IfOk};
ghost use Rattle.base.specs.Outcome.{and_then, giving, done, said};
ghost use Rattle.path.specs.Bytes.{heading_of};
ghost use Rattle.path.specs.Path.{read_path};
ghost use Rattle.path.specs.Reading.{heading};
ghost use Rattle.screen.specs.Records.{lent_records, fork_exchanged};
ghost use Rattle.screen.specs.Screen.{places_room};
ghost use Rattle.screen.specs.Times.{times_of};

use crate::judge_records;
use base::{Refusal, stop_count};
use path::{PathBytes, judge_head};

// A path whose stops and end are judged, where each buffer that is lent with it has at least so many places; fewer than n are 8.
// Inlined, since its answer is a struct in memory otherwise: the calls of one stop took a tenth more instructions.
#[inline(always)]
pub fn judge_path(bytes: &[u8], highest: u16, places: usize) -> Result<PathBytes<'_>, Refusal>
    ensures path { giving heading_of (said result) ≡ giving heading (read_path bytes.now highest (places_room places)) }
    ensures same { IfOk result (λ p. p.bytes.now ≡ bytes.now) }
{
    let path = judge_head(bytes, highest)?;
    if places < stop_count(path.k) {
        return Err(Refusal::WrongSize);
    }
    path.judge()?;
    Ok(path)
}

// The refusal of an exchange of one fork: that of the records, or a fork that is not 1 to n - 1 (14).
pub fn judge_exchange(
    path: PathBytes<'_>,
    fork: u16,
    order: &[u16],
    sums: &[u64],
) -> Result<(), Refusal>
    ensures { said result ≡ done (and_then (lent_records (times_of path.entry) path.entry.k order.now sums.now) (fork_exchanged (times_of path.entry) path.entry.k fork)) }
{
    judge_records(path, order, sums)?;
    if fork == 0 || stop_count(path.k) <= fork as usize {
        return Err(Refusal::NoSuchFork);
    }
    Ok(())
}
