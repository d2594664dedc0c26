// Travel times: the time of a move between two stops, and the table of the times between all the stops of a tree, from lent stops or from path
// bytes.
//
// No public function has a `requires`: bad input is refused before the table is touched.

#![tactic(auto)]

mod column;
mod fill;
mod moves;
mod source;
mod travel;

ghost use Rattle.std.specs.Prelude.{◌≡◌};
ghost use Rattle.base.specs.Outcome.{said};
ghost use Rattle.stop.specs.Lent.{lent};
ghost use Rattle.times.specs.Time.{move_time};
ghost use Rattle.times.specs.InPath.{time_in};
ghost use Rattle.times.specs.Table.{table_room, MakesTable, FillsTable};

use base::{MAX_K, Refusal, stop_count};
pub use moves::sum_in;
use path::PathBytes;
use source::Judged;
use stop::{Stop, Stops};
use travel::Move;

// The time of a move between two stops in milliseconds; 6 where one is out of range.
pub fn move_time(from: Stop, to: Stop) -> Result<u32, Refusal>
    ensures { said result ≡ move_time from to }
{
    from.judge()?;
    to.judge()?;
    Ok(Move { from, to }.time())
}

// The refusal 5 of a k above 10, or 8 of a table of `size` places that is not n² long.
fn judge_size(k: u16, size: usize) -> Result<(), Refusal>
    ensures { said result ≡ table_room k size }
{
    if MAX_K < k {
        return Err(Refusal::WrongK);
    }
    let n = stop_count(k);
    if size != n * n {
        return Err(Refusal::WrongSize);
    }
    Ok(())
}

// Writes the time from stop `from` to stop `to` at from * n + to, for each two of the n = 2^k lent stops. Refused are k above 10
// (5), a table that is not n² long or stops too few (8), and a stop out of range (6).
pub fn make_table(k: u16, stops: Stops, table: &mut [u32]) -> Result<(), Refusal>
    ensures { MakesTable k (lent stops.entry) table result }
{
    judge_size(k, table.len())?;
    let count = stop_count(k);
    stops.judge(count)?;
    let judged = Judged {
        source: stops,
        count,
    };
    fill::write_rows(&judged, table);
    Ok(())
}

// Writes the times between all the stops of path bytes, as `make_table` does for lent stops. The stops and the end are judged first.
pub fn table_from(path: PathBytes, table: &mut [u32]) -> Result<(), Refusal>
    ensures { FillsTable path.entry table result }
{
    judge_size(path.k, table.len())?;
    path.judge()?;
    let judged = Judged {
        source: path,
        count: stop_count(path.k),
    };
    fill::write_rows(&judged, table);
    Ok(())
}

// The time from stop `from` to stop `to` of path bytes in milliseconds: 0 from a stop to itself. Of bytes that were not judged it is 0 where one of the
// two stops is not there or out of range.
pub fn time_in(path: PathBytes, from: usize, to: usize) -> u32
    ensures { result ≡ time_in path.entry.version path.entry.bytes.now from to }
{
    if from == to {
        return 0;
    }
    move_time(path.stop(from), path.stop(to)).unwrap_or(0)
}
