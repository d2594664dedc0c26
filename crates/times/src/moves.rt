// The moves of an order by the stops of path bytes: the path is judged first, and then each stop is read once, and none is judged again.

ghost use Rattle.std.specs.Prelude.{◌≡◌, ℕ, ◌≤◌, length};
ghost use Rattle.base.specs.Outcome.{said};
ghost use Rattle.path.specs.Path.{stop_in};
ghost use Rattle.tree.specs.Total.{total};
ghost use Rattle.times.specs.InPath.{time_of, time_in};
ghost use Rattle.times.specs.Summing.{sum_in, StopOf};

use crate::travel::Move;
use base::Refusal;
use path::PathBytes;
use stop::Stop;

// The sum of the moves between the first n numbers of an order, or all where there are fewer, by the stops of path bytes. The stops and the end are
// judged first. A number that is no stop's takes no time.
pub fn sum_in(path: PathBytes, order: &[u16]) -> Result<u64, Refusal>
    ensures { said result ≡ sum_in path.entry.bytes.now path.entry.version path.entry.k order.now }
{
    path.judge()?;
    let n = base::stop_count(path.k);
    Ok(sum_moves(path, n, &order[..n.min(order.len())]))
}

// A stop of a path, with the number by which an order names it.
#[derive(Clone, Copy)]
struct Place {
    number: usize,
    stop: Stop,
}

impl Place {
    // The stop of this number.
    fn of(path: PathBytes, number: u16) -> Place
        ensures { (result.number ≡ number) × (result.stop ≡ stop_in path.entry.version result.number path.entry.bytes.now) }
    {
        let number = usize::from(number);
        Place {
            number,
            stop: path.stop(number),
        }
    }
}

// The time from one stop of n judged ones to another.
fn time_judged(n: usize, from: Place, to: Place) -> u32
    requires { StopOf n from.number from.stop × StopOf n to.number to.stop }
    ensures { result ≡ time_of from.number from.stop to.number to.stop }
{
    if from.number == to.number || n <= from.number || n <= to.number {
        0
    } else {
        let way = Move {
            from: from.stop,
            to: to.stop,
        };
        way.time()
    }
}

// The sum of the moves between the numbers of an order, by the stops of a path of n judged ones.
fn sum_moves(path: PathBytes, n: usize, order: &[u16]) -> u64
    requires { ((i : ℕ) → StopOf n i (stop_in path.version i path.bytes.now)) × (length order.now ≤ 1024) }
    ensures { result ≡ total (time_in path.entry.version path.entry.bytes.now) order.now }
{
    let Some((&first, rest)) = order.split_first() else {
        return 0;
    };
    let mut from = Place::of(path, first);
    let mut sum = 0;
    for &number in rest {
        let to = Place::of(path, number);
        sum += u64::from(time_judged(n, from, to));
        from = to;
    }
    sum
}
