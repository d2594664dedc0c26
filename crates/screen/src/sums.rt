// Sums by the sides of forks: a fork's sum is those of its two sides and the move between them. Lent sums are the order's exactly if place 0
// holds 0 and that is so of every fork, in whatever sequence the forks are looked at.
ghost use Rattle.std.specs.Prelude.{◌≡◌, ◌+◌, ◌≤◌, ◌<◌, ◌^◌, eqb, length, get_or, take};
ghost use Rattle.orders.specs.Lent.{order_in, JudgedOrder};
ghost use Rattle.orders.specs.Same.{alike};
ghost use Rattle.group_sums.specs.Travel.{sums_of};
ghost use Rattle.group_sums.specs.Between.{move_into, side_sum, sum_by};
ghost use Rattle.screen.specs.Times.{times_of};

use crate::forks::fork_between;
use base::stop_count;
use path::PathBytes;
use times::time_in;

// A path, and a judged order of its stops.
#[derive(Clone, Copy)]
pub struct Ordered<'a> {
    pub path: PathBytes<'a>,
    pub order: &'a [u16],
    ghost judged: { JudgedOrder path.k order.now },
}

// The sum of a side among those of n stops: a stop has none. n stands beside the sums, whose buffer may be longer: to cut it at each call says no
// more.
fn side_sum(n: usize, sums: &[u64], w: usize) -> u64
    requires { n ≤ length sums.now }
    ensures { result ≡ side_sum n sums.now w }
{
    if w < n {
        return sums[w];
    }
    0
}

// Fork v's sum by those of its sides and the time of the move between them.
pub fn sum_by(n: usize, sums: &[u64], v: usize, time: u64) -> u64
    requires { (n ≤ length sums.now) × (v < 1024) × (sum_by n sums.now v time < 2 ^ 64) }
    ensures { result ≡ sum_by n sums.now v time }
{
    side_sum(n, sums, 2 * v) + side_sum(n, sums, 2 * v + 1) + time
}

// Whether fork v's sum is those of its sides and the time of the move between them.
fn adds_up(n: usize, sums: &[u64], v: usize, time: u64) -> bool
    requires { (n ≤ length sums.now) × (v < 1024) × (v < n) }
    ensures { result ≡ eqb (get_or sums.now v 0) (sum_by n sums.now v time) }
{
    let first = side_sum(n, sums, 2 * v);
    let second = side_sum(n, sums, 2 * v + 1);
    let left = sums[v].checked_sub(first);
    left.and_then(|left| left.checked_sub(second)) == Some(time)
}

impl Ordered<'_> {
    // The time of the move into place p.
    pub fn move_into(self, p: usize) -> u64
        requires { (0 < p) × (p < length self.order.now) }
        ensures { result ≡ move_into (times_of self.entry.path) self.entry.order.now p }
    {
        time_in(
            self.path,
            self.order[p - 1] as usize,
            self.order[p] as usize,
        ) as u64
    }

    // Whether the first n sums are the order's.
    pub fn sums_agree(self, sums: &[u64]) -> bool
        requires { 2 ^ self.path.k ≤ length sums.now }
        ensures { result ≡ alike (take (2 ^ self.entry.path.k) sums.now) (sums_of (times_of self.entry.path) self.entry.path.k (order_in self.entry.path.k self.entry.order.now)) }
    {
        let n = stop_count(self.path.k);
        if sums[0] != 0 {
            return false;
        }
        // By places: zipped with the stops, `exchange_fork` took 5 % longer.
        for p in 1..n {
            let v = fork_between(self.path.k, p, self.order[p]);
            if !adds_up(n, sums, v, self.move_into(p)) {
                return false;
            }
        }
        true
    }
}
