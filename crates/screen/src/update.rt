// One fork exchanged in an order and in its sums. The blocks of the fork's two sides change places; then the fork's sum and that of each fork
// above it are made anew, from their sides and one move each. No other sum is touched.
ghost use Rattle.std.specs.Prelude.{◌≡◌, ◌*◌, ◌≤◌, ◌<◌, ◌^◌, ◌++◌, length, take, drop};
ghost use Rattle.base.specs.Outcome.{over};
ghost use Rattle.orders.specs.Lent.{order_in, JudgedOrder};
ghost use Rattle.groups.specs.Exchange.{exchange_fork};
ghost use Rattle.group_sums.specs.Travel.{sums_of};
ghost use Rattle.group_sums.specs.Between.{between};
ghost use Rattle.screen.specs.Times.{times_of};
ghost use Rattle.screen.specs.Local.{place_above, Updated};

use crate::forks::place_between;
use crate::sums::{Ordered, sum_by};
use base::stop_count;
use path::PathBytes;
use tree::reach;

// Swaps the halves, of `half` places each, of a block.
fn swap_halves(half: usize, block: &mut [u16])
    requires { length block.old ≡ 2 * half }
    ensures { block.new ≡ drop half block.old ++ take half block.old }
{
    let (first, second) = block.split_at_mut(half);
    first.swap_with_slice(second);
}

// The place between the sides of the fork above the one between whose sides is place p.
fn place_above(p: usize) -> usize
    requires { (0 < p) × (p < 1024) }
    ensures { result ≡ place_above p }
{
    let r = reach(p);
    p / (4 * r) * (4 * r) + 2 * r
}

impl Ordered<'_> {
    // Makes the sums of fork v, between whose sides is place p, and of the forks above it anew.
    fn update_sums(self, v: usize, p: usize, sums: &mut [u64])
        requires { (1 ≤ v) × (v < 2 ^ self.path.k) × (p ≡ between self.path.k (order_in self.path.k self.order.now) v)
            × Updated (times_of self.path) self.path.k (order_in self.path.k self.order.now) sums.old v sums.old }
        ensures { sums.new ≡ over (sums_of (times_of self.entry.path) self.entry.path.k (order_in self.entry.path.k self.entry.order.now)) sums.old }
    {
        let n = stop_count(self.path.k);
        let mut u = v;
        let mut at = p;
        // The fork is halved in each step, which no range has.
        while 0 < u {
            let sum = sum_by(n, sums, u, self.move_into(at));
            sums[u] = sum;
            at = place_above(at);
            u = u / 2;
        }
    }
}

// Exchanges fork v in an allowed order and in its sums.
pub fn exchange(path: PathBytes<'_>, v: usize, order: &mut [u16], sums: &mut [u64])
    requires { JudgedOrder path.k order.old × (1 ≤ v) × (v < 2 ^ path.k) × (2 ^ path.k ≤ length sums.old)
        × (take (2 ^ path.k) sums.old ≡ sums_of (times_of path) path.k (order_in path.k order.old)) }
    ensures { (order.new ≡ over (exchange_fork path.entry.k (order_in path.entry.k order.old) v) order.old)
        × (sums.new ≡ over (sums_of (times_of path.entry) path.entry.k (exchange_fork path.entry.k (order_in path.entry.k order.old) v)) sums.old) }
{
    let p = place_between(path.k, v, order);
    let half = reach(p);
    swap_halves(half, &mut order[p - half..p + half]);
    Ordered { path, order }.update_sums(v, p, sums);
}
