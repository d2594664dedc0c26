// Forks and places. Each place but the first is between the two sides of exactly one fork, the lowest above it and the place before.
ghost use Rattle.std.specs.Prelude.{◌≡◌, ◌≤◌, ◌<◌, ◌^◌};
ghost use Rattle.base.specs.Size.{max_k};
ghost use Rattle.tree.specs.Neighbour.{lowest_fork};
ghost use Rattle.orders.specs.Lent.{order_in, JudgedOrder};
ghost use Rattle.group_sums.specs.Between.{between};

use base::stop_count;

// The lowest fork above places p - 1 and p, from the stop in p.
pub fn fork_between(k: u16, p: usize, stop: u16) -> usize
    requires { (k ≤ max_k) × (0 < p) × (p < 2 ^ k) × (stop < 2 ^ k) }
    ensures { result ≡ lowest_fork k p stop }
{
    let n = stop_count(k);
    let r = tree::reach(p);
    (n + (stop as usize)) / (2 * r)
}

// The place between the sides of fork v in an allowed order.
pub fn place_between(k: u16, v: usize, order: &[u16]) -> usize
    requires { JudgedOrder k order.now × (1 ≤ v) × (v < 2 ^ k) }
    ensures { result ≡ between k (order_in k order.now) v }
{
    let n = stop_count(k);
    // By places, as an order is judged.
    for p in 1..n {
        if fork_between(k, p, order[p]) == v {
            return p;
        }
    }
    n
}
