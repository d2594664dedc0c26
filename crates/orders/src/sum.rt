// The sum of an order's moves by a table.
ghost use Rattle.std.specs.Prelude.{◌≡◌, ◌≤◌, ◌<◌, ◌^◌, take};
ghost use Rattle.base.specs.Size.{stop_count};
ghost use Rattle.tree.specs.Total.{entry, total};

use base::stop_count;

// The table's entry from stop a to stop b, or 0 where the table ends before it.
fn entry_at(n: usize, table: &[u32], a: u16, b: u16) -> u64
    requires { n ≤ 1024 }
    ensures { (result ≡ entry n table.now a b) × (result < 2 ^ 32) }
{
    let at = (a as usize) * n + (b as usize);
    table.get(at).copied().unwrap_or(0) as u64
}

// The sum of the moves between the first n numbers, or all where there are fewer. An entry that the table does not have counts as 0. A
// building block for callers that judge k, the order and the table themselves: k above 10, which has no stops, gives 0.
pub fn sum_moves(k: u16, order: &[u16], table: &[u32]) -> u64
    ensures { result ≡ total (entry (stop_count k) table.now) (take (stop_count k) order.now) }
{
    let n = stop_count(k);
    let count = n.min(order.len());
    let mut sum: u64 = 0;
    // By places, as the order is judged.
    for p in 0..count.saturating_sub(1) {
        sum += entry_at(n, table, order[p], order[p + 1]);
    }
    sum
}
