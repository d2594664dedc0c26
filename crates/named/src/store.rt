// Orders and sums copied to the place of a name and back.
ghost use Rattle.std.specs.Prelude.{◌≡◌, ◌++◌, ◌+◌, ◌*◌, ◌-◌, ◌≤◌, ◌^◌, length, drop, set, replicate};
ghost use Rattle.std.proofs.Math.Seq.{paste};
ghost use Rattle.base.specs.Size.{max_k};
ghost use Rattle.named.specs.Names.{names, used, start_of};

use crate::judge::{Kept, USED};
use base::stop_count;

// Copies a slice over another of the same length. A loop, since `copy_from_slice` is a call of memmove, which the archive for C is to need of nobody.
fn copy_over<T: Copy>(to: &mut [T], from: &[T])
    requires { length to.old ≡ length from.now }
    ensures { to.new ≡ from.now }
{
    for (i, place) in to.iter_mut().enumerate() {
        *place = from[i];
    }
}

// Keeps n stops and n sums under a name, and marks it. The one function that writes what is kept: a struct of the three `&mut` would serve no other.
pub fn keep_under(
    k: u16,
    name: usize,
    order: &[u16],
    sums: &[u64],
    marks: &mut [u8],
    stops: &mut [u16],
    kept: &mut [u64],
)
    requires { (k ≤ max_k) × (1 ≤ name) × (name ≤ names) × (2 ^ k ≤ length order.now) × (2 ^ k ≤ length sums.now)
        × (names ≤ length marks.old) × (names * 2 ^ k ≤ length stops.old) × (names * 2 ^ k ≤ length kept.old) }
    ensures { (marks.new ≡ set marks.old (name - 1) used)
        × (stops.new ≡ paste stops.old (start_of k name) order.now (2 ^ k))
        × (kept.new ≡ paste kept.old (start_of k name) sums.now (2 ^ k)) }
{
    let n = stop_count(k);
    let at = (name - 1) * n;
    marks[name - 1] = USED;
    copy_over(&mut stops[at..at + n], &order[..n]);
    copy_over(&mut kept[at..at + n], &sums[..n]);
}

// Brings the n stops and n sums of a name back to the screen.
pub fn bring_back(k: u16, name: usize, order: &mut [u16], sums: &mut [u64], kept: Kept<'_>)
    requires { (k ≤ max_k) × (1 ≤ name) × (name ≤ names) × (2 ^ k ≤ length order.old) × (2 ^ k ≤ length sums.old)
        × (names * 2 ^ k ≤ length kept.stops.now) × (names * 2 ^ k ≤ length kept.sums.now) }
    ensures { (order.new ≡ paste order.old 0 (drop (start_of k name) kept.entry.stops.now) (2 ^ k))
        × (sums.new ≡ paste sums.old 0 (drop (start_of k name) kept.entry.sums.now) (2 ^ k)) }
{
    let n = stop_count(k);
    let from = (name - 1) * n;
    copy_over(&mut order[..n], &kept.stops[from..from + n]);
    copy_over(&mut sums[..n], &kept.sums[from..from + n]);
}
