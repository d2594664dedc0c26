// Whether a pass is asked for rightly: the tests of a call, each of which tells exactly what it says.

ghost use Rattle.std.specs.Prelude.{◌≡◌, true, ◌≤◌, ◌<◌, length};
ghost use Rattle.tree.specs.Neighbour.{may_follow};
ghost use Rattle.rows.specs.Pass.{AlignedBlock, PassReady, Tells};

use crate::row;

// Whether the 2^m numbers from `start` on are an aligned block of those below n.
fn aligned(n: usize, start: usize, m: u32) -> bool
    requires { m ≤ 10 }
    ensures { Tells result (AlignedBlock n start m) }
{
    let size = row::two_to(m);
    if n < size {
        return false;
    }
    if n - size < start {
        return false;
    }
    start % size == 0
}

// Whether the stop `base` may stand in the place `left` after the stop `before`; place 0 has none before it.
fn follows(left: usize, before: usize, base: usize) -> bool
    requires { left < 1024 }
    ensures { Tells result (0 < left → may_follow left before base ≡ true) }
{
    if left == 0 {
        return true;
    }
    let r = tree::reach(left);
    let x = before ^ base;
    if x < r {
        return false;
    }
    x < 2 * r
}

// Whether a pass for n stops with work space of these lengths is asked for rightly.
pub fn ready(
    n: usize,
    totals: usize,
    pivots: usize,
    before: usize,
    left: usize,
    base: usize,
    m: u32,
) -> bool
    requires { n ≤ 1024 }
    ensures { Tells result (PassReady n totals pivots before left base m) }
{
    if totals < n + n {
        return false;
    }
    if pivots < n + n {
        return false;
    }
    if m == 0 {
        return false;
    }
    if 10 < m {
        return false;
    }
    if n <= before {
        return false;
    }
    if !aligned(n, left, m) {
        return false;
    }
    if !aligned(n, base, m) {
        return false;
    }
    follows(left, before, base)
}
