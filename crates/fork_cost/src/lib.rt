// What a fork costs the other way: the fork's state in the returned order, the least total of the orders that have it the other way, and why the order is
// not one of those.
//
// `fork_cost` is the one public function and has no `requires`; `specs/Cost.antt` says what it tells. No table is made: both orders are planned by the times
// between the stops in the path's bytes.

#![tactic(auto, using(orders::proofs::Size::sizes, crate::proofs::Compared::costs), unfolding(crate::specs::Cost::told))]

mod plans;

ghost use Rattle.fork_cost.specs.Cost.{GivesCost};

use base::{Refusal, stop_count};
use screen::judge_path;

// What is told of a fork: whether the returned order has it exchanged, and the least total of the orders that have it the other way. That is so much more than the
// returned one; or it is the same, and `place` is the last place at which the two orders part. `exchanged` is a `bool` as in `planner::plan_held`: a state and
// no flag beside the others.
#[derive(Clone, Copy, Debug, PartialEq, Eq)]
pub enum ForkCost {
    Dearer {
        exchanged: bool,
        total: u64,
        more: u64,
    },
    Tie {
        exchanged: bool,
        total: u64,
        place: u16,
    },
}

// What a fork of a path costs the other way, for a caller that knows versions up to `highest`. `totals`, `pivots` and `orders` are work space of 2n numbers each, which
// are 0 afterwards. Refused are a faulty path and a fork that is not 1 to n - 1 (14).
pub fn fork_cost(
    bytes: &[u8],
    highest: u16,
    fork: u16,
    totals: &mut [u64],
    pivots: &mut [u16],
    orders: &mut [u16],
) -> Result<ForkCost, Refusal>
    ensures { GivesCost bytes highest fork totals pivots orders result }
{
    let least = totals.len().min(pivots.len()).min(orders.len());
    let path = judge_path(bytes, highest, least / 2)?;
    let n = stop_count(path.k);
    if fork == 0 || n <= fork as usize {
        return Err(Refusal::NoSuchFork);
    }
    Ok(plans::compare(path, fork, totals, pivots, &mut orders[..n + n]))
}
