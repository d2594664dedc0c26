// The set-up screen's records: an order, and beside it the travel within the group of every fork. One call makes the sums, another exchanges a
// fork in the order and in its sums.
//
// No public function has a `requires`. A refusal gives its number and touches no lent buffer; after success each output holds its result
// first and is untouched beyond. There is no work space: the times come straight from the path's bytes.

#![tactic(auto, using(orders::proofs::Size::sizes, orders::proofs::Shift::reaches), unfolding(crate::specs::Records::with_sums, crate::specs::Records::judge_records, crate::specs::Records::lent_records, crate::specs::Records::fork_exchanged, crate::specs::Screen::places_room, crate::specs::Local::place_above, group_sums::specs::Between::side_sum))]

mod forks;
mod judge;
mod make;
mod sums;
mod update;

ghost use Rattle.std.specs.Prelude.{◌≡◌};
ghost use Rattle.base.specs.Outcome.{done, said};
ghost use Rattle.screen.specs.Records.{lent_records};
ghost use Rattle.screen.specs.Screen.{MakesSums, ExchangesFork};
ghost use Rattle.screen.specs.Times.{times_of};

use base::{Refusal, stop_count};
use judge::judge_exchange;
pub use judge::judge_path;
use orders::judge_lent;
use path::PathBytes;
use sums::Ordered;

// The refusal of an order with its sums by the stops of path bytes: k above 10 (5), one of the two too short (8), a stop number n or more (9), an
// order that is not allowed (10), a sum that is not the order's (11). A building block for callers that judge the path themselves.
pub fn judge_records(path: PathBytes<'_>, order: &[u16], sums: &[u64]) -> Result<(), Refusal>
    ensures { said result ≡ done (lent_records (times_of path.entry) path.entry.k order.now sums.now) }
{
    judge_lent(path.k, order, stop_count(path.k) <= sums.len())?;
    if !(Ordered { path, order }).sums_agree(sums) {
        return Err(Refusal::WrongTotal);
    }
    Ok(())
}

// Makes the sums of an order by the stops of a path, for a caller that knows versions up to `highest`: that of fork v in place v, and 0 in place
// 0. `order` and `sums` need n places each. Refused are a faulty path, a stop number n or more (9) and an order that is not allowed (10).
pub fn group_sums(
    bytes: &[u8],
    highest: u16,
    order: &[u16],
    sums: &mut [u64],
) -> Result<(), Refusal>
    ensures { MakesSums bytes highest order sums result }
{
    let path = judge_path(bytes, highest, order.len().min(sums.len()))?;
    judge_lent(path.k, order, true)?;
    Ordered { path, order }.make_sums(sums);
    Ok(())
}

// Exchanges one fork of an order and updates its sums, by the stops of a path. The records are validated first. Refused are a faulty path, a
// stop number n or more (9), an order that is not allowed (10), a sum that is not the order's (11) and a fork that is not 1 to n - 1 (14).
pub fn exchange_fork(
    bytes: &[u8],
    highest: u16,
    fork: u16,
    order: &mut [u16],
    sums: &mut [u64],
) -> Result<(), Refusal>
    ensures { ExchangesFork bytes highest fork order sums result }
{
    let path = judge_path(bytes, highest, order.len().min(sums.len()))?;
    judge_exchange(path, fork, order, sums)?;
    update::exchange(path, fork as usize, order, sums);
    Ok(())
}
