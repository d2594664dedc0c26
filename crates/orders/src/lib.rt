// Orders and fork bits: an order is judged, turned into fork bits and back, forks are exchanged in it, and its total is summed.
//
// No public function has a `requires`. A refusal touches no lent buffer; after success an output holds the result first and is
// untouched beyond.

#![tactic(auto, using(crate::proofs::Size::sizes), unfolding(crate::specs::Bits::only_forks, crate::specs::Bits::raised, crate::specs::Bits::marked, crate::specs::Lent::lent_order, crate::specs::Allowed::judge_order, crate::specs::OrderOfBits::order_of_bits, crate::specs::Bits::judge_forks, crate::specs::Exchange::exchange_lent, crate::specs::ForkBits::fork_bits, crate::specs::OrderTotal::order_total))]

mod exchanges;
mod forks;
mod judge;
mod sum;

ghost use Rattle.std.specs.Prelude.{◌≡◌};
ghost use Rattle.base.specs.Outcome.{said};
ghost use Rattle.base.specs.Size.{stop_count};
ghost use Rattle.orders.specs.Bits.{byte_count};
ghost use Rattle.orders.specs.Exchange.{ExchangesForks};
ghost use Rattle.orders.specs.ForkBits.{MakesBits};
ghost use Rattle.orders.specs.OrderOfBits.{MakesOrder};
ghost use Rattle.orders.specs.OrderTotal.{order_total};

use base::{Refusal, stop_count};
use forks::ForkString;
pub use judge::judge_lent;
pub use sum::sum_moves;

// ceil(n/8), the bytes of a fork string. A building block: k above 10, which has no stops, gives 0.
pub fn byte_count(k: u16) -> usize
    ensures { result ≡ byte_count (stop_count k) }
{
    (stop_count(k) + 7) / 8
}

// The fork bits of an order, ceil(n/8) bytes. Refused are k above 10 (5), an order or a buffer too short (8), a stop number n or more
// (9) and an order that is not allowed (10).
pub fn fork_bits(k: u16, order: &[u16], bits: &mut [u8]) -> Result<(), Refusal>
    ensures { MakesBits k order bits result }
{
    judge_lent(k, order, byte_count(k) <= bits.len())?;
    forks::write_bits(k, order, bits);
    Ok(())
}

// The order of fork bits, n stops. Refused are k above 10 (5), a string or a buffer too short (8) and a bit outside 1 to n - 1 (12).
pub fn order_of_bits(k: u16, bits: &[u8], order: &mut [u16]) -> Result<(), Refusal>
    ensures { MakesOrder k bits order result }
{
    forks::judge_string(k, bits, order.len())?;
    ForkString { k, bytes: bits }.write_order(order);
    Ok(())
}

// An order with the states of a set of forks inverted, n stops; bit v of the string is fork v. Refused are k above 10 (5), an order, a
// string or a buffer too short (8), a stop number n or more (9), an order that is not allowed (10) and a bit outside 1 to n - 1 (12).
pub fn exchange(k: u16, order: &[u16], bits: &[u8], out: &mut [u16]) -> Result<(), Refusal>
    ensures { ExchangesForks k order bits out result }
{
    exchanges::judge_exchange(k, order, bits, out.len())?;
    exchanges::write_exchanged(k, order, bits, out);
    Ok(())
}

// The total of an order by a table of n² entries. Refused are k above 10 (5), an order too short or a table of another length (8), a
// stop number n or more (9) and an order that is not allowed (10).
pub fn order_total(k: u16, order: &[u16], table: &[u32]) -> Result<u64, Refusal>
    ensures { said result ≡ order_total k order.now table.now }
{
    let n = stop_count(k);
    judge_lent(k, order, table.len() == n * n)?;
    Ok(sum_moves(k, order, table))
}
