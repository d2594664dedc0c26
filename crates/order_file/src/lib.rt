// Order files: an order is written with its total and its fork bits, and a file is read and judged whole before anything is stored.
//
// No public function has a `requires`. A refusal touches no lent buffer; after success an output holds the result first and is
// untouched beyond.

#![tactic(auto, using(orders::proofs::Size::sizes, crate::proofs::Sizes::lengths), unfolding(crate::specs::Read::read_file, crate::specs::Read::read_unsummed, crate::specs::Write::write_file, crate::specs::Reading::judge_file, crate::specs::Reading::unsummed, crate::specs::Reading::judge_string))]

mod check;
mod place;
mod put;

ghost use Rattle.order_file.specs.Write.{WritesFile};
ghost use Rattle.order_file.specs.Read.{ReadsUnsummed, ReadsFile};

use base::{MAX_K, Refusal, stop_count};
use check::FileBytes;
pub use place::file_size;

// Writes the file of an order, and answers its bytes. The total and the fork bits are computed. Refused are k above 10 (5), an order or a buffer too short or a
// table of another length (8), a stop number n or more (9) and an order that is not allowed (10).
pub fn write_order_file(
    k: u16,
    order: &[u16],
    table: &[u32],
    out: &mut [u8],
) -> Result<u64, Refusal>
    ensures { WritesFile k order table out result }
{
    let mut bits = [0u8; 128];
    put::judge_write(k, order, table, out.len(), &mut bits)?;
    put::put_file(k, order, orders::sum_moves(k, order, table), &bits, out);
    Ok(file_size(k) as u64)
}

// Reads a file where no table is at hand: everything is judged but the total, which is answered as the file says it. Refused are k above
// 10 (5), a buffer too short (8), then whatever is wrong in the records, 7, 9, 10 and 12.
pub fn read_unsummed(k: u16, file: &[u8], order: &mut [u16]) -> Result<u64, Refusal>
    ensures { ReadsUnsummed k file order result }
{
    if MAX_K < k {
        return Err(Refusal::WrongK);
    }
    if order.len() < stop_count(k) {
        return Err(Refusal::WrongSize);
    }
    let file = FileBytes { k, bytes: file };
    let mut stops = [0u16; 1024];
    file.judge_unsummed(&mut stops)?;
    file.store_stops(order);
    Ok(file.total())
}

// Reads the file of an order for a path's k and table: as `read_unsummed`, with a table of another length and bits too short among 8, and
// last the total (11).
pub fn read_order_file(
    k: u16,
    table: &[u32],
    file: &[u8],
    order: &mut [u16],
    bits: &mut [u8],
) -> Result<u64, Refusal>
    ensures { ReadsFile k table file order bits result }
{
    check::judge_call(k, table, file, order.len(), bits.len())?;
    let file = FileBytes { k, bytes: file };
    file.store_stops(order);
    file.store_string(bits);
    Ok(file.total())
}
