// An order with the states of a set of forks inverted: its own fork string, the given string's bits inverted in it, and the order of
// that.
ghost use Rattle.std.specs.Prelude.{◌≡◌, ◌&&◌, ◌≤◌, ◌^◌, leb, length};
ghost use Rattle.base.specs.Outcome.{done, said, over};
ghost use Rattle.base.specs.Size.{stop_count};
ghost use Rattle.orders.specs.Bits.{byte_count};
ghost use Rattle.orders.specs.Lent.{JudgedOrder, order_in, forks_in};
ghost use Rattle.orders.specs.Exchange.{exchange, exchange_lent, inverted};

use crate::byte_count;
use crate::forks::{ForkString, write_bits};
use crate::judge::judge_lent;
use base::{Refusal, stop_count};

// Whether a string of so many bytes and an output of so many places are long enough.
fn long_enough(k: u16, bytes: usize, places: usize) -> bool
    ensures { result ≡ (leb (byte_count (stop_count k)) bytes && leb (stop_count k) places) }
{
    byte_count(k) <= bytes && stop_count(k) <= places
}

// Judges whether a string's forks can be exchanged in an order and written to `room` places. k and the order are the call's own parameters: they
// are a `LentOrder` where they are judged.
pub fn judge_exchange(k: u16, order: &[u16], bits: &[u8], room: usize) -> Result<(), Refusal>
    ensures { said result ≡ done (exchange_lent k order.now bits.now room) }
{
    judge_lent(k, order, long_enough(k, bits.len(), room))?;
    if !(ForkString { k, bytes: bits }).only_forks() {
        return Err(Refusal::WrongForks);
    }
    Ok(())
}

// Inverts the bits that the other string has.
fn invert(bits: &mut [u8], other: &[u8])
    requires { length bits.old ≤ length other.now }
    ensures { bits.new ≡ inverted (length bits.old) bits.old other.now }
{
    for (i, byte) in bits.iter_mut().enumerate() {
        *byte ^= other[i];
    }
}

// Writes an allowed order with the forks of a string exchanged.
pub fn write_exchanged(k: u16, order: &[u16], bits: &[u8], out: &mut [u16])
    requires { JudgedOrder k order.now × (byte_count (2 ^ k) ≤ length bits.now) × (2 ^ k ≤ length out.old) }
    ensures { out.new ≡ over (exchange k (order_in k order.now) (forks_in k bits.now)) out.old }
{
    let mut states = [0u8; 128];
    write_bits(k, order, &mut states);
    invert(&mut states[..byte_count(k)], bits);
    ForkString { k, bytes: &states }.write_order(out);
}
