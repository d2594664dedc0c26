// Fork strings: bit v of byte v/8, low bit first, is fork v.
ghost use Rattle.std.specs.Prelude.{◌≡◌, ◌≤◌, ◌<◌, ◌+◌, ◌/◌, ◌%◌, ◌^◌, true, length, take};
ghost use Rattle.base.specs.Size.{max_k};
ghost use Rattle.base.specs.Outcome.{done, said, over};
ghost use Rattle.records.specs.Field.{are_bytes};
ghost use Rattle.tree.specs.Fork.{bit, side};
ghost use Rattle.tree.specs.Order.{stop_in, order_of};
ghost use Rattle.orders.specs.Allowed.{forks_of};
ghost use Rattle.orders.specs.Bits.{byte_count, bit_string, string_bit, only_forks, raised, marked};
ghost use Rattle.orders.specs.Lent.{JudgedOrder, order_in, forks_in};
ghost use Rattle.orders.specs.OrderOfBits.{order_of_bits};

use crate::byte_count;
use base::{MAX_K, Refusal, stop_count};

// A lent fork string of a tree: k, and at least ceil(n/8) bytes, of which only the first ceil(n/8) are looked at.
#[derive(Clone, Copy)]
pub struct ForkString<'a> {
    pub k: u16,
    pub bytes: &'a [u8],
    ghost small: { k ≤ max_k },
    ghost long: { byte_count (2 ^ k) ≤ length bytes.now },
    ghost octets: { are_bytes (take (byte_count (2 ^ k)) bytes.now) ≡ true },
}

impl<'a> ForkString<'a> {
    // Whether no bit outside 1 to n - 1 is set: bit 0 is not, and where n is below 8, no bit of the one byte from n on.
    pub fn only_forks(self) -> bool
        ensures { result ≡ only_forks self.entry.k (forks_in self.entry.k self.entry.bytes.now) }
    {
        let first = self.bytes[0] as usize;
        if first % 2 != 0 {
            return false;
        }
        3 <= self.k || first < (1usize << stop_count(self.k))
    }

    // Bit v.
    fn bit(self, v: usize) -> usize
        requires { v < 2 ^ self.k }
        ensures { result ≡ string_bit self.entry.bytes.now v }
    {
        ((self.bytes[v / 8] >> (v % 8)) % 2) as usize
    }

    // The side of fork v that bit d of place p leads to: the other one where the fork is exchanged.
    fn go_down(self, p: usize, d: u16, v: usize) -> usize
        requires { (v < 2 ^ self.k) × (d < 64) }
        ensures { result ≡ side v ((bit p d + string_bit self.entry.bytes.now v) % 2) }
    {
        2 * v + ((p >> d) % 2 + self.bit(v)) % 2
    }

    // The stop in place p, on the way down from the root.
    fn stop_in(self, p: usize) -> usize
        ensures { (result ≡ stop_in self.entry.k (forks_in self.entry.k self.entry.bytes.now) p) × (result < 2 ^ self.entry.k) }
    {
        let mut v = 1;
        for d in (0..self.k).rev() {
            v = self.go_down(p, d, v);
        }
        v - stop_count(self.k)
    }

    // Writes the order that the string gives, place by place.
    pub fn write_order(self, order: &mut [u16])
        requires { 2 ^ self.k ≤ length order.old }
        ensures { order.new ≡ over (order_of self.entry.k (forks_in self.entry.k self.entry.bytes.now)) order.old }
    {
        for (p, stop) in order[..stop_count(self.k)].iter_mut().enumerate() {
            *stop = self.stop_in(p) as u16;
        }
    }
}

// Judges whether a string's set of forks can be written as an order to `room` places.
pub fn judge_string(k: u16, bits: &[u8], room: usize) -> Result<(), Refusal>
    ensures { said result ≡ done (order_of_bits k bits.now room) }
{
    if MAX_K < k {
        return Err(Refusal::WrongK);
    }
    if bits.len() < byte_count(k) || room < stop_count(k) {
        return Err(Refusal::WrongSize);
    }
    if !(ForkString { k, bytes: bits }).only_forks() {
        return Err(Refusal::WrongForks);
    }
    Ok(())
}

// Sets bit v of a string.
fn raise(bits: &mut [u8], v: usize)
    requires { v / 8 < length bits.old }
    ensures { bits.new ≡ raised bits.old v }
{
    bits[v / 8] |= 1 << (v % 8);
}

// Sets the bit of the lowest fork above places p - 1 and p if bit t of the stop in p is 0, which says that it is exchanged.
#[tactic(auto, using(crate::proofs::Size::sizes, crate::proofs::Shift::reaches))]
fn mark_fork(k: u16, p: usize, stop: usize, bits: &mut [u8])
    requires { (k ≤ max_k) × (0 < p) × (p < 2 ^ k) × (stop < 2 ^ k) × (byte_count (2 ^ k) ≤ length bits.old) }
    ensures { bits.new ≡ marked k p stop bits.old }
{
    let n = stop_count(k);
    let r = tree::reach(p);
    if stop / r % 2 == 0 {
        raise(bits, (n + stop) / (2 * r));
    }
}

// Writes the fork bits of an allowed order.
pub fn write_bits(k: u16, order: &[u16], bits: &mut [u8])
    requires { JudgedOrder k order.now × (byte_count (2 ^ k) ≤ length bits.old) }
    ensures { bits.new ≡ over (bit_string k (forks_of k (order_in k order.now))) bits.old }
{
    bits[..byte_count(k)].fill(0);
    let n = stop_count(k);
    // By places, as the order is judged.
    for p in 1..n {
        mark_fork(k, p, usize::from(order[p]), bits);
    }
}
