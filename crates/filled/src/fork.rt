// The fork bits of a list.

ghost use Rattle.std.specs.Prelude.{◌≡◌, ℕ, ◌+◌, ◌/◌, ◌≤◌, ◌<◌, length};
ghost use Rattle.std.specs.Int.Bits.{bit_or};
ghost use Rattle.base.specs.Outcome.{over};
ghost use Rattle.records.specs.Field.{bytes_of};
ghost use Rattle.tree.specs.Neighbour.{in_place};
ghost use Rattle.walks.specs.Places.{stops_to};
ghost use Rattle.filled.specs.Moves.{move_forks, moves_forks};

use crate::tray::Tray;

impl Tray<'_> {
    // The set with the lowest fork above the stops a and b, if the move from a to b says that it is exchanged: b is the smaller.
    fn with_move(&self, forks: u64, a: usize, b: usize) -> u64
        requires { (a < self.now.n) × (b < self.now.n) }
        ensures { result ≡ bit_or forks (move_forks self.now.k a b) }
    {
        if b < a {
            let width = 64 - (a ^ b).leading_zeros();
            return forks | (1u64 << ((self.n + b) >> width));
        }
        forks
    }

    // The forks of a list.
    fn forks_of(&self, list: &[u16]) -> u64
        requires { (p : ℕ) → p < length list.now → in_place list.now p < self.now.n }
        ensures { result ≡ moves_forks self.now.k (stops_to (in_place list.now) (length list.now)) }
    {
        let mut forks: u64 = 0;
        for stops in list.windows(2) {
            forks = self.with_move(forks, usize::from(stops[0]), usize::from(stops[1]));
        }
        forks
    }

    // Writes the fork bits of a list.
    pub fn write_bits(&self, list: &[u16], bits: &mut [u8])
        requires list { (p : ℕ) → p < length list.now → in_place list.now p < self.now.n }
        requires bits { (self.now.n + 7) / 8 ≤ length bits.old }
        ensures { bits.new ≡ over (bytes_of ((self.now.n + 7) / 8) (moves_forks self.now.k (stops_to (in_place list.now) (length list.now)))) bits.old }
    {
        let count = (self.n + 7) / 8;
        bits[..count].copy_from_slice(&self.forks_of(list).to_le_bytes()[..count]);
    }
}
