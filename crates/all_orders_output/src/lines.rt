// The lines of all orders by a table of times, one after the other. The methods have what they need as the table's invariants, or a `requires`: the module is private.

ghost use Rattle.std.specs.Prelude.{◌≡◌, ℕ, ◌*◌, ◌^◌, ◌≤◌, ◌<◌, length, get_or};
ghost use Rattle.all_orders_output.specs.Output.{print_max_k};

use crate::output::Output;
use base::stop_count;
use orders::{order_of_bits, sum_moves};

// The travel times of a path of up to 8 stops: row 'from' and column 'to'.
#[derive(Clone, Copy)]
pub struct SmallTable<'a> {
    pub k: u16,
    pub times: &'a [u32],
    ghost small: { k ≤ print_max_k },
    ghost square: { length times.now ≡ 2 ^ k * 2 ^ k },
    // The table's numbers have 32 bits.
    ghost short: { (a : ℕ) → get_or times.now a 0 < 2 ^ 32 },
}

// The set of forks on line j, counted from 0, as one byte: bit v is fork v, and bit 0 is no fork.
fn forks_on(j: usize) -> u8
    requires { j < 128 }
    ensures { result ≡ 2 * j }
{
    (2 * j) as u8
}

impl SmallTable<'_> {
    ghost use Rattle.std.specs.Prelude.{◌≡◌, true, ◌++◌, ◌+◌, ◌^◌, ◌≤◌, length};
    ghost use Rattle.orders.specs.Allowed.{set_count};
    ghost use Rattle.orders.specs.Bits.{only_forks};
    ghost use Rattle.all_orders_output.specs.Output.{longest_text};
    ghost use Rattle.all_orders_output.specs.Text.{order_line, lines_of};
    ghost use Rattle.all_orders_output.specs.Local.{text_of, times_in, longest_line};

    // Puts the line of the order that a set of forks gives.
    fn put_order(&self, out: &mut Output, forks: u8)
        requires forks { only_forks self.now.k forks ≡ true }
        requires room { length (text_of out.old) + longest_line ≤ longest_text }
        ensures { text_of out.new ≡ text_of out.old ++ order_line self.now.k (times_in self.now) forks }
    {
        let mut order = [0u16; 8];
        // The set has forks alone: it is not refused.
        let _ = order_of_bits(self.k, &[forks], &mut order);
        let total = sum_moves(self.k, &order, self.times);
        out.put_line(total, &order[..stop_count(self.k)]);
    }

    // The lines of all sets of forks, by increasing number: 2^(n - 1) lines.
    pub fn lines(&self) -> Output
        ensures { text_of result ≡ lines_of self.now.k (times_in self.now) (set_count self.now.k) }
    {
        let count = 1usize << (stop_count(self.k) - 1);
        let mut out = Output::new();
        // j is the number of a line, and no index.
        for j in 0..count {
            self.put_order(&mut out, forks_on(j));
        }
        out
    }
}
