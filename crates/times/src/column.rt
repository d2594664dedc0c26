// Four rows of the table together: the entries of one column, for which the stop that they lead to is taken once, and those on the diagonal.

ghost use Rattle.std.specs.Prelude.{◌≡◌, true, ℕ, ◌+◌, ◌*◌, ◌<◌, ◌≤◌, length};
ghost use Rattle.stop.specs.Stop.{in_range};
ghost use Rattle.times.specs.Columns.{FourInRange, set_each, in_column, on_diagonal, times_from};

use crate::travel::Move;
use stop::Stop;

// Writes the times of the moves from four stops to another, in column `to` of four rows of n.
pub fn write_column(four: [Stop; 4], stop: Stop, n: usize, to: usize, block: &mut [u32])
    requires four_in_range { FourInRange four × (in_range stop ≡ true) }
    requires to_in_bounds { (to < n) × (length block.old ≡ 4 * n) }
    ensures { block.new ≡ set_each block.old (in_column 0 n to) (times_from four stop) 4 }
{
    for (r, from) in four.iter().enumerate() {
        let way = Move {
            from: *from,
            to: stop,
        };
        block[r * n + to] = way.time();
    }
}

// Writes 0 for the time of each of the stops `from` to `from` + 3 to itself, in their rows of n.
pub fn write_diagonal(n: usize, from: usize, block: &mut [u32])
    requires { (from + 4 ≤ n) × (length block.old ≡ 4 * n) }
    ensures { block.new ≡ set_each block.old (on_diagonal 0 n from) (λ i. 0) 4 }
{
    // The number is a row and a column at once, so that it stays one.
    for r in 0..4 {
        block[r * n + from + r] = 0;
    }
}
