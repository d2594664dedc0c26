// Tables of travel times.
ghost use Rattle.std.specs.Prelude.{◌≡◌, IfOk, length, min};
ghost use Rattle.test_support.specs.Fifty.{fifty_x, fifty_time};

use crate::part;
use std::alloc::{AllocError, Global};

// A rule that gives each entry of a table: a program's own, of which no contract is asked.
pub trait Rule: Copy {
    // The entry from stop a to stop b.
    fn entry(self, a: u32, b: u32) -> u32;
}

// The table of so many rows, at least one, by a rule, of this size. A rule is asked for stops below 1,024: a larger number is taken from 0 on again.
pub fn make(
    alloc: Global,
    rows: usize,
    size: usize,
    rule: impl Rule,
) -> Result<Vec<u32>, AllocError>
    ensures { IfOk result (λ table. length table.items ≡ size) }
{
    let mut table = vec![in alloc; 0u32; size]?;
    make_in(&mut table, rows, size, rule);
    Ok(table)
}

// The same in the first of lent places, or as long as there are places.
pub fn make_in(places: &mut [u32], rows: usize, size: usize, rule: impl Rule) -> &mut [u32]
    ensures { length result.now ≡ min size (length places.old) }
{
    let rows = rows.max(1);
    let table = part::first_mut(places, size);
    for (i, entry) in table.iter_mut().enumerate() {
        *entry = rule.entry((i / rows % 1024) as u32, (i % rows % 1024) as u32);
    }
    table
}

// The x of a stop of the example with the total 50; a stop past the last counts as the last.
fn x_of(stop: usize) -> u32
    ensures { result ≡ fifty_x stop }
{
    [0, 30, 10, 20][stop.min(3)]
}

// The entry from stop a to stop b of the example with the total 50.
pub fn fifty(a: usize, b: usize) -> u32
    ensures { result ≡ fifty_time a b }
{
    x_of(a).abs_diff(x_of(b))
}
