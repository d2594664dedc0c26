// What is told of a fork, in words.

use base::Refusal;
use fork_cost::ForkCost;
use std::io;

// The fork's state in the returned order, the least total of the other way, and how much more that is.
fn write_other_way(rt: &impl Print, exchanged: bool, total: u64, more: u64) -> io::Result<()> {
    let not = if exchanged { "" } else { "not " };
    print!(rt; ": {not}exchanged; the other way takes {total} ms at least, {more} more")
}

// What is told of a fork, or the refusal's number.
pub fn write_cost(rt: &impl Print, cost: Result<ForkCost, Refusal>) -> io::Result<()> {
    match cost {
        Ok(
            ForkCost::Dearer {
                exchanged,
                total,
                more,
            },
        ) => {
            write_other_way(rt, exchanged, total, more)?;
            print!(rt; ": dearer")
        }
        Ok(
            ForkCost::Tie {
                exchanged,
                total,
                place,
            },
        ) => {
            write_other_way(rt, exchanged, total, 0)?;
            print!(rt; "; a tie, lost at place {place}")
        }
        Err(refusal) => print!(rt; ": refused, {}", refusal.number()),
    }
}
