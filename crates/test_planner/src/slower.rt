// A slower gripper, and raised entries. A line has a call, k, the tables' rules and those of the tables after the change, then both totals beside
// each other, and both orders. A heading says what rules from 100 on add, as `table` has it.

use crate::call::{Asked, Call};
use crate::lent::{Lengths, Lent};
use std::io;
use test_support::part;
use test_support::write::Numbers;

// A call, and the rule of its table.
type Ruled = (Call, u32);

// The same amount more: k, and a call by the tables before and after it. In plans off the diagonal, and another diagonal: the same order, at n - 1 times
// the amount more. In tours n times the amount more, and for n = 1 nothing. Of places that cost extra the first table slower, the second more by the
// same everywhere, and both.
const SLOWER: [(u16, Ruled, Ruled); 13] = [
    (0, (Call::Plan, 0), (Call::Plan, 100)),
    (1, (Call::Plan, 4), (Call::Plan, 104)),
    (2, (Call::Plan, 7), (Call::Plan, 107)),
    (2, (Call::Plan, 2), (Call::Plan, 102)),
    (3, (Call::Plan, 3), (Call::Plan, 103)),
    (0, (Call::Tour, 2), (Call::Tour, 102)),
    (1, (Call::Tour, 4), (Call::Tour, 104)),
    (2, (Call::Tour, 7), (Call::Tour, 107)),
    (3, (Call::Tour, 3), (Call::Tour, 103)),
    (2, (Call::Places(10), 7), (Call::Places(10), 107)),
    (2, (Call::Places(10), 7), (Call::Places(210), 7)),
    (2, (Call::Places(10), 7), (Call::Places(210), 107)),
    (0, (Call::Places(2), 0), (Call::Places(202), 100)),
];

// Some entries raised: no total is smaller, but the order may be another.
const RAISED: [(u16, Ruled, Ruled); 5] = [
    (2, (Call::Plan, 7), (Call::Plan, 307)),
    (2, (Call::Tour, 4), (Call::Tour, 304)),
    (2, (Call::Places(10), 7), (Call::Places(10), 307)),
    (2, (Call::Places(11), 7), (Call::Places(311), 7)),
    (2, (Call::Plan, 9), (Call::Plan, 10)),
];

// A call for k.
fn asked(k: u16, ruled: Ruled) -> Asked {
    let (call, rule) = ruled;
    Asked { call, k, rule }
}

// The total that a call answers, in these buffers; nothing is refused here.
fn total(asked: Asked, lent: &mut Lent) -> u64 {
    let found = asked.by_rules(Lengths::enough(asked.k), lent);
    found.map_or(0, |found| found.total)
}

// The rules of the tables, of which only `Places` has two.
fn write_rules(rt: &impl Print, asked: Asked) -> io::Result<()> {
    match asked.call {
        Call::Places(extra) => print!(rt; " {} {extra}", asked.rule),
        _ => print!(rt; " {}", asked.rule),
    }
}

// One call, then the same by other tables, and the line.
fn line<R: Print>(rt: &R, asked: Asked, then: Asked) -> io::Result<()> {
    let Asked { call, k, .. } = asked;
    let lengths = Lengths::enough(k);
    let mut lent = Lent::new(lengths);
    let mut lent_then = Lent::new(lengths);
    let total_first = total(asked, &mut lent);
    let total_then = total(then, &mut lent_then);
    print!(rt; " {call} k {k}, rules")?;
    write_rules(rt, asked)?;
    print!(rt; " then")?;
    write_rules(rt, then)?;
    print!(rt; ": total {total_first} then {total_then}")?;
    let order = part::first(lent.order(), lengths.rows);
    let order_then = part::first(lent_then.order(), lengths.rows);
    println!(rt; ", order{} then{}", Numbers(order), Numbers(order_then))
}

// The lines whose first word this is.
fn lines<R: Print>(rt: &R, word: &str, cases: &[(u16, Ruled, Ruled)]) -> io::Result<()> {
    for (k, ruled, later) in cases {
        print!(rt; "{word}")?;
        line(rt, asked(*k, *ruled), asked(*k, *later))?;
    }
    Ok(())
}

// The heading, and all calls.
pub fn run<R: Print>(rt: &R) -> io::Result<()> {
    print!(rt; "With 100 a rule has 7 more off the diagonal, with 200 7 more everywhere, ")?;
    println!(rt; "with 300 5 more where the column is not larger than the row.")?;
    lines(rt, "slower", &SLOWER)?;
    lines(rt, "raised", &RAISED)
}
