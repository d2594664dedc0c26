// One call, and its line.

use crate::lent::{Lengths, Lent};
use crate::table::Rule;
use filled::ListPlanned;
use std::io;
use test_support::write::{self, Bytes};
use test_support::{part, table};

// A byte for each of the most stops and one more: 1 for each of the first n stops that is in the set, 0 for each other, 9 for what comes after.
fn empties_of(n: usize, empty: u64) -> [u8; 65] {
    let mut empties = [9u8; 65];
    let mut rest = empty;
    for byte in part::first_mut(&mut empties, n) {
        *byte = (rest % 2) as u8;
        rest /= 2;
    }
    empties
}

// A call for k by a table of n rows by a rule, a set of empty stops among the first n, and changes of its bytes.
#[derive(Clone, Copy)]
pub struct Asked {
    pub k: u16,
    pub rule: u32,
    pub n: usize,
    pub empty: u64,
    pub changes: u64,
}

impl Asked {
    // Plans with so much lent, and writes the line.
    pub fn example<R: Print>(self, rt: &R, lengths: Lengths) -> io::Result<()> {
        let Asked { k, rule, n, .. } = self;
        let mut table = [0u32; 4097];
        let table = table::make_in(&mut table, n, lengths.table, Rule(rule));
        let mut empties = empties_of(n, self.empty);
        part::change(&mut empties, self.changes);
        let empties = part::first(&empties, lengths.empties);
        let mut lent = Lent::new(lengths);
        print!(rt; "k {k}, rule {rule}, lent {}", lengths.table)?;
        print!(rt; " {} {} {}", lengths.list, lengths.bits, lengths.work)?;
        print!(rt; ", bytes{}", Bytes(empties))?;
        plan(rt, k, table, empties, &mut lent)
    }
}

// Plans, and writes the answer: the total, the list's length, and what is lent.
fn plan(rt: &impl Print, k: u16, table: &[u32], empties: &[u8], lent: &mut Lent) -> io::Result<()> {
    match lent.plan(k, table, empties) {
        Ok(ListPlanned { total, length }) => {
            println!(rt; ": 0, total {total}, length {length}{lent}")
        }
        Err(refusal) => write::refusal(rt, refusal, lent.untouched()),
    }
}

// Plans for k, up to 6, with more than enough lent.
pub fn planned<R: Print>(rt: &R, k: u16, rule: u32, empty: u64) -> io::Result<()> {
    let n = 1usize << k.min(6);
    let asked = Asked {
        k,
        rule,
        n,
        empty,
        changes: 0,
    };
    asked.example(rt, Lengths::enough(n))
}
