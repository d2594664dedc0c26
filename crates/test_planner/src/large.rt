// Tables for k = 10: one whose only best order is that of a mixed set of forks, and one of ties.

ghost use Rattle.std.specs.Prelude.{◌<◌};

use crate::call::{Asked, Call, write_found};
use crate::lent::{Lengths, Lent};
use crate::table::Rule;
use std::io;
use test_support::{part, table};

// 1 where fork v is exchanged, in the mixed set.
fn exchanged(v: usize) -> usize
    ensures { result < 2 }
{
    (v % 1024 / 3 + v % 1024 / 7 + v % 1024 / 64) % 2
}

// The fork or stop below fork v on the way to a place, whose bit at this depth is the high one of q.
fn below(v: usize, q: usize) -> usize
    ensures { result < 2048 }
{
    v % 1024 * 2 + (q % 1024 / 512 + exchanged(v)) % 2
}

// The stop in place p under that set.
fn stop_in(p: usize) -> usize
    ensures { result < 1024 }
{
    let mut v: usize = 1;
    let mut q = p % 1024;
    for _ in 0..10 {
        v = below(v, q);
        q = q % 512 * 2;
    }
    v % 1024
}

// A table of moves that take 5, but those of the planted order, which take `time`, in the first of these places.
fn planted(places: &mut [u32], time: u32) -> &mut [u32] {
    let table = table::make_in(places, 1024, 1048576, Rule(8));
    for p in 1..1024 {
        part::put(table, stop_in(p - 1) * 1024 + stop_in(p), time);
    }
    table
}

// What place p of the lent order is to hold: the planted order or 1023, .. 1, 0, and 77 past it.
fn expected(p: usize, planted: bool) -> usize {
    if 1023 < p {
        return 77;
    }
    if planted { stop_in(p) } else { 1023 - p }
}

// Plans by a table for k = 10 with a planted order: where its moves take less than 5, it alone is best, and where they take 5 all orders are.
pub fn at_ten<R: Print>(rt: &R, time: u32) -> io::Result<()> {
    let asked = Asked {
        call: Call::Plan,
        k: 10,
        rule: 8,
    };
    let lengths = Lengths {
        rows: 1024,
        table: 1048576,
        places: 0,
        order: 1025,
        totals: 2049,
        pivots: 2050,
    };
    let mut lent = Lent::new(lengths);
    let mut places = [0u32; 1048576];
    let table = planted(&mut places, time);
    print!(rt; "k 10, rule 8")?;
    write_found(rt, asked.answer(table, &[], &mut lent))?;
    let as_expected = lent
        .order()
        .iter()
        .enumerate()
        .all(|(p, stop)| usize::from(*stop) == expected(p, time < 5));
    print!(rt; ", order {}", if as_expected { "ok" } else { "wrong" })?;
    lent.work(rt)
}
