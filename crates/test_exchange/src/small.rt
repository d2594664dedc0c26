// Exchanges for k from 0 to 3.

use crate::call::Order;
use std::io;

// An exchange: its name, k, the order, the string of forks, and how many places are lent.
type Exchange = (&'static str, u16, &'static [u16], &'static [u8], usize);

// The order of eight stops.
const EIGHT: &[u16] = &[4, 5, 7, 6, 0, 1, 2, 3];

// One set, also with numbers and bytes beyond the first n and ceil(n/8). Fork 2 is above stops 0 and 1 wherever they stand.
const ONE_SET: [Exchange; 11] = [
    ("k 0, no fork", 0, &[0], &[0x00], 2),
    ("k 1, 0 1, no fork", 1, &[0, 1], &[0x00], 3),
    ("k 1, 0 1, fork 1", 1, &[0, 1], &[0x02], 3),
    ("k 1, 1 0, fork 1", 1, &[1, 0], &[0x02], 2),
    ("k 2, 2 3 1 0, forks 1 and 2", 2, &[2, 3, 1, 0], &[0x06], 5),
    ("k 2, 2 3 1 0, fork 2", 2, &[2, 3, 1, 0], &[0x04], 5),
    ("k 2, 0 1 2 3, fork 2", 2, &[0, 1, 2, 3], &[0x04], 5),
    ("k 2, 2 3 1 0, fork 3", 2, &[2, 3, 1, 0], &[0x08], 4),
    (
        "k 2, 2 3 1 0 9, fork 1, then FF",
        2,
        &[2, 3, 1, 0, 9],
        &[0x02, 0xff],
        5,
    ),
    ("k 3, fork 3", 3, EIGHT, &[0x08], 9),
    ("k 3, all forks", 3, EIGHT, &[0xfe], 9),
];

// Each refusal.
const REFUSED: [Exchange; 16] = [
    ("k 11", 11, &[0], &[0x00], 2),
    ("k 65535", 65535, &[0], &[0x00], 2),
    ("k 2, three stops", 2, &[2, 3, 1], &[0x06], 5),
    ("k 2, no bits", 2, &[2, 3, 1, 0], &[], 5),
    ("k 2, three places", 2, &[2, 3, 1, 0], &[0x06], 3),
    ("k 0, stop 1", 0, &[1], &[0x00], 2),
    ("k 1, 0 2", 1, &[0, 2], &[0x02], 3),
    ("k 2, 2 3 1 4", 2, &[2, 3, 1, 4], &[0x06], 5),
    ("k 1, 0 0", 1, &[0, 0], &[0x02], 3),
    ("k 2, 0 2 1 3", 2, &[0, 2, 1, 3], &[0x06], 5),
    ("k 0, bits 01", 0, &[0], &[0x01], 2),
    ("k 0, bits 02", 0, &[0], &[0x02], 2),
    ("k 1, bits 01", 1, &[0, 1], &[0x01], 3),
    ("k 1, bits 04", 1, &[0, 1], &[0x04], 3),
    ("k 2, bits 10", 2, &[2, 3, 1, 0], &[0x10], 5),
    ("k 3, bits 01", 3, EIGHT, &[0x01], 9),
];

// Two faults at once: the first in the sequence is told.
const TWO_FAULTS: [Exchange; 9] = [
    ("k 11, nothing lent", 11, &[], &[], 0),
    ("k 2, three stops, the first 9", 2, &[9, 3, 1], &[0x06], 5),
    ("k 2, no bits, 4 3 1 0", 2, &[4, 3, 1, 0], &[], 5),
    ("k 2, three places, 0 2 1 3", 2, &[0, 2, 1, 3], &[0x06], 3),
    ("k 2, three places, bits 01", 2, &[2, 3, 1, 0], &[0x01], 3),
    ("k 2, 0 2 1 4", 2, &[0, 2, 1, 4], &[0x06], 5),
    ("k 2, 4 3 1 0, bits 01", 2, &[4, 3, 1, 0], &[0x01], 5),
    ("k 2, 0 2 1 3, bits 01", 2, &[0, 2, 1, 3], &[0x01], 5),
    ("k 1, 0 0, bits 04", 1, &[0, 0], &[0x04], 3),
];

// Exchanges, one after another.
fn exchanges<R: Print>(rt: &R, all: &[Exchange]) -> io::Result<()> {
    for (name, k, stops, bits, room) in all {
        Order::of(*k, stops).exchange(rt, name, bits, *room)?;
    }
    Ok(())
}

// Two sets, and a set twice.
fn two_sets<R: Print>(rt: &R) -> io::Result<()> {
    Order::of(1, &[0, 1]).both(rt, &[0x02], &[0x02], &[0x00], 3)?;
    Order::of(2, &[2, 3, 1, 0]).both(rt, &[0x06], &[0x0c], &[0x0a], 5)?;
    Order::of(3, EIGHT).both(rt, &[0x2a], &[0x4e], &[0x64], 9)?;
    Order::of(0, &[0]).twice(rt, &[0x00], 2)?;
    Order::of(1, &[1, 0]).twice(rt, &[0x02], 3)?;
    Order::of(2, &[2, 3, 1, 0]).twice(rt, &[0x0a], 5)?;
    Order::of(3, EIGHT).twice(rt, &[0x96], 8)
}

// The exchanges for k from 0 to 3.
pub fn run<R: Print>(rt: &R) -> io::Result<()> {
    exchanges(rt, &ONE_SET)?;
    two_sets(rt)?;
    exchanges(rt, &REFUSED)?;
    exchanges(rt, &TWO_FAULTS)
}
