// Exchanges for k = 10.

use crate::call::Order;
use std::io;
use test_support::part;

// A string with one byte in every place but one.
fn string(byte: u8, at: usize, other: u8) -> [u8; 129] {
    let mut bits = [byte; 129];
    part::put(&mut bits, at, other);
    bits
}

// The order in which the exchanges are made, and 77 past it.
fn known_order() -> [u16; 1025] {
    let mut order = [77u16; 1025];
    let _made = orders::order_of_bits(10, &string(0x94, 50, 0x0f), &mut order);
    order
}

// Two sets, and a set twice.
fn sets<R: Print>(rt: &R) -> io::Result<()> {
    let stops = known_order();
    let order = Order::of(10, &stops);
    let x = string(0x5a, 17, 0xe1);
    let y = string(0x36, 17, 0x9f);
    order.both(rt, &x, &y, &string(0x6c, 17, 0x7e), 1025)?;
    order.twice(rt, &x, 1024)
}

// Each refusal, and with two faults at once: a name, a place of the order and the stop that is put there, the string's first byte, how many of its bytes
// are lent, and how many places.
const REFUSED: [(&str, usize, u16, u8, usize, usize); 8] = [
    ("k 10, 1023 places", 1024, 0, 0x5a, 128, 1023),
    ("k 10, 127 bytes", 1024, 0, 0x5a, 127, 1025),
    ("k 10, last stop 1024", 1023, 1024, 0x5a, 128, 1025),
    ("k 10, last stop 1", 1023, 1, 0x5a, 128, 1025),
    ("k 10, first byte 01", 1024, 0, 0x01, 128, 1025),
    (
        "k 10, 127 bytes, last stop 1024",
        1023,
        1024,
        0x5a,
        127,
        1025,
    ),
    (
        "k 10, last stop 1024, first byte 01",
        1023,
        1024,
        0x01,
        128,
        1025,
    ),
    ("k 10, last stop 1, first byte 01", 1023, 1, 0x01, 128, 1025),
];

// The exchanges for k = 10.
pub fn run<R: Print>(rt: &R) -> io::Result<()> {
    sets(rt)?;
    for (name, at, stop, first, bytes, room) in REFUSED {
        let mut stops = known_order();
        part::put(&mut stops, at, stop);
        let bits = string(0x5a, 0, first);
        Order::of(10, &stops).exchange(rt, name, part::first(&bits, bytes), room)?;
    }
    Ok(())
}
