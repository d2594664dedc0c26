// Calls of the exchange, and their answers written.

use std::io;
use test_support::part;
use test_support::write::{self, Numbers};

// An order that calls are made on: k, and its stops.
#[derive(Clone, Copy)]
pub struct Order<'a> {
    k: u16,
    stops: &'a [u16],
}

impl<'a> Order<'a> {
    // The order of these stops.
    pub fn of(k: u16, stops: &'a [u16]) -> Order<'a> {
        Order { k, stops }
    }

    // Exchanges a string's forks, into so many places, at most 1025, and writes the answer: what the lent places then hold.
    pub fn exchange<R: Print>(
        self,
        rt: &R,
        name: &str,
        bits: &[u8],
        room: usize,
    ) -> io::Result<()> {
        let mut all = [77u16; 1025];
        let out = part::first_mut(&mut all, room);
        print!(rt; "{name}")?;
        let made = orders::exchange(self.k, self.stops, bits, out);
        write::made(rt, "order", made, out)
    }

    // Exchanges the forks x, and then the forks y in what that left.
    fn in_sequence<R: Print>(
        self,
        rt: &R,
        name: &str,
        x: &[u8],
        y: &[u8],
        room: usize,
    ) -> io::Result<()> {
        let mut first = [77u16; 1025];
        let _made = orders::exchange(self.k, self.stops, x, &mut first);
        Order::of(self.k, &first).exchange(rt, name, y, room)
    }

    // Exchanges two sets in both sequences, and then their symmetric difference at once: three times the same order.
    pub fn both<R: Print>(
        self,
        rt: &R,
        x: &[u8],
        y: &[u8],
        difference: &[u8],
        room: usize,
    ) -> io::Result<()> {
        println!(rt; "two sets from{}", Numbers(self.stops))?;
        self.in_sequence(rt, "one, then the other", x, y, room)?;
        self.in_sequence(rt, "the other, then the one", y, x, room)?;
        self.exchange(rt, "at once", difference, room)
    }

    // Exchanges a set twice: the order itself.
    pub fn twice<R: Print>(self, rt: &R, x: &[u8], room: usize) -> io::Result<()> {
        println!(rt; "a set twice from{}", Numbers(self.stops))?;
        self.exchange(rt, "once", x, room)?;
        self.in_sequence(rt, "twice", x, x, room)
    }
}
