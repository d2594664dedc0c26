// What the cases of a session do.

use crate::paths;
use base::Refusal;
use std::io;
use test_support::cases::PrintCases;
use test_support::write::{self, Numbers};
use test_support::{part, text};

// The bytes of a path, an order and sums.
#[derive(Drop)]
pub struct Session {
    bytes: [u8; 188],
    order: [u16; 9],
    sums: [u64; 9],
}

impl PrintCases for Session {
    // A `match` on the letter stays: each arm is one call, and a table of functions would name the same letters beside them.
    fn run<R: Print>(&mut self, rt: &R, letter: u8, line: &[u8]) -> io::Result<()> {
        match letter {
            b'p' => self.begin(line),
            b'o' => self.put_order(line),
            b's' => part::put(&mut self.sums, text::size(line, 2), text::number(line, 3)),
            b'm' => return self.make(rt, line),
            b'e' => return self.exchange(rt, line),
            _ => print!(rt; ": no such case")?,
        }
        println!(rt; "")
    }
}

impl Session {
    // No path, and every place of the order and the sums holds 77.
    pub fn new() -> Session {
        Session {
            bytes: [0; 188],
            order: [77; 9],
            sums: [77; 9],
        }
    }

    // `path PATH CHANGES`: the path, its bytes changed as four hexadecimal digits say, a place and the byte put there, or 0 for none. Every place of the
    // order and the sums then holds 77.
    fn begin(&mut self, line: &[u8]) {
        part::copy(&mut self.bytes, paths::named(text::letter(line, 2)));
        part::change(&mut self.bytes, text::hex(line, 3));
        self.order = [77; 9];
        self.sums = [77; 9];
    }

    // `order COUNT STOPS..`: the order's first places, COUNT modulo 10 of them.
    fn put_order(&mut self, line: &[u8]) {
        let count = text::size(line, 2) % 10;
        for (i, stop) in part::first_mut(&mut self.order, count)
            .iter_mut()
            .enumerate()
        {
            *stop = text::short(line, 3 + i);
        }
    }

    // The answer, and every place.
    fn answer(&self, rt: &impl Print, made: Result<(), Refusal>) -> io::Result<()> {
        write::number(rt, made)?;
        println!(rt;
            ", order{}, sums{}",
            Numbers(&self.order),
            Numbers(&self.sums)
        )
    }

    // `make LENGTH HIGHEST ORDER SUMS`: so many bytes of the path, the highest version, so many places of the order and of the sums are lent.
    fn make(&mut self, rt: &impl Print, line: &[u8]) -> io::Result<()> {
        let made = screen::group_sums(
            part::first(&self.bytes, text::size(line, 2)),
            text::short(line, 3),
            part::first(&self.order, text::size(line, 4)),
            part::first_mut(&mut self.sums, text::size(line, 5)),
        );
        self.answer(rt, made)
    }

    // `exchange FORK LENGTH HIGHEST ORDER SUMS`: the same, and the fork before.
    fn exchange(&mut self, rt: &impl Print, line: &[u8]) -> io::Result<()> {
        let made = screen::exchange_fork(
            part::first(&self.bytes, text::size(line, 3)),
            text::short(line, 4),
            text::short(line, 2),
            part::first_mut(&mut self.order, text::size(line, 5)),
            part::first_mut(&mut self.sums, text::size(line, 6)),
        );
        self.answer(rt, made)
    }
}
