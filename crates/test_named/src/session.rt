// What the cases of a session do.

use base::Refusal;
use std::io;
use test_support::cases::PrintCases;
use test_support::write::{self, Bytes, Numbers};
use test_support::{part, text};

// The bytes of a path, the screen's order and sums, and the marks, stops and sums of what is kept.
#[derive(Drop)]
pub struct Session {
    pub bytes: [u8; 92],
    pub order: [u16; 5],
    pub sums: [u64; 5],
    pub marks: [u8; 9],
    pub stops: [u16; 33],
    pub kept: [u64; 33],
}

impl PrintCases for Session {
    // What is called, or what is set between the calls, and then every place. A `match` on the letter stays: each arm is one call, and a table of
    // functions would name the same letters beside them.
    fn run<R: Print>(&mut self, rt: &R, letter: u8, line: &[u8]) -> io::Result<()> {
        match letter {
            b'k' => write::number(rt, self.keep(line))?,
            b'b' => write::number(rt, self.back(line))?,
            b'c' => write::number(rt, self.clear(line))?,
            b'm' => write::number(rt, self.make(line))?,
            b'e' => write::number(rt, self.exchange(line))?,
            b'p' => self.begin(line),
            _ => self.put(letter, line),
        }
        self.write(rt)
    }
}

// What each case calls. The line stays beside the session: a struct of both would live for one call.
impl Session {
    // Every place of the screen's order and sums, and of what is kept.
    fn write(&self, rt: &impl Print) -> io::Result<()> {
        print!(rt;
            ", order{}, sums{}",
            Numbers(&self.order),
            Numbers(&self.sums)
        )?;
        print!(rt;
            ", marks{}, stops{}",
            Bytes(&self.marks),
            Numbers(&self.stops)
        )?;
        println!(rt; ", kept{}", Numbers(&self.kept))
    }

    // `keep NAME LENGTH HIGHEST ORDER SUMS MARKS STOPS KEPT`: a name, so many bytes of the path, the highest version, and so many places of each buffer.
    fn keep(&mut self, line: &[u8]) -> Result<(), Refusal> {
        named::keep(
            part::first(&self.bytes, text::size(line, 3)),
            text::short(line, 4),
            text::short(line, 2),
            part::first(&self.order, text::size(line, 5)),
            part::first(&self.sums, text::size(line, 6)),
            part::first_mut(&mut self.marks, text::size(line, 7)),
            part::first_mut(&mut self.stops, text::size(line, 8)),
            part::first_mut(&mut self.kept, text::size(line, 9)),
        )
    }

    // `back` and the same.
    fn back(&mut self, line: &[u8]) -> Result<(), Refusal> {
        named::come_back(
            part::first(&self.bytes, text::size(line, 3)),
            text::short(line, 4),
            text::short(line, 2),
            part::first_mut(&mut self.order, text::size(line, 5)),
            part::first_mut(&mut self.sums, text::size(line, 6)),
            part::first(&self.marks, text::size(line, 7)),
            part::first(&self.stops, text::size(line, 8)),
            part::first(&self.kept, text::size(line, 9)),
        )
    }

    // `clear MARKS`: so many marks are lent.
    fn clear(&mut self, line: &[u8]) -> Result<(), Refusal> {
        named::clear(part::first_mut(&mut self.marks, text::size(line, 2)))
    }

    // `make LENGTH HIGHEST`: the sums of the order.
    fn make(&mut self, line: &[u8]) -> Result<(), Refusal> {
        screen::group_sums(
            part::first(&self.bytes, text::size(line, 2)),
            text::short(line, 3),
            &self.order,
            &mut self.sums,
        )
    }

    // `exchange FORK LENGTH HIGHEST`: one fork exchanged.
    fn exchange(&mut self, line: &[u8]) -> Result<(), Refusal> {
        screen::exchange_fork(
            part::first(&self.bytes, text::size(line, 3)),
            text::short(line, 4),
            text::short(line, 2),
            &mut self.order,
            &mut self.sums,
        )
    }
}
