// Lists and answers as they are written. Of a list of more than 255 elements the sum is written.
ghost use Rattle.std.specs.Prelude.{IsOk};

use crate::sum::{self, Number};
use crate::{count, part};
use base::Refusal;
use std::fmt::{self, Display, Formatter, Write};

// The standard output, whose writes do not fail: what cannot be written is left out, so a program goes on after it, and ends as if it had been written.
#[derive(Clone, Copy)]
pub struct Unfailing;

// Text on its way to the standard output, gathered so that one write takes a short line, and whether every write so far took all of its bytes.
#[derive(Drop)]
struct Gathered {
    bytes: [u8; 1024],
    count: usize,
    whole: bool,
}

impl Gathered {
    // Nothing yet.
    fn new() -> Gathered {
        Gathered {
            bytes: [0; 1024],
            count: 0,
            whole: true,
        }
    }

    // Writes what is gathered, after which nothing is.
    fn flush(&mut self) {
        self.whole &= io::write_all(1, part::first(&self.bytes, self.count));
        self.count = 0;
    }
}

// Gathers a text, after what is written where there is too little room, or writes it where it is too long.
impl Write for Gathered {
    fn write_str(&mut self, s: &str) -> fmt::Result {
        let text = s.as_bytes();
        if self.bytes.len().saturating_sub(self.count) < text.len() {
            self.flush();
        }
        let end = self.count.saturating_add(text.len());
        match self.bytes.get_mut(self.count..end) {
            Some(places) => {
                part::copy(places, text);
                self.count = end;
            }
            None => self.whole &= io::write_all(1, text),
        }
        Ok(())
    }
}

// Writes a value and what ends it, and says whether all of both was written.
fn write_value<D: Display + Drop>(value: D, end: &str) -> bool {
    let mut f = Formatter::new(Gathered::new());
    let formatted = f.write(value).is_ok();
    let ended = f.write(end).is_ok();
    let mut gathered = f.into_inner();
    gathered.flush();
    gathered.whole && formatted && ended
}

// Each tells no failure, and needs no runtime: the bytes go to the C library's `write`.
impl Print for Unfailing {
    fn print<D: Display + Drop>(&self, value: D) -> std::io::Result<()>
        ensures { IsOk result }
    {
        let _written = write_value(value, "");
        Ok(())
    }

    fn println<D: Display + Drop>(&self, value: D) -> std::io::Result<()>
        ensures { IsOk result }
    {
        let _written = write_value(value, "\n");
        Ok(())
    }

    fn write_all(&self, bytes: &[u8]) -> std::io::Result<()>
        ensures { IsOk result }
    {
        let _written = io::write_all(1, bytes);
        Ok(())
    }
}

// The numbers of a list, each after a space.
#[derive(Clone, Copy)]
pub struct Numbers<'a, T>(pub &'a [T]);

impl<T: Number + Display> Display for Numbers<'_, T> {
    fn fmt<W: fmt::Write>(&self, f: &mut Formatter<W>) -> fmt::Result {
        if 255 < self.0.len() {
            return write!(f, " {}", sum::of(self.0));
        }
        for number in self.0 {
            write!(f, " {number}")?;
        }
        Ok(())
    }
}

// The bytes of a list in hexadecimal, two digits each after a space.
#[derive(Clone, Copy)]
pub struct Bytes<'a>(pub &'a [u8]);

impl Display for Bytes<'_> {
    fn fmt<W: fmt::Write>(&self, f: &mut Formatter<W>) -> fmt::Result {
        if 255 < self.0.len() {
            return write!(f, " {}", sum::of(self.0));
        }
        for byte in self.0 {
            write!(f, " {byte:02x}")?;
        }
        Ok(())
    }
}

// The bytes of a list in hexadecimal, two digits each and nothing between them, however many they are.
#[derive(Clone, Copy)]
pub struct Hex<'a>(pub &'a [u8]);

impl Display for Hex<'_> {
    fn fmt<W: fmt::Write>(&self, f: &mut Formatter<W>) -> fmt::Result {
        for byte in self.0 {
            write!(f, "{byte:02x}")?;
        }
        Ok(())
    }
}

// The number of an answer: 0, or the refusal's.
pub fn number(rt: &impl Print, made: Result<(), Refusal>) -> std::io::Result<()> {
    match made {
        Ok(()) => print!(rt; ": 0"),
        Err(refusal) => print!(rt; ": {}", refusal.number()),
    }
}

// The line of a refusal: its number, and whether every lent place is as it was.
pub fn refusal(rt: &impl Print, refusal: Refusal, same: bool) -> std::io::Result<()> {
    let number = refusal.number();
    let touched = if same { "untouched" } else { "touched" };
    println!(rt; ": {number}, {touched}")
}

// The line of an answer that is a lent list, every place of which held 77: 0, what the list is and every place, or the refusal.
pub fn made<T: Number + Display + PartialEq + From<u8>>(
    rt: &impl Print,
    what: &str,
    made: Result<(), Refusal>,
    list: &[T],
) -> std::io::Result<()> {
    match made {
        Ok(()) => println!(rt; ": 0, {what}{}", Numbers(list)),
        Err(refusal) => self::refusal(rt, refusal, count::all(list, T::from(77))),
    }
}
