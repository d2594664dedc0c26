// The calls that take from a heap: no clause says what is read and written, nor that memory is left.

use crate::cases::{self, Cases};
use crate::table::{self, Rule};
use crate::{part, text, write};
use std::alloc::{Allocator, Global};
use std::cell::{Cell, RefCell};
use std::fmt::Display;
use std::io::{self, BufRead, Error, ErrorKind, Lines};
use std::test::Fail;

// A runtime with an allocator, whose input is given bytes, and which keeps what is printed and takes so many writes.
#[derive(Drop)]
struct Kept<'a, R> {
    host: &'a R,
    input: &'a [u8],
    printed: RefCell<Vec<u8>>,
    writes: Cell<u32>,
}

impl<'a, R: AllocGlobal> Kept<'a, R> {
    // Nothing is printed yet.
    fn new(host: &'a R, input: &'a [u8], writes: u32) -> Kept<'a, R> {
        Kept {
            host,
            input,
            printed: RefCell::new(Vec::new(host.alloc())),
            writes: Cell::new(writes),
        }
    }
}

impl<R: AllocGlobal> Alloc for Kept<'_, R> {
    type A = Global;

    fn alloc(&self) -> Global {
        self.host.alloc()
    }
}

impl<R: AllocGlobal> Print for Kept<'_, R> {
    fn print<D: Display + Drop>(&self, value: D) -> io::Result<()> {
        self.write_all(value.to_string(self.alloc())?.as_bytes())
    }

    fn println<D: Display + Drop>(&self, value: D) -> io::Result<()> {
        self.print(value)?;
        self.write_all(b"\n")
    }

    fn write_all(&self, bytes: &[u8]) -> io::Result<()> {
        let left = self.writes.get();
        match (left, self.printed.try_borrow_mut()) {
            (1.., Ok(mut printed)) => {
                self.writes.set(left - 1);
                printed.extend_from_slice(bytes)?;
                Ok(())
            }
            _ => Err(Error::from(ErrorKind::WriteZero)),
        }
    }
}

impl<'a, R: AllocGlobal> Input for Kept<'a, R> {
    type Reader = &'a [u8];

    fn read_line<A: Allocator + Clone>(&self, buf: &mut String<A>) -> io::Result<usize> {
        self.reader().read_line(buf)
    }

    fn lines<A: Allocator>(&self, alloc: A) -> Lines<&'a [u8], A> {
        self.reader().lines(alloc)
    }

    fn reader(&self) -> &'a [u8] {
        self.input
    }
}

// Cases `LETTER FROM TO`: so many numbers from one on, up to another, are put into a vector, whose bytes are written; and how many cases were run.
#[derive(Drop)]
struct Pushes(usize);

impl Cases for Pushes {
    fn run<R: Print + AllocGlobal>(&mut self, rt: &R, letter: u8, line: &[u8]) -> io::Result<()> {
        self.0 = self.0.saturating_add(1);
        let mut bytes = [letter].to_vec(rt.alloc())?;
        for number in text::short(line, 2)..text::short(line, 3) {
            part::push(&mut bytes, &[number])?;
        }
        println!(rt; ":{}", write::Bytes(&bytes))
    }
}

// The entry from stop a to stop b is 10 a + b.
#[derive(Clone, Copy)]
struct Tens;

impl Rule for Tens {
    fn entry(self, a: u32, b: u32) -> u32 {
        a.wrapping_mul(10).wrapping_add(b)
    }
}

// Three cases and a remark: a line ends with byte 10, or 13 and 10, which its last word does not hold, and the last one has no end.
#[test]
fn cases_of_a_runtime(rt: HostRuntime) -> Result<(), Fail> {
    let kept = Kept::new(&rt, b"a: p 255 257\nno case\r\nb: q 0 1\r\nc: r 1 2", 100);
    let mut pushes = Pushes(0);
    cases::run_all(&kept, &mut pushes)?;
    assert_eq!(rt; pushes.0, 3);
    let printed = kept.printed.try_borrow()?;
    assert_eq!(rt;
        printed.as_slice(),
        b"a: 70 ff 00 00 01\nb: 71 00 00\nc: 72 01 00\n".as_slice()
    );
    Ok(())
}

// Bytes that are no text are told, and no case is run.
#[test]
fn cases_of_no_text(rt: HostRuntime) -> Result<(), Fail> {
    let kept = Kept::new(&rt, b"a: p 1 2\nb: \xff\n", 100);
    let mut pushes = Pushes(0);
    assert!(rt; cases::run_all(&kept, &mut pushes).is_err());
    assert_eq!(rt; pushes.0, 0);
    Ok(())
}

// The fourth write, which is the second case's name, fails: that is told, and neither this case is run nor the next.
#[test]
fn cases_after_a_failed_write(rt: HostRuntime) -> Result<(), Fail> {
    let kept = Kept::new(&rt, b"a: p 1 2\nb: q 1 2\nc: r 1 2\n", 3);
    let mut pushes = Pushes(0);
    assert!(rt; cases::run_all(&kept, &mut pushes).is_err());
    assert_eq!(rt; pushes.0, 1);
    let printed = kept.printed.try_borrow()?;
    assert_eq!(rt; printed.as_slice(), b"a: 70 01 00\n".as_slice());
    Ok(())
}

// Behind what is there, the low byte of each number first.
#[test]
fn numbers_pushed(rt: HostRuntime) -> Result<(), Fail> {
    let mut bytes = [7u8].to_vec(rt.alloc())?;
    part::push(&mut bytes, &[1, 0xabcd])?;
    part::push(&mut bytes, &[])?;
    part::push(&mut bytes, &[65535])?;
    assert_eq!(rt;
        bytes.as_slice(),
        [7, 1, 0, 0xcd, 0xab, 255, 255].as_slice()
    );
    Ok(())
}

// A square table, one of no rows, which counts as one, and one of no size.
#[test]
fn tables_made(rt: HostRuntime) -> Result<(), Fail> {
    let square = table::make(rt.alloc(), 2, 4, Tens)?;
    assert_eq!(rt; square.as_slice(), [0, 1, 10, 11].as_slice());
    let no_rows = table::make(rt.alloc(), 0, 3, Tens)?;
    assert_eq!(rt; no_rows.as_slice(), [0, 10, 20].as_slice());
    assert_eq!(rt; table::make(rt.alloc(), 3, 0, Tens)?.len(), 0);
    Ok(())
}
