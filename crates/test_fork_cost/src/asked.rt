// The cases on paths of up to eight stops.

use crate::work::Work;
use crate::{paths, words};
use std::io;
use test_support::{part, text};

// Words PATH and CHANGES of a case: the bytes of a path, changed as up to four times four hexadecimal digits say, a place and the byte put there, or 0
// for none, and zeros after it.
fn path_of(word: u8, changes: u64) -> [u8; 189] {
    let mut bytes = [0u8; 189];
    part::copy(&mut bytes, paths::named(word));
    part::change(&mut bytes, changes);
    bytes
}

// `every PATH LENGTH FORKS`: so many bytes of a path, and so many forks of it modulo 1024, from fork 1 on, each on a line of its own and in the same
// work space, and then what the work space holds.
pub fn every<R: Print>(rt: &R, line: &[u8]) -> io::Result<()> {
    let bytes = path_of(text::letter(line, 2), 0);
    let path = part::first(&bytes, text::size(line, 3));
    let mut work = Work::<17, 18, 19>::new();
    println!(rt; "")?;
    for fork in 1..=text::short(line, 4) % 1024 {
        print!(rt; "fork {fork}")?;
        words::write_cost(rt, work.fork_cost(path, 6, fork))?;
        println!(rt; "")?;
    }
    print!(rt; "work space: ")?;
    work.write(rt)
}

// `fork FORK PATH CHANGES LENGTH HIGHEST TOTALS PIVOTS ORDERS`: one fork of a path; so many of its bytes, the highest version, and so many numbers of work
// space of each kind, of 17, 18 and 19.
pub fn fork<R: Print>(rt: &R, line: &[u8]) -> io::Result<()> {
    let bytes = path_of(text::letter(line, 3), text::hex(line, 4));
    let mut work = Work::<17, 18, 19>::new();
    let cost = work.within(
        part::first(&bytes, text::size(line, 5)),
        text::short(line, 6),
        text::short(line, 2),
        text::size(line, 7),
        text::size(line, 8),
        text::size(line, 9),
    );
    words::write_cost(rt, cost)?;
    print!(rt; "; ")?;
    work.write(rt)
}
