// What a call is lent.

use base::Refusal;
use filled::ListPlanned;
use std::fmt::{self, Display, Formatter};
use test_support::write::{Bytes, Numbers};
use test_support::{count, part};

// How much is lent: at most 4,097 numbers of the table, 65 bytes, 65 places of the list, 9 bytes of fork bits, 4,097 numbers of work space.
#[derive(Clone, Copy)]
pub struct Lengths {
    pub table: usize,
    pub empties: usize,
    pub list: usize,
    pub bits: usize,
    pub work: usize,
}

impl Lengths {
    // What n stops, up to 64, need, and one more of each but the table.
    pub fn enough(n: usize) -> Lengths {
        let n = n.min(64);
        Lengths {
            table: n * n,
            empties: n + 1,
            list: n + 1,
            bits: n.div_ceil(8) + 1,
            work: n * n + 1,
        }
    }
}

// What a call writes: the first parts of these buffers.
#[derive(Drop)]
pub struct Lent {
    lengths: Lengths,
    list: [u16; 65],
    bits: [u8; 9],
    work: [u64; 4097],
}

impl Lent {
    // Buffers of these lengths, in which every place holds 77. Other programs lend other buffers: one generic struct would lose
    // their names.
    pub fn new(lengths: Lengths) -> Lent {
        Lent {
            lengths,
            list: [77; 65],
            bits: [77; 9],
            work: [77; 4097],
        }
    }

    // Plans into them.
    pub fn plan(&mut self, k: u16, table: &[u32], empties: &[u8]) -> Result<ListPlanned, Refusal> {
        filled::plan_filled(
            k,
            table,
            empties,
            part::first_mut(&mut self.list, self.lengths.list),
            part::first_mut(&mut self.bits, self.lengths.bits),
            part::first_mut(&mut self.work, self.lengths.work),
        )
    }

    // What is lent of the list.
    fn list(&self) -> &[u16] {
        part::first(&self.list, self.lengths.list)
    }

    // What is lent of the fork bits.
    fn bits(&self) -> &[u8] {
        part::first(&self.bits, self.lengths.bits)
    }

    // What is lent of the work space.
    fn work(&self) -> &[u64] {
        part::first(&self.work, self.lengths.work)
    }

    // Whether every place still holds 77.
    pub fn untouched(&self) -> bool {
        count::all(self.list(), 77) && count::all(self.bits(), 77) && count::all(self.work(), 77)
    }
}

// Every place of the list and the bits, and the 0s and 77s of the work space.
impl Display for Lent {
    fn fmt<W: fmt::Write>(&self, f: &mut Formatter<W>) -> fmt::Result {
        write!(f, ", list{}", Numbers(self.list()))?;
        write!(f, ", bits{}", Bytes(self.bits()))?;
        write!(f, ", 0 in {}", count::of(self.work(), 0))?;
        write!(f, ", 77 in {}", count::of(self.work(), 77))
    }
}
