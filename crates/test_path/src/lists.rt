// The four lists that stops are lent in: their coordinates, speeds, blends and dwells.

use base::Refusal;
use path::Heading;
use std::fmt::{self, Display, Formatter};
use stop::Stops;
use test_support::write::Numbers;
use test_support::{count, part, text};

// Lists that a call is lent to write: the first parts of these.
#[derive(Drop)]
pub struct Lent {
    lengths: Lengths,
    pub coords: [i32; 3073],
    pub speeds: [u16; 1025],
    pub blends: [u16; 1025],
    pub dwells: [u16; 1025],
}

// As many places of each list as four words of a case say, the first of which is word `at`.
#[derive(Clone, Copy)]
pub struct Lengths {
    pub coords: usize,
    pub speeds: usize,
    pub blends: usize,
    pub dwells: usize,
}

impl Lengths {
    // The four words from word `at` on.
    pub fn given(line: &[u8], at: u8) -> Lengths {
        let at = usize::from(at);
        Lengths {
            coords: text::size(line, at),
            speeds: text::size(line, at + 1),
            blends: text::size(line, at + 2),
            dwells: text::size(line, at + 3),
        }
    }

    // The same, but none above that of `most`.
    pub fn at_most(self, most: Lengths) -> Lengths {
        Lengths {
            coords: self.coords.min(most.coords),
            speeds: self.speeds.min(most.speeds),
            blends: self.blends.min(most.blends),
            dwells: self.dwells.min(most.dwells),
        }
    }

    // The first parts of lists that a call reads.
    pub fn part<'a>(self, stops: Stops<'a>) -> Stops<'a> {
        Stops {
            coords: part::first(stops.coords, self.coords),
            speeds: part::first(stops.speeds, self.speeds),
            blends: part::first(stops.blends, self.blends),
            dwells: part::first(stops.dwells, self.dwells),
        }
    }
}

impl Lent {
    // Lists of these lengths, in which every place holds 77.
    pub fn new(lengths: Lengths) -> Lent {
        Lent {
            lengths,
            coords: [77; 3073],
            speeds: [77; 1025],
            blends: [77; 1025],
            dwells: [77; 1025],
        }
    }

    // Reads a path into them.
    pub fn read(&mut self, bytes: &[u8], highest: u16) -> Result<Heading, Refusal> {
        path::read_path(
            bytes,
            highest,
            part::first_mut(&mut self.coords, self.lengths.coords),
            part::first_mut(&mut self.speeds, self.lengths.speeds),
            part::first_mut(&mut self.blends, self.lengths.blends),
            part::first_mut(&mut self.dwells, self.lengths.dwells),
        )
    }

    // The same lists, as a call reads them.
    pub fn stops(&self) -> Stops<'_> {
        self.lengths.part(Stops {
            coords: &self.coords,
            speeds: &self.speeds,
            blends: &self.blends,
            dwells: &self.dwells,
        })
    }

    // Whether every place still holds 77.
    pub fn untouched(&self) -> bool {
        let stops = self.stops();
        let places = count::all(stops.coords, 77);
        let speeds = count::all(stops.speeds, 77);
        let blends = count::all(stops.blends, 77);
        places && speeds && blends && count::all(stops.dwells, 77)
    }
}

// Every place of each list.
impl Display for Lent {
    fn fmt<W: fmt::Write>(&self, f: &mut Formatter<W>) -> fmt::Result {
        let stops = self.stops();
        write!(f, ", coordinates{}", Numbers(stops.coords))?;
        write!(f, ", speeds{}", Numbers(stops.speeds))?;
        write!(f, ", blends{}", Numbers(stops.blends))?;
        write!(f, ", dwells{}", Numbers(stops.dwells))
    }
}
