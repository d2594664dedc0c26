// What a call of the planner is lent.

use base::Refusal;
use planner::Planned;
use std::io;
use test_support::{count, part};

// The rows of the tables, and the length of each table and each buffer; only a call where places cost extra has a second table.
#[derive(Clone, Copy)]
pub struct Lengths {
    pub rows: usize,
    pub table: usize,
    pub places: usize,
    pub order: usize,
    pub totals: usize,
    pub pivots: usize,
}

impl Lengths {
    // More than enough for k, up to 4.
    pub fn enough(k: u16) -> Lengths {
        let (rows, order, totals, pivots) = match k {
            0 => (1, 2, 3, 4),
            1 => (2, 3, 4, 5),
            2 => (4, 5, 10, 9),
            3 => (8, 8, 16, 16),
            _ => (16, 18, 33, 32),
        };
        Lengths {
            rows,
            table: rows * rows,
            places: rows * rows,
            order,
            totals,
            pivots,
        }
    }
}

// An order, and work space: the first parts of these buffers.
#[derive(Drop)]
pub struct Lent {
    lengths: Lengths,
    order: [u16; 1025],
    totals: [u64; 2049],
    pivots: [u16; 2050],
}

impl Lent {
    // Buffers of these lengths, in which every place holds 77. Other programs lend other buffers: one generic struct would lose their names.
    pub fn new(lengths: Lengths) -> Lent {
        Lent {
            lengths,
            order: [77; 1025],
            totals: [77; 2049],
            pivots: [77; 2050],
        }
    }

    // The plan by a table.
    pub fn plan(&mut self, k: u16, table: &[u32]) -> Result<Planned, Refusal> {
        planner::plan(
            k,
            table,
            part::first_mut(&mut self.order, self.lengths.order),
            part::first_mut(&mut self.totals, self.lengths.totals),
            part::first_mut(&mut self.pivots, self.lengths.pivots),
        )
    }

    // The round trip by a table.
    pub fn tour(&mut self, k: u16, table: &[u32]) -> Result<u64, Refusal> {
        planner::tour(
            k,
            table,
            part::first_mut(&mut self.order, self.lengths.order),
            part::first_mut(&mut self.totals, self.lengths.totals),
            part::first_mut(&mut self.pivots, self.lengths.pivots),
        )
    }

    // The plan by a table where places cost extra by another.
    pub fn plan_places(&mut self, k: u16, table: &[u32], places: &[u32]) -> Result<u64, Refusal> {
        planner::plan_places(
            k,
            table,
            places,
            part::first_mut(&mut self.order, self.lengths.order),
            part::first_mut(&mut self.totals, self.lengths.totals),
            part::first_mut(&mut self.pivots, self.lengths.pivots),
        )
    }

    // What is lent of the order.
    pub fn order(&self) -> &[u16] {
        part::first(&self.order, self.lengths.order)
    }

    // How often what is lent of the totals and of the pivots holds a number.
    fn counts(&self, number: u16) -> [usize; 2] {
        let totals = part::first(&self.totals, self.lengths.totals);
        let pivots = part::first(&self.pivots, self.lengths.pivots);
        [
            count::of(totals, u64::from(number)),
            count::of(pivots, number),
        ]
    }

    // Ends a line with the 0s and 77s of the work space.
    pub fn work(&self, rt: &impl Print) -> io::Result<()> {
        let [totals, pivots] = self.counts(0);
        print!(rt; ", 0 in {totals} {pivots}")?;
        let [totals, pivots] = self.counts(77);
        println!(rt; ", 77 in {totals} {pivots}")
    }
}
