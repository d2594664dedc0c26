// The work space that a call is lent.

use base::Refusal;
use fork_cost::{ForkCost, fork_cost};
use std::io;
use test_support::{count, part};

// So many totals, pivots and orders.
#[derive(Drop)]
pub struct Work<const TOTALS: usize, const PIVOTS: usize, const ORDERS: usize> {
    totals: [u64; TOTALS],
    pivots: [u16; PIVOTS],
    orders: [u16; ORDERS],
}

impl<const TOTALS: usize, const PIVOTS: usize, const ORDERS: usize> Work<TOTALS, PIVOTS, ORDERS> {
    // Numbers of each kind, every one 77.
    pub fn new() -> Work<TOTALS, PIVOTS, ORDERS> {
        Work {
            totals: [77; TOTALS],
            pivots: [77; PIVOTS],
            orders: [77; ORDERS],
        }
    }

    // What a fork of path bytes costs the other way, in all of the work space.
    pub fn fork_cost(&mut self, path: &[u8], highest: u16, fork: u16) -> Result<ForkCost, Refusal> {
        let totals = self.totals.len();
        let pivots = self.pivots.len();
        let orders = self.orders.len();
        self.within(path, highest, fork, totals, pivots, orders)
    }

    // The same in so many numbers of each kind.
    pub fn within(
        &mut self,
        path: &[u8],
        highest: u16,
        fork: u16,
        totals: usize,
        pivots: usize,
        orders: usize,
    ) -> Result<ForkCost, Refusal> {
        fork_cost(
            path,
            highest,
            fork,
            part::first_mut(&mut self.totals, totals),
            part::first_mut(&mut self.pivots, pivots),
            part::first_mut(&mut self.orders, orders),
        )
    }

    // How often each kind holds a number.
    fn counts(&self, number: u16) -> [usize; 3] {
        [
            count::of(&self.totals, u64::from(number)),
            count::of(&self.pivots, number),
            count::of(&self.orders, number),
        ]
    }

    // Of each kind how many numbers are 0 and how many as they were lent, and the line's end.
    pub fn write(&self, rt: &impl Print) -> io::Result<()> {
        let [totals, pivots, orders] = self.counts(0);
        print!(rt; "0 in {totals} {pivots} {orders}")?;
        let [totals, pivots, orders] = self.counts(77);
        println!(rt; ", 77 in {totals} {pivots} {orders}")
    }
}
