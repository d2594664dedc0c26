// The calls of the planner, and their lines.

use crate::lent::{Lengths, Lent};
use crate::table::Rule;
use base::Refusal;
use planner::Planned;
use std::fmt::{self, Display, Formatter};
use std::io;
use test_support::table;
use test_support::write::Numbers;

// The calls that order stops: a plan, a round trip, and a plan where places cost extra, by the rule of a second table.
#[derive(Clone, Copy)]
pub enum Call {
    Plan,
    Tour,
    Places(u32),
}

// The word of a call.
impl Display for Call {
    fn fmt<W: fmt::Write>(&self, f: &mut Formatter<W>) -> fmt::Result {
        match self {
            Call::Plan => write!(f, "plan"),
            Call::Tour => write!(f, "tour"),
            Call::Places(_) => write!(f, "places"),
        }
    }
}

// A call for k by a table of a rule.
#[derive(Clone, Copy)]
pub struct Asked {
    pub call: Call,
    pub k: u16,
    pub rule: u32,
}

// A total, and by how many weighings a plan found it.
#[derive(Clone, Copy)]
pub struct Found {
    pub total: u64,
    pub weighings: Option<u64>,
}

impl Found {
    // What a plan found.
    fn planned(planned: Planned) -> Found {
        Found {
            total: planned.total,
            weighings: Some(planned.weighings),
        }
    }

    // The total of a tour, or where places cost extra.
    fn total(total: u64) -> Found {
        Found {
            total,
            weighings: None,
        }
    }
}

impl Asked {
    // The call with these tables and buffers.
    pub fn answer(self, table: &[u32], places: &[u32], lent: &mut Lent) -> Result<Found, Refusal> {
        match self.call {
            Call::Plan => lent.plan(self.k, table).map(Found::planned),
            Call::Tour => lent.tour(self.k, table).map(Found::total),
            Call::Places(_) => lent.plan_places(self.k, table, places).map(Found::total),
        }
    }

    // The call with tables by its rules, of at most 256 numbers, and the buffers in `lent`; only `Places` has a second one.
    pub fn by_rules(self, lengths: Lengths, lent: &mut Lent) -> Result<Found, Refusal> {
        let mut table = [0u32; 256];
        let mut places = [0u32; 256];
        let table = table::make_in(&mut table, lengths.rows, lengths.table, Rule(self.rule));
        let (extra, size) = match self.call {
            Call::Places(extra) => (extra, lengths.places),
            _ => (0, 0),
        };
        let places = table::make_in(&mut places, lengths.rows, size, Rule(extra));
        self.answer(table, places, lent)
    }

    // The beginning of a line: the call, k, the tables' rules, and the lengths of the tables.
    fn title(self, rt: &impl Print, lengths: Lengths) -> io::Result<()> {
        let Asked { call, k, rule } = self;
        let size = lengths.table;
        match call {
            Call::Plan => print!(rt; "k {k}, rule {rule}, lent {size}"),
            Call::Tour => print!(rt; "{call} k {k}, rule {rule}, lent {size}"),
            Call::Places(extra) => {
                let places = lengths.places;
                print!(rt; "{call} k {k}, rules {rule} {extra}, lent {size} {places}")
            }
        }
    }

    // One call, and its line.
    pub fn example<R: Print>(self, rt: &R, lengths: Lengths) -> io::Result<()> {
        let mut lent = Lent::new(lengths);
        let found = self.by_rules(lengths, &mut lent);
        self.title(rt, lengths)?;
        print!(rt; " {} {} {}", lengths.order, lengths.totals, lengths.pivots)?;
        write_found(rt, found)?;
        print!(rt; ", order{}", Numbers(lent.order()))?;
        lent.work(rt)
    }
}

// The number of a refusal, or 0, the total and the weighings.
pub fn write_found(rt: &impl Print, found: Result<Found, Refusal>) -> io::Result<()> {
    match found {
        Ok(found) => {
            print!(rt; ": 0, total {}", found.total)?;
            match found.weighings {
                Some(weighings) => print!(rt; " by {weighings}"),
                None => Ok(()),
            }
        }
        Err(refusal) => print!(rt; ": {}", refusal.number()),
    }
}

// Calls with more than enough lent: k and the rule of each.
pub fn ruled<R: Print>(rt: &R, call: Call, cases: &[(u16, u32)]) -> io::Result<()> {
    for (k, rule) in cases {
        let asked = Asked {
            call,
            k: *k,
            rule: *rule,
        };
        asked.example(rt, Lengths::enough(*k))?;
    }
    Ok(())
}

// k, and the lengths of the table, of a second one, which only `Places` has, of the order and of the work space.
pub type Sizes = (u16, usize, usize, usize, usize, usize);

// Calls by tables of four rows of a rule, with so much lent.
pub fn sized<R: Print>(rt: &R, call: Call, rule: u32, cases: &[Sizes]) -> io::Result<()> {
    for (k, table, places, order, totals, pivots) in cases {
        let lengths = Lengths {
            rows: 4,
            table: *table,
            places: *places,
            order: *order,
            totals: *totals,
            pivots: *pivots,
        };
        Asked { call, k: *k, rule }.example(rt, lengths)?;
    }
    Ok(())
}
