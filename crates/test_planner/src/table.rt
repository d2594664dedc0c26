// Tables of travel times, by a rule. Two stops stay two numbers here: a rule is a formula of both, and a struct of them would be taken apart at once.

use test_support::table::{self, fifty};

// `low` to a larger stop, and `high` to any other.
fn by_side(a: u32, b: u32, low: u32, high: u32) -> u32 {
    if a < b { low } else { high }
}

// 10 in one row and column, and 0 everywhere else.
fn at(a: u32, b: u32, row: u32, column: u32) -> u32 {
    if a == row && b == column { 10 } else { 0 }
}

// The entry from stop a to stop b by a rule: 0 has 1 everywhere; 1, 2 and 3 are not symmetric, 2 has large entries and 3 few values, so many
// ties; 4, 5 and 6 are document 01's for two stops, 7 its example with the total 50; 9 has 0 everywhere; 10 and 11 have 10 in one place of a table of
// four rows; any other has 5 everywhere. A `match` on the rule stays: each arm is one formula.
fn entry(rule: u32, a: u32, b: u32) -> u32 {
    let x = a % 1024;
    let y = b % 1024;
    match rule {
        0 => 1,
        1 => (37 * x + 101 * y) % 97 + (3 * x + 7 * y) % 11 * 9,
        2 => x % 7 * 11 + y % 5 * 13 + (x + y) % 3 * 20 + 4000000000,
        3 => (2 * x + y / 3 + (5 * x + 3 * y) / 7) % 3,
        4 => by_side(x, y, 3, 7),
        5 => by_side(x, y, 7, 3),
        7 => fifty(x as usize, y as usize),
        9 => 0,
        10 => at(x, y, 0, 3),
        11 => at(x, y, 2, 0),
        _ => 5,
    }
}

// An entry with so much more, as far as 32 bits hold it.
fn raised(entry: u32, more: u32) -> u32 {
    entry.checked_add(more).unwrap_or(entry)
}

// An entry with 7 more off the diagonal, and 99 on it.
fn slower(a: u32, b: u32, entry: u32) -> u32 {
    if a == b { 99 } else { raised(entry, 7) }
}

// A rule by its number, whose hundreds say what is more than by the rule without them: with 100 it is 7 off the diagonal, on which 99 stands, with 200 it
// is 7 everywhere, with 300 it is 5 where the column is not larger than the row.
#[derive(Clone, Copy)]
pub struct Rule(pub u32);

impl table::Rule for Rule {
    fn entry(self, a: u32, b: u32) -> u32 {
        let entry = entry(self.0 % 100, a, b);
        match self.0 / 100 {
            0 => entry,
            1 => slower(a, b, entry),
            2 => raised(entry, 7),
            _ => raised(entry, by_side(a, b, 0, 5)),
        }
    }
}
