// The choice of the stop before: candidates are weighed one by one, and the cheapest is held.

ghost use Rattle.std.specs.Prelude.{◌≡◌, true, ◌+◌, ◌≤◌, ◌<◌, length, get_or};
ghost use Rattle.walks.specs.Rows.{turn};
ghost use Rattle.filled.specs.Row.{unreached, through, least_in, IsRow};

use crate::tray::{Group, Tray};

// A total above that of every list: nothing is held yet, or the stop is empty.
pub const UNREACHED: u64 = 9_223_372_036_854_775_808;

// A total, and the stop that it leads from.
#[derive(Clone, Copy)]
pub struct Choice {
    pub total: u64,
    pub stop: usize,
}

impl Choice {
    // Nothing is held yet.
    pub const NONE: Choice = Choice {
        total: UNREACHED,
        stop: 0,
    };

    // The smaller of two totals with its stop; of equals the one that is held.
    #[tactic(auto, unfolding(walks::specs::Rows::turn))]
    pub fn keep(self, total: u64, stop: usize) -> Choice
        ensures { (result.total, result.stop) ≡ turn true total stop (self.total, self.stop) }
    {
        if total < self.total {
            Choice { total, stop }
        } else {
            self
        }
    }
}

// What belongs to two neighbouring stops.
#[derive(Clone, Copy)]
pub struct Pair<T> {
    pub one: T,
    pub other: T,
}

impl Tray<'_> {
    // Weighs the candidate `from`, which can be reached at `total`, for two neighbouring stops; the times from it to them stand at `at` and after it.
    fn weigh_two(&self, held: Pair<Choice>, total: u64, from: usize, at: usize) -> Pair<Choice>
        requires { (total ≤ unreached) × (at + 1 < length self.now.table.now) }
        ensures one_value { (result.one.total, result.one.stop) ≡ turn true (total + get_or self.now.table.now at 0) from (held.one.total, held.one.stop) }
        ensures other_value { (result.other.total, result.other.stop) ≡ turn true (total + get_or self.now.table.now (at + 1) 0) from (held.other.total, held.other.stop) }
    {
        Pair {
            one: held.one.keep(total + self.time_at(at), from),
            other: held.other.keep(total + self.time_at(at + 1), from),
        }
    }

    // The cheapest ways to the stops `to` and `to` + 1 from a group's stops, whose totals stand in a row. An empty stop's number never wins.
    pub fn cheapest_two(&self, row: &[u64], group: Group, to: usize) -> Pair<Choice>
        requires row { IsRow self.now row.now }
        requires inside { (group.first + group.size ≤ self.now.n) × (to + 1 < self.now.n) }
        ensures one_value { (result.one.total, result.one.stop) ≡ least_in (through self.now row.now to) group.first group.size }
        ensures other_value { (result.other.total, result.other.stop) ≡ least_in (through self.now row.now (to + 1)) group.first group.size }
    {
        let mut held = Pair {
            one: Choice::NONE,
            other: Choice::NONE,
        };
        // The place of the times is kept beside the stop: by a product for each stop the call takes a sixth longer.
        let mut at = group.first * self.n + to;
        for from in group.first..group.first + group.size {
            held = self.weigh_two(held, row[from], from, at);
            at += self.n;
        }
        held
    }
}
