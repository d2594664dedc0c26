// Costs by a table of moves, and by a table of places beside it.

ghost use Rattle.std.specs.Prelude.{◌≡◌, ◌↔◌, ◌+◌, ◌*◌, ◌^◌, ◌≤◌, ◌<◌, length, IsSome, IfSome};
ghost use Rattle.tree.specs.Total.{entry};
ghost use Rattle.rows.specs.Source.{home_move, table_costing, placed_costing};

use crate::cost::Costs;

// Costs by a table of n rows, row 'from' and column 'to': a move takes its entry. The move from the closing stop to the first one counts as well, if
// there is one.
#[derive(Clone, Copy)]
pub struct ByTable<'a> {
    pub n: usize,
    pub table: &'a [u32],
    pub closing: Option<usize>,
    ghost small: { n ≤ 1024 },
    ghost square: { length table.now ≡ n * n },
}

// The same with a second table, row stop and column place: a stop's entry for its place counts as well.
#[derive(Clone, Copy)]
pub struct ByPlaces<'a, 'b> {
    pub moves: ByTable<'a>,
    pub places: &'b [u32],
    ghost square: { length places.now ≡ moves.n * moves.n },
}

impl<'a> ByTable<'a> {
    // The costs by this table, and none where there are more than 1,024 stops or the table is not n² long.
    pub fn new(n: usize, table: &'a [u32], closing: Option<usize>) -> Option<ByTable<'a>>
        ensures fits { IsSome result ↔ ((n ≤ 1024) × (length table.now ≡ n * n)) }
        ensures holds { IfSome result (λ c. (c.n ≡ n) × (c.table.now ≡ table.now) × (c.closing ≡ closing)) }
    {
        if n <= 1024 && table.len() == n * n {
            Some(ByTable { n, table, closing })
        } else {
            None
        }
    }
}

impl<'a, 'b> ByPlaces<'a, 'b> {
    // The costs by both tables, and none where the second is not n² long.
    pub fn new(moves: ByTable<'a>, places: &'b [u32]) -> Option<ByPlaces<'a, 'b>>
        ensures fits { IsSome result ↔ (length places.now ≡ moves.entry.n * moves.entry.n) }
        ensures holds { IfSome result (λ c. (c.moves.n ≡ moves.entry.n) × (c.moves.table.now ≡ moves.entry.table.now) × (c.moves.closing ≡ moves.entry.closing) × (c.places.now ≡ places.now)) }
    {
        if places.len() == moves.n * moves.n {
            Some(ByPlaces { moves, places })
        } else {
            None
        }
    }
}

// The entry of a table of n rows.
fn at(table: &[u32], n: usize, row: usize, column: usize) -> u32
    requires { (n ≤ 1024) × (length table.now ≡ n * n) × (row < n) × (column < n) }
    ensures { result ≡ entry n table.now row column }
{
    table[row * n + column]
}

// The move from the closing stop to stop i, and 0 where there is none.
fn home(costs: ByTable, i: usize) -> u32
    requires { i < costs.n }
    ensures { result ≡ home_move costs.entry.n costs.entry.table.now costs.entry.closing i }
{
    let n = costs.n;
    match costs.closing {
        Some(last) if last < n => at(costs.table, n, last, i),
        _ => 0,
    }
}

impl<'a> Costs for ByTable<'a> {
    ghost costing = { λ s. table_costing s.n s.table.now s.closing };

    fn stops(self) -> usize {
        self.n
    }

    fn fits(self, _place: usize, _i: usize) -> bool {
        true
    }

    fn of_start(self, i: usize) -> u64 {
        home(self, i) as u64
    }

    fn of_move(self, _place: usize, from: usize, to: usize) -> u64 {
        at(self.table, self.n, from, to) as u64
    }

    ghost small = { λ s. s.small };
}

impl<'a, 'b> Costs for ByPlaces<'a, 'b> {
    ghost costing = { λ s. placed_costing s.moves.n s.moves.table.now s.moves.closing s.places.now };

    fn stops(self) -> usize {
        self.moves.stops()
    }

    fn fits(self, place: usize, i: usize) -> bool {
        self.moves.fits(place, i)
    }

    fn of_start(self, i: usize) -> u64 {
        home(self.moves, i) as u64 + at(self.places, self.moves.n, i, 0) as u64
    }

    fn of_move(self, place: usize, from: usize, to: usize) -> u64 {
        let n = self.moves.n;
        at(self.moves.table, n, from, to) as u64 + at(self.places, n, to, place) as u64
    }

    ghost small = { λ s. s.moves.small };
}
