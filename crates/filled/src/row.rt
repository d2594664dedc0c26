// The rows of the table by places: for each stop in a place the least total of a list up to it.

ghost use Rattle.std.specs.Prelude.{◌≡◌, cond, ◌+◌, ◌*◌, ◌%◌, ◌<◌, length};
ghost use Rattle.filled.specs.Row.{unreached, total_in, filled_of, cell_of, standing, through, from_group, IsRow, RowIsMade, RowsMade, CellsMade};

use crate::choice::{Choice, Pair, UNREACHED};
use crate::tray::{Tray, group_beside};

// The numbers that stand at i and after it.
fn pair_at(row: &[u64], i: usize) -> Pair<u64>
    requires { i + 1 < length row.now }
    ensures { (result.one ≡ standing row.now i) × (result.other ≡ standing row.now (i + 1)) }
{
    Pair {
        one: row[i],
        other: row[i + 1],
    }
}

impl Tray<'_> {
    // A total where stop i is filled, and the number of an empty stop where it is not.
    fn if_filled(&self, i: usize, total: u64) -> u64
        requires { i < self.now.n }
        ensures { result ≡ cond (filled_of self.now i) total unreached }
    {
        if self.is_filled(i) { total } else { UNREACHED }
    }

    // The row of place p, which is made.
    pub fn row<'w>(&self, work: &'w [u64], p: usize) -> &'w [u64]
        requires { RowsMade self.now work.now (p + 1) × (p < self.now.n) }
        ensures { RowIsMade self.now result.now p }
    {
        let start = p * self.n;
        &work[start..start + self.n]
    }

    // The stops i and i + 1, each after the other.
    fn crossed(&self, row: &[u64], i: usize) -> Pair<u64>
        requires { IsRow self.now row.now × (i + 1 < self.now.n) }
        ensures one_value { result.one ≡ through self.now row.now i (i + 1) }
        ensures other_value { result.other ≡ through self.now row.now (i + 1) i }
    {
        Pair {
            one: row[i + 1] + self.time(i + 1, i),
            other: row[i] + self.time(i, i + 1),
        }
    }

    // The cheapest ways to the stops `to` and `to` + 1 in place p from the group beside stop i, whose totals stand in the row before.
    pub fn weigh_beside(&self, before: &[u64], p: usize, i: usize, to: usize) -> Pair<Choice>
        requires row { IsRow self.now before.now }
        requires inside { (0 < p) × (p < self.now.n) × (i < self.now.n) × (to + 1 < self.now.n) }
        ensures one_value { (result.one.total, result.one.stop) ≡ from_group self.now before.now p i to }
        ensures other_value { (result.other.total, result.other.stop) ≡ from_group self.now before.now p i (to + 1) }
    {
        self.cheapest_two(before, group_beside(p, i), to)
    }

    // The stops i and i + 1, i even, in a place p that is even, from the group beside them.
    fn weighed(&self, before: &[u64], p: usize, i: usize) -> Pair<u64>
        requires row { IsRow self.now before.now }
        requires inside { (0 < p) × (p < self.now.n) × (i + 1 < self.now.n) }
        ensures one_value { result.one ≡ cond (filled_of self.now i) (from_group self.now before.now p i i).0 unreached }
        ensures other_value { result.other ≡ cond (filled_of self.now (i + 1)) (from_group self.now before.now p i (i + 1)).0 unreached }
    {
        let two = self.weigh_beside(before, p, i, i);
        Pair {
            one: self.if_filled(i, two.one.total),
            other: self.if_filled(i + 1, two.other.total),
        }
    }

    // The cells of the stops i and i + 1, i even, in place p. In an odd place each of the two is the group beside the other. Where the group
    // beside has no filled stop, the cells are those of the place before that group.
    fn two_cells(&self, work: &[u64], p: usize, i: usize) -> Pair<u64>
        requires made { RowsMade self.now work.now p }
        requires inside { (0 < p) × (p < self.now.n) × (i + 1 < self.now.n) × (i % 2 ≡ 0) }
        ensures one_value { result.one ≡ total_in (cell_of self.now p i) }
        ensures other_value { result.other ≡ total_in (cell_of self.now p (i + 1)) }
    {
        let before = self.row(work, p - 1);
        if p % 2 == 1 {
            if self.both_filled(i) {
                return self.crossed(before, i);
            }
            return pair_at(before, i);
        }
        if self.beside_filled(p, i) {
            return self.weighed(before, p, i);
        }
        pair_at(self.row(work, p - tree::reach(p)), i)
    }

    // Makes these cells.
    fn make_two(&self, work: &mut [u64], p: usize, i: usize)
        requires made { RowsMade self.now work.old p × CellsMade self.now work.old p i }
        requires inside { (0 < p) × (p < self.now.n) × (i + 1 < self.now.n) × (i % 2 ≡ 0) }
        ensures { RowsMade self.now work.new p × CellsMade self.now work.new p (i + 2) }
    {
        let cells = self.two_cells(work, p, i);
        let at = p * self.n + i;
        work[at] = cells.one;
        work[at + 1] = cells.other;
    }

    // Makes the row of place p, which is not 0.
    fn make_row(&self, work: &mut [u64], p: usize)
        requires made { RowsMade self.now work.old p }
        requires inside { (0 < p) × (p < self.now.n) }
        ensures { RowsMade self.now work.new (p + 1) }
    {
        for i in (0..self.n).step_by(2) {
            self.make_two(work, p, i);
        }
    }

    // Makes the row of place 0.
    fn first_row(&self, work: &mut [u64])
        requires { length work.old ≡ self.now.n * self.now.n }
        ensures { RowsMade self.now work.new 1 }
    {
        for (i, total) in work[..self.n].iter_mut().enumerate() {
            *total = self.if_filled(i, 0);
        }
    }

    // Makes all rows.
    pub fn make_rows(&self, work: &mut [u64])
        requires { length work.old ≡ self.now.n * self.now.n }
        ensures { RowsMade self.now work.new self.now.n }
    {
        self.first_row(work);
        for p in 1..self.n {
            self.make_row(work, p);
        }
    }
}
