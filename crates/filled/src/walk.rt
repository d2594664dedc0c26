// The walk back through the table: from the best last stop to the stop before it, and so on to the first.

ghost use Rattle.std.specs.Prelude.{◌≡◌, true, ℕ, ◌+◌, ◌-◌, ◌*◌, ◌≤◌, ◌<◌, List, length, get_or, set};
ghost use Rattle.base.specs.Outcome.{over};
ghost use Rattle.tree.specs.Total.{total};
ghost use Rattle.walks.specs.Best.{at};
ghost use Rattle.filled.specs.Table.{beside_filled, table_at};
ghost use Rattle.filled.specs.Row.{filled_of, times_of, cell_of, standing, least_in, RowsMade};
ghost use Rattle.filled.specs.Walk.{Walking, wanted_of, count_of};

use crate::choice::Choice;
use crate::tray::Tray;

// The cheapest stop of a row.
fn last_stop(row: &[u64]) -> Choice
    ensures { (result.total, result.stop) ≡ least_in (standing row.now) 0 (length row.now) }
{
    let mut held = Choice::NONE;
    for (stop, total) in row.iter().enumerate() {
        held = held.keep(*total, stop);
    }
    held
}

// A stop's number, written at `at`.
fn put(list: &mut [u16], at: usize, stop: usize)
    requires { (at < length list.old) × (stop < 64) }
    ensures { list.new ≡ set list.old at stop }
{
    list[at] = stop as u16;
}

impl Tray<'_> {
    // The last place up to p in which stop i has a filled stop in the group beside it, or 0. It has the same cell.
    fn land(&self, p: usize, i: usize) -> usize
        requires { (p < self.now.n) × (i < self.now.n) }
        ensures low { result ≤ p }
        ensures same { (t : ℕ → ℕ → ℕ) → table_at self.now.k (filled_of self.now) t result i ≡ table_at self.now.k (filled_of self.now) t p i }
        ensures beside { 0 < result → beside_filled self.now.k (filled_of self.now) result i ≡ true }
    {
        let mut q = p;
        // The step is another in each place, which no range has.
        while 0 < q {
            if self.beside_filled(q, i) {
                return q;
            }
            q -= tree::reach(q);
        }
        q
    }

    // The stop before stop i in place p, where the group beside it has a filled stop.
    fn stop_before(&self, work: &[u64], p: usize, i: usize) -> usize
        requires made { RowsMade self.now work.now self.now.n }
        requires inside { (0 < p) × (p < self.now.n) × (i < self.now.n) }
        requires beside { beside_filled self.now.k (filled_of self.now) p i ≡ true }
        ensures { (c : ℕ) (l : List ℕ) → cell_of self.now p i ≡ at c l → result ≡ get_or l 0 0 }
    {
        let two = self.weigh_beside(self.row(work, p - 1), p, i, i - i % 2);
        if i % 2 == 0 {
            return two.one.stop;
        }
        two.other.stop
    }

    // Writes the wanted list from its last stop, which stands at `end`, back to its first.
    fn walk_back(&self, work: &[u64], list: &mut [u16], last: usize, end: usize)
        requires made { RowsMade self.now work.now self.now.n }
        requires walking { Walking self.now list.old list.old (self.now.n - 1) last end }
        ensures { list.new ≡ over (wanted_of self.now) list.old }
    {
        let mut p = self.n - 1;
        let mut i = last;
        for at in (0..end).rev() {
            let q = self.land(p, i);
            i = self.stop_before(work, q, i);
            p = q - 1;
            put(list, at, i);
        }
    }

    // Writes the wanted list of `count` stops and gives its total; the table is left in the work space.
    pub fn wanted_list(&self, work: &mut [u64], list: &mut [u16], count: usize) -> u64
        requires work { length work.old ≡ self.now.n * self.now.n }
        requires count { (count ≡ count_of self.now) × (count ≤ length list.old) }
        ensures value { result ≡ total (times_of self.now) (wanted_of self.now) }
        ensures list_after { list.new ≡ over (wanted_of self.now) list.old }
    {
        if count == 0 {
            return 0;
        }
        self.make_rows(work);
        let last = last_stop(self.row(work, self.n - 1));
        put(list, count - 1, last.stop);
        self.walk_back(work, list, last.stop, count - 1);
        last.total
    }
}
