// A lent order is judged: k, the lengths, every stop number, then Theorem 7's test at every place.
ghost use Rattle.std.specs.Prelude.{◌≡◌, true, ◌≤◌, ◌<◌, ◌^◌, length};
ghost use Rattle.base.specs.Outcome.{done, said};
ghost use Rattle.base.specs.Size.{max_k};
ghost use Rattle.tree.specs.Neighbour.{may_follow};
ghost use Rattle.orders.specs.Allowed.{stops_below, is_allowed, judge_order};
ghost use Rattle.orders.specs.Lent.{order_in, lent_order};

use base::{MAX_K, Refusal, stop_count};

// A lent order of a tree: k, and at least n numbers, of which only the first n are looked at.
#[derive(Clone, Copy)]
pub struct LentOrder<'a> {
    pub k: u16,
    pub stops: &'a [u16],
    ghost small: { k ≤ max_k },
    ghost long: { 2 ^ k ≤ length stops.now },
}

impl<'a> LentOrder<'a> {
    // Whether all are below n.
    fn stops_below(self) -> bool
        ensures { result ≡ stops_below (2 ^ self.entry.k) (order_in self.entry.k self.entry.stops.now) }
    {
        let n = stop_count(self.k);
        self.stops[..n].iter().all(|stop| (*stop as usize) < n)
    }

    // Whether they are an allowed order, if all are below n. n is handed over: made here, it would be tested by a shift in each turn.
    fn is_allowed(self, n: usize) -> bool
        requires { (n ≡ 2 ^ self.k) × (stops_below (2 ^ self.k) (order_in self.k self.stops.now) ≡ true) }
        ensures { result ≡ is_allowed self.entry.k (order_in self.entry.k self.entry.stops.now) }
    {
        // By places: zipped with the pairs of neighbours, `order_total` and `fork_bits` took a quarter to a third more instructions.
        for p in 1..n {
            if !may_follow(p, self.stops[p - 1], self.stops[p]) {
                return false;
            }
        }
        true
    }

    // Judges them: no such stop, then not allowed.
    fn judge(self) -> Result<(), Refusal>
        ensures { said result ≡ done (judge_order self.entry.k (order_in self.entry.k self.entry.stops.now)) }
    {
        if !self.stops_below() {
            return Err(Refusal::NoSuchStop);
        }
        if !self.is_allowed(stop_count(self.k)) {
            return Err(Refusal::NotAllowed);
        }
        Ok(())
    }
}

// Whether stop b may stand in place p after stop a: their exclusive or is at least r and less than 2r.
fn may_follow(p: usize, a: u16, b: u16) -> bool
    requires { 0 < p }
    ensures { result ≡ may_follow p a b }
{
    let r = tree::reach(p);
    let x = (a ^ b) as usize;
    r <= x && x - r < r
}

// Judges a lent order: its first n numbers are an allowed order, and whatever else is lent fits.
pub fn judge_lent(k: u16, order: &[u16], fits: bool) -> Result<(), Refusal>
    ensures { said result ≡ done (lent_order k order.now fits) }
{
    if MAX_K < k {
        return Err(Refusal::WrongK);
    }
    if order.len() < stop_count(k) || !fits {
        return Err(Refusal::WrongSize);
    }
    LentOrder { k, stops: order }.judge()
}
