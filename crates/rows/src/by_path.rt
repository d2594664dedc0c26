// Costs by the bytes of a path: no table is made, and each time is read from the bytes.

ghost use Rattle.std.specs.Prelude.{◌≡◌, ◌↔◌, ◌+◌, ◌*◌, ◌^◌, ◌≤◌, ◌<◌, IsSome, IfSome};
ghost use Rattle.rows.specs.Source.{held_fits, path_costing};

use crate::cost::Costs;
use crate::fork::Held;
use path::PathBytes;

// Costs by the times between the n stops of a path's bytes, with a fork held or none.
#[derive(Clone, Copy)]
pub struct ByPath<'a> {
    pub n: usize,
    pub path: PathBytes<'a>,
    pub held: Option<Held>,
    ghost small: { n ≤ 1024 },
}

impl<'a> ByPath<'a> {
    // The costs of n stops by these bytes, and none where there are more than 1,024.
    pub fn new(n: usize, path: PathBytes<'a>, held: Option<Held>) -> Option<ByPath<'a>>
        ensures fits { IsSome result ↔ (n ≤ 1024) }
        ensures holds { IfSome result (λ c. (c.n ≡ n) × (c.path.bytes.now ≡ path.entry.bytes.now) × (c.path.version ≡ path.entry.version) × (c.held ≡ held)) }
    {
        if n <= 1024 {
            Some(ByPath { n, path, held })
        } else {
            None
        }
    }

    // The same by a fork's numbers, 0 for no fork, with 2^level stops on each of its sides: none where the level is above 9 too. A fork that cannot be held
    // is refused so, and not taken for no fork, as the none of `Held::new` would be.
    pub fn holding(
        n: usize,
        path: PathBytes<'a>,
        fork: usize,
        level: u32,
        exchanged: bool,
    ) -> Option<ByPath<'a>>
        ensures fits { IsSome result ↔ ((n ≤ 1024) × (level < 10)) }
        ensures same { IfSome result (λ c. (c.n ≡ n) × (c.path.bytes.now ≡ path.entry.bytes.now) × (c.path.version ≡ path.entry.version)) }
        ensures holds { IfSome result (λ c. IsSome c.held ↔ (0 < fork)) }
        ensures state { IfSome result (λ c. IfSome c.held (λ h. (h.fork ≡ fork) × (h.level ≡ level) × (h.exchanged ≡ exchanged))) }
    {
        if level < 10 {
            ByPath::new(n, path, Held::new(fork, level, exchanged))
        } else {
            None
        }
    }
}

// Whether stop i of n may stand in `place`, where this fork is held.
#[tactic(auto, unfolding(crate::specs::Source::held_fits), using(crate::proofs::Table::fits_below))]
fn fits(n: usize, held: Option<Held>, place: usize, i: usize) -> bool
    requires { (n ≤ 1024) × (i < 1024) }
    ensures { result ≡ held_fits n held place i }
{
    match held {
        None => true,
        Some(held) => {
            let level = held.level;
            if (n + i) >> (level + 1) != held.fork {
                return true;
            }
            let side = (i >> level) % 2;
            (place >> level) % 2 == (side + held.exchanged as usize) % 2
        }
    }
}

impl<'a> Costs for ByPath<'a> {
    ghost costing = { λ s. path_costing s.n s.path.version s.path.bytes.now s.held };

    // A line that stands in `ByTable` too: a trait knows no fields.
    fn stops(self) -> usize {
        self.n
    }

    fn fits(self, place: usize, i: usize) -> bool {
        fits(self.n, self.held, place, i)
    }

    fn of_start(self, _i: usize) -> u64 {
        0
    }

    fn of_move(self, _place: usize, from: usize, to: usize) -> u64 {
        times::time_in(self.path, from, to) as u64
    }

    ghost small = { λ s. s.small };
}
