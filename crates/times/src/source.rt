// Stops that were judged, whatever they come from.

ghost use Rattle.std.specs.Prelude.{◌≡◌, Bool, true, ℕ, ◌<◌};
ghost use Rattle.base.specs.Lists.{tabulate};
ghost use Rattle.stop.specs.Stop.{in_range};
ghost use Rattle.stop.specs.Lent.{lent, stop_at, stops_fit, all_in_range};

use path::{PathBytes, StopSource};
use stop::{Stop, Stops};

// Where stops come from that are read again and again once they are judged.
pub trait JudgedSource: StopSource {
    // Whether the first n stops are there to be read with no test of their places.
    ghost holds: { Self → ℕ → Bool };

    // Stop i of n that are there.
    fn read(self, i: usize) -> Stop
        requires { (n : ℕ) × (i < n) × (holds self n ≡ true) }
        ensures { result ≡ Self.stop_at self i };
}

// By `Stops::at`, which tests each buffer, a table takes a sixth longer.
impl JudgedSource for Stops<'_> {
    ghost holds = { λ s n. stops_fit n (lent s) };

    #[tactic(auto, using(stop::proofs::Lent::places), unfolding(stop::specs::Lent::stop_at, stop::specs::Lent::point_at))]
    fn read(self, i: usize) -> Stop {
        let x = 3 * i;
        Stop {
            at: [self.coords[x], self.coords[x + 1], self.coords[x + 2]],
            speed: self.speeds[i],
            blend: self.blends[i],
            dwell: self.dwells[i],
        }
    }
}

impl JudgedSource for PathBytes<'_> {
    ghost holds = { λ s n. true };

    fn read(self, i: usize) -> Stop {
        self.stop(i)
    }
}

// The first `count` stops of a source, which are there, and each of which is in range.
#[derive(Drop)]
pub struct Judged<S: JudgedSource> {
    pub source: S,
    pub count: usize,
    pub ghost there: { S.holds source count ≡ true },
    pub ghost good: { all_in_range (tabulate count (S.stop_at source)) ≡ true },
}

impl<S: JudgedSource> Judged<S> {
    // Stop i.
    pub fn stop(&self, i: usize) -> Stop
        requires { i < self.now.count }
        ensures is { result ≡ S.stop_at self.now.source i }
        ensures good { in_range result ≡ true }
    {
        self.source.read(i)
    }
}
