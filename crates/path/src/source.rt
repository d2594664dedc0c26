// Where stops come from that are read by their numbers: lent buffers, a path's bytes, and bytes that hold so many stops whole.
ghost use Rattle.std.specs.Prelude.{ℕ, ◌≡◌, ◌≤◌, length};
ghost use Rattle.stop.specs.declared.Stop.{Stop};
ghost use Rattle.stop.specs.Lent.{lent, stop_at};
ghost use Rattle.path.specs.Path.{stop_in, stop_place};

use crate::PathBytes;
use stop::{Stop, Stops};

// Stops by their numbers, each the same whenever it is read.
pub trait StopSource: Copy {
    ghost stop_at: { Self → ℕ → Stop };

    // Stop i.
    fn stop(self, i: usize) -> Stop
        ensures { result ≡ stop_at self i };
}

impl StopSource for Stops<'_> {
    ghost stop_at = { λ s i. stop_at (lent s) i };

    fn stop(self, i: usize) -> Stop {
        self.at(i)
    }
}

impl StopSource for PathBytes<'_> {
    ghost stop_at = { λ p i. stop_in p.version i p.bytes.now };

    fn stop(self, i: usize) -> Stop {
        PathBytes::stop(self, i)
    }
}

// A path's bytes that hold the records of the first `count` stops whole: these are read with no test of their places.
#[derive(Clone, Copy)]
pub struct Whole<'a> {
    pub path: PathBytes<'a>,
    pub count: usize,
    pub ghost holds: { stop_place path.version count ≤ length path.bytes.now },
}

impl StopSource for Whole<'_> {
    ghost stop_at = { λ w i. stop_in w.path.version i w.path.bytes.now };

    fn stop(self, i: usize) -> Stop {
        if i < self.count {
            self.path.stop_within(i)
        } else {
            self.path.stop(i)
        }
    }
}
