// Sessions of the set-up screen. A session keeps the bytes of a path, an order and sums, and each call's line has its number and every place
// of the order and of the sums after it: after a refusal what they held before.

#![tactic(auto)]

mod paths;
mod session;

use session::Session;
use test_support::cases;

// Reads the cases and runs them, in one session: one call, with this program's own.
fn main() {
    cases::run_unfailing(&mut Session::new())
}
