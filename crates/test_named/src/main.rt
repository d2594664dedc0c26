// A week at the set-up screen: orders kept by name and come back to. A session keeps the bytes of a path, the screen's order and sums, and what is kept, and
// each call's line has its number and every place of all of these after it: after a refusal what they held before.

#![tactic(auto)]

mod session;
mod setting;

use session::Session;
use test_support::cases;

// Reads the cases and runs them, in one session: one call, with this program's own.
fn main() {
    cases::run_unfailing(&mut Session::new())
}
