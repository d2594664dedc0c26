// A fork that is held in a state: how far down in the tree its sides begin.

ghost use Rattle.std.specs.Prelude.{◌≡◌, ◌≤◌, ◌<◌};
ghost use Rattle.planner.specs.HeldFork.{LevelOf, HoldsFork};

use rows::Held;

// The level of a fork of n stops, 2^level of which are on each of its sides: the fork's number times 2^level is still below n.
fn level(n: usize, fork: usize) -> u32
    requires { (n ≤ 1024) × (0 < fork) × (fork < n) }
    ensures { (result < 10) × LevelOf n fork result }
{
    ((n - 1) / fork).ilog2()
}

// The fork as it is held, and none where its number is 0.
pub fn held(n: usize, fork: usize, exchanged: bool) -> Option<Held>
    requires { (n ≤ 1024) × (fork < n) }
    ensures { HoldsFork n fork exchanged result }
{
    if fork == 0 {
        return None;
    }
    Held::new(fork, level(n, fork), exchanged)
}
