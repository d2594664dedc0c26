// Trees of stops: the definitions and laws of forks, places, orders and totals, and the reach of a place.
//
// No public function has a `requires`.

#![tactic(auto)]

ghost use Rattle.std.specs.Prelude.{◌≡◌};
ghost use Rattle.tree.specs.Neighbour.{reach_of};

// r = 2^t, where t is the number of trailing zero bits of place p. Place 0 has none, and 0 stands for that.
pub fn reach(p: usize) -> usize
    ensures { result ≡ reach_of p }
{
    if p == 0 {
        return 0;
    }
    1usize << usize::trailing_zeros(p)
}
