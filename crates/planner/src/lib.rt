// The planner: the wanted order of 2^k stops, from a table of travel times (Algorithm 2 of document 000).
//
// No public function has a `requires`. The contract of `plan` cites `specs/Plan.antt` and, through it, the order that is wanted by
// plain enumeration. The private module `halve` holds the method, halving the places by recursion, for any costs by place; the rows of best
// totals are made by the crate `rows`. `plan` is the instance whose costs come from a table. `totals` and `pivots` stay two parameters, as in `rows` and for its reason.
// So each function that takes them asks for their lengths. `n` and `table` of a tour stay two as well: each last stop makes costs of its own from them.
// Costs are made by `new` of the types of `rows`, which tests what the slices are asked for: the lengths were judged before, so that there are some is proved.

#![tactic(auto)]

mod halve;
mod held_fork;
mod round;

ghost use Rattle.std.specs.Prelude.{◌≡◌, ℕ, ◌≤◌};
ghost use Rattle.base.specs.Outcome.{said, done};
ghost use Rattle.planner.specs.Weighings.{foretold_weighings, foretold};
ghost use Rattle.planner.specs.Plan.{plan_room, PlansOrder};
ghost use Rattle.planner.specs.Places.{places_room, PlansPlaces};
ghost use Rattle.planner.specs.Tour.{tour_room, PlansTour};
ghost use Rattle.planner.specs.HeldFork.{plan_held, PlansHeld};

use base::Refusal;
use path::PathBytes;
use rows::{ByPath, ByPlaces, ByTable};

// Tours are for k up to this.
const MAX_TOUR_K: u16 = 7;

// What a plan comes to: the total of the order that was written, and the number of weighings.
#[derive(Clone, Copy, Debug, PartialEq, Eq)]
pub struct Planned {
    pub total: u64,
    pub weighings: u64,
}

// What a plan takes: bytes of lent work space, and weighings.
#[derive(Clone, Copy, Debug, PartialEq, Eq)]
pub struct Foretold {
    pub bytes: u64,
    pub weighings: u64,
}

// Whether these lengths will do: refused are k above 10, and then a table not n² long or a lent buffer too short. The lengths stay five numbers: a struct of them would be
// made at each call only to be taken apart here, and is no plainer.
#[tactic(auto, unfolding(crate::specs::Plan::plan_room, crate::specs::Plan::plan_fits), using(crate::proofs::Sizes::counts))]
pub fn judge_lengths(
    k: u16,
    table: usize,
    order: usize,
    totals: usize,
    pivots: usize,
) -> Result<(), Refusal>
    ensures { said result ≡ plan_room k table order totals pivots }
{
    if base::MAX_K < k {
        return Err(Refusal::WrongK);
    }
    let n = base::stop_count(k);
    if table != n * n {
        return Err(Refusal::WrongSize);
    }
    if order < n {
        return Err(Refusal::WrongSize);
    }
    if totals < n + n {
        return Err(Refusal::WrongSize);
    }
    if pivots < n + n {
        return Err(Refusal::WrongSize);
    }
    Ok(())
}

// Writes the wanted order of n = 2^k stops into the first n places of `order` and answers its total and how many candidates were weighed. The table has row 'from' and column
// 'to' and is exactly n² long. `totals` and `pivots` are work space of 2n numbers each, which are 0 afterwards. A refusal writes nothing.
pub fn plan(
    k: u16,
    table: &[u32],
    order: &mut [u16],
    totals: &mut [u64],
    pivots: &mut [u16],
) -> Result<Planned, Refusal>
    ensures { PlansOrder k table order totals pivots result }
{
    judge_lengths(k, table.len(), order.len(), totals.len(), pivots.len())?;
    let costs = ByTable::new(base::stop_count(k), table, None).unwrap();
    Ok(halve::run(costs, order, totals, pivots, k as u32))
}

// Whether the lengths will do where places cost extra: as above, and then a second table n² long too.
#[tactic(auto, unfolding(crate::specs::Places::places_room), using(crate::proofs::Sizes::counts))]
fn judge_places(
    k: u16,
    table: usize,
    places: usize,
    order: usize,
    totals: usize,
    pivots: usize,
) -> Result<(), Refusal>
    ensures { said result ≡ places_room k table places order totals pivots }
{
    judge_lengths(k, table, order, totals, pivots)?;
    let n = base::stop_count(k);
    if places != n * n {
        return Err(Refusal::WrongSize);
    }
    Ok(())
}

// M-107: as `plan`, where a stop's entry for its place is added to the total, place 0 included. `places` has row stop and column place and is
// exactly n² long.
pub fn plan_places(
    k: u16,
    table: &[u32],
    places: &[u32],
    order: &mut [u16],
    totals: &mut [u64],
    pivots: &mut [u16],
) -> Result<u64, Refusal>
    ensures { PlansPlaces k table places order totals pivots result }
{
    judge_places(
        k,
        table.len(),
        places.len(),
        order.len(),
        totals.len(),
        pivots.len(),
    )?;
    let moves = ByTable::new(base::stop_count(k), table, None).unwrap();
    let costs = ByPlaces::new(moves, places).unwrap();
    Ok(halve::run(costs, order, totals, pivots, k as u32).total)
}

// Whether the lengths of a tour will do: k is at most 7, and then as above.
#[tactic(auto, unfolding(crate::specs::Tour::tour_room))]
fn judge_tour(
    k: u16,
    table: usize,
    order: usize,
    totals: usize,
    pivots: usize,
) -> Result<(), Refusal>
    ensures { said result ≡ tour_room k table order totals pivots }
{
    if MAX_TOUR_K < k {
        return Err(Refusal::WrongK);
    }
    judge_lengths(k, table, order, totals, pivots)
}

// M-104: as `plan`, where the move from the last stop back to the first counts too. k is at most 7; for one stop the total is 0.
pub fn tour(
    k: u16,
    table: &[u32],
    order: &mut [u16],
    totals: &mut [u64],
    pivots: &mut [u16],
) -> Result<u64, Refusal>
    ensures { PlansTour k table order totals pivots result }
{
    judge_tour(k, table.len(), order.len(), totals.len(), pivots.len())?;
    let n = base::stop_count(k);
    Ok(round::whole_tour(n, table, order, totals, pivots, k as u32))
}

// Whether planning by path bytes can begin: as above, then the stops and the end are judged, and the fork is below n.
fn judge_held(
    path: PathBytes,
    fork: u16,
    order: usize,
    totals: usize,
    pivots: usize,
) -> Result<(), Refusal>
    ensures { (state : ℕ) → said result ≡ done (plan_held path.entry.bytes.now path.entry.version path.entry.k fork state order totals pivots) }
{
    let n = base::stop_count(path.k);
    judge_lengths(path.k, n * n, order, totals, pivots)?;
    path.judge()?;
    if n <= fork as usize {
        return Err(Refusal::NoSuchFork);
    }
    Ok(())
}

// M-101: as `plan`, by the times between the stops of path bytes, and among the orders that have `fork` exchanged or not; fork 0 is none, and then all orders count. No
// table is made: each time is read from the bytes.
pub fn plan_held(
    path: PathBytes,
    fork: u16,
    exchanged: bool,
    order: &mut [u16],
    totals: &mut [u64],
    pivots: &mut [u16],
) -> Result<u64, Refusal>
    ensures { PlansHeld path.entry fork exchanged order totals pivots result }
{
    judge_held(path, fork, order.len(), totals.len(), pivots.len())?;
    let n = base::stop_count(path.k);
    let held = held_fork::held(n, fork as usize, exchanged);
    let costs = ByPath::new(n, path, held).unwrap();
    Ok(halve::run(costs, order, totals, pivots, path.k as u32).total)
}

// How many candidates a plan of 2^k stops weighs.
#[tactic(auto, unfolding(crate::specs::Weighings::foretold_weighings))]
fn weighings_for(k: u16) -> u64
    requires { k ≤ 10 }
    ensures { result ≡ foretold_weighings k }
{
    if k == 0 {
        return 0;
    }
    if k == 1 {
        return 2;
    }
    (k as u64 - 1) << (2 * k)
}

// What a plan of 2^k stops takes, from k alone: 20n bytes of lent work space, and the weighings.
#[tactic(auto, unfolding(crate::specs::Weighings::foretold), using(crate::proofs::Sizes::counts))]
pub fn foretell(k: u16) -> Result<Foretold, Refusal>
    ensures { said result ≡ foretold k }
{
    if base::MAX_K < k {
        return Err(Refusal::WrongK);
    }
    let n = base::stop_count(k);
    Ok(Foretold {
        bytes: 20 * n as u64,
        weighings: weighings_for(k),
    })
}
