// From path bytes to the returned order: the path is judged, the table of travel times is made from its bytes, and the wanted order is planned.
//
// `plan_path` is the one public function and has no `requires`. Its contract has demand 3, whole, as its claim; `specs/Claim.antt` says it.

#![tactic(auto)]

ghost use Rattle.path_plan.specs.PathPlan.{PlansPath};

use base::Refusal;
use path::judge_head;

// What planning a path answers: its version, k and the total of the order that was written.
#[derive(Clone, Copy, Debug, PartialEq, Eq)]
pub struct PathPlanned {
    pub version: u16,
    pub k: u16,
    pub total: u64,
}

// Plans the wanted order of path bytes, for a caller that knows versions up to `highest`. The table is exactly n² long, `order` needs n
// places, `totals` and `pivots` 2n. All of that is tested in the path's head, and the path is judged whole, before anything is written.
pub fn plan_path(
    bytes: &[u8],
    highest: u16,
    table: &mut [u32],
    order: &mut [u16],
    totals: &mut [u64],
    pivots: &mut [u16],
) -> Result<PathPlanned, Refusal>
    ensures { PlansPath bytes highest table order totals pivots result }
{
    let path = judge_head(bytes, highest)?;
    planner::judge_lengths(path.k, table.len(), order.len(), totals.len(), pivots.len())?;
    times::table_from(path, table)?;
    let planned = planner::plan(path.k, table, order, totals, pivots)?;
    Ok(PathPlanned {
        version: path.version,
        k: path.k,
        total: planned.total,
    })
}
