// The controller's three jobs on path bytes: an order file planned, an order file checked, and a path rewritten in another version.
//
// Each job takes k up to 6 and keeps its work space to itself. The path's head is judged once, the job's own test of k comes directly after
// it, and every stop is judged once before anything is written. No public function has a `requires`.

#![tactic(auto, using(orders::proofs::Size::sizes, crate::proofs::Limits::limits))]

mod check;
mod plan;

ghost use Rattle.std.specs.Prelude.{◌≡◌, IfOk};
ghost use Rattle.base.specs.Outcome.{giving, said};
ghost use Rattle.path.specs.Bytes.{opened};
ghost use Rattle.jobs.specs.Local.{job_head};
ghost use Rattle.jobs.specs.Plan.{PlansFile};
ghost use Rattle.jobs.specs.Check.{check_file};
ghost use Rattle.jobs.specs.Rewrite.{RewritesFile};

use base::Refusal;
use path::{PathBytes, judge_head};

// The largest k of a job.
const JOB_MAX_K: u16 = 6;

// A job's path by its head: a k above 6 is refused directly after it (8). The bytes and the highest known version are the calls' own parameters;
// what was judged of them is `PathBytes`.
fn judge_job(path: &[u8], highest: u16) -> Result<PathBytes<'_>, Refusal>
    ensures head { giving opened (said result) ≡ job_head path.now highest }
    ensures same { IfOk result (λ p. p.bytes.now ≡ path.now) }
{
    let path = judge_head(path, highest)?;
    if JOB_MAX_K < path.k {
        return Err(Refusal::WrongSize);
    }
    Ok(path)
}

// Plans the wanted order of a path, for a caller that knows versions up to `highest`, writes its order file and answers its bytes.
pub fn plan_file(path: &[u8], highest: u16, out: &mut [u8]) -> Result<u64, Refusal>
    ensures { PlansFile path highest out result }
{
    let path = judge_job(path, highest)?;
    if out.len() < order_file::file_size(path.k) {
        return Err(Refusal::WrongSize);
    }
    plan::plan_small(path, out)
}

// Checks an order file against a path. The path is read first.
pub fn check_file(path: &[u8], highest: u16, file: &[u8]) -> Result<(), Refusal>
    ensures { said result ≡ check_file path.now highest file.now }
{
    let path = judge_job(path, highest)?;
    check::check_against(path, file)
}

// Writes a path in another version, and answers its bytes. The path is read first; then the version, 13 and the output are tested.
pub fn rewrite_file(path: &[u8], highest: u16, version: u16, out: &mut [u8]) -> Result<u64, Refusal>
    ensures { RewritesFile path highest version out result }
{
    let path = judge_job(path, highest)?;
    path::rewrite_path(path, version, out)
}
