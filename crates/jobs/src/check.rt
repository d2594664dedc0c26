// An order file checked against the stops of path bytes. This function has a `requires`: the module is private.
ghost use Rattle.std.specs.Prelude.{◌≡◌, ◌≤◌};
ghost use Rattle.base.specs.Outcome.{said};
ghost use Rattle.jobs.specs.Limit.{job_max_k};
ghost use Rattle.jobs.specs.Local.{check_against};

use base::Refusal;
use order_file::read_unsummed;
use path::PathBytes;
use times::sum_in;

// Checks a file by the stops after a head. They are judged where the file's moves are summed, once for both; their refusal comes before the file's.
pub fn check_against(path: PathBytes<'_>, file: &[u8]) -> Result<(), Refusal>
    requires { path.k ≤ job_max_k }
    ensures { said result ≡ check_against path.entry.bytes.now path.entry.version path.entry.k file.now }
{
    let mut order = [0u16; 64];
    let read = read_unsummed(path.k, file, &mut order);
    let sum = sum_in(path, &order)?;
    let total = read?;
    if total != sum {
        return Err(Refusal::WrongTotal);
    }
    Ok(())
}
