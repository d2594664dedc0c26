// A path whose head was judged, planned in work space of the job's own. These functions have a `requires`: the module is private.
ghost use Rattle.std.specs.Prelude.{◌≡◌, ◌^◌, ◌≤◌, length};
ghost use Rattle.base.specs.Outcome.{gives};
ghost use Rattle.tree.specs.Total.{entry};
ghost use Rattle.tree.specs.Open.{wanted};
ghost use Rattle.order_file.specs.File.{file_for, file_size};
ghost use Rattle.jobs.specs.Limit.{job_max_k};
ghost use Rattle.jobs.specs.Local.{Ready, FileIsLeft, file_after_head};

use base::{Refusal, stop_count};
use order_file::write_order_file;
use path::PathBytes;
use times::table_from;

// Writes the file of the wanted order by a table.
fn file_by(k: u16, table: &[u32], out: &mut [u8]) -> Result<u64, Refusal>
    requires { Ready k (length table.now) (length out.old) }
    ensures { FileIsLeft (gives (file_for k (entry (2 ^ k) table.now) (wanted k (entry (2 ^ k) table.now)))) out.old out.new result }
{
    let mut order = [0u16; 64];
    let mut totals = [0u64; 128];
    let mut pivots = [0u16; 128];
    planner::plan(k, table, &mut order, &mut totals, &mut pivots)?;
    write_order_file(k, &order, table, out)
}

// Judges the stops after the head, makes their table in a lent one, and writes the file.
fn file_in(path: PathBytes<'_>, table: &mut [u32], out: &mut [u8]) -> Result<u64, Refusal>
    requires { Ready path.k (length table.old) (length out.old) }
    ensures { FileIsLeft (file_after_head path.entry.bytes.now path.entry.version path.entry.k) out.old out.new result }
{
    table_from(path, table)?;
    file_by(path.k, table, out)
}

// Plans a path by its head.
pub fn plan_small(path: PathBytes<'_>, out: &mut [u8]) -> Result<u64, Refusal>
    requires { (path.k ≤ job_max_k) × (file_size (2 ^ path.k) ≤ length out.old) }
    ensures { FileIsLeft (file_after_head path.entry.bytes.now path.entry.version path.entry.k) out.old out.new result }
{
    let n = stop_count(path.k);
    let size = n * n;
    let mut table = [0u32; 4096];
    file_in(path, &mut table[..size], out)
}
