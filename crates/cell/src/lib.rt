// The three calls of the cell's controller, which is written in C: in C a slice is a pointer and then a length.
//
// Each call is a job of the crate `jobs`, which takes k up to 6 and keeps its work space to itself; here its answer becomes one signed number:
// the count of bytes written, 0 for a good check, or the refusal's number made negative. A refusal touches nothing; after success the
// output holds the result first and is untouched beyond. No public function has a `requires`. The parameters stay apart, as C hands them.

#![tactic(auto)]

ghost use Rattle.std.specs.Prelude.{◌≡◌};
ghost use Rattle.cell.specs.Cell.{CellPlans, cell_check, CellRewrites};

use signed::{answer, done};

// Plans the wanted order of a path and writes its order file. `highest` is the highest version that the controller knows, 4, 5 or 6.
#[unsafe(no_mangle)]
pub extern "C" fn cell_plan(path: &[u8], highest: u16, out: &mut [u8]) -> i64
    ensures { CellPlans path highest out result }
{
    answer(jobs::plan_file(path, highest, out))
}

// Checks an order file against a path. The path is read first.
#[unsafe(no_mangle)]
pub extern "C" fn cell_check(path: &[u8], highest: u16, file: &[u8]) -> i64
    ensures { result ≡ cell_check path.now highest file.now }
{
    done(jobs::check_file(path, highest, file))
}

// Writes a path in another version. The path is read first; then the version, 13 and the output are tested.
#[unsafe(no_mangle)]
pub extern "C" fn cell_rewrite(path: &[u8], highest: u16, version: u16, out: &mut [u8]) -> i64
    ensures { CellRewrites path highest version out result }
{
    answer(jobs::rewrite_file(path, highest, version, out))
}
