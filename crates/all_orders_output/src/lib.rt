// What the program `all_orders` prints for the bytes that it reads: a line for each allowed order of a path of up to 8 stops, or the number of
// a refusal.
//
// No public function has a `requires`. The output is a value: it needs no lent buffer.

#![tactic(auto, using(orders::proofs::Size::sizes, crate::proofs::Sizes::few), unfolding(crate::specs::Text::line_of, crate::specs::Text::refusal_line))]

mod lines;
mod output;

ghost use Rattle.std.specs.Prelude.{◌≡◌, ◌≤◌};
ghost use Rattle.base.specs.Outcome.{giving, said};
ghost use Rattle.all_orders_output.specs.Output.{program_path, print_max_k, IsOutput};
ghost use Rattle.all_orders_output.specs.Text.{all_orders};
ghost use Rattle.all_orders_output.specs.Local.{text_of, orders_after_head};

use base::{Refusal, stop_count};
use lines::SmallTable;
pub use output::{LONGEST_TEXT, Output};
use path::{PathBytes, judge_head};
use times::table_from;

// The highest version that the program knows.
pub const HIGHEST: u16 = 6;

// The largest k.
const PRINT_MAX_K: u16 = 3;

// The bytes of the longest accepted path, and one more: what comes after them cannot change the output.
pub const ENOUGH_INPUT: usize = 189;

// All orders of a path whose head was judged, by the table of its stops, or the refusal of the stops.
fn orders_of(path: PathBytes) -> Result<Output, Refusal>
    requires { path.k ≤ print_max_k }
    ensures { giving text_of (said result) ≡ orders_after_head path.entry.bytes.now path.entry.version path.entry.k }
{
    let n = stop_count(path.k);
    let mut places = [0u32; 64];
    let times = &mut places[..n * n];
    table_from(path, times)?;
    let table = SmallTable { k: path.k, times };
    Ok(table.lines())
}

// All orders of path bytes, or their refusal.
fn text_for(path: &[u8]) -> Result<Output, Refusal>
    ensures { giving text_of (said result) ≡ giving all_orders (program_path path.now) }
{
    let opened = judge_head(path, HIGHEST)?;
    if PRINT_MAX_K < opened.k {
        return Err(Refusal::WrongK);
    }
    orders_of(opened)
}

// The output for path bytes, of any length.
pub fn output_for(path: &[u8]) -> Output
    ensures { IsOutput path.now result.bytes result.count }
{
    match text_for(path) {
        Ok(output) => output,
        Err(refusal) => Output::refusal(refusal),
    }
}
