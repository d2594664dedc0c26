// Up to eight orders of the set-up screen, kept by name with their sums, and come back to.
//
// Lent are 8 mark bytes, 8n stops and 8n sums: name m has mark m - 1 and the n stops and n sums from (m - 1)n on. A mark is 1 when used, and any
// other mark means that nothing is kept. What is kept belongs to one path; for a new one the caller clears the marks.
//
// No public function has a `requires`. A refusal gives its number and touches no lent buffer. There is no work space.

#![tactic(auto, using(orders::proofs::Size::sizes, crate::proofs::Names::starts), unfolding(crate::specs::Names::places_of, crate::specs::Names::named, crate::specs::Names::is_used, crate::specs::Names::lent_under, crate::specs::Calls::clear_marks))]

mod judge;
mod store;

ghost use Rattle.named.specs.Calls.{KeepsOrder, ComesBack, ClearsMarks};

use base::Refusal;
use judge::{Kept, NAMES, judge_back, judge_keep, places};
use screen::judge_path;

// Keeps the screen's order and sums under a name, and replaces what was kept there. Refused are a faulty path, order or sums (9, 10, 11), as by an
// exchange, and then a name that is not 1 to 8 (15).
pub fn keep(
    bytes: &[u8],
    highest: u16,
    name: u16,
    order: &[u16],
    sums: &[u64],
    marks: &mut [u8],
    stops: &mut [u16],
    kept: &mut [u64],
) -> Result<(), Refusal>
    ensures { KeepsOrder bytes highest name order sums marks stops kept result }
{
    let lent = places(
        marks.len(),
        stops.len(),
        kept.len(),
        order.len(),
        sums.len(),
    );
    let path = judge_path(bytes, highest, lent)?;
    judge_keep(path, name, order, sums)?;
    store::keep_under(path.k, name as usize, order, sums, marks, stops, kept);
    Ok(())
}

// Brings the order and sums that were kept under a name back to the screen. Refused are a faulty path, order or sums on the screen (9, 10, 11), a name
// that is not 1 to 8 (15), one under which nothing is kept (16), and then what was kept, by the same tests (9, 10, 11).
pub fn come_back(
    bytes: &[u8],
    highest: u16,
    name: u16,
    order: &mut [u16],
    sums: &mut [u64],
    marks: &[u8],
    stops: &[u16],
    kept: &[u64],
) -> Result<(), Refusal>
    ensures { ComesBack bytes highest name order sums marks stops kept result }
{
    let lent = places(
        marks.len(),
        stops.len(),
        kept.len(),
        order.len(),
        sums.len(),
    );
    let path = judge_path(bytes, highest, lent)?;
    let kept = Kept {
        marks,
        stops,
        sums: kept,
    };
    judge_back(path, name, order, sums, kept)?;
    store::bring_back(path.k, name as usize, order, sums, kept);
    Ok(())
}

// Clears the marks, for a new path: the 8 are set to 0. Fewer are refused (8).
pub fn clear(marks: &mut [u8]) -> Result<(), Refusal>
    ensures { ClearsMarks marks result }
{
    if marks.len() < NAMES {
        return Err(Refusal::WrongSize);
    }
    marks[..NAMES].fill(0);
    Ok(())
}
