// The wanted list of filled stops: trays leave stops empty, and the list of least total of the others is planned, with its fork bits.
//
// `plan_filled` is the one public function and has no `requires`. Its contract cites `specs/Filled.antt` and, through it, the list that is
// wanted by plain enumeration and its forks. The private modules hold the method: `tray` knows which stops are filled, `choice` weighs
// candidates, `row` makes the table by places, `walk` reads the list off it, `fork` reads the forks off the list.

#![tactic(auto)]

mod choice;
mod fork;
mod row;
mod tray;
mod walk;

ghost use Rattle.std.specs.Prelude.{◌≡◌, ◌+◌, ◌*◌, ◌/◌, ◌≤◌, length};
ghost use Rattle.base.specs.Outcome.{gives, said};
ghost use Rattle.filled.specs.Filled.{flags, filled_in, lengths_first, list_room, PlansList};
ghost use Rattle.filled.specs.Row.{set_of};
ghost use Rattle.filled.specs.Walk.{WritesList};

use base::{Refusal, stop_count};
use tray::Tray;

// The largest k of a tray.
pub const MAX_FILLED_K: u16 = 6;

// What planning answers: the total and the length of the list that was written.
#[derive(Clone, Copy, Debug, PartialEq, Eq)]
pub struct ListPlanned {
    pub total: u64,
    pub length: usize,
}

// The refusal of these lengths: k above 6 (5), then a table not n² long or a lent buffer too short (8). The lengths stay five numbers, here and in `judge`: a struct of them
// would be made for one call and taken apart in it, and is no plainer.
#[tactic(auto, unfolding(crate::specs::Filled::lengths_first, crate::specs::Filled::list_fits), using(crate::proofs::Loops::counts))]
fn judge_lengths(
    k: u16,
    table: usize,
    empties: usize,
    list: usize,
    bits: usize,
    work: usize,
) -> Result<(), Refusal>
    ensures { said result ≡ lengths_first k table empties list bits work (gives tt) }
{
    if MAX_FILLED_K < k {
        return Err(Refusal::WrongK);
    }
    let n = stop_count(k);
    if table != n * n || empties < n || list < n || bits < (n + 7) / 8 || work < n * n {
        return Err(Refusal::WrongSize);
    }
    Ok(())
}

// Whether the bytes are all 0 or 1.
fn are_flags(bytes: &[u8]) -> bool
    ensures { result ≡ flags bytes.now }
{
    bytes.iter().all(|byte| *byte <= 1)
}

// The refusal of a call: the lengths first, then a byte that is not 0 or 1 (6).
fn judge(
    k: u16,
    table: usize,
    empties: &[u8],
    list: usize,
    bits: usize,
    work: usize,
) -> Result<(), Refusal>
    ensures { said result ≡ list_room k table empties.now list bits work }
{
    judge_lengths(k, table, empties.len(), list, bits, work)?;
    if are_flags(&empties[..stop_count(k)]) {
        Ok(())
    } else {
        Err(Refusal::OutOfRange)
    }
}

// The set of the filled stops: bit i is stop i, whose byte is 0.
fn filled_set(empties: &[u8]) -> u64
    requires { length empties.now ≤ 64 }
    ensures { result ≡ set_of (filled_in empties.now) (length empties.now) }
{
    let mut set: u64 = 0;
    for (i, byte) in empties.iter().enumerate() {
        if *byte == 0 {
            set += 1u64 << i;
        }
    }
    set
}

// Writes the wanted list, its fork bits, and 0 to all of the work space.
fn run(tray: &Tray, list: &mut [u16], bits: &mut [u8], work: &mut [u64]) -> ListPlanned
    requires work { length work.old ≡ tray.now.n * tray.now.n }
    requires buffers { (tray.now.n ≤ length list.old) × ((tray.now.n + 7) / 8 ≤ length bits.old) }
    ensures { WritesList tray.now list bits work result }
{
    let length = tray.filled.count_ones() as usize;
    let total = tray.wanted_list(work, list, length);
    tray.write_bits(&list[..length], bits);
    work.fill(0);
    ListPlanned { total, length }
}

// Plans the wanted list of the filled stops among n = 2^k, k up to 6. `empties` has one byte a stop, 0 for filled and 1 for empty. The table has row
// 'from' and column 'to' and is exactly n² long. The list is written to the first places of `list`, which needs n, its fork bits to
// ceil(n/8) bytes of `bits`; `work` is work space of n² numbers, which are 0 afterwards. A refusal writes nothing.
pub fn plan_filled(
    k: u16,
    table: &[u32],
    empties: &[u8],
    list: &mut [u16],
    bits: &mut [u8],
    work: &mut [u64],
) -> Result<ListPlanned, Refusal>
    ensures { PlansList k table empties list bits work result }
{
    judge(k, table.len(), empties, list.len(), bits.len(), work.len())?;
    let n = stop_count(k);
    let tray = Tray {
        k,
        n,
        filled: filled_set(&empties[..n]),
        table,
    };
    Ok(run(&tray, list, bits, &mut work[..n * n]))
}
