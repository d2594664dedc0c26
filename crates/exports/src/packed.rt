// Values of more than one part as one number: a version and k with a total above them, a list's length with its total above it, and what a fork costs and
// a stop field by field.

ghost use Rattle.std.specs.Prelude.{◌≡◌};
ghost use Rattle.planner.specs.HeldFork.{state_of};
ghost use Rattle.exports.specs.Values.{packed, listed, cost_part, told_field, field_of};

use fork_cost::ForkCost;
use stop::Stop;

// What one of the version counts beside k, which has 16 bits, and what one of the total counts beside both.
const VERSION_UNIT: u64 = 65_536;

const TOTAL_UNIT: u64 = 1_048_576;

// The largest total that stands beside a version and k: 42 bits.
const MOST_PACKED: u64 = 4_398_046_511_103;

// What one of the total counts beside the length of a list, the largest length, and the largest total that stands beside one: 56 bits.
const LENGTH_UNIT: u64 = 128;

const MOST_LENGTH: u64 = 127;

const MOST_LISTED: u64 = 72_057_594_037_927_935;

// A version and k in one number, and a total above them.
#[tactic(auto, unfolding(crate::specs::Values::packed), using(signed::proofs::AtMost::lesser))]
pub fn pack(total: u64, version: u16, k: u16) -> u64
    ensures { result ≡ packed total version k }
{
    total.min(MOST_PACKED) * TOTAL_UNIT + u64::from(version) * VERSION_UNIT + u64::from(k)
}

// The length of a list, and its total above it.
#[tactic(auto, unfolding(crate::specs::Values::listed), using(signed::proofs::AtMost::lesser))]
pub fn pack_list(total: u64, length: usize) -> u64
    ensures { result ≡ listed total length }
{
    total.min(MOST_LISTED) * LENGTH_UNIT + (length as u64).min(MOST_LENGTH)
}

// The part of what a fork costs that a field asks for: 0 is the fork's state, 1 the least total the other way, 2 how much more that is, 3 the reason, and any
// other is 0. A caller in C hands any number: an enum of the fields would be matched twice.
#[tactic(auto, unfolding(crate::specs::Values::cost_part))]
fn cost_part(field: u16, exchanged: bool, total: u64, more: u64, reason: u64) -> u64
    ensures { result ≡ cost_part field (state_of exchanged) total more reason }
{
    match field {
        0 => u64::from(exchanged),
        1 => total,
        2 => more,
        3 => reason,
        _ => 0,
    }
}

// A field of what a fork costs.
#[tactic(auto, unfolding(fork_cost::specs::Cost::told, crate::specs::Values::reason_number))]
pub fn cost_field(cost: ForkCost, field: u16) -> u64
    ensures { result ≡ told_field field cost }
{
    match cost {
        ForkCost::Dearer {
            exchanged,
            total,
            more,
        } => cost_part(field, exchanged, total, more, 0),
        ForkCost::Tie {
            exchanged,
            total,
            place,
        } => cost_part(field, exchanged, total, 0, u64::from(place) + 1),
    }
}

// A field of a stop: 0 to 2 are x, y, z, 3 is the speed, 4 the blend, 5 the dwell, and any other is 0. A caller in C hands any number: an enum of the
// fields would be matched twice.
#[tactic(auto, unfolding(crate::specs::Values::field_of, stop::specs::Stop::coordinate))]
pub fn stop_field(stop: Stop, field: u16) -> i64
    ensures { result ≡ field_of field stop }
{
    match field {
        0..=2 => i64::from(stop.at[field as usize]),
        3 => i64::from(stop.speed),
        4 => i64::from(stop.blend),
        5 => i64::from(stop.dwell),
        _ => 0,
    }
}
