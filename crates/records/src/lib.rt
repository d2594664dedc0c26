// Fields and records: numbers in little-endian bytes, the seven kinds of record and their lengths.
//
// No public function has a `requires`: a byte that is not there counts as 0, and what does not fit whole is not written.

#![tactic(auto)]

mod field;
mod record;

pub use field::{after, field16, field64, put_pair, put_signed, put16, put64, to_signed};
pub use record::{BLEND_SINCE, DWELL_SINCE, Kind, judge_record, record_length};
