// What a path is written as: a version that is known and a k that is not too large, and what a version loses of a stop.
ghost use Rattle.std.specs.Prelude.{◌≡◌, ◌^◌, ◌≤◌, IfOk};
ghost use Rattle.base.specs.Outcome.{said, done};
ghost use Rattle.base.specs.Size.{max_k};
ghost use Rattle.path.specs.Path.{known_version, path_size};
ghost use Rattle.path.specs.Written.{loses_field};
ghost use Rattle.path.specs.Local.{is_lost, judge_form};

use crate::judge::{END_SIZE, HEAD_SIZE, stop_size};
use base::{MAX_K, Refusal, stop_count};
use records::{BLEND_SINCE, DWELL_SINCE};
use stop::Stop;

// The versions that are known.
const OLDEST: u16 = 4;

const NEWEST: u16 = 6;

// Whether a version is 4, 5 or 6.
#[tactic(auto, unfolding(crate::specs::Path::known_version))]
pub fn known_version(version: u16) -> bool
    ensures { result ≡ known_version version }
{
    (OLDEST..=NEWEST).contains(&version)
}

// A version and a k that were judged.
#[derive(Clone, Copy)]
pub struct Form {
    pub version: u16,
    pub k: u16,
    pub ghost small: { k ≤ max_k },
}

impl Form {
    // The form of a version and k, or the refusal 4 or 5.
    pub fn new(version: u16, k: u16) -> Result<Form, Refusal>
        ensures judged { done (said result) ≡ judge_form version k }
        ensures same { IfOk result (λ f. (f.version ≡ version) × (f.k ≡ k)) }
    {
        if !known_version(version) {
            return Err(Refusal::WrongVersion);
        }
        if MAX_K < k {
            return Err(Refusal::WrongK);
        }
        Ok(Form { version, k })
    }

    // The number of stops.
    pub fn count(self) -> usize
        ensures { result ≡ 2 ^ self.k }
    {
        stop_count(self.k)
    }

    // The bytes that a path takes.
    pub fn size(self) -> usize
        ensures { result ≡ path_size self.version self.k }
    {
        HEAD_SIZE + END_SIZE + self.count() * stop_size(self.version)
    }
}

// Whether a field that stops have from version `since` on is lost: it is not 0, and the version is older.
fn is_lost(since: u16, version: u16, value: u16) -> bool
    ensures { result ≡ is_lost since version value }
{
    version < since && value != 0
}

// Whether a version lacks a field of a stop that is not 0.
pub fn loses_field(version: u16, s: Stop) -> bool
    ensures { result ≡ loses_field version s }
{
    is_lost(BLEND_SINCE, version, s.blend) || is_lost(DWELL_SINCE, version, s.dwell)
}
