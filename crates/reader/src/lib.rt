// Stops drawn one after another from the bytes of a path.
//
// No public function has a `requires`. What one draw gives, and where it leaves the cursor, is `step_at` of `specs/Draws.antt`, for every
// cursor, version and bytes. That draw d from the start of some bytes is `draw_at` of the paths' definitions is the law `draws-are`, that
// an answer which is no stop is repeated is `draws-repeat` (`proofs/DrawsLaws.antt`), and `reader-draws` says it of a `Reader`.

#![tactic(auto)]

mod draws;

use base::Refusal;
pub use draws::{draw_from, draw_number};
// The same by its other name: one draw from a cursor.
pub use draws::draw_from as draw_at;
use stop::Stop;

// The stops of a path, drawn one after another: the bytes, the cursor and the version. The cursor is 0 before the first draw, with the
// highest known version beside it; after a stop it is where the next record begins, with the path's version.
#[derive(Clone, Copy)]
pub struct Reader<'a> {
    pub src: &'a [u8],
    pub at: usize,
    pub version: u16,
}

// What a draw answers: a stop, the end where there is none, or the refusal.
pub type Drawn = Result<Option<Stop>, Refusal>;

// What a draw leaves: its answer, and the cursor and the version for the next draw.
#[derive(Clone, Copy)]
pub struct Step {
    pub drawn: Drawn,
    pub at: usize,
    pub version: u16,
}
