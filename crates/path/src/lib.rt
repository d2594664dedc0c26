// Paths: read from bytes, judged whole before anything is written, and written to bytes.
//
// No public function has a `requires`. What path bytes mean is `read_path` of `specs/Path.antt`; what a path is written as is `path_bytes`
// of `specs/Written.antt`.

#![tactic(auto)]

mod bytes;
mod fill;
mod form;
mod judge;
mod put;
mod read;
mod source;
mod store;
mod write;

pub use judge::{HEAD_SIZE, judge_head, stop_size};
pub use read::read_path;
pub use source::StopSource;
pub use write::{rewrite_path, write_path};

// A path's bytes, with the version and k that their head gave. Any version and k may stand here: what needs good ones judges them.
#[derive(Clone, Copy)]
pub struct PathBytes<'a> {
    pub bytes: &'a [u8],
    pub version: u16,
    pub k: u16,
}

// What a path that was read begins with.
#[derive(Clone, Copy, Debug, PartialEq, Eq)]
pub struct Heading {
    pub version: u16,
    pub k: u16,
}
