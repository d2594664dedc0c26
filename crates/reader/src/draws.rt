// One draw of a reader, and draw d by so many of them.
ghost use Rattle.std.specs.Prelude.{◌≡◌};
ghost use Rattle.path.specs.Draw.{draw_at};
ghost use Rattle.reader.specs.Draws.{answered, stepped, stop_before, draw_of, step_at, opened, DrawsNext};

use crate::{Drawn, Reader, Step};
use base::stop_count;
use path::{HEAD_SIZE, PathBytes, judge_head, stop_size};

// The number of the stop whose record a cursor stands at, or in.
fn stop_before(version: u16, at: usize) -> usize
    ensures { result ≡ stop_before version at }
{
    at.saturating_sub(HEAD_SIZE) / stop_size(version)
}

// The draw at stop i of a path of `count` stops.
fn draw_of(path: PathBytes<'_>, count: usize, i: usize) -> Drawn
    ensures { answered result ≡ draw_of path.entry.bytes.now path.entry.version count i }
{
    if i < count {
        path.judge_stop(i)?;
        return Ok(Some(path.stop(i)));
    }
    path.judge_end(count)?;
    Ok(None)
}

impl<'a> Reader<'a> {
    // A reader of path bytes that knows versions up to `highest`.
    pub fn open(bytes: &'a [u8], highest: u16) -> Reader<'a>
        ensures { result ≡ opened bytes.entry highest }
    {
        Reader {
            src: bytes,
            at: 0,
            version: highest,
        }
    }

    // The next draw. The reader is left where the draw after it begins. The head is judged at each draw, so that no cursor and no version is
    // taken on trust.
    pub fn draw(&mut self) -> Drawn
        ensures { DrawsNext self result }
    {
        let path = judge_head(self.src, self.version)?;
        let i = stop_before(path.version, self.at);
        let drawn = draw_of(path, stop_count(path.k), i)?;
        if drawn.is_some() {
            self.at = HEAD_SIZE + (i + 1) * stop_size(path.version);
            self.version = path.version;
        }
        Ok(drawn)
    }
}

// One draw by a reader that stands at a cursor, and where it stands then, for callers that hold no reader.
pub fn draw_from(bytes: &[u8], at: usize, version: u16) -> Step
    ensures { stepped result ≡ step_at bytes.now at version }
{
    let mut reader = Reader {
        src: bytes,
        at,
        version,
    };
    let drawn = reader.draw();
    Step {
        drawn,
        at: reader.at,
        version: reader.version,
    }
}

// Draw d, counted from 0, from path bytes by a reader that knows versions up to `highest`. An answer that is no stop is every later one.
pub fn draw_number(bytes: &[u8], highest: u16, d: usize) -> Drawn
    ensures { answered result ≡ draw_at bytes.now highest d }
{
    let mut reader = Reader::open(bytes, highest);
    for _i in 0..d {
        if reader.draw()?.is_none() {
            return Ok(None);
        }
    }
    reader.draw()
}
