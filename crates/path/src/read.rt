// Paths read into lent buffers.
ghost use Rattle.std.specs.Prelude.{◌≡◌, IfOk};
ghost use Rattle.base.specs.Outcome.{said, giving};
ghost use Rattle.stop.specs.Lent.{lent};
ghost use Rattle.path.specs.Bytes.{heading_of};
ghost use Rattle.path.specs.Reading.{heading, read_into, ReadsPath};

use crate::fill::store_stops;
use crate::judge::judge_head;
use crate::{Heading, PathBytes};
use base::{Refusal, stop_count};
use stop::Stops;

// The path that is to be read into these buffers, or the first refusal.
fn judge_path<'a>(bytes: &'a [u8], highest: u16, stops: Stops<'_>) -> Result<PathBytes<'a>, Refusal>
    ensures path { giving heading_of (said result) ≡ giving heading (read_into bytes.now highest (lent stops.entry)) }
    ensures same { IfOk result (λ p. p.bytes.now ≡ bytes.now) }
{
    let path = judge_head(bytes, highest)?;
    if !stops.fits(stop_count(path.k)) {
        return Err(Refusal::WrongSize);
    }
    path.judge()?;
    Ok(path)
}

// Reads a path, for a caller that knows versions up to `highest`, into buffers of at least 3n, n, n and n places. The whole path is judged
// before the first place is written.
pub fn read_path(
    bytes: &[u8],
    highest: u16,
    coords: &mut [i32],
    speeds: &mut [u16],
    blends: &mut [u16],
    dwells: &mut [u16],
) -> Result<Heading, Refusal>
    ensures { ReadsPath bytes highest coords speeds blends dwells result }
{
    let stops = Stops {
        coords,
        speeds,
        blends,
        dwells,
    };
    let path = judge_path(bytes, highest, stops)?;
    store_stops(path, stop_count(path.k), coords, speeds, blends, dwells);
    Ok(Heading {
        version: path.version,
        k: path.k,
    })
}
