// Paths written to a lent output: lent stops, or the stops of path bytes in another version.
ghost use Rattle.std.specs.Prelude.{◌≡◌, ◌^◌, length};
ghost use Rattle.base.specs.Lists.{tabulate};
ghost use Rattle.path.specs.Written.{loses_any, write_stops, BytesAreWritten, WritesPath, RewritesPath};

use crate::form::{Form, loses_field};
use crate::source::Whole;
use crate::store::store_path;
use crate::{PathBytes, StopSource};
use base::Refusal;
use stop::Stops;

// Whether a version lacks a field that is not 0 of one of the first `count` stops of a source.
fn loses_any<S: StopSource>(source: S, count: usize, version: u16) -> bool
    ensures { result ≡ loses_any version (tabulate count (S.stop_at source)) }
{
    (0..count).any(|i| loses_field(version, source.stop(i)))
}

// Writes the first 2^k stops of a source, which are good; `loses` says whether the version lacks a field of theirs that is not 0:
// a fact of the source that each caller finds in its own way, and no choice of a step.
fn write_stops<S: StopSource>(
    source: S,
    form: Form,
    loses: bool,
    out: &mut [u8],
) -> Result<u64, Refusal>
    requires { loses ≡ loses_any form.version (tabulate (2 ^ form.k) (S.stop_at source)) }
    ensures { BytesAreWritten (write_stops form.version form.k (length out.old) (tabulate (2 ^ form.k) (S.stop_at source))) out.old out.new result }
{
    if loses {
        return Err(Refusal::LostField);
    }
    if out.len() < form.size() {
        return Err(Refusal::WrongSize);
    }
    store_path(source, form, out);
    Ok(form.size() as u64)
}

// Writes 2^k lent stops as a path of a version. Everything is judged before the first byte is written.
pub fn write_path(version: u16, k: u16, stops: Stops<'_>, out: &mut [u8]) -> Result<u64, Refusal>
    ensures { WritesPath version k stops.entry out result }
{
    let form = Form::new(version, k)?;
    stops.judge(form.count())?;
    let loses = loses_any(stops, form.count(), version);
    write_stops(stops, form, loses, out)
}

// Writes path bytes in the version `wanted`. Everything is judged before the first byte is written.
pub fn rewrite_path(path: PathBytes<'_>, wanted: u16, out: &mut [u8]) -> Result<u64, Refusal>
    ensures { RewritesPath path.entry wanted out result }
{
    path.judge()?;
    let form = Form::new(wanted, path.k)?;
    let whole = Whole {
        path,
        count: form.count(),
    };
    // A version that is no older lacks nothing.
    let loses = wanted < path.version && loses_any(whole, form.count(), wanted);
    write_stops(whole, form, loses, out)
}
