// A path stored into an output that has room for it. These functions have a `requires`: the module is private.
ghost use Rattle.std.specs.Prelude.{◌≡◌, ◌^◌, ◌≤◌, length};
ghost use Rattle.base.specs.Lists.{tabulate};
ghost use Rattle.base.specs.Outcome.{over};
ghost use Rattle.records.specs.Put.{put};
ghost use Rattle.path.specs.Path.{path_size, stop_place};
ghost use Rattle.path.specs.Written.{stops_bytes, path_bytes};

use crate::StopSource;
use crate::form::Form;
use crate::judge::{HEAD_SIZE, stop_size};
use crate::put::{put_end, put_head, put_stop};

// Stores the records of the first `count` stops of a source.
fn store_records<S: StopSource>(source: S, count: usize, version: u16, out: &mut [u8])
    requires { stop_place version count ≤ length out.old }
    ensures { out.new ≡ put out.old 8 (stops_bytes version (tabulate count (S.stop_at source))) }
{
    let size = stop_size(version);
    for i in 0..count {
        put_stop(out, HEAD_SIZE + i * size, version, source.stop(i));
    }
}

// Stores the path of the first 2^k stops of a source.
pub fn store_path<S: StopSource>(source: S, form: Form, out: &mut [u8])
    requires { path_size form.version form.k ≤ length out.old }
    ensures { out.new ≡ over (path_bytes form.version form.k (tabulate (2 ^ form.k) (S.stop_at source))) out.old }
{
    let count = form.count();
    put_head(out, form.version, form.k);
    store_records(source, count, form.version, out);
    put_end(out, HEAD_SIZE + count * stop_size(form.version));
}
