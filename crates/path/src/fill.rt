// Stops stored into buffers that have places for them. These functions have a `requires`: the module is private.
ghost use Rattle.std.specs.Prelude.{◌≡◌, ◌+◌, ◌*◌, ◌≤◌, ◌<◌, length, get_or, set, pos};
ghost use Rattle.stop.specs.Stop.{coordinate};
ghost use Rattle.stop.specs.Lent.{coords_of, speeds_of, blends_of, dwells_of};
ghost use Rattle.base.specs.Outcome.{over};
ghost use Rattle.path.specs.Path.{stops_in};

use crate::PathBytes;
use stop::Stop;

// Stores a point as the three coordinates of stop i.
fn store_point(coords: &mut [i32], i: usize, point: [i32; 3])
    requires { 3 * i + 3 ≤ length coords.old }
    ensures { coords.new ≡ set (set (set coords.old (3 * i) (get_or point 0 (pos 0))) (3 * i + 1) (get_or point 1 (pos 0))) (3 * i + 2) (get_or point 2 (pos 0)) }
{
    let x = 3 * i;
    coords[x] = point[0];
    coords[x + 1] = point[1];
    coords[x + 2] = point[2];
}

// Stores a stop as stop i. Four parameters: of a struct of four `&mut` each contract would also have to say, field by field, that it still
// holds the same reference, which is no plainer.
fn store_stop(
    coords: &mut [i32],
    speeds: &mut [u16],
    blends: &mut [u16],
    dwells: &mut [u16],
    i: usize,
    s: Stop,
)
    requires { (3 * i + 3 ≤ length coords.old) × (i < length speeds.old) × (i < length blends.old) × (i < length dwells.old) }
    ensures coords_after { coords.new ≡ set (set (set coords.old (3 * i) (coordinate s 0)) (3 * i + 1) (coordinate s 1)) (3 * i + 2) (coordinate s 2) }
    ensures speeds_after { speeds.new ≡ set speeds.old i s.speed }
    ensures blends_after { blends.new ≡ set blends.old i s.blend }
    ensures dwells_after { dwells.new ≡ set dwells.old i s.dwell }
{
    store_point(coords, i, s.at);
    speeds[i] = s.speed;
    blends[i] = s.blend;
    dwells[i] = s.dwell;
}

// Stores the first `count` stops of path bytes.
pub fn store_stops(
    path: PathBytes<'_>,
    count: usize,
    coords: &mut [i32],
    speeds: &mut [u16],
    blends: &mut [u16],
    dwells: &mut [u16],
)
    requires { (3 * count ≤ length coords.old) × (count ≤ length speeds.old) × (count ≤ length blends.old) × (count ≤ length dwells.old) }
    ensures coords_after { coords.new ≡ over (coords_of (stops_in path.entry.version count path.entry.bytes.now)) coords.old }
    ensures speeds_after { speeds.new ≡ over (speeds_of (stops_in path.entry.version count path.entry.bytes.now)) speeds.old }
    ensures blends_after { blends.new ≡ over (blends_of (stops_in path.entry.version count path.entry.bytes.now)) blends.old }
    ensures dwells_after { dwells.new ≡ over (dwells_of (stops_in path.entry.version count path.entry.bytes.now)) dwells.old }
{
    for i in 0..count {
        store_stop(coords, speeds, blends, dwells, i, path.stop(i));
    }
}
