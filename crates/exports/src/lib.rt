// The library's calls for tests and benchmarks in another language, as a static library.
//
// Each exported function is the call of the same name with a signed result: what the call gives, or the refusal's number made negative.
// Exported names begin with `ffi`. No exported function has a `requires`, and each keeps all that the call behind it promises.
// The parameters stay apart, a slice or a number each, as C hands them: the fields, the names and the forks too, of which a call takes any number.

#![tactic(auto)]

mod packed;

ghost use Rattle.std.specs.Prelude.{◌≡◌, ℕ};
ghost use Rattle.base.specs.Outcome.{said};
ghost use Rattle.stop.specs.Lent.{lent};
ghost use Rattle.path.specs.Draw.{draw_at};
ghost use Rattle.path.specs.Reading.{ReadsPath};
ghost use Rattle.path.specs.Written.{WritesPath};
ghost use Rattle.times.specs.Table.{MakesTable, FillsTable};
ghost use Rattle.planner.specs.Weighings.{foretold};
ghost use Rattle.planner.specs.Plan.{PlansOrder};
ghost use Rattle.planner.specs.Places.{PlansPlaces};
ghost use Rattle.planner.specs.Tour.{PlansTour};
ghost use Rattle.path_plan.specs.PathPlan.{PlansPath};
ghost use Rattle.filled.specs.Filled.{PlansList};
ghost use Rattle.fork_cost.specs.Cost.{GivesCost};
ghost use Rattle.screen.specs.Screen.{MakesSums, ExchangesFork};
ghost use Rattle.named.specs.Calls.{KeepsOrder, ComesBack, ClearsMarks};
ghost use Rattle.orders.specs.ForkBits.{MakesBits};
ghost use Rattle.orders.specs.OrderOfBits.{MakesOrder};
ghost use Rattle.orders.specs.OrderTotal.{order_total};
ghost use Rattle.orders.specs.Exchange.{ExchangesForks};
ghost use Rattle.order_file.specs.Write.{WritesFile};
ghost use Rattle.order_file.specs.Read.{ReadsFile};
ghost use Rattle.reader.specs.Draws.{draw_answer};
ghost use Rattle.signed.specs.Result.{nothing, itself, signed};
ghost use Rattle.exports.specs.Exported.{Exported};
ghost use Rattle.exports.specs.Values.{lent_stops, path_bytes, total_of, weighings_of, bytes_needed, weighings_needed, heading, planned, list_value, told_field, verdict, field_of};

use base::Refusal;
use packed::{cost_field, pack, pack_list, stop_field};
use path::PathBytes;
use signed::{answer, done};
use stop::Stops;

// The answer of a call by the number that is made of its value.
fn answer_by<T, F: FnOnce(T) -> u64>(answered: Result<T, Refusal>, number: F) -> i64
    requires { F.IsAlwaysCallable number }
    ensures { (value : T → ℕ) → ((given : T) (n : ℕ) → F.post number given n → n ≡ value given) → result ≡ signed value (said answered) }
{
    answer(answered.map(number))
}

// `path::read_path`: version and k in one number.
#[unsafe(no_mangle)]
pub extern "C" fn ffi_read_path(
    bytes: &[u8],
    highest: u16,
    coords: &mut [i32],
    speeds: &mut [u16],
    blends: &mut [u16],
    dwells: &mut [u16],
) -> i64
    ensures { Exported (ReadsPath bytes highest coords speeds blends dwells) (λ a. signed heading (said a)) result }
{
    answer_by(
        path::read_path(bytes, highest, coords, speeds, blends, dwells),
        |head| pack(0, head.version, head.k),
    )
}

// `path::write_path`: the count of bytes written.
#[unsafe(no_mangle)]
pub extern "C" fn ffi_write_path(
    version: u16,
    k: u16,
    coords: &[i32],
    speeds: &[u16],
    blends: &[u16],
    dwells: &[u16],
    out: &mut [u8],
) -> i64
    ensures { Exported (WritesPath version k (lent_stops coords speeds blends dwells) out) (λ a. signed itself (said a)) result }
{
    let stops = Stops {
        coords,
        speeds,
        blends,
        dwells,
    };
    answer(path::write_path(version, k, stops, out))
}

// `times::make_table`: 0.
#[unsafe(no_mangle)]
pub extern "C" fn ffi_make_table(
    k: u16,
    coords: &[i32],
    speeds: &[u16],
    blends: &[u16],
    dwells: &[u16],
    table: &mut [u32],
) -> i64
    ensures { Exported (MakesTable k (lent (lent_stops coords speeds blends dwells)) table) (λ a. signed nothing (said a)) result }
{
    let stops = Stops {
        coords,
        speeds,
        blends,
        dwells,
    };
    done(times::make_table(k, stops, table))
}

// `times::table_from`: 0.
#[unsafe(no_mangle)]
pub extern "C" fn ffi_table_from(bytes: &[u8], version: u16, k: u16, table: &mut [u32]) -> i64
    ensures { Exported (FillsTable (path_bytes bytes version k) table) (λ a. signed nothing (said a)) result }
{
    let path = PathBytes { bytes, version, k };
    done(times::table_from(path, table))
}

// `planner::plan`: the total of the order that was written.
#[unsafe(no_mangle)]
pub extern "C" fn ffi_plan(
    k: u16,
    table: &[u32],
    order: &mut [u16],
    totals: &mut [u64],
    pivots: &mut [u16],
) -> i64
    ensures { Exported (PlansOrder k table order totals pivots) (λ a. signed total_of (said a)) result }
{
    answer_by(
        planner::plan(k, table, order, totals, pivots),
        |planned| planned.total,
    )
}

// `planner::plan`: the number of weighings.
#[unsafe(no_mangle)]
pub extern "C" fn ffi_plan_weighings(
    k: u16,
    table: &[u32],
    order: &mut [u16],
    totals: &mut [u64],
    pivots: &mut [u16],
) -> i64
    ensures { Exported (PlansOrder k table order totals pivots) (λ a. signed weighings_of (said a)) result }
{
    answer_by(
        planner::plan(k, table, order, totals, pivots),
        |planned| planned.weighings,
    )
}

// `planner::plan_places`: the total with the places.
#[unsafe(no_mangle)]
pub extern "C" fn ffi_plan_places(
    k: u16,
    table: &[u32],
    places: &[u32],
    order: &mut [u16],
    totals: &mut [u64],
    pivots: &mut [u16],
) -> i64
    ensures { Exported (PlansPlaces k table places order totals pivots) (λ a. signed itself (said a)) result }
{
    answer(planner::plan_places(k, table, places, order, totals, pivots))
}

// `planner::tour`: the closed total.
#[unsafe(no_mangle)]
pub extern "C" fn ffi_tour(
    k: u16,
    table: &[u32],
    order: &mut [u16],
    totals: &mut [u64],
    pivots: &mut [u16],
) -> i64
    ensures { Exported (PlansTour k table order totals pivots) (λ a. signed itself (said a)) result }
{
    answer(planner::tour(k, table, order, totals, pivots))
}

// `planner::foretell`: the bytes of lent work space.
#[unsafe(no_mangle)]
pub extern "C" fn ffi_foretell_bytes(k: u16) -> i64
    ensures { result ≡ signed bytes_needed (foretold k) }
{
    answer_by(planner::foretell(k), |needed| needed.bytes)
}

// `planner::foretell`: the number of weighings.
#[unsafe(no_mangle)]
pub extern "C" fn ffi_foretell_weighings(k: u16) -> i64
    ensures { result ≡ signed weighings_needed (foretold k) }
{
    answer_by(planner::foretell(k), |needed| needed.weighings)
}

// `path_plan::plan_path`: version, k and the total in one number.
#[unsafe(no_mangle)]
pub extern "C" fn ffi_plan_path(
    bytes: &[u8],
    highest: u16,
    table: &mut [u32],
    order: &mut [u16],
    totals: &mut [u64],
    pivots: &mut [u16],
) -> i64
    ensures { Exported (PlansPath bytes highest table order totals pivots) (λ a. signed planned (said a)) result }
{
    answer_by(
        path_plan::plan_path(bytes, highest, table, order, totals, pivots),
        |planned| pack(planned.total, planned.version, planned.k),
    )
}

// `filled::plan_filled`: the list's length, and its total above it.
#[unsafe(no_mangle)]
pub extern "C" fn ffi_plan_filled(
    k: u16,
    table: &[u32],
    empties: &[u8],
    list: &mut [u16],
    bits: &mut [u8],
    work: &mut [u64],
) -> i64
    ensures { Exported (PlansList k table empties list bits work) (λ a. signed list_value (said a)) result }
{
    answer_by(
        filled::plan_filled(k, table, empties, list, bits, work),
        |planned| pack_list(planned.total, planned.length),
    )
}

// `fork_cost::fork_cost`: a field of what it tells: 0 is the fork's state, 1 for exchanged; 1 the least total the other way; 2 how much more that is than the
// returned order's; 3 the place of a tie and 1 more, or 0 for dearer. Any other field is 0.
#[unsafe(no_mangle)]
pub extern "C" fn ffi_fork_cost(
    bytes: &[u8],
    highest: u16,
    fork: u16,
    totals: &mut [u64],
    pivots: &mut [u16],
    orders: &mut [u16],
    field: u16,
) -> i64
    ensures { Exported (GivesCost bytes highest fork totals pivots orders) (λ a. signed (told_field field) (said a)) result }
{
    answer_by(
        fork_cost::fork_cost(bytes, highest, fork, totals, pivots, orders),
        |cost| cost_field(cost, field),
    )
}

// `orders::fork_bits`: 0.
#[unsafe(no_mangle)]
pub extern "C" fn ffi_fork_bits(k: u16, order: &[u16], bits: &mut [u8]) -> i64
    ensures { Exported (MakesBits k order bits) (λ a. signed nothing (said a)) result }
{
    done(orders::fork_bits(k, order, bits))
}

// `orders::order_of_bits`: 0.
#[unsafe(no_mangle)]
pub extern "C" fn ffi_order_of_bits(k: u16, bits: &[u8], order: &mut [u16]) -> i64
    ensures { Exported (MakesOrder k bits order) (λ a. signed nothing (said a)) result }
{
    done(orders::order_of_bits(k, bits, order))
}

// `orders::exchange`: 0.
#[unsafe(no_mangle)]
pub extern "C" fn ffi_exchange(k: u16, order: &[u16], bits: &[u8], out: &mut [u16]) -> i64
    ensures { Exported (ExchangesForks k order bits out) (λ a. signed nothing (said a)) result }
{
    done(orders::exchange(k, order, bits, out))
}

// `screen::group_sums`: 0.
#[unsafe(no_mangle)]
pub extern "C" fn ffi_group_sums(bytes: &[u8], highest: u16, order: &[u16], sums: &mut [u64]) -> i64
    ensures { Exported (MakesSums bytes highest order sums) (λ a. signed nothing (said a)) result }
{
    done(screen::group_sums(bytes, highest, order, sums))
}

// `screen::exchange_fork`: 0.
#[unsafe(no_mangle)]
pub extern "C" fn ffi_exchange_fork(
    bytes: &[u8],
    highest: u16,
    fork: u16,
    order: &mut [u16],
    sums: &mut [u64],
) -> i64
    ensures { Exported (ExchangesFork bytes highest fork order sums) (λ a. signed nothing (said a)) result }
{
    done(screen::exchange_fork(bytes, highest, fork, order, sums))
}

// `named::keep`: 0.
#[unsafe(no_mangle)]
pub extern "C" fn ffi_keep(
    bytes: &[u8],
    highest: u16,
    name: u16,
    order: &[u16],
    sums: &[u64],
    marks: &mut [u8],
    stops: &mut [u16],
    kept: &mut [u64],
) -> i64
    ensures { Exported (KeepsOrder bytes highest name order sums marks stops kept) (λ a. signed nothing (said a)) result }
{
    done(named::keep(bytes, highest, name, order, sums, marks, stops, kept))
}

// `named::come_back`: 0.
#[unsafe(no_mangle)]
pub extern "C" fn ffi_come_back(
    bytes: &[u8],
    highest: u16,
    name: u16,
    order: &mut [u16],
    sums: &mut [u64],
    marks: &[u8],
    stops: &[u16],
    kept: &[u64],
) -> i64
    ensures { Exported (ComesBack bytes highest name order sums marks stops kept) (λ a. signed nothing (said a)) result }
{
    done(named::come_back(bytes, highest, name, order, sums, marks, stops, kept))
}

// `named::clear`: 0.
#[unsafe(no_mangle)]
pub extern "C" fn ffi_clear(marks: &mut [u8]) -> i64
    ensures { Exported (ClearsMarks marks) (λ a. signed nothing (said a)) result }
{
    done(named::clear(marks))
}

// `orders::order_total`: the total.
#[unsafe(no_mangle)]
pub extern "C" fn ffi_order_total(k: u16, order: &[u16], table: &[u32]) -> i64
    ensures { result ≡ signed itself (order_total k order.now table.now) }
{
    answer(orders::order_total(k, order, table))
}

// `order_file::write_order_file`: the count of bytes written.
#[unsafe(no_mangle)]
pub extern "C" fn ffi_write_order_file(k: u16, order: &[u16], table: &[u32], out: &mut [u8]) -> i64
    ensures { Exported (WritesFile k order table out) (λ a. signed itself (said a)) result }
{
    answer(order_file::write_order_file(k, order, table, out))
}

// `order_file::read_order_file`: the total.
#[unsafe(no_mangle)]
pub extern "C" fn ffi_read_order_file(
    k: u16,
    table: &[u32],
    file: &[u8],
    order: &mut [u16],
    bits: &mut [u8],
) -> i64
    ensures { Exported (ReadsFile k table file order bits) (λ a. signed itself (said a)) result }
{
    answer(order_file::read_order_file(k, table, file, order, bits))
}

// `reader::draw_number`: the verdict of draw d, 0 for a stop and 1 for the end, or the refusal.
#[unsafe(no_mangle)]
pub extern "C" fn ffi_draw(bytes: &[u8], highest: u16, d: usize) -> i64
    ensures { result ≡ signed itself (verdict (draw_at bytes.now highest d)) }
{
    answer_by(
        reader::draw_number(bytes, highest, d),
        |drawn| u64::from(drawn.is_none()),
    )
}

// `reader::draw_number`: a field of the stop of draw d, all of them 0 where the draw is no stop. 0 to 2 are x, y, z, 3 is the speed, 4 the
// blend, 5 the dwell.
#[unsafe(no_mangle)]
pub extern "C" fn ffi_draw_field(bytes: &[u8], highest: u16, d: usize, field: u16) -> i64
    ensures { result ≡ field_of field (draw_answer (draw_at bytes.now highest d)).stop }
{
    match reader::draw_number(bytes, highest, d).unwrap_or(None) {
        Some(stop) => stop_field(stop, field),
        None => 0,
    }
}
