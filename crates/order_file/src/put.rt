// The records of an order file put into a buffer that has room for them.
ghost use Rattle.std.specs.Prelude.{◌≡◌, ◌≤◌, ◌+◌, ◌*◌, ◌^◌, ◌++◌, length, take};
ghost use Rattle.base.specs.Size.{max_k};
ghost use Rattle.records.specs.Field.{bytes_of};
ghost use Rattle.records.specs.Kind.{kind_number};
ghost use Rattle.records.specs.Put.{put};
ghost use Rattle.records.specs.Record.{record_length};
ghost use Rattle.orders.specs.Bits.{byte_count};
ghost use Rattle.orders.specs.Lent.{order_in};
ghost use Rattle.order_file.specs.File.{head_bytes, stops_bytes, stop_bytes, forks_bytes, end_bytes, order_file, stops_record, stops_place, forks_place, end_place, file_size};
ghost use Rattle.order_file.specs.Local.{ReadyToWrite};
ghost use Rattle.order_file.specs.Reading.{any_version};

use crate::check::ANY_VERSION;
use crate::place::{
    RECORD_HEAD, STOPS_PLACE, STOPS_RECORD, TOTAL_PLACE, end_place, file_size, forks_place,
};
use base::{MAX_K, Refusal, stop_count};
use orders::byte_count;
use records::{Kind, put_pair, put16, put64};

// Judges whether the file of an order can be written to `room` bytes. Making the order's fork string judges the order. k and the order are the
// call's own parameters, which the calls below it judge.
pub fn judge_write(
    k: u16,
    order: &[u16],
    table: &[u32],
    room: usize,
    bits: &mut [u8],
) -> Result<(), Refusal>
    requires { 128 ≤ length bits.old }
    ensures { ReadyToWrite k order.now table.now room bits.old bits.new result }
{
    if MAX_K < k {
        return Err(Refusal::WrongK);
    }
    let n = stop_count(k);
    if table.len() != n * n || room < file_size(k) {
        return Err(Refusal::WrongSize);
    }
    orders::fork_bits(k, order, bits)
}

// The first bytes of a record of a kind at a place, with so many bytes beside those of its kind.
fn put_record(out: &mut [u8], at: usize, kind: Kind, more: usize)
    requires { more ≤ 2048 }
    ensures { out.new ≡ put out.old at (bytes_of 2 (record_length (kind_number kind) any_version 0 + more) ++ bytes_of 2 (kind_number kind)) }
{
    put_pair(
        out,
        at,
        (kind.length(ANY_VERSION) + more) as u16,
        kind.number(),
    );
}

// The head.
fn put_head(k: u16, out: &mut [u8])
    requires { stops_record ≤ length out.old }
    ensures { out.new ≡ put out.old 0 (head_bytes k) }
{
    put_record(out, 0, Kind::Order, 0);
    put16(out, RECORD_HEAD, k);
}

// The stops of an order, 2 bytes each.
fn put_order(order: &[u16], out: &mut [u8])
    requires { (length order.now ≤ 1024) × (forks_place (length order.now) ≤ length out.old) }
    ensures { out.new ≡ put out.old stops_place (stop_bytes order.now) }
{
    for (p, stop) in order.iter().enumerate() {
        put16(out, STOPS_PLACE + 2 * p, *stop);
    }
}

// The record of the total and the stops.
fn put_stops(order: &[u16], total: u64, out: &mut [u8])
    requires { (length order.now ≤ 1024) × (forks_place (length order.now) ≤ length out.old) }
    ensures { out.new ≡ put out.old stops_record (stops_bytes total order.now) }
{
    put_record(out, STOPS_RECORD, Kind::Stops, 2 * order.len());
    put64(out, TOTAL_PLACE, total);
    put_order(order, out);
}

// The record of a fork string. That k is small is asked here and below as a fact of its own: a struct of k alone would say no more, and the lengths
// are asked beside it anyway.
fn put_forks(k: u16, bits: &[u8], out: &mut [u8])
    requires { (k ≤ max_k) × (byte_count (2 ^ k) ≤ length bits.now) × (end_place (2 ^ k) ≤ length out.old) }
    ensures { out.new ≡ put out.old (forks_place (2 ^ k)) (forks_bytes (take (byte_count (2 ^ k)) bits.now)) }
{
    let count = byte_count(k);
    let at = forks_place(k);
    put_record(out, at, Kind::Forks, count);
    let string = at + RECORD_HEAD;
    out[string..string + count].copy_from_slice(&bits[..count]);
}

// The end record.
fn put_end(k: u16, out: &mut [u8])
    requires { k ≤ max_k }
    ensures { out.new ≡ put out.old (end_place (2 ^ k)) end_bytes }
{
    put_record(out, end_place(k), Kind::End, 0);
}

// The whole file of an order, its total and its fork string.
pub fn put_file(k: u16, order: &[u16], total: u64, bits: &[u8], out: &mut [u8])
    requires { (k ≤ max_k) × (2 ^ k ≤ length order.now) × (byte_count (2 ^ k) ≤ length bits.now) × (file_size (2 ^ k) ≤ length out.old) }
    ensures { out.new ≡ put out.old 0 (order_file k total (order_in k order.now) (take (byte_count (2 ^ k)) bits.now)) }
{
    put_head(k, out);
    put_stops(&order[..stop_count(k)], total, out);
    put_forks(k, bits, out);
    put_end(k, out);
}
