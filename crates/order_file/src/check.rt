// An order file is judged whole: its records, then its order, its fork bits and its total.
ghost use Rattle.std.specs.Prelude.{◌≡◌, ◌≤◌, ◌+◌, ◌*◌, ◌^◌, length, take, drop};
ghost use Rattle.base.specs.Outcome.{said, done, over};
ghost use Rattle.base.specs.Size.{max_k};
ghost use Rattle.records.specs.Field.{number_of};
ghost use Rattle.records.specs.Kind.{kind_number};
ghost use Rattle.records.specs.Record.{take_record, record_length};
ghost use Rattle.tree.specs.Total.{entry};
ghost use Rattle.orders.specs.Bits.{byte_count};
ghost use Rattle.orders.specs.Lent.{order_in};
ghost use Rattle.order_file.specs.File.{total_place, stops_place, forks_place};
ghost use Rattle.order_file.specs.Reading.{any_version, read_records, stops_in, judge_string, judge_file};
ghost use Rattle.order_file.specs.Read.{read_file};
ghost use Rattle.order_file.specs.Local.{JudgedUnsummed};

use crate::place::{
    RECORD_HEAD, STOPS_PLACE, STOPS_RECORD, TOTAL_PLACE, end_place, file_size, forks_place,
};
use base::{MAX_K, Refusal, stop_count};
use orders::byte_count;
use records::{Kind, after, field16, field64, judge_record};

// The records of an order file have one length in every version.
pub const ANY_VERSION: u16 = 5;

// An order file's bytes, and the k that it is to have.
#[derive(Clone, Copy)]
pub struct FileBytes<'a> {
    pub k: u16,
    pub bytes: &'a [u8],
    ghost small: { k ≤ max_k },
}

impl<'a> FileBytes<'a> {
    // Judges the record of a kind at a place, with so many bytes beside those of its kind.
    fn judge_record(self, at: usize, kind: Kind, more: usize) -> Result<(), Refusal>
        requires { more ≤ 2048 }
        ensures { said result ≡ done (take_record (kind_number kind) (record_length (kind_number kind) any_version 0 + more) (drop at self.entry.bytes.now)) }
    {
        judge_record(
            self.bytes,
            at,
            kind.number(),
            kind.length(ANY_VERSION) + more,
        )
    }

    // Judges the records.
    fn judge_records(self) -> Result<(), Refusal>
        ensures { said result ≡ done (read_records self.entry.k self.entry.bytes.now) }
    {
        self.judge_record(0, Kind::Order, 0)?;
        if field16(self.bytes, RECORD_HEAD) != self.k {
            return Err(Refusal::WrongK);
        }
        self.judge_record(STOPS_RECORD, Kind::Stops, 2 * stop_count(self.k))?;
        self.judge_record(forks_place(self.k), Kind::Forks, byte_count(self.k))?;
        self.judge_record(end_place(self.k), Kind::End, 0)?;
        if file_size(self.k) < self.bytes.len() {
            return Err(Refusal::TrailingBytes);
        }
        Ok(())
    }

    // The total that the file says.
    pub fn total(self) -> u64
        ensures { result ≡ number_of (take 8 (drop total_place self.entry.bytes.now)) }
    {
        field64(self.bytes, TOTAL_PLACE)
    }

    // Stores the stops.
    pub fn store_stops(self, order: &mut [u16])
        requires { 2 ^ self.k ≤ length order.old }
        ensures { order.new ≡ over (stops_in (2 ^ self.entry.k) (drop stops_place self.entry.bytes.now)) order.old }
    {
        for (p, stop) in order[..stop_count(self.k)].iter_mut().enumerate() {
            *stop = field16(self.bytes, STOPS_PLACE + 2 * p);
        }
    }

    // Where the fork string begins, and all that follows.
    fn string(self) -> &'a [u8]
        ensures { result.now ≡ drop (4 + forks_place (2 ^ self.entry.k)) self.entry.bytes.now }
    {
        after(self.bytes, forks_place(self.k) + RECORD_HEAD)
    }

    // Stores the fork string.
    pub fn store_string(self, bits: &mut [u8])
        requires { (byte_count (2 ^ self.k) ≤ length bits.old) × (4 + forks_place (2 ^ self.k) + byte_count (2 ^ self.k) ≤ length self.bytes.now) }
        ensures { bits.new ≡ over (take (byte_count (2 ^ self.entry.k)) (drop (4 + forks_place (2 ^ self.entry.k)) self.entry.bytes.now)) bits.old }
    {
        let string = self.string();
        // A loop, since `copy_from_slice` is a call of memmove, which the archive for C is to need of nobody.
        for (i, byte) in bits[..byte_count(self.k)].iter_mut().enumerate() {
            *byte = string[i];
        }
    }

    // Judges the file but for its total. Its stops are stored.
    pub fn judge_unsummed(self, stops: &mut [u16]) -> Result<(), Refusal>
        requires { 2 ^ self.k ≤ length stops.old }
        ensures { JudgedUnsummed self.entry.k self.entry.bytes.now stops.old stops.new result }
    {
        self.judge_records()?;
        self.store_stops(stops);
        judge_string(self.k, stops, self.string())
    }

    // Judges the file, last its total by a table.
    fn judge(self, table: &[u32]) -> Result<(), Refusal>
        ensures { said result ≡ done (judge_file self.entry.k (entry (2 ^ self.entry.k) table.now) self.entry.bytes.now) }
    {
        let mut stops = [0u16; 1024];
        self.judge_unsummed(&mut stops)?;
        if self.total() != orders::sum_moves(self.k, &stops, table) {
            return Err(Refusal::WrongTotal);
        }
        Ok(())
    }
}

// Judges an order and the fork string beside it. Making the order's own string judges the order.
fn judge_string(k: u16, stops: &[u16], bits: &[u8]) -> Result<(), Refusal>
    requires { (k ≤ max_k) × (2 ^ k ≤ length stops.now) × (byte_count (2 ^ k) ≤ length bits.now) }
    ensures { said result ≡ done (judge_string k (order_in k stops.now) (take (byte_count (2 ^ k)) bits.now)) }
{
    let mut own = [0u8; 128];
    orders::fork_bits(k, stops, &mut own)?;
    let count = byte_count(k);
    if bits[..count] != own[..count] {
        return Err(Refusal::WrongForks);
    }
    Ok(())
}

// Judges a file that is to be stored in `places` numbers and `room` bytes.
pub fn judge_call(
    k: u16,
    table: &[u32],
    file: &[u8],
    places: usize,
    room: usize,
) -> Result<(), Refusal>
    ensures { said result ≡ done (read_file k table.now file.now places room) }
{
    if MAX_K < k {
        return Err(Refusal::WrongK);
    }
    let n = stop_count(k);
    if table.len() != n * n || places < n || room < byte_count(k) {
        return Err(Refusal::WrongSize);
    }
    FileBytes { k, bytes: file }.judge(table)
}
