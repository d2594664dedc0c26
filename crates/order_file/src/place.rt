// Where the records of an order file, and what they hold, begin.
ghost use Rattle.std.specs.Prelude.{◌≡◌};
ghost use Rattle.base.specs.Size.{stop_count};
ghost use Rattle.order_file.specs.File.{forks_place, end_place, file_size};

use base::stop_count;
use orders::byte_count;

// The bytes of a record before its content: its length and its kind.
pub const RECORD_HEAD: usize = 4;

// The record of the stops, in it the total, and after that the first stop.
pub const STOPS_RECORD: usize = 6;

pub const TOTAL_PLACE: usize = 10;

pub const STOPS_PLACE: usize = 18;

// The record of the fork bits.
pub fn forks_place(k: u16) -> usize
    ensures { result ≡ forks_place (stop_count k) }
{
    STOPS_PLACE + 2 * stop_count(k)
}

// The end record.
pub fn end_place(k: u16) -> usize
    ensures { result ≡ end_place (stop_count k) }
{
    forks_place(k) + RECORD_HEAD + byte_count(k)
}

// The bytes of the file of n = 2^k stops. A building block: for k above 10, which has no stops, it gives those of a file without any, 26.
pub fn file_size(k: u16) -> usize
    ensures { result ≡ file_size (stop_count k) }
{
    end_place(k) + RECORD_HEAD
}
