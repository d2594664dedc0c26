// First parts of buffers, and elements put into one.
ghost use Rattle.std.specs.Prelude.{◌≡◌, ◌++◌, OnOk, drop, length, take, set};
ghost use Rattle.std.specs.List.{flat_map};
ghost use Rattle.test_support.specs.Bytes.{two_bytes};
ghost use Rattle.test_support.specs.Change.{changed_once, changed};

use arrayvec::{ArrayVec, CapacityError};
use std::alloc::AllocError;

// The first `count` elements, or all where there are fewer.
pub fn first<T>(all: &[T], count: usize) -> &[T]
    ensures { result.now ≡ take count all.now }
{
    &all[..count.min(all.len())]
}

// The same of elements that may be written.
pub fn first_mut<T>(all: &mut [T], count: usize) -> &mut [T]
    ensures { result.now ≡ take count all.old }
{
    let count = count.min(all.len());
    &mut all[..count]
}

// Puts an element where there is a place for it.
pub fn put<T: Copy>(list: &mut [T], at: usize, value: T)
    ensures { list.new ≡ set list.old at value }
{
    if at < list.len() {
        list[at] = value;
    }
}

// Puts the elements of `source` first, as many as there are places for.
pub fn copy<T: Copy>(list: &mut [T], source: &[T])
    ensures { list.new ≡ take (length list.old) source.now ++ drop (length source.now) list.old }
{
    let count = source.len().min(list.len());
    list[..count].copy_from_slice(&source[..count]);
}

// Adds numbers of 16 bits, the low byte of each first.
pub fn push(bytes: &mut Vec<u8>, numbers: &[u16]) -> Result<(), AllocError>
    ensures { OnOk result (bytes.new.items ≡ bytes.old.items ++ flat_map two_bytes numbers.now) }
{
    for number in numbers {
        bytes.extend_from_slice(&number.to_le_bytes())?;
    }
    Ok(())
}

// The same within the places of an array, with nothing from a heap.
pub fn push_within<const N: usize>(
    bytes: &mut ArrayVec<u8, N>,
    numbers: &[u16],
) -> Result<(), CapacityError>
    ensures { OnOk result (bytes.new.items ≡ bytes.old.items ++ flat_map two_bytes numbers.now) }
{
    for number in numbers {
        bytes.try_extend_from_slice(&number.to_le_bytes())?;
    }
    Ok(())
}

// Makes one change: where it is not 0, puts its low byte in the place that its high byte names.
fn change_one(bytes: &mut [u8], change: u64)
    ensures { bytes.new ≡ changed_once change bytes.old }
{
    if change == 0 {
        return;
    }
    put(bytes, (change / 256 % 256) as usize, (change % 256) as u8);
}

// Makes up to four changes, 16 bits of the number each, the highest first: a place, and the byte put there.
pub fn change(bytes: &mut [u8], changes: u64)
    ensures { bytes.new ≡ changed changes bytes.old }
{
    for shift in [48u32, 32, 16, 0] {
        change_one(bytes, (changes >> shift) % 65536);
    }
}
