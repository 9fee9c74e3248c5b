//! The faults of a file, in the order in which they are looked for, but for those of entries that are not their own.

ghost use Rattle.std.specs.Prelude.{◌≡◌, ◌≤◌, length};
ghost use Rattle.asc_model.specs.Case.{first_fault};
ghost use Rattle.asc_model.specs.EntryFile.{header_cases, entry_cases, entries_cases, is_listing, is_out_of_bounds, counts_size};

use crate::cells::{Cells, reads, writes};
use crate::fields::{
    COUNTS_SIZE, HEADER_SIZE, count, read_count, reads_end, steps, word, write_count, writes_end,
};
use asc_model::{MOST_ENTRIES, MOST_ENTRY_STEPS, MOST_PLACES, SaveFault, Version};
use asc_shape::Shape;

/// The first fault of the header.
pub(crate) fn header_fault(file: &[u8]) -> Option<SaveFault>
    ensures { result ≡ first_fault (header_cases file.now) }
{
    if file.len() < HEADER_SIZE {
        Some(SaveFault::Short)
    } else if !file.starts_with(b"ASCE") {
        Some(SaveFault::Magic)
    } else if file[4] != 1 {
        Some(SaveFault::Version)
    } else if !matches!(file[5], 1 | 2) || file[6] != 0 || file[7] != 0 {
        Some(SaveFault::Machine)
    } else if Shape::of(word(file, 8), word(file, 12), Version::One).is_err() {
        Some(SaveFault::Shape)
    } else if count(file) as usize > MOST_ENTRIES {
        Some(SaveFault::Count)
    } else {
        None
    }
}

/// The first fault of so many entries, one after another, and of what is behind them.
pub(crate) fn entries_fault(shape: Shape, count: usize, bytes: &[u8]) -> Option<SaveFault>
    ensures { result ≡ first_fault (entries_cases shape 0 count bytes.now) }
{
    let mut rest = bytes;
    for index in 0..count {
        let fault = entry_fault(shape, index, rest);
        if fault.is_some() {
            return fault;
        }
        rest = &rest[writes_end(rest)..];
    }
    if rest.is_empty() {
        None
    } else {
        Some(SaveFault::Long)
    }
}

/// The first fault of the entry at the front of bytes.
fn entry_fault(shape: Shape, index: usize, bytes: &[u8]) -> Option<SaveFault>
    ensures { result ≡ first_fault (entry_cases shape index bytes.now) }
{
    if bytes.len() < COUNTS_SIZE {
        Some(SaveFault::Short)
    } else if is_out_of_bounds(bytes) {
        Some(SaveFault::Entry(index))
    } else if bytes.len() < reads_end(bytes) {
        Some(SaveFault::Short)
    } else if !is_listing(shape, reads(bytes)) {
        Some(SaveFault::Entry(index))
    } else if bytes.len() < writes_end(bytes) {
        Some(SaveFault::Short)
    } else if !is_listing(shape, writes(bytes)) {
        Some(SaveFault::Entry(index))
    } else {
        None
    }
}

/// Whether the steps or a count of an entry are out of bounds.
fn is_out_of_bounds(bytes: &[u8]) -> bool
    requires { counts_size ≤ length bytes.now }
    ensures { result ≡ is_out_of_bounds bytes.now }
{
    steps(bytes) == 0
        || steps(bytes) > MOST_ENTRY_STEPS
        || read_count(bytes) as usize > MOST_PLACES
        || write_count(bytes) as usize > MOST_PLACES
}

/// Whether places rise, and are places of a shape.
fn is_listing(shape: Shape, cells: Cells<'_>) -> bool
    ensures { result ≡ is_listing shape cells.entry }
{
    // That it is a shape bounds how many places there are.
    let _ = shape.base();
    let end = shape.start() + shape.size();
    let mut least = 0;
    for (place, _) in cells {
        if place < least || place >= end {
            return false;
        }
        least = place + 1;
    }
    true
}
