//! The entries of a file, traced anew.

ghost use Rattle.std.specs.Prelude.{◌≡◌, ◌<◌, ◌≤◌, ◌==◌, ◌&&◌, ℕ, None, All, IfOk, length, map};
ghost use Rattle.asc_model.specs.Entry.{own_start};
ghost use Rattle.asc_model.specs.Places.{bytes_after};
ghost use Rattle.asc_model.specs.Shape.{length_of};
ghost use Rattle.asc_model.specs.Case.{first_fault};
ghost use Rattle.asc_model.specs.EntryFile.{are_same_cells, counts_size, entries_cases, entries_in, entry_in, reads_in, steps_in, writes_end, writes_in};
ghost use Rattle.asc_shape.specs.State.{zero_state};
ghost use Rattle.asc_traj.specs.Parts.{all_cells};
ghost use Rattle.asc_save.specs.Listed.{IsListed};
ghost use Rattle.asc_save.specs.Traced.{AreRetraced, IsRetraced};

use crate::LoadFault;
use crate::cells::{Cells, reads, writes};
use crate::fields::{steps, writes_end};
use asc_depvec::{MOST_CAP, Tracer};
use asc_model::SaveFault;
use asc_outside::Memory;
use asc_shape::{Guess, Shape, State};
use asc_traj::{Entry, Made, Never, Part, Stop, next_cell};
use std::alloc::Global;
use std::sync::Arc;

/// Traces so many entries anew, one after another, and hands out what the traces make. It stops at the first one that is
/// not its own.
pub(crate) fn retraced(
    alloc: Global,
    shape: Shape,
    count: usize,
    bytes: &[u8],
) -> Result<Vec<Arc<Entry>>, LoadFault>
    requires { first_fault (entries_cases shape 0 count bytes.now) ≡ None }
    ensures { AreRetraced (entries_in shape count bytes.now) result }
{
    let mut tracer = Tracer::new(alloc, shape, MOST_CAP)?;
    let mut zeros = State::new(alloc, shape)?;
    let mut entries = Vec::with_capacity(alloc, count)?;
    let mut rest = bytes;
    for index in 0..count {
        let Some(entry) = retrace(alloc, &mut tracer, &mut zeros, rest)? else {
            return Err(LoadFault::Bad(SaveFault::Untrue(index)));
        };
        entries.push(entry)?;
        rest = &rest[writes_end(rest)..];
    }
    Ok(entries)
}

/// Traces the entry at the front of bytes anew, and hands out what the trace makes, where that is the entry.
fn retrace(
    alloc: Global,
    tracer: &mut Tracer,
    zeros: &mut State,
    bytes: &[u8],
) -> Result<Option<Arc<Entry>>, Memory>
    requires listed { IsListed tracer.old.shape bytes.now }
    requires zeros { zeros.old ≡ zero_state tracer.old.shape }
    requires cap { tracer.old.cap ≡ MOST_CAP }
    ensures entry { IfOk result (λ made. IsRetraced (entry_in tracer.old.shape bytes.now) made) }
    ensures zeros { zeros.new ≡ zeros.old }
    ensures shape { tracer.new.shape ≡ tracer.old.shape }
    ensures cap { tracer.new.cap ≡ tracer.old.cap }
{
    let guess = start(alloc, zeros, bytes)?;
    // Of so many laps there is no end: so the trace ends where the steps are taken.
    let stop = Stop {
        pc: 0,
        laps: u64::MAX,
        span: steps(bytes),
    };
    // A proof learns from it that the guess is a state.
    let _ = guess.shape();
    match Entry::traced(alloc, tracer, guess, &stop, &mut Never) {
        Made::One(entry) => {
            if is_entry(&entry, bytes) {
                Ok(Some(entry))
            } else {
                Ok(None)
            }
        }
        Made::Empty | Made::Stopped => Ok(None),
        Made::Refused => Err(Memory),
    }
}

/// The state that has an entry's reads, and 0 at all other places. It costs what the entry reads, and what the one before
/// it read.
fn start(alloc: Global, zeros: &mut State, bytes: &[u8]) -> Result<Guess, Memory>
    requires listed { IsListed zeros.old.shape bytes.now }
    requires zeros { zeros.old ≡ zero_state zeros.old.shape }
    ensures start { IfOk result (λ guess. guess ≡ own_start (entry_in zeros.old.shape bytes.now)) }
    ensures zeros { zeros.new ≡ zeros.old }
{
    put(zeros, reads(bytes));
    let frozen = zeros.freeze(alloc);
    clear(zeros, reads(bytes));
    Ok(Guess::last(frozen?))
}

/// Puts bytes at their places.
fn put(state: &mut State, cells: Cells<'_>)
    requires { All (λ cell. cell.0 < length_of state.old.shape) cells }
    ensures { state.new ≡ record state.old { bytes = bytes_after state.old.bytes cells.entry } }
{
    for (place, byte) in cells {
        state.set(place, byte);
    }
}

/// Puts 0 at the same places.
fn clear(state: &mut State, cells: Cells<'_>)
    requires { All (λ cell. cell.0 < length_of state.old.shape) cells }
    ensures { state.new
        ≡ record state.old { bytes = bytes_after state.old.bytes (map (λ cell. (cell.0, 0)) cells.entry) } }
{
    for (place, _) in cells {
        state.set(place, 0);
    }
}

/// Whether an entry is the one at the front of bytes, but for its shape.
fn is_entry(entry: &Entry, bytes: &[u8]) -> bool
    requires { writes_end bytes.now ≤ length bytes.now }
    ensures { result ≡ ((entry.now.steps == steps_in bytes.now) && are_same_cells entry.now.reads (reads_in bytes.now)
        && are_same_cells entry.now.writes (writes_in bytes.now)) }
{
    entry.steps() == steps(bytes)
        && are_cells(entry.reads(), reads(bytes))
        && are_cells(entry.writes(), writes(bytes))
}

/// Whether parts have these places and bytes, and no others.
fn are_cells(parts: &[Part], cells: Cells<'_>) -> bool
    ensures { result ≡ are_same_cells (all_cells parts.now) cells.entry }
{
    let mut from = 0;
    for (place, byte) in cells {
        let Some(cell) = next_cell(parts, from) else {
            return false;
        };
        if cell.place != place || cell.byte != byte {
            return false;
        }
        from = cell.next;
    }
    next_cell(parts, from).is_none()
}
