//! The text of what a guess has wrong.
ghost use Rattle.std.specs.Prelude.{◌≡◌, ◌+◌, ◌≤◌, ◌<◌, ◌++◌, All, IfOk, IfSome, OnOk, drop, length};
ghost use Rattle.std.specs.Arc.{arc_value};
ghost use Rattle.asc_model.specs.Shape.{length_of};
ghost use Rattle.asc_inspect.specs.Missed.{guess_text, has_cells, hex_of, kind_text, line_length, met_cells, miss_line, misses_text, reads_text};

use crate::lap::Lap;
use crate::text::{put_hex, put_number, put_place, why_text, word_of};
use asc_guess::Kind;
use asc_shape::State;
use asc_traj::{Entry, cells_of};
use std::alloc::{AllocError, Global};

/// Appends what was met of a guess of this kind, of which this is the lap.
pub(crate) fn put_guess(
    alloc: Global,
    text: &mut Vec<u8>,
    kind: Kind,
    now: &State,
    lap: &Lap,
) -> Result<(), AllocError>
    requires { IfSome lap.now.entry (λ entry. (arc_value entry).shape ≡ now.now.shape) }
    ensures { OnOk result (text.new.items ≡ text.old.items ++ guess_text kind now.now lap.now) }
{
    text.extend_from_slice(kind_text(kind).as_bytes())?;
    let Some(entry) = &lap.entry else {
        return text.extend_from_slice(b": no step\n");
    };
    text.extend_from_slice(b": steps ")?;
    put_number(text, entry.steps())?;
    text.extend_from_slice(why_text(lap.why).as_bytes())?;
    text.extend_from_slice(b"\n")?;
    put_reads(alloc, text, now, entry)
}

/// A kind by its word.
fn kind_text(kind: Kind) -> &'static str
    ensures { result.now ≡ kind_text kind }
{
    match kind {
        Kind::Last => "last",
        Kind::Stride => "stride",
    }
}

/// Appends what a state has of the reads of a guess's entry.
fn put_reads(
    alloc: Global,
    text: &mut Vec<u8>,
    now: &State,
    entry: &Entry,
) -> Result<(), AllocError>
    requires { entry.now.shape ≡ now.now.shape }
    ensures { OnOk result (text.new.items ≡ text.old.items ++ reads_text now.now entry.now) }
{
    if entry.matches(now) {
        return text.extend_from_slice(b"  all that it reads is met\n");
    }
    entry.truth();
    put_misses(alloc, text, now, &cells_of(alloc, entry.reads())?)
}

/// Appends the lines of cells that were guessed.
fn put_misses(
    alloc: Global,
    text: &mut Vec<u8>,
    now: &State,
    cells: &[(u32, u8)],
) -> Result<(), AllocError>
    requires { All (λ cell. cell.0 < length_of now.now.shape) cells.now }
    ensures { OnOk result (text.new.items ≡ text.old.items ++ misses_text now.now 0 cells.now) }
{
    let mut from = 0;
    while from < cells.len() {
        let to = from + line_length(&cells[from..]);
        put_miss(alloc, text, now, &cells[from..to])?;
        from = to;
    }
    Ok(())
}

/// Of how many of some cells the first line is.
fn line_length(cells: &[(u32, u8)]) -> usize
    requires { 0 < length cells.now }
    ensures length { result ≡ line_length cells.now }
    ensures some { 0 < result }
    ensures most { result ≤ length cells.now }
{
    if word_of(cells).is_some() { 4 } else { 1 }
}

/// Appends the line of cells that were guessed, where a state has other bytes at their places.
fn put_miss(
    alloc: Global,
    text: &mut Vec<u8>,
    now: &State,
    cells: &[(u32, u8)],
) -> Result<(), AllocError>
    requires some { 0 < length cells.now }
    requires places { All (λ cell. cell.0 < length_of now.now.shape) cells.now }
    ensures { OnOk result (text.new.items ≡ text.old.items ++ miss_line now.now cells.now) }
{
    if has_cells(now, cells) {
        return Ok(());
    }
    text.extend_from_slice(b"  ")?;
    put_place(text, now.shape(), cells[0].0)?;
    text.extend_from_slice(b" guessed ")?;
    put_bytes(text, cells)?;
    text.extend_from_slice(b" met ")?;
    put_bytes(text, &met_cells(alloc, now, cells)?)?;
    text.extend_from_slice(b"\n")
}

/// Whether a state has each of these bytes.
fn has_cells(now: &State, cells: &[(u32, u8)]) -> bool
    requires { All (λ cell. cell.0 < length_of now.now.shape) cells.now }
    ensures { result ≡ has_cells now.now cells.now }
{
    cells.iter().all(|cell| now.get(cell.0) == cell.1)
}

/// The same places, with the bytes that a state has there.
fn met_cells(alloc: Global, now: &State, cells: &[(u32, u8)]) -> Result<Vec<(u32, u8)>, AllocError>
    requires { All (λ cell. cell.0 < length_of now.now.shape) cells.now }
    ensures { IfOk result (λ met. met.items ≡ met_cells now.now cells.now) }
{
    cells
        .iter()
        .map(|cell| (cell.0, now.get(cell.0)))
        .collect(alloc)
}

/// Appends the bytes of cells in hexadecimal digits, the last one first.
fn put_bytes(text: &mut Vec<u8>, cells: &[(u32, u8)]) -> Result<(), AllocError>
    ensures { OnOk result (text.new.items ≡ text.old.items ++ hex_of cells.now) }
{
    let mut left = cells.len();
    while left > 0 {
        left -= 1;
        put_hex(text, &[cells[left].1])?;
    }
    Ok(())
}
