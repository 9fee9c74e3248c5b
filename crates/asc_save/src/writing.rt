ghost use Rattle.std.specs.Prelude.{◌≡◌, ◌++◌, ◌*◌, ◌^◌, ◌+◌, ◌<◌, ◌≤◌, [], OnOk, OnErr, length, take};
ghost use Rattle.std.specs.List.{flat_map};
ghost use Rattle.asc_model.specs.Number.{bytes_of};
ghost use Rattle.asc_model.specs.EntryFile.{AreSavable, IsSavable, cell_bytes, entry_bytes, entry_file, header_bytes, machine_number};
ghost use Rattle.asc_outside.specs.Outside.{HasCause, PutsPart, given_after};
ghost use Rattle.asc_traj.specs.Parts.{all_cells, cells_from};

use crate::fields::CELL_SIZE;
use asc_model::Version;
use asc_outside::{Failed, Sink, put_all};
use asc_shape::Shape;
use asc_shard::Shard;
use asc_traj::{Entry, Part, next_cell};
use byteorder::{ByteOrder, LittleEndian};

/// How many bytes of places are put at once.
const ROOM: usize = 2560;

/// Puts the file of a shard's entries, which are of one shape and within the bounds of files, to a sink.
///
/// No allocator is handed in. Where the sink fails, it was given the first bytes of the file.
pub fn write<O: Sink>(shape: Shape, content: &Shard, out: &mut O) -> Result<(), Failed>
    requires { AreSavable shape content.now.held }
    ensures all { OnOk result (O.given out.new ≡ given_after (O.given out.old) (entry_file shape content.now.held)) }
    ensures part { OnErr result (PutsPart (O.given out.old) (O.given out.new) (entry_file shape content.now.held)) }
    ensures cause { HasCause (O.faults out.old) (O.faults out.new) result }
{
    put_all(out, &header(shape, content.len() as u32))?;
    for i in 0..content.len() {
        let entry = content.entry(i);
        write_entry(
            entry,
            cell_count(entry.reads()),
            cell_count(entry.writes()),
            out,
        )?;
    }
    Ok(())
}

/// The header of a file.
fn header(shape: Shape, count: u32) -> [u8; 20]
    ensures { result ≡ header_bytes shape count }
{
    let mut bytes = [0; 20];
    bytes[..4].copy_from_slice(b"ASCE");
    bytes[4] = 1;
    bytes[5] = machine_number(shape.version());
    LittleEndian::write_u32(&mut bytes[8..12], shape.base());
    LittleEndian::write_u32(&mut bytes[12..16], shape.size());
    LittleEndian::write_u32(&mut bytes[16..], count);
    bytes
}

/// The number of a machine's version.
fn machine_number(version: Version) -> u8
    ensures { result ≡ machine_number version }
{
    match version {
        Version::One => 1,
        Version::Two => 2,
    }
}

/// Puts an entry to a sink: its steps and counts, its reads, and its writes.
fn write_entry<O: Sink>(entry: &Entry, reads: u32, writes: u32, out: &mut O) -> Result<(), Failed>
    requires reads { reads ≡ length entry.now.reads }
    requires writes { writes ≡ length entry.now.writes }
    ensures all { OnOk result (O.given out.new ≡ given_after (O.given out.old) (entry_bytes entry.now)) }
    ensures part { OnErr result (PutsPart (O.given out.old) (O.given out.new) (entry_bytes entry.now)) }
    ensures cause { HasCause (O.faults out.old) (O.faults out.new) result }
{
    put_all(out, &counts(entry.steps(), reads, writes))?;
    write_cells(entry.reads(), out)?;
    write_cells(entry.writes(), out)
}

/// The steps of an entry, and how many reads and writes it has.
fn counts(steps: u64, reads: u32, writes: u32) -> [u8; 16]
    ensures { result ≡ bytes_of 8 steps ++ bytes_of 4 reads ++ bytes_of 4 writes }
{
    let mut bytes = [0; 16];
    LittleEndian::write_u64(&mut bytes[..8], steps);
    LittleEndian::write_u32(&mut bytes[8..12], reads);
    LittleEndian::write_u32(&mut bytes[12..], writes);
    bytes
}

/// How many places parts have.
fn cell_count(parts: &[Part]) -> u32
    requires { length (all_cells parts.now) < 2 ^ 32 }
    ensures { result ≡ length (all_cells parts.now) }
{
    let mut count = 0;
    let mut from = 0;
    while let Some(cell) = next_cell(parts, from) {
        count += 1;
        from = cell.next;
    }
    count
}

/// Puts the places of parts to a sink, each with its byte, many at once.
fn write_cells<O: Sink>(parts: &[Part], out: &mut O) -> Result<(), Failed>
    ensures all { OnOk result (O.given out.new ≡ given_after (O.given out.old) (flat_map cell_bytes (all_cells parts.now))) }
    ensures part { OnErr result (PutsPart (O.given out.old) (O.given out.new) (flat_map cell_bytes (all_cells parts.now))) }
    ensures cause { HasCause (O.faults out.old) (O.faults out.new) result }
{
    let mut room = [0; ROOM];
    let mut from = 0;
    loop {
        let filled = fill(parts, from, &mut room);
        if filled.length == 0 {
            return Ok(());
        }
        put_all(out, &room[..filled.length])?;
        from = filled.next;
    }
}

/// How many bytes were filled in, and from where on to go on.
#[derive(Clone, Copy)]
struct Filled {
    length: usize,
    next: usize,
}

/// Fills the room with the places of parts from one of their bytes on, each with its byte, as far as there is room.
fn fill(parts: &[Part], from: usize, room: &mut [u8; ROOM]) -> Filled
    requires { from ≤ 4 * length parts.now }
    ensures filled { flat_map cell_bytes (cells_from parts.now from)
        ≡ take result.length room.new ++ flat_map cell_bytes (cells_from parts.now result.next) }
    ensures room { result.length ≤ 2560 }
    ensures next { result.next ≤ 4 * length parts.now }
    ensures goes { (0 < result.length → from < result.next) × (result.length ≡ 0 → cells_from parts.now from ≡ []) }
{
    let mut length = 0;
    let mut next = from;
    while length < ROOM {
        let Some(cell) = next_cell(parts, next) else {
            break;
        };
        LittleEndian::write_u32(&mut room[length..length + 4], cell.place);
        room[length + 4] = cell.byte;
        length += CELL_SIZE;
        next = cell.next;
    }
    Filled { length, next }
}
