ghost use Rattle.std.specs.Prelude.{◌≡◌, true};
ghost use Rattle.asc_model.specs.EntryFile.{AreSavable};

use asc_model::SaveFault;
use asc_outside::{Failed, ListSink};
use asc_save::{LoadFault, Saved, load, write};
use asc_shape::Shape;
use asc_shard::Shard;
use asc_traj::{Part, cells_of};
use std::alloc::Global;
use std::process::Abort;
use std::test::Fail;

/// The header of four entries of 65,536 bytes of memory at 0x10000, in version One.
const HEADER: [u8; 20] = [
    0x41, 0x53, 0x43, 0x45, 1, 1, 0, 0, 0, 0, 1, 0, 0, 0, 1, 0, 4, 0, 0, 0,
];

/// The words of a loop at 0x10008, which counts x5 up to x6, and of two steps behind it. The next would be a guest call.
const WORDS: [u32; 4] = [0x0012_8293, 0xFE62_9EE3, 0x05D0_0893, 0x0000_0513];

/// Puts the bytes of a word behind a file, each with its place.
fn push_word<R: Abort>(rt: &R, file: &mut Vec<u8>, place: u32, word: u32) {
    for (at, byte) in (place..).zip(word.to_le_bytes()) {
        file.extend_from_slice(&at.to_le_bytes())
            .expect(rt, "memory");
        file.push(byte).expect(rt, "memory");
    }
}

/// Puts the steps of an entry and its counts behind a file.
fn push_counts<R: Abort>(rt: &R, file: &mut Vec<u8>, steps: u8, reads: u8, writes: u8) {
    let counts = [steps, 0, 0, 0, 0, 0, 0, 0, reads, 0, 0, 0, writes, 0, 0, 0];
    file.extend_from_slice(&counts).expect(rt, "memory");
}

/// Puts what the steps of a lap read first behind a file: the pc, x5, x6, and so many words.
fn push_reads<R: Abort>(rt: &R, file: &mut Vec<u8>, x5: u32, words: &[u32]) {
    push_word(rt, file, 0, 0x10008);
    push_word(rt, file, 20, x5);
    push_word(rt, file, 24, 5);
    let mut place = 136;
    for word in words {
        push_word(rt, file, place, *word);
        place = u32::wrapping_add(place, 4);
    }
}

/// The file of the loop's entries at x5 = 2, 4, 3 and 1, by hand, where x6 is 5. At 4 the loop ends, and the steps behind it
/// are taken.
fn four_entries<R: Abort>(rt: &R, alloc: Global) -> Vec<u8> {
    let mut file = Vec::from_slice(alloc, &HEADER).expect(rt, "memory");
    for x5 in [2, 4, 3, 1] {
        if x5 == 4 {
            push_counts(rt, &mut file, 4, 28, 16);
            push_reads(rt, &mut file, 4, &WORDS);
            push_word(rt, &mut file, 0, 0x10018);
            push_word(rt, &mut file, 20, 5);
            push_word(rt, &mut file, 40, 0);
            push_word(rt, &mut file, 68, 93);
        } else {
            push_counts(rt, &mut file, 2, 20, 8);
            push_reads(rt, &mut file, x5, &WORDS[..2]);
            push_word(rt, &mut file, 0, 0x10008);
            push_word(rt, &mut file, 20, x5 + 1);
        }
    }
    file
}

/// How many places parts have.
fn count<R: Abort>(rt: &R, alloc: Global, parts: &[Part]) -> usize {
    cells_of(alloc, parts).expect(rt, "memory").len()
}

/// A shard of what was loaded.
fn shard_of<R: Abort>(rt: &R, alloc: Global, saved: Saved) -> Shard {
    let mut content = Shard::new(alloc, 1024).expect(rt, "memory");
    for entry in saved.into_entries() {
        let _ = content.insert(entry);
    }
    content
}

/// Whether entries may be written to a file of this shape.
fn may_be_written<R: Abort>(rt: &R, alloc: Global, shape: Shape, content: &Shard) -> bool
    ensures { result ≡ true → AreSavable shape content.now.held }
{
    let _ = shape.base();
    for i in 0..content.len() {
        let entry = content.entry(i);
        entry.truth();
        let reads = cells_of(alloc, entry.reads()).expect(rt, "memory");
        let writes = cells_of(alloc, entry.writes()).expect(rt, "memory");
        if entry.shape() != shape || entry.steps() > 1_000_000_000 {
            return false;
        }
        if reads.len() > 4096 || writes.len() > 4096 {
            return false;
        }
    }
    content.len() <= 1024
}

/// What is written of a shard, where the sink has so much room.
fn written<R: Abort>(
    rt: &R,
    alloc: Global,
    shape: Shape,
    content: &Shard,
    room: usize,
) -> (Result<(), Failed>, ListSink) {
    assert!(rt; may_be_written(rt, alloc, shape, content));
    let mut sink = ListSink::new(alloc, room, 100, Vec::new(alloc)).expect(rt, "memory");
    let result = write(shape, content, &mut sink);
    (result, sink)
}

#[test]
fn saved_and_loaded_again(rt: HostRuntime) -> Result<(), Fail> {
    let alloc = rt.alloc();
    let file = four_entries(&rt, alloc);
    assert_eq!(rt; file.len(), 724);
    let saved = load(alloc, &file)?;
    let shape = Shape::new(0x10000, 65_536)?;
    assert_eq!(rt; saved.shape(), shape);
    let mut steps = Vec::new(alloc);
    for entry in saved.entries() {
        steps.push((entry.steps(), count(&rt, alloc, entry.reads())))?;
    }
    assert_eq!(rt;
        steps.as_slice(),
        [(2, 20), (4, 28), (2, 20), (2, 20)].as_slice()
    );
    let content = shard_of(&rt, alloc, saved);
    let (result, sink) = written(&rt, alloc, shape, &content, 724);
    assert_eq!(rt; result, Ok(()));
    assert_eq!(rt; sink.bytes(), file.as_slice());
    let (result, sink) = written(&rt, alloc, shape, &content, 300);
    assert_eq!(rt; result, Err(Failed));
    assert_eq!(rt; sink.bytes(), &file[..300.min(file.len())]);
    Ok(())
}

/// Bytes put over the file at a place, and the fault that it then has.
static FAULTS: [(u16, &[u8], SaveFault); 16] = [
    (0, &[0x61], SaveFault::Magic),
    (3, &[0x65], SaveFault::Magic),
    (4, &[0], SaveFault::Version),
    (5, &[3], SaveFault::Machine),
    (6, &[1], SaveFault::Machine),
    (7, &[1], SaveFault::Machine),
    (8, &[4], SaveFault::Shape),
    (12, &[0xFC, 0xFF, 0], SaveFault::Shape),
    (16, &[0x01, 0x04], SaveFault::Count),
    (16, &[3], SaveFault::Long),
    (16, &[5], SaveFault::Short),
    (20, &[0], SaveFault::Entry(0)),
    (20, &[3], SaveFault::Untrue(0)),
    (24, &[1], SaveFault::Entry(0)),
    (176 + 8, &[0x01, 0x10], SaveFault::Entry(1)),
    (723, &[0xFF], SaveFault::Untrue(3)),
];

/// A file with bytes put over it at a place.
fn patched<R: Abort>(rt: &R, alloc: Global, file: &[u8], place: u16, bytes: &[u8]) -> Vec<u8> {
    let mut patched = Vec::from_slice(alloc, file).expect(rt, "memory");
    for (at, byte) in (place..).zip(bytes) {
        if let Some(old) = patched.get_mut(at as usize) {
            *old = *byte;
        }
    }
    patched
}

#[test]
fn each_fault(rt: HostRuntime) {
    let alloc = rt.alloc();
    let mut file = four_entries(&rt, alloc);
    for (place, bytes, fault) in &FAULTS {
        let patched = patched(&rt, alloc, &file, *place, bytes);
        let found = load(alloc, &patched).err();
        assert_eq!(rt; found, Some(LoadFault::Bad(*fault)), "at {place}");
    }
    for length in 0..file.len() {
        let found = load(alloc, &file[..length]).err();
        assert_eq!(rt;
            found,
            Some(LoadFault::Bad(SaveFault::Short)),
            "at {length}"
        );
    }
    file.push(0).expect(&rt, "memory");
    let found = load(alloc, &file).err();
    assert_eq!(rt; found, Some(LoadFault::Bad(SaveFault::Long)));
}

#[test]
fn places_that_do_not_rise(rt: HostRuntime) {
    let alloc = rt.alloc();
    let file = four_entries(&rt, alloc);
    // The second read and the last one of the first entry, and its second write.
    for (place, bytes) in [
        (41, &[0, 0, 0, 0]),
        (131, &[0x80, 0, 1, 0]),
        (141, &[0, 0, 0, 0]),
    ] {
        let patched = patched(&rt, alloc, &file, place, bytes);
        let found = load(alloc, &patched).err();
        assert_eq!(rt;
            found,
            Some(LoadFault::Bad(SaveFault::Entry(0))),
            "at {place}"
        );
    }
}

/// What the definition says of a file: that it loads, or its fault. One of an entry goes with the entry's index.
#[derive(Clone, Copy, Debug, PartialEq, Eq)]
enum Said {
    Loads,
    Short,
    Magic,
    Version,
    Machine,
    Shape,
    Count,
    Entry,
    Untrue,
}

/// What is said of a byte before a place and behind the row before: with its lowest bit changed, its highest, and all.
type Row = (u16, Said, Said, Said);

/// Each byte of the header.
static HEADER_ROWS: [Row; 13] = [
    // The magic bytes, the format 1, the version 1, which does not turn into 2, and two zeros.
    (4, Said::Magic, Said::Magic, Said::Magic),
    (5, Said::Version, Said::Version, Said::Version),
    (8, Said::Machine, Said::Machine, Said::Machine),
    // The base, 0x10000. It is a multiple of 4,096 as 0x18000 and where its upper half is changed. Memory then ends
    // below 2 ^ 32, and does not hold the first pc, 0x10008.
    (9, Said::Shape, Said::Shape, Said::Shape),
    (10, Said::Shape, Said::Untrue, Said::Shape),
    (12, Said::Untrue, Said::Untrue, Said::Untrue),
    // The size, 0x10000. It is good from that to 0x4000000, in fours. No entry depends on how much memory is behind it.
    (13, Said::Shape, Said::Loads, Said::Shape),
    (14, Said::Loads, Said::Loads, Said::Loads),
    (15, Said::Shape, Said::Loads, Said::Loads),
    (16, Said::Loads, Said::Shape, Said::Shape),
    // The count, 4: it turns into 5, 132, 251, and 260. All others are above 1,024.
    (17, Said::Short, Said::Short, Said::Short),
    (18, Said::Short, Said::Count, Said::Count),
    (20, Said::Count, Said::Count, Said::Count),
];

/// Each byte of an entry's steps and counts, but for the writes of the last entry.
static COUNT_ROWS: [Row; 9] = [
    // More steps, at most 16,777,218, leave another pc or x5, or meet no instruction. All others are above 1,000,000,000.
    (3, Said::Untrue, Said::Untrue, Said::Untrue),
    (4, Said::Untrue, Said::Entry, Said::Entry),
    (8, Said::Entry, Said::Entry, Said::Entry),
    // One more read is the first write, of place 0 again. 148 and more pass the end. No count is above 4,096.
    (9, Said::Entry, Said::Short, Said::Short),
    (10, Said::Short, Said::Entry, Said::Entry),
    (12, Said::Entry, Said::Entry, Said::Entry),
    // One more write is the front of the next entry, whose steps are place 2 or 4. 136 and more pass the end.
    (13, Said::Entry, Said::Short, Said::Short),
    (14, Said::Short, Said::Entry, Said::Entry),
    (16, Said::Entry, Said::Entry, Said::Entry),
];

/// What the first row says that holds a place.
fn row_said(rows: &[Row], place: u16, flip: u8) -> Said {
    for (end, lowest, highest, all) in rows {
        if place < *end {
            return match flip {
                0x01 => *lowest,
                0x80 => *highest,
                _ => *all,
            };
        }
    }
    Said::Loads
}

/// The places that are read: the pc, x5, x6, and the words. Only entry 1 reads the last two words.
static READ_PLACES: [u32; 28] = [
    0, 1, 2, 3, 20, 21, 22, 23, 24, 25, 26, 27, 136, 137, 138, 139, 140, 141, 142, 143, 144, 145,
    146, 147, 148, 149, 150, 151,
];

/// The places that are written: the pc, x5, and by entry 1 also x10 and x17.
static WRITTEN_PLACES: [u32; 16] = [0, 1, 2, 3, 20, 21, 22, 23, 40, 41, 42, 43, 68, 69, 70, 71];

/// What is said where some bits of a place are changed. If it is still above the place before it and below the one behind it
/// and the length of a state, the steps do not touch it, and they touch the one that it was.
fn place_said(places: &[u32], cell: usize, bits: u32) -> Said {
    let Some(old) = places.get(cell) else {
        return Said::Loads;
    };
    let place = *old ^ bits;
    let is_above = match places.get(usize::wrapping_sub(cell, 1)) {
        Some(before) => *before < place,
        None => true,
    };
    let is_below = match places.get(usize::wrapping_add(cell, 1)) {
        Some(behind) => place < *behind,
        None => place < 128 + 65_536,
    };
    if is_above && is_below {
        Said::Untrue
    } else {
        Said::Entry
    }
}

/// What is said where some bits of a read's byte are changed. The pc and x5 decide what is written. A changed word is no
/// instruction, or it has another register or another number, unless it is the branch with another offset.
fn read_said(index: usize, place: u32, flip: u8) -> Said {
    match (index, place, flip) {
        // x6 is 4, and so is x5 after the first step: the loop ends.
        (2, 24, 0x01) => Said::Untrue,
        // x6 is not what x5 is after the first step, as before: the loop goes on.
        (0 | 2 | 3, 24..=27, _) => Said::Loads,
        // The branch, which is not taken, with another offset. Each other change of it is of its opcode or of a register.
        (1, 140 | 143, 0x80) | (1, 141, 0x01) => Said::Loads,
        _ => Said::Untrue,
    }
}

/// What is said where some bits of a byte of an entry are changed.
fn entry_said(index: usize, at: u16, flip: u8) -> Said {
    if index == 3 && at == 12 {
        // Nothing is behind its last write.
        return Said::Short;
    }
    if at < 16 {
        return row_said(&COUNT_ROWS, at, flip);
    }
    let (reads, writes) = if index == 1 {
        (&READ_PLACES[..], &WRITTEN_PLACES[..])
    } else {
        (&READ_PLACES[..20], &WRITTEN_PLACES[..8])
    };
    let cell = usize::from((at - 16) / 5);
    let byte = (at - 16) % 5;
    let bits = u32::wrapping_shl(u32::from(flip), u32::wrapping_mul(8, u32::from(byte)));
    match (reads.get(cell), byte) {
        (Some(place), 4) => read_said(index, *place, flip),
        (Some(_), _) => place_said(reads, cell, bits),
        // What the steps write does not depend on it.
        (None, 4) => Said::Untrue,
        (None, _) => place_said(writes, usize::wrapping_sub(cell, reads.len()), bits),
    }
}

/// The entry that a byte of the file is in, and what is said where some bits of the byte are changed. The header is counted
/// to the first entry.
fn byte_said(place: u16, flip: u8) -> (usize, Said) {
    if place < 20 {
        (0, row_said(&HEADER_ROWS, place, flip))
    } else if place < 176 {
        (0, entry_said(0, place - 20, flip))
    } else if place < 412 {
        (1, entry_said(1, place - 176, flip))
    } else if place < 568 {
        (2, entry_said(2, place - 412, flip))
    } else {
        (3, entry_said(3, place - 568, flip))
    }
}

/// What loading is to answer where some bits of a byte of the file are changed; none where it loads.
fn fault_said(place: u16, flip: u8) -> Option<LoadFault> {
    let (index, said) = byte_said(place, flip);
    let fault = match said {
        Said::Loads => return None,
        Said::Short => SaveFault::Short,
        Said::Magic => SaveFault::Magic,
        Said::Version => SaveFault::Version,
        Said::Machine => SaveFault::Machine,
        Said::Shape => SaveFault::Shape,
        Said::Count => SaveFault::Count,
        Said::Entry => SaveFault::Entry(index),
        Said::Untrue => SaveFault::Untrue(index),
    };
    Some(LoadFault::Bad(fault))
}

/// Sees that a file with some bits of a byte changed loads as it is said. What it loads is written as the same file.
fn load_as_said<R: Abort>(rt: &R, alloc: Global, file: &[u8], place: u16, flip: u8) {
    let said = fault_said(place, flip);
    match load(alloc, file) {
        Ok(saved) => {
            assert_eq!(rt; said, None, "at {place}, {flip}");
            let shape = saved.shape();
            let content = shard_of(rt, alloc, saved);
            let (result, sink) = written(rt, alloc, shape, &content, 724);
            assert_eq!(rt; result, Ok(()), "at {place}, {flip}");
            assert_eq!(rt; sink.bytes(), file, "at {place}, {flip}");
        }
        Err(fault) => assert_eq!(rt; Some(fault), said, "at {place}, {flip}"),
    }
}

/// Sees to the three changes of a byte.
fn each_change<R: Abort>(rt: &R, alloc: Global, file: &[u8], place: u16, old: u8) {
    for flip in [0x01, 0x80, 0xFF] {
        let changed = patched(rt, alloc, file, place, &[old ^ flip]);
        load_as_said(rt, alloc, &changed, place, flip);
    }
}

#[test]
fn each_byte_changed(rt: HostRuntime) {
    let alloc = rt.alloc();
    let file = four_entries(&rt, alloc);
    assert_eq!(rt; file.len(), 724);
    for (place, old) in (0..).zip(file.iter()) {
        each_change(&rt, alloc, &file, place, *old);
    }
}
