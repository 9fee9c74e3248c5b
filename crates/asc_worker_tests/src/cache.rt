//! Shards that threads share.
ghost use Rattle.std.specs.Prelude.{◌≡◌, ◌≤◌, IfOk};
ghost use Rattle.asc_cache.specs.Cache.{ShardWriter as writer_model, AreLater, IsOwnReader};

use asc_cache::{Cache, Insert, ListWriter, ShardReaders, ShardWriter};
use asc_depvec::Tracer;
use asc_find::Finder;
use asc_outside::Memory;
use asc_shape::{Guess, Shape, Snapshot, State};
use asc_shard::{Inserted, Shard};
use asc_traj::{Entry, Made, Never, Stop};
use std::alloc::Global;
use std::process::Abort;
use std::sync::{Arc, Wait};
use std::test::Fail;
use std::thread::{Threads, join_mut};

/// A loop from 0x10008 on that counts x5, two steps a lap.
fn counting(alloc: Global, x5: u32) -> Result<State, Memory> {
    counting_in(alloc, 65_536, x5)
}

/// The same in a memory of so many bytes.
fn counting_in(alloc: Global, size: u32, x5: u32) -> Result<State, Memory> {
    let Ok(shape) = Shape::new(0x10000, size) else {
        return Err(Memory);
    };
    let mut state = State::new(alloc, shape)?;
    let mut at: u32 = 0x10008;
    for word in [0x0012_8293u32, 0xFE62_9EE3] {
        if state.holds(at, 4) {
            state.write(at, &word.to_le_bytes());
        }
        at = at.wrapping_add(4);
    }
    state.set_pc(0x10008);
    state.set_reg(5, x5);
    state.set_reg(6, 100);
    Ok(state)
}

/// The entry of one lap.
fn lap_from(alloc: Global, x5: u32) -> Result<Arc<Entry>, Memory> {
    laps_from(alloc, x5, 1)
}

/// The entry of so many laps.
fn laps_from(alloc: Global, x5: u32, laps: u64) -> Result<Arc<Entry>, Memory>
    requires { 1 ≤ laps }
{
    let from = counting(alloc, x5)?;
    let mut tracer = Tracer::new(alloc, from.shape(), 96)?;
    let guess = Guess::last(Snapshot::of(alloc, &from)?);
    let stop = Stop {
        pc: 0x10008,
        laps,
        span: 100,
    };
    match Entry::traced(alloc, &mut tracer, guess, &stop, &mut Never) {
        Made::One(entry) => Ok(entry),
        Made::Empty | Made::Stopped | Made::Refused => Err(Memory),
    }
}

/// What the readers find where x5 is such, and x5 then.
fn found<R: Wait + Drop>(
    alloc: Global,
    readers: &mut ShardReaders<R>,
    x5: u32,
    left: u64,
) -> Result<(Option<u64>, u32), Memory>
    ensures { AreLater readers.old.readers readers.new.readers }
{
    found_in(alloc, readers, 65_536, x5, left)
}

/// The same in a memory of so many bytes.
fn found_in<R: Wait + Drop>(
    alloc: Global,
    readers: &mut ShardReaders<R>,
    size: u32,
    x5: u32,
    left: u64,
) -> Result<(Option<u64>, u32), Memory>
    ensures { AreLater readers.old.readers readers.new.readers }
{
    let mut state = counting_in(alloc, size, x5)?;
    if left > 100 || readers.asked() > 1_000_000 || readers.given() > 1_000_000 {
        return Err(Memory);
    }
    let found = readers.jump(&mut state, left);
    Ok((found, state.reg(5)))
}

/// A row: the lap that is inserted, what becomes of it, how many insertions the reader has then seen, and which of the
/// laps from 0, 1 and 2 it finds.
#[derive(Clone, Copy)]
struct Row {
    x5: u32,
    became: Inserted,
    seen: u64,
    finds: [bool; 3],
}

/// In a shard of capacity 2.
static ROWS: [Row; 5] = [
    Row {
        x5: 0,
        became: Inserted::Stored,
        seen: 1,
        finds: [true, false, false],
    },
    Row {
        x5: 1,
        became: Inserted::Stored,
        seen: 2,
        finds: [true, true, false],
    },
    Row {
        x5: 2,
        became: Inserted::Stored,
        seen: 3,
        finds: [false, true, true],
    },
    Row {
        x5: 2,
        became: Inserted::Known,
        seen: 3,
        finds: [false, true, true],
    },
    Row {
        x5: 0,
        became: Inserted::Stored,
        seen: 4,
        finds: [true, false, true],
    },
];

/// Where an insertion was refused, nothing is stored. The next one is tried: it is stored, and its reader finds it.
fn refused<R: Wait + Drop, Q: Abort>(
    rt: &Q,
    alloc: Global,
    writer: &mut ShardWriter<R>,
    readers: &mut ShardReaders<R>,
    stored: u64,
) -> Result<(), Memory>
    requires { IsOwnReader writer.old readers.old.readers }
{
    assert_eq!(rt; writer.stored(), stored);
    let next = writer.insert(lap_from(alloc, 9)?);
    assert!(rt; next.is_ok());
    readers.meet(writer);
    assert_eq!(rt; writer.stored(), stored.wrapping_add(1));
    assert_eq!(rt; readers.seen(writer.index()), writer.stored());
    find_row(rt, alloc, readers, 9, true)
}

/// Inserts, and from so many insertions on meets and looks up.
fn play_row<R: Wait + Drop, Q: Abort>(
    rt: &Q,
    alloc: Global,
    writer: &mut ShardWriter<R>,
    readers: &mut ShardReaders<R>,
    row: &Row,
    first: u64,
) -> Result<(), Memory>
    requires { IsOwnReader writer.old readers.old.readers }
    ensures { IfOk result (λ _. IsOwnReader writer.new readers.new.readers) }
{
    let stored = writer.stored();
    let Ok(became) = writer.insert(lap_from(alloc, row.x5)?) else {
        refused(rt, alloc, writer, readers, stored)?;
        return Err(Memory);
    };
    assert_eq!(rt; became, row.became);
    if row.seen < first {
        return Ok(());
    }
    readers.meet(writer);
    assert_eq!(rt;
        (writer.stored(), readers.seen(writer.index())),
        (row.seen, row.seen)
    );
    for x5 in 0..3u32 {
        find_row(rt, alloc, readers, x5, row.finds[x5 as usize])?;
    }
    Ok(())
}

/// Looks up at a place where an entry of two steps is found, or is not.
fn find_row<R: Wait + Drop, Q: Abort>(
    rt: &Q,
    alloc: Global,
    readers: &mut ShardReaders<R>,
    x5: u32,
    finds: bool,
) -> Result<(), Memory>
    ensures { AreLater readers.old.readers readers.new.readers }
{
    let expected = if finds {
        (Some(2), x5.wrapping_add(1))
    } else {
        (None, x5)
    };
    assert_eq!(rt; found(alloc, readers, x5, 2)?, expected);
    Ok(())
}

/// Plays all rows with one of the shards of a cache, and answers how often its readers were asked, what they gave and
/// how often they hit. Its reader is told nothing below so many insertions.
fn play<R: Wait + Copy, Q: Abort>(
    rt: &Q,
    handle: R,
    alloc: Global,
    shards: usize,
    at: usize,
    first: u64,
) -> Result<(u64, u64, u64), Memory> {
    assert!(rt; at < shards && shards <= 64);
    let (mut writers, mut readers) = Cache::open(alloc, handle, shards, 2)?.split();
    play_rows(rt, alloc, &mut writers[at], &mut readers, first)
}

fn play_rows<R: Wait + Drop, Q: Abort>(
    rt: &Q,
    alloc: Global,
    writer: &mut ShardWriter<R>,
    readers: &mut ShardReaders<R>,
    first: u64,
) -> Result<(u64, u64, u64), Memory>
    requires { IsOwnReader writer.old readers.old.readers }
{
    for row in &ROWS {
        play_row(rt, alloc, writer, readers, row, first)?;
    }
    let counts = (readers.asked(), readers.given(), readers.hits());
    begin_again(rt, alloc, readers)?;
    Ok(counts)
}

/// In a further run the readers count from 0 on, and find what they have seen.
fn begin_again<R: Wait + Drop, Q: Abort>(
    rt: &Q,
    alloc: Global,
    readers: &mut ShardReaders<R>,
) -> Result<(), Memory> {
    readers.begin();
    find_row(rt, alloc, readers, 0, true)?;
    assert_eq!(rt;
        (readers.asked(), readers.given(), readers.hits()),
        (1, 2, 1)
    );
    Ok(())
}

#[test]
fn bounded(rt: HostRuntime) {
    let alloc = rt.alloc();
    for (shards, at, first, counts) in [
        (1, 0, 0, (15, 18, 9)),
        (3, 2, 0, (15, 18, 9)),
        (1, 0, 3, (9, 12, 6)),
    ] {
        assert_eq!(rt;
            play(&rt, &rt, alloc, shards, at, first).expect(&rt, "memory"),
            counts
        );
    }
}

/// A look-up where x5 is 0: how many bytes memory has, how many steps are left, what is found, and x5 then.
type Look = (u32, u64, Option<u64>, u32);

/// With the entries of 2 and 4 steps, of which the reader was told nothing. In another shape none matches.
static UNTOLD: [Look; 4] = [
    (65_536, 4, Some(4), 2),
    (65_536, 3, Some(2), 1),
    (65_536, 1, None, 0),
    (65_540, 4, None, 0),
];

/// With the entries of 4 and 6 steps, of which it was told.
static TOLD: [Look; 3] = [
    (65_536, 6, Some(6), 3),
    (65_536, 5, Some(4), 2),
    (65_536, 3, None, 0),
];

fn look_all<R: Wait + Drop, Q: Abort>(
    rt: &Q,
    alloc: Global,
    readers: &mut ShardReaders<R>,
    looks: &[Look],
) -> Result<(), Memory>
    ensures { (w : writer_model) → IsOwnReader w readers.old.readers → IsOwnReader w readers.new.readers }
{
    for &(size, left, found, x5) in looks {
        assert_eq!(rt; found_in(alloc, readers, size, 0, left)?, (found, x5));
    }
    Ok(())
}

/// Inserts the entries of one, two and three laps in a shard of capacity 2, and tells the reader of the last alone.
fn play_laps<R: Wait + Drop, Q: Abort>(
    rt: &Q,
    alloc: Global,
    writer: &mut ShardWriter<R>,
    readers: &mut ShardReaders<R>,
) -> Result<(), Memory>
    requires { IsOwnReader writer.old readers.old.readers }
{
    assert_eq!(rt; writer.insert(laps_from(alloc, 0, 1)?)?, Inserted::Stored);
    assert_eq!(rt; writer.insert(laps_from(alloc, 0, 2)?)?, Inserted::Stored);
    look_all(rt, alloc, readers, &UNTOLD)?;
    assert_eq!(rt; writer.insert(laps_from(alloc, 0, 3)?)?, Inserted::Stored);
    readers.meet(writer);
    look_all(rt, alloc, readers, &TOLD)
}

fn play_one_shard<R: Wait + Copy, Q: Abort>(
    rt: &Q,
    handle: R,
    alloc: Global,
) -> Result<(), Memory> {
    let (mut writers, mut readers) = Cache::open(alloc, handle, 1, 2)?.split();
    play_laps(rt, alloc, &mut writers[0], &mut readers)
}

#[test]
fn untold_and_told(rt: HostRuntime) -> Result<(), Fail> {
    play_one_shard(&rt, &rt, rt.alloc())?;
    Ok(())
}

/// A reader goes on with what is stored, once the writer is gone.
#[test]
fn writer_gone(rt: HostRuntime) -> Result<(), Fail> {
    let alloc = rt.alloc();
    let (mut writers, mut readers) = Cache::open(alloc, &rt, 1, 2)?.split();
    assert_eq!(rt; writers[0].insert(lap_from(alloc, 0)?)?, Inserted::Stored);
    drop(writers);
    assert_eq!(rt; found(alloc, &mut readers, 0, 2)?, (Some(2), 1));
    Ok(())
}

/// What becomes of the entries of the rows.
fn put_rows<W: Insert, Q: Abort>(rt: &Q, alloc: Global, writer: &mut W) -> Result<(), Memory> {
    for row in &ROWS {
        assert_eq!(rt; writer.insert(lap_from(alloc, row.x5)?)?, row.became);
    }
    Ok(())
}

#[test]
fn lent(rt: HostRuntime) -> Result<(), Fail> {
    let alloc = rt.alloc();
    let mut shard = Shard::new(alloc, 2)?;
    put_rows(&rt, alloc, &mut ListWriter::new(&mut shard))?;
    assert_eq!(rt; shard.len(), 2);
    let (mut writers, _readers) = Cache::open(alloc, &rt, 1, 2)?.split();
    put_rows(&rt, alloc, &mut writers[0])?;
    Ok(())
}

/// Stores these entries one after another, over and over.
fn store_many<R: Wait + Drop>(
    writer: &mut ShardWriter<R>,
    entries: &[Arc<Entry>],
    times: usize,
) -> Result<(), Memory>
    ensures { (writer.new.shard ≡ writer.old.shard) × (writer.new.index ≡ writer.old.index) }
{
    for _ in 0..times {
        for entry in entries {
            writer.insert(Arc::try_clone(entry)?)?;
        }
    }
    Ok(())
}

/// Looks up at most so many times, until so many insertions were seen. It answers whether what is seen never got
/// shorter.
fn watch<R: Wait + Drop>(
    readers: &mut ShardReaders<R>,
    state: &mut State,
    times: u32,
    until: u64,
) -> bool
    ensures { (w : writer_model) → IsOwnReader w readers.old.readers → IsOwnReader w readers.new.readers }
{
    let mut least = 0;
    for _ in 0..times {
        if readers.shards() == 0 || readers.asked() >= 1 << 60 || readers.given() >= 1 << 60 {
            return false;
        }
        readers.jump(state, 1);
        let seen = readers.seen(0);
        if seen < least {
            return false;
        }
        if seen == until {
            return true;
        }
        least = seen;
    }
    true
}

/// A writer and a reader in threads of their own. It answers whether what is seen never got shorter, and how much is
/// seen once the reader was told.
fn run_both<T: Threads + Wait + Sync, R: Wait + Drop + Send, Q: Wait + Drop + Send>(
    rt: &T,
    writer: &mut ShardWriter<R>,
    readers: &mut ShardReaders<Q>,
    entries: &[Arc<Entry>],
    state: &mut State,
) -> Result<(bool, u64), Memory>
    requires { IsOwnReader writer.old readers.old.readers }
{
    let (stored, grew) = join_mut(
        rt,
        &mut ||
            ensures { (writer.exit.now.shard ≡ writer.entry.now.shard) × (writer.exit.now.index ≡ writer.entry.now.index) }
        { store_many(writer, entries, 25_000) },
        &mut ||
            ensures { (w : writer_model) → IsOwnReader w readers.entry.now.readers
                → IsOwnReader w readers.exit.now.readers }
        { watch(readers, state, 1_000_000, 100_000) },
    );
    stored?;
    readers.meet(writer);
    Ok((grew, readers.seen(writer.index())))
}

/// A writer that has stored 100,000 insertions, beside a reader.
fn play_beside<Q: Abort + Threads + Wait + Sync + Send>(
    rt: &Q,
    alloc: Global,
) -> Result<u64, Memory> {
    let mut entries = Vec::new(alloc);
    for x5 in 0..4 {
        entries.push(lap_from(alloc, x5)?)?;
    }
    let mut state = counting(alloc, 1)?;
    let (mut writers, mut readers) = Cache::open(alloc, rt, 1, 2)?.split();
    let writer = &mut writers[0];
    let (grew, seen) = run_both(rt, writer, &mut readers, &entries, &mut state)?;
    assert!(rt; grew);
    assert_eq!(rt; seen, 100_000);
    Ok(writer.stored())
}

#[test]
fn beside(rt: HostRuntime) -> Result<(), Fail> {
    assert_eq!(rt; play_beside(&rt, rt.alloc())?, 100_000);
    Ok(())
}
