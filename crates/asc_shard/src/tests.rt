ghost use Rattle.std.specs.Prelude.{◌≡◌, ◌<◌, ◌≤◌, ◌+◌};
ghost use Rattle.asc_outside.specs.Outside.{one_more};

use crate::find::Probes;
use crate::{Inserted, MOST_CAPACITY, Shard};
use asc_depvec::Tracer;
use asc_outside::Steps;
use asc_shape::{Guess, Shape, Snapshot, State};
use asc_traj::{Entry, Made, Never, Stop, cells_of};
use std::alloc::Global;
use std::marker::Brand;
use std::process::Abort;
use std::sync::Arc;
use std::sync::ledger::{Blank, Ledger};

/// It counts probes up to 2^64 - 1.
#[derive(Drop)]
struct Counter {
    count: u64,
}

impl Probes for Counter {
    ghost count = { λ counter. counter.count };

    ghost more = { one_more };

    fn tick(&mut self) {
        self.count = self.count.saturating_add(1);
    }
}

/// A state of `size` bytes of memory from 0x10000 on, with these words there.
fn state_of<R: Abort>(rt: &R, alloc: Global, size: u32, words: &[u32]) -> State {
    let shape = Shape::new(0x10000, size).expect(rt, "a shape");
    let mut state = State::new(alloc, shape).expect(rt, "memory");
    state.set_pc(0x10000);
    let mut at = 0x10000;
    for word in words {
        assert!(rt; state.holds(at, 4));
        state.write(at, &word.to_le_bytes());
        at = at.wrapping_add(4);
    }
    state
}

/// A loop from 0x10008 on that counts x5 up to x6, two steps a lap.
fn counting<R: Abort>(rt: &R, alloc: Global, size: u32, x5: u32, x6: u32) -> State {
    let words = [0x0000_0293, 0x0040_0313, 0x0012_8293, 0xFE62_9EE3];
    let mut state = state_of(rt, alloc, size, &words);
    state.set_pc(0x10008);
    state.set_reg(5, x5);
    state.set_reg(6, x6);
    state
}

/// A load of a word, which is at x10.
fn loading<R: Abort>(rt: &R, alloc: Global, x10: u32, word: u32) -> State {
    loading_behind(rt, alloc, x10, 0, word)
}

/// A load of a word, which is so many bytes behind x10.
fn loading_behind<R: Abort>(rt: &R, alloc: Global, x10: u32, behind: u32, word: u32) -> State {
    let mut state = state_of(rt, alloc, 65_536, &[0x0005_2303 | (behind << 20)]);
    let at = x10.wrapping_add(behind);
    assert!(rt; state.holds(at, 4));
    state.write(at, &word.to_le_bytes());
    state.set_reg(10, x10);
    state
}

/// The entry of a state's trace, until so many laps at 0x10008 or so many steps.
fn entry_of<R: Abort>(rt: &R, alloc: Global, from: &State, laps: u64, span: u64) -> Arc<Entry> {
    assert!(rt; laps >= 1 && span >= 1);
    let mut tracer = Tracer::new(alloc, from.shape(), 96).expect(rt, "memory");
    let guess = Guess::last(Snapshot::of(alloc, from).expect(rt, "memory"));
    let stop = Stop {
        pc: 0x10008,
        laps,
        span,
    };
    let Made::One(entry) = Entry::traced(alloc, &mut tracer, guess, &stop, &mut Never) else {
        panic!(rt; "no entry")
    };
    entry
}

/// The entry of so many laps of the counting loop.
fn laps_from<R: Abort>(rt: &R, alloc: Global, x5: u32, x6: u32, laps: u64) -> Arc<Entry> {
    let state = counting(rt, alloc, 65_536, x5, x6);
    entry_of(rt, alloc, &state, laps, 100)
}

/// A shard for so many entries.
fn shard_of<R: Abort>(rt: &R, alloc: Global, capacity: usize) -> Shard {
    assert!(rt; (1..=MOST_CAPACITY).contains(&capacity));
    Shard::new(alloc, capacity).expect(rt, "memory")
}

/// The entry at a position has the reads of this one.
fn has<R: Abort>(rt: &R, alloc: Global, shard: &Shard, i: usize, entry: &Entry) {
    assert!(rt; i < shard.len());
    let found = cells_of(alloc, shard.entry(i).reads()).expect(rt, "memory");
    let wanted = cells_of(alloc, entry.reads()).expect(rt, "memory");
    assert_eq!(rt; found.as_slice(), wanted.as_slice());
}

#[test]
fn bounded(rt: HostRuntime) {
    let alloc = rt.alloc();
    let mut shard = shard_of(&rt, alloc, 2);
    for x5 in 0..3 {
        let inserted = shard.insert(laps_from(&rt, alloc, x5, 100, 1));
        assert_eq!(rt; inserted, Inserted::Stored);
    }
    let first = laps_from(&rt, alloc, 0, 100, 1);
    let second = laps_from(&rt, alloc, 1, 100, 1);
    let third = laps_from(&rt, alloc, 2, 100, 1);
    assert_eq!(rt; (shard.len(), shard.capacity()), (2, 2));
    has(&rt, alloc, &shard, 0, &second);
    has(&rt, alloc, &shard, 1, &third);
    assert_eq!(rt;
        shard.insert(laps_from(&rt, alloc, 2, 100, 1)),
        Inserted::Known
    );
    has(&rt, alloc, &shard, 0, &second);
    assert_eq!(rt;
        shard.insert(laps_from(&rt, alloc, 0, 100, 1)),
        Inserted::Stored
    );
    assert_eq!(rt; shard.len(), 2);
    has(&rt, alloc, &shard, 0, &third);
    has(&rt, alloc, &shard, 1, &first);
}

#[test]
fn jumps(rt: HostRuntime) {
    let alloc = rt.alloc();
    let mut shard = shard_of(&rt, alloc, 8);
    for laps in 1..3 {
        shard.insert(laps_from(&rt, alloc, 0, 4, laps));
    }
    for (left, size, given, x5) in [
        (4, 65_536, Some(4), 2),
        (3, 65_536, Some(2), 1),
        (1, 65_536, None, 0),
        (4, 65_540, None, 0),
    ] {
        let mut state = counting(&rt, alloc, size, 0, 4);
        assert_eq!(rt; shard.jump(&mut state, left), given);
        assert_eq!(rt; (state.pc(), state.reg(5)), (0x10008, x5));
    }
}

/// What a look-up finds, and how often it compares an entry with the state.
fn looked(shard: &Shard, state: &State, left: u64) -> (Option<usize>, u64) {
    let mut probes = Counter { count: 0 };
    let found = shard.find_by(state, left, &mut probes);
    (found, probes.count)
}

#[test]
fn grouped(rt: HostRuntime) {
    let alloc = rt.alloc();
    let mut shard = shard_of(&rt, alloc, 24);
    // Laps of one loop read the same places.
    for x5 in 0..8 {
        shard.insert(laps_from(&rt, alloc, x5, 100, 1));
        assert_eq!(rt; shard.groups(), 1);
    }
    let state = counting(&rt, alloc, 65_536, 5, 100);
    let (found, probes) = looked(&shard, &state, 2);
    assert_eq!(rt; found, Some(5));
    assert!(rt; probes <= 5);
    assert_eq!(rt; looked(&shard, &state, 1).0, None);
    // Another lap reads others, and so does one that loads the next word: that has the same fingerprint.
    for (behind, groups) in [(0, 2), (4, 3)] {
        for word in 0..8 {
            let state = loading_behind(&rt, alloc, 0x10100, behind, word);
            shard.insert(entry_of(&rt, alloc, &state, 9, 1));
            assert_eq!(rt; shard.groups(), groups);
        }
    }
    assert_eq!(rt; shard.len(), 24);
}

#[test]
fn apart(rt: HostRuntime) {
    let alloc = rt.alloc();
    let mut shard = shard_of(&rt, alloc, 64);
    for k in 0..64 {
        let state = loading(&rt, alloc, 0x10100 + 8 * k, 0);
        shard.insert(entry_of(&rt, alloc, &state, 9, 1));
    }
    let state = loading(&rt, alloc, 0x10100 + 8 * 21, 0);
    let (found, probes) = looked(&shard, &state, 1);
    assert_eq!(rt; found, Some(21));
    assert!(rt; probes <= 3);
    let state = loading(&rt, alloc, 0x10104, 0);
    assert_eq!(rt; looked(&shard, &state, 1), (None, 0));
}

/// Two additions of three registers: one of ten, one of ten others and one of nine others.
fn adding<R: Abort>(rt: &R, alloc: Global, list: u32) -> State {
    let a = 2 + list % 10;
    let b = 12 + list / 10 % 10;
    let c = 22 + list / 100 % 9;
    let words = [0x0000_00B3 | (a << 15) | (b << 20), 0x0000_80B3 | (c << 20)];
    state_of(rt, alloc, 65_536, &words)
}

#[test]
fn lists(rt: HostRuntime) {
    let alloc = rt.alloc();
    for count in [30u32, 890] {
        let mut shard = shard_of(&rt, alloc, count as usize);
        for list in 0..count {
            shard.insert(entry_of(&rt, alloc, &adding(&rt, alloc, list), 9, 2));
        }
        // The state has the fingerprint of each list, which has one entry.
        for (list, wanted) in [(0, Some(0)), (29, Some(29)), (count, None)] {
            let (found, probes) = looked(&shard, &adding(&rt, alloc, list), 2);
            assert_eq!(rt; found, wanted);
            assert!(rt; probes <= 2 * u64::from(count));
        }
        // And here of none.
        let mut other = adding(&rt, alloc, 0);
        for reg in 2..32 {
            other.set_reg(reg, 7);
        }
        assert_eq!(rt; looked(&shard, &other, 2), (None, 0));
    }
}

#[test]
fn of_one_word(rt: HostRuntime) {
    let alloc = rt.alloc();
    let mut shard = shard_of(&rt, alloc, 16);
    // The oldest 8 of the 24 go.
    for k in 0..24 {
        let state = loading(&rt, alloc, 0x10100, 7 * k % 24);
        shard.insert(entry_of(&rt, alloc, &state, 9, 1));
    }
    for k in 0..24 {
        let word = 7 * k % 24;
        let (found, probes) = looked(&shard, &loading(&rt, alloc, 0x10100, word), 1);
        assert_eq!(rt; found, if k < 8 { None } else { Some(k as usize - 8) });
        assert!(rt; probes <= 6);
    }
    assert_eq!(rt;
        looked(&shard, &loading(&rt, alloc, 0x10100, 24), 1).0,
        None
    );
}

/// Finds an entry of two steps, counting probes by a ledger.
fn find<L: Ledger, R: Abort>(rt: &R, alloc: Global, blank: Blank) -> Option<usize>
    requires name { blank.name ≡ L.name }
    requires parts { blank.parts ≡ L.parts }
    requires some { 0 < L.parts }
{
    let mut shard = shard_of(rt, alloc, 1);
    shard.insert(laps_from(rt, alloc, 0, 4, 1));
    let mut steps = Steps::<L>::new(blank);
    shard.find(&counting(rt, alloc, 65_536, 0, 4), 2, &mut steps)
}

#[test]
fn finds(rt: HostRuntime) {
    let found = find::<Brand, _>(&rt, rt.alloc(), Blank::new(1));
    assert_eq!(rt; found, Some(0));
}

/// It does nothing. Its call shows that threads may share values of a type, and hand them on.
fn is_shared<T: Send + Sync>(_value: &T) {}

#[test]
fn shared(rt: HostRuntime) {
    is_shared(&shard_of(&rt, rt.alloc(), 1));
}
