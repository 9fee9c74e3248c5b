//! Tracers.
ghost use Rattle.std.specs.Prelude.{◌≡◌};
ghost use Rattle.asc_model.specs.Shape.{length_of};

use crate::tracers::Call::{Get, GetWord, Put, PutWord, Reset, Undo};
use asc_depvec::{Block, Tracer, Unfilled};
use asc_model::Status::{Read, ReadWritten, Untouched, Written};
use asc_model::{STEP_ROOM, Status};
use asc_shape::{Bytes, Guess, Shape, Snapshot, State, Words};
use std::alloc::Global;
use std::process::Abort;
use std::sync::Arc;

/// A call of a tracer.
#[derive(Clone, Copy)]
enum Call {
    Get(u32),
    Put(u32, u8),
    GetWord(u32),
    PutWord(u32, u32),
    Undo(usize),
    Reset,
}

/// How many places a shape has.
fn places(shape: Shape) -> u32
    ensures { result ≡ length_of shape }
{
    shape.start() + shape.size()
}

/// Makes the call. It answers the byte or word that is read.
fn make<R: Abort>(rt: &R, tracer: &mut Tracer, call: Call) -> u32 {
    let shape = Bytes::shape(tracer);
    let len = places(shape);
    match call {
        Get(place) => {
            assert!(rt; place < len && tracer.room() >= 1);
            u32::from(tracer.get(place))
        }
        Put(place, byte) => {
            assert!(rt; place < len && tracer.room() >= 1);
            tracer.put(place, byte);
            0
        }
        GetWord(place) => {
            assert!(rt; place < len && len - place > 3 && tracer.room() >= 4);
            tracer.get_word(place)
        }
        PutWord(place, word) => {
            assert!(rt; place < len && len - place > 3 && tracer.room() >= 4);
            tracer.put_word(place, word);
            0
        }
        Undo(count) => {
            assert!(rt; count <= tracer.touched_count());
            tracer.undo(count);
            0
        }
        Reset => {
            tracer.reset();
            0
        }
    }
}

/// The last touched place, with its byte at the start.
fn last<R: Abort>(rt: &R, tracer: &Tracer) -> Option<(u32, u8)> {
    let item = *tracer.items().last()?;
    let place = item / 2 + 3 * (item % 2);
    assert!(rt; place < places(tracer.started().shape()));
    Some((place, tracer.started().byte(place)))
}

/// Starts a tracer of a state, or of a guess.
fn start<R: Abort>(rt: &R, alloc: Global, tracer: &mut Tracer, state: &State) {
    let snapshot = Snapshot::of(alloc, state).expect(rt, "memory");
    start_from(rt, tracer, Guess::last(snapshot));
}

fn start_from<R: Abort>(rt: &R, tracer: &mut Tracer, from: Guess) {
    // That its state is of its shape.
    let _ = tracer.touched_count();
    assert!(rt; from.shape() == Bytes::shape(tracer));
    tracer.start(from);
}

/// What a call answers; then the status of a place; how many places are touched, and how many more may be; and the
/// last of them, with its byte at the start.
type TouchRow = (Call, u32, u32, Status, usize, usize, Option<(u32, u8)>);

static TOUCH_ROWS: [TouchRow; 22] = [
    (Get(0), 4, 0, Read, 1, 31, Some((0, 4))),
    (Get(0), 4, 0, Read, 1, 31, Some((0, 4))),
    (Put(0, 9), 0, 0, ReadWritten, 1, 31, Some((0, 4))),
    (Get(0), 9, 0, ReadWritten, 1, 31, Some((0, 4))),
    (Put(1, 7), 0, 1, Written, 2, 30, Some((1, 3))),
    (Get(1), 7, 1, Written, 2, 30, Some((1, 3))),
    (Put(1, 8), 0, 1, Written, 2, 30, Some((1, 3))),
    (PutWord(4, 0xAABB_CCDD), 0, 5, Written, 6, 26, Some((7, 17))),
    (PutWord(4, 0x0A0B_0C0D), 0, 5, Written, 6, 26, Some((7, 17))),
    (GetWord(4), 0x0A0B_0C0D, 7, Written, 6, 26, Some((7, 17))),
    (GetWord(6), 0x0A0B, 8, Read, 8, 24, Some((9, 0))),
    (Undo(6), 0, 8, Untouched, 6, 26, Some((7, 17))),
    (Undo(6), 0, 7, Written, 6, 26, Some((7, 17))),
    (GetWord(8), 0, 11, Read, 10, 22, Some((11, 0))),
    (Undo(7), 0, 8, Read, 7, 25, Some((8, 0))),
    (GetWord(0), 0x0102_0809, 2, Read, 9, 23, Some((3, 1))),
    (Reset, 0, 0, Untouched, 0, 32, None),
    (GetWord(0), 0x0102_0304, 0, Read, 4, 28, Some((3, 1))),
    (
        PutWord(0, 0x0403_0201),
        0,
        3,
        ReadWritten,
        4,
        28,
        Some((3, 1)),
    ),
    (GetWord(0), 0x0403_0201, 0, ReadWritten, 4, 28, Some((3, 1))),
    (Undo(2), 0, 2, Untouched, 2, 30, Some((1, 3))),
    (GetWord(0), 0x0102_0201, 3, Read, 4, 28, Some((3, 1))),
];

#[test]
fn touches(rt: HostRuntime) {
    let shape = Shape::new(0x10000, 65_536).expect(&rt, "a shape");
    let mut first = State::new(rt.alloc(), shape).expect(&rt, "memory");
    first.set_pc(0x0102_0304);
    first.set_reg(1, 0x1122_3344);
    let mut tracer = Tracer::new(rt.alloc(), shape, STEP_ROOM).expect(&rt, "memory");
    start(&rt, rt.alloc(), &mut tracer, &first);
    for (call, answer, place, status, touched, left, seen) in TOUCH_ROWS {
        assert_eq!(rt; make(&rt, &mut tracer, call), answer);
        assert_eq!(rt; tracer.status(place), status);
        assert_eq!(rt;
            (tracer.touched_count(), last(&rt, &tracer)),
            (touched, seen)
        );
        assert_eq!(rt; tracer.room(), left);
    }
}

/// The statuses of places 8 to 11.
type Statuses = (Status, Status, Status, Status);

const ONE_WRITTEN: Statuses = (Untouched, Written, Untouched, Untouched);

const OTHERS_READ: Statuses = (Read, Written, Read, Read);

const ALL_WRITTEN: Statuses = (ReadWritten, Written, ReadWritten, ReadWritten);

const TWO_UNDONE: Statuses = (ReadWritten, Written, Untouched, Untouched);

const WRITTEN_AGAIN: Statuses = (ReadWritten, Written, Written, Written);

const NOT_TOUCHED: Statuses = (Untouched, Untouched, Untouched, Untouched);

const ALL_READ: Statuses = (Read, Read, Read, Read);

const FRONT_READ: Statuses = (Read, Read, Untouched, Untouched);

/// What a call answers; then the statuses of places 8 to 11, of which a word has all, some or none touched; and how
/// many places are touched.
static WORD_ROWS: [(Call, u32, Statuses, usize); 16] = [
    (Put(9, 7), 0, ONE_WRITTEN, 1),
    (GetWord(8), 0x0700, OTHERS_READ, 4),
    (GetWord(8), 0x0700, OTHERS_READ, 4),
    (PutWord(8, 0x0403_0201), 0, ALL_WRITTEN, 4),
    (GetWord(8), 0x0403_0201, ALL_WRITTEN, 4),
    (Undo(2), 0, TWO_UNDONE, 2),
    (PutWord(8, 0x0807_0605), 0, WRITTEN_AGAIN, 4),
    (GetWord(6), 0x0605_0000, WRITTEN_AGAIN, 6),
    (PutWord(10, 0x0C0B_0A09), 0, WRITTEN_AGAIN, 8),
    (GetWord(8), 0x0A09_0605, WRITTEN_AGAIN, 8),
    (Reset, 0, NOT_TOUCHED, 0),
    (GetWord(8), 0, ALL_READ, 4),
    (GetWord(4), 0, ALL_READ, 8),
    (Undo(4), 0, ALL_READ, 4),
    (Undo(2), 0, FRONT_READ, 2),
    (Reset, 0, NOT_TOUCHED, 0),
];

#[test]
fn words(rt: HostRuntime) {
    let shape = Shape::new(0x10000, 65_536).expect(&rt, "a shape");
    let mut tracer = Tracer::new(rt.alloc(), shape, STEP_ROOM).expect(&rt, "memory");
    for (call, answer, statuses, touched) in WORD_ROWS {
        assert_eq!(rt; make(&rt, &mut tracer, call), answer);
        assert_eq!(rt;
            (
                tracer.status(8),
                tracer.status(9),
                tracer.status(10),
                tracer.status(11)
            ),
            statuses
        );
        assert_eq!(rt; tracer.touched_count(), touched);
    }
    for index in 0..8 {
        assert_eq!(rt; make(&rt, &mut tracer, GetWord(8 * index)), 0);
    }
    assert_eq!(rt;
        (tracer.room(), tracer.touched_count(), tracer.pc()),
        (0, 32, 0)
    );
}

/// How many places the calls of a random row touch at most.
const ROW: u32 = 96;

/// A row of places in plain terms: their bytes at the start and now, how each was touched, and the touched ones in order.
#[derive(Drop)]
struct Plain {
    start: Vec<u8>,
    bytes: Vec<u8>,
    statuses: Vec<Status>,
    touched: Vec<u32>,
}

impl Plain {
    fn touch<R: Abort>(&mut self, rt: &R, place: u32, put: Option<u8>) -> u8 {
        let at = place as usize;
        assert!(rt; at < self.statuses.len() && at < self.bytes.len());
        if let Untouched = self.statuses[at] {
            self.touched.push(place).expect(rt, "memory");
        }
        match (self.statuses[at], put) {
            (Untouched, None) => self.statuses[at] = Read,
            (Untouched, Some(_)) => self.statuses[at] = Written,
            (Read, Some(_)) => self.statuses[at] = ReadWritten,
            _ => {}
        }
        if let Some(byte) = put {
            self.bytes[at] = byte;
        }
        self.bytes[at]
    }

    fn undo<R: Abort>(&mut self, rt: &R, count: usize) {
        for _ in count..self.touched.len() {
            let at = self.touched.pop().expect(rt, "a place") as usize;
            assert!(rt; at < self.statuses.len() && at < self.bytes.len() && at < self.start.len());
            self.statuses[at] = Untouched;
            self.bytes[at] = self.start[at];
        }
    }

    /// Makes a call of the row's places, which stand in the tracer from `from` on, of both, and compares the answers.
    fn make<R: Abort>(&mut self, rt: &R, tracer: &mut Tracer, from: u32, call: Call) {
        assert!(rt; from < 0x4000_0000);
        let (moved, answer) = match call {
            Get(place) => (
                Get(from.wrapping_add(place)),
                u32::from(self.touch(rt, place, None)),
            ),
            Put(place, byte) => {
                self.touch(rt, place, Some(byte));
                (Put(from.wrapping_add(place), byte), 0)
            }
            GetWord(place) => {
                let mut bytes = [0; 4];
                for (byte, k) in bytes.iter_mut().zip(0..4) {
                    *byte = self.touch(rt, place.wrapping_add(k), None);
                }
                (GetWord(from.wrapping_add(place)), u32::from_le_bytes(bytes))
            }
            PutWord(place, word) => {
                for (byte, k) in word.to_le_bytes().into_iter().zip(0..4) {
                    self.touch(rt, place.wrapping_add(k), Some(byte));
                }
                (PutWord(from.wrapping_add(place), word), 0)
            }
            Undo(count) => {
                self.undo(rt, count);
                (Undo(count), 0)
            }
            Reset => {
                self.undo(rt, 0);
                (Reset, 0)
            }
        };
        assert_eq!(rt; make(rt, tracer, moved), answer);
    }

    /// Compares all that a tracer tells of the row.
    fn look<R: Abort>(&self, rt: &R, alloc: Global, tracer: &mut Tracer, from: u32) {
        assert_eq!(rt; tracer.touched_count(), self.touched.len());
        let blocks = tracer.touched_blocks(alloc).expect(rt, "memory");
        for place in 0..ROW {
            let at = place as usize;
            assert!(rt; at < self.statuses.len() && at < self.bytes.len());
            let there = from.wrapping_add(place);
            assert!(rt; there < places(Bytes::shape(tracer)));
            assert_eq!(rt;
                (tracer.status(there), tracer.byte(there)),
                (self.statuses[at], self.bytes[at])
            );
            if self.statuses[at] != Untouched {
                assert!(rt; blocks.iter().any(|block| has_word(block, there / 4)));
            }
        }
        let mut words: usize = 0;
        for block in &blocks {
            words = words.saturating_add(block.bits.count_ones() as usize);
        }
        assert!(rt; words <= self.touched.len());
    }
}

/// Whether a block has a word.
fn has_word(block: &Block, word: u32) -> bool {
    block.first == word / 64 * 64 && block.bits >> (word % 64) & 1 == 1
}

/// The next random number.
fn next(seed: &mut u64) -> u32 {
    *seed = seed
        .wrapping_mul(6_364_136_223_846_793_005)
        .wrapping_add(1_442_695_040_888_963_407);
    (*seed >> 33) as u32
}

/// The next random call of a row.
fn random_call(seed: &mut u64, touched: usize) -> Call {
    let place = next(seed) % (ROW - 3);
    let value = next(seed);
    match next(seed) % 9 {
        0 | 1 => Get(place),
        2 | 3 => Put(place, (value % 256) as u8),
        4 => GetWord(place),
        5 => GetWord(place / 4 * 4),
        6 => PutWord(place, value),
        7 => PutWord(place / 4 * 4, value),
        _ => match touched.checked_sub((value % 7) as usize) {
            Some(count) => Undo(count),
            None => Reset,
        },
    }
}

/// Puts random bytes into a row of places of a state, and answers them.
fn random_bytes<R: Abort>(
    rt: &R,
    alloc: Global,
    state: &mut State,
    from: u32,
    seed: &mut u64,
) -> Vec<u8> {
    let mut bytes = Vec::new(alloc);
    for place in from..from.wrapping_add(ROW) {
        let byte = (next(seed) % 256) as u8;
        assert!(rt; (place as usize) < state.len());
        state.set(place, byte);
        bytes.push(byte).expect(rt, "memory");
    }
    bytes
}

/// The bytes of a row of places of a state.
fn row_of<R: Abort>(rt: &R, alloc: Global, state: &State, from: u32) -> Vec<u8> {
    let mut bytes = Vec::new(alloc);
    for place in from..from.wrapping_add(ROW) {
        assert!(rt; (place as usize) < state.len());
        bytes.push(state.get(place)).expect(rt, "memory");
    }
    bytes
}

/// The row that two rows lead to: each word is the later one and so many times its rise.
fn risen<R: Abort>(rt: &R, alloc: Global, before: &[u8], after: &[u8], ahead: u32) -> Vec<u8> {
    let mut bytes = Vec::new(alloc);
    for (old, new) in before.chunks(4).zip(after.chunks(4)) {
        let last = word_of(rt, new);
        let rise = last.wrapping_sub(word_of(rt, old));
        for byte in last.wrapping_add(rise.wrapping_mul(ahead)).to_le_bytes() {
            bytes.push(byte).expect(rt, "memory");
        }
    }
    bytes
}

fn word_of<R: Abort>(rt: &R, bytes: &[u8]) -> u32 {
    assert!(rt; bytes.len() == 4);
    u32::from_le_bytes([bytes[0], bytes[1], bytes[2], bytes[3]])
}

// Random calls at the first places, across two pages, and at the last places: one tracer, a hundred jobs each from
// another guess, whatever the job before it left.
#[test]
fn random_jobs(rt: HostRuntime) {
    let alloc = rt.alloc();
    for size in [65_536, 67_108_864] {
        let shape = Shape::new(0x10000, size).expect(&rt, "a shape");
        let mut state = State::new(alloc, shape).expect(&rt, "memory");
        let mut tracer = Tracer::new(alloc, shape, 4096).expect(&rt, "memory");
        let mut last = state.freeze(alloc).expect(&rt, "memory");
        let mut seed = u64::from(size);
        for job in 0..100 {
            let from = match job % 3 {
                0 => 0,
                1 => 4052,
                _ => places(shape).wrapping_sub(ROW),
            };
            let before = row_of(&rt, alloc, &state, from);
            let after = random_bytes(&rt, alloc, &mut state, from, &mut seed);
            let frozen = state.freeze(alloc).expect(&rt, "memory");
            let prev = std::mem::replace(&mut last, frozen);
            let now = Arc::try_clone(&last).expect(&rt, "memory");
            assert!(rt; prev.shape() == now.shape());
            start_from(&rt, &mut tracer, Guess::stride(prev, now, job % 4));
            let bytes = risen(&rt, alloc, &before, &after, job % 4);
            let mut plain = Plain {
                bytes: bytes.clone().expect(&rt, "memory"),
                start: bytes,
                statuses: vec![in alloc; Untouched; ROW as usize].expect(&rt, "memory"),
                touched: Vec::new(alloc),
            };
            plain.look(&rt, alloc, &mut tracer, from);
            for _ in 0..24 {
                let call = random_call(&mut seed, plain.touched.len());
                plain.make(&rt, &mut tracer, from, call);
            }
            plain.look(&rt, alloc, &mut tracer, from);
        }
    }
}

// A start that two states lead to: each word is the last one and so many times its rise; a place; and its byte.
#[test]
fn strides(rt: HostRuntime) {
    let alloc = rt.alloc();
    let shape = Shape::new(0x10000, 65_536).expect(&rt, "a shape");
    let mut state = State::new(alloc, shape).expect(&rt, "memory");
    state.set_pc(0x100);
    state.set_reg(1, 7);
    let prev = Snapshot::of(alloc, &state).expect(&rt, "memory");
    state.set_pc(0x110);
    state.set_reg(1, 0xFFFF_FFFF);
    let later = Snapshot::of(alloc, &state).expect(&rt, "memory");
    for (ahead, pc, x1) in [
        (0, 0x110, 0xFFFF_FFFF),
        (1, 0x120, 0xFFFF_FFF7),
        (3, 0x140, 0xFFFF_FFE7),
    ] {
        let mut tracer = Tracer::new(alloc, shape, STEP_ROOM).expect(&rt, "memory");
        let before = Arc::try_clone(&prev).expect(&rt, "memory");
        let after = Arc::try_clone(&later).expect(&rt, "memory");
        assert!(rt; before.shape() == after.shape());
        start_from(&rt, &mut tracer, Guess::stride(before, after, ahead));
        assert_eq!(rt; tracer.pc(), pc);
        assert_eq!(rt; make(&rt, &mut tracer, GetWord(4)), x1);
        assert_eq!(rt; make(&rt, &mut tracer, Get(0)), pc % 256);
        assert_eq!(rt; make(&rt, &mut tracer, PutWord(0, 5)), 0);
        assert_eq!(rt; tracer.pc(), 5);
        assert_eq!(rt; make(&rt, &mut tracer, Reset), 0);
        assert_eq!(rt; tracer.pc(), pc);
    }
}

// The size of memory; how often a piece is filled before the tracer is made; and whether all was filled then. Memory for
// the bytes before those of a program's memory is filled too, so that 64 KiB take two pieces.
#[test]
fn pieces(rt: HostRuntime) {
    let alloc = rt.alloc();
    for (size, calls, all) in [
        (0x1_0000, 0, false),
        (0x1_0000, 1, false),
        (0x1_0000, 2, true),
        (0x1_0000, 3, true),
        (0x10_0000, 0, false),
        (0x10_0000, 5, false),
        (0x10_0000, 16, false),
        (0x10_0000, 17, true),
    ] {
        let shape = Shape::new(0x10000, size).expect(&rt, "a shape");
        let mut memory = Unfilled::new(alloc, shape, STEP_ROOM).expect(&rt, "memory");
        let mut filled = false;
        for _ in 0..calls {
            filled = memory.fill_some();
        }
        assert_eq!(rt; filled, all);
        let mut tracer = memory.into_tracer();
        look_untouched(&rt, &tracer);
        use_ends(&rt, alloc, &mut tracer);
    }
}

/// Checks that a tracer tells zeros, and no touch.
fn look_untouched<R: Abort>(rt: &R, tracer: &Tracer) {
    for place in 0..places(Bytes::shape(tracer)) {
        assert_eq!(rt; (tracer.byte(place), tracer.status(place)), (0, Untouched));
    }
    assert_eq!(rt; (tracer.touched_count(), tracer.room()), (0, STEP_ROOM));
}

/// Starts a tracer of a state, and reads and puts its first word and its last one.
fn use_ends<R: Abort>(rt: &R, alloc: Global, tracer: &mut Tracer) {
    let shape = Bytes::shape(tracer);
    let last = places(shape).wrapping_sub(4);
    let mut state = State::new(alloc, shape).expect(rt, "memory");
    state.set_pc(0x0102_0304);
    start(rt, alloc, tracer, &state);
    for (call, answer, place, status, touched) in [
        (GetWord(0), 0x0102_0304, 0, Read, 4),
        (PutWord(0, 0x0403_0201), 0, 3, ReadWritten, 4),
        (PutWord(last, 0x0A0B_0C0D), 0, last, Written, 8),
        (GetWord(last), 0x0A0B_0C0D, last, Written, 8),
        (GetWord(0), 0x0403_0201, 0, ReadWritten, 8),
    ] {
        assert_eq!(rt; make(rt, tracer, call), answer);
        assert_eq!(rt;
            (tracer.status(place), tracer.touched_count()),
            (status, touched)
        );
    }
    let blocks = tracer.touched_blocks(alloc).expect(rt, "memory");
    for (word, there) in [(0, true), (1, false), (last / 4, true)] {
        assert_eq!(rt; blocks.iter().any(|block| has_word(block, word)), there);
    }
}
