//! Shapes, states, snapshots and guesses.
ghost use Rattle.std.specs.Prelude.{◌≡◌, ◌+◌, ◌≤◌, IsTrue, slice_set};
ghost use Rattle.asc_model.specs.Shape.{length_of, holds};
ghost use Rattle.asc_shape.specs.Face.{room_of};
ghost use Rattle.asc_shape.specs.State.{memory_at, with_memory};

use asc_model::Version;
use asc_shape::{Bytes, Guess, Shape, ShapeFault, Snapshot, State, Words};
use std::alloc::Global;
use std::sync::Arc;
use std::thread;

#[test]
fn shapes(rt: HostRuntime) {
    for (base, size, fault) in [
        (0x10004, 65_536, Some(ShapeFault::Base)),
        (0x10000, 65_532, Some(ShapeFault::Size)),
        (0xFFFF_0000, 65_536, None),
        (0xFFFF_1000, 65_536, Some(ShapeFault::Base)),
        (0x10000, 67_108_864, None),
        (0x10000, 67_108_868, Some(ShapeFault::Size)),
    ] {
        assert_eq!(rt; Shape::two(base, size).err(), Shape::new(base, size).err());
        assert_eq!(rt;
            Shape::new(base, size).err(),
            fault,
            "base {base}, size {size}"
        );
    }
    let one = Shape::new(0x10000, 65_536).expect(&rt, "version One");
    let two = Shape::two(0x10000, 65_536).expect(&rt, "version Two");
    assert!(rt; one == one && two == two && one != two);
    assert_eq!(rt;
        (one.base(), one.size(), one.start()),
        (0x10000, 65_536, 128)
    );
    assert_eq!(rt;
        (two.base(), two.size(), two.start()),
        (0x10000, 65_536, 136)
    );
    assert_eq!(rt;
        (one.version(), two.version()),
        (Version::One, Version::Two)
    );
    assert!(rt; one.holds(0x1FFFC, 4) && !one.holds(0x1FFFD, 4));
    assert_eq!(rt;
        (one.place_of(0x10000), two.place_of(0x1FFFC)),
        (128, 65_668)
    );
}

#[test]
#[tactic(auto, unfolding(asc_shape::specs::State::state_after, asc_model::specs::Machine::state_of))]
fn state_calls(rt: HostRuntime) {
    for version in [Version::One, Version::Two] {
        let shape = Shape::of(0x10000, 65_536, version).expect(&rt, "a shape");
        assert_eq!(rt; (shape.base(), shape.size()), (0x10000, 65_536));
        let mut state = State::new(rt.alloc(), shape).expect(&rt, "memory");
        let start = if version == Version::One { 128 } else { 136 };
        assert_eq!(rt; state.len(), start + 65_536);
        assert!(rt; state.mem(0x10000, 65_536).iter().all(|byte| *byte == 0));
        state.set_pc(0x0102_0304);
        assert_eq!(rt; state.pc(), 0x0102_0304);
        assert_eq!(rt;
            [state.get(0), state.get(1), state.get(2), state.get(3)],
            [4, 3, 2, 1]
        );
        state.set_reg(0, 5);
        state.set_reg(31, 0xFFFF_FFFF);
        assert_eq!(rt;
            (state.reg(0), state.reg(1), state.reg(31)),
            (0, 0, 0xFFFF_FFFF)
        );
        assert_eq!(rt; state.get(127), 0xFF);
        state.write(0x1FFFE, &[7, 8]);
        assert_eq!(rt; state.mem(0x1FFFD, 3), [0, 7, 8].as_slice());
        let mut copy = State::new(rt.alloc(), shape).expect(&rt, "memory");
        copy.copy_from(&state);
        assert_eq!(rt; copy.mem(0x1FFFD, 3), [0, 7, 8].as_slice());
        put_nine(&mut copy, 0x1FFFE);
        assert_eq!(rt; copy.mem(0x1FFFD, 3), [0, 7, 9].as_slice());
        assert_eq!(rt; get_word_of(&mut copy, 124), 0xFFFF_FFFF);
        put_word_of(&mut copy, 4, 0x0102_0304);
        assert_eq!(rt; (copy.reg(1), copy.get(4)), (0x0102_0304, 4));
        copy.fill();
        assert_eq!(rt; (copy.pc(), copy.reg(31)), (0, 0));
    }
}

#[test]
fn edges_of_memory(rt: HostRuntime) {
    for (base, at, n, held) in [
        (0x10000, 0x1FFFF, 1, true),
        (0x10000, 0x20000, 1, false),
        (0x10000, 0x1FFFE, 4, false),
        (0x10000, 0xFFFF, 1, false),
        (0x10000, 0x10000, 0, true),
        (0xFFFF_0000, 0xFFFF_FFFC, 4, true),
        (0xFFFF_0000, 0xFFFF_FFFE, 4, false),
    ] {
        let shape = Shape::new(base, 65_536).expect(&rt, "a shape");
        let state = State::new(rt.alloc(), shape).expect(&rt, "memory");
        assert_eq!(rt; state.holds(at, n), held, "{n} bytes at {at}");
    }
}

// Runs beside plain lists of bytes: the size of memory, the number that they begin with, and how many rounds they have.
static RUNS: [(u32, u32, u32); 3] = [(65_536, 1, 24), (65_536, 2, 24), (4_259_840, 3, 2)];

// Where memory is refused, what comes after it goes on from what was there before.
#[test]
fn snapshots(rt: HostRuntime) {
    for (size, number, rounds) in RUNS {
        let shape = Shape::two(0x10000, size).expect(&rt, "a shape");
        let mut run = run_of(rt.alloc(), shape, number).expect(&rt, "memory");
        for round in 0..rounds {
            run.step(rt.alloc());
            assert!(rt; run.is_as_plain(), "size {size}, round {round}");
        }
    }
}

// A snapshot, and what it was taken of.
#[derive(Drop)]
struct Kept {
    snapshot: Arc<Snapshot>,
    plain: Vec<u8>,
}

#[derive(Drop)]
struct Run {
    state: State,
    plain: Vec<u8>,
    copy: State,
    guessed: Vec<u8>,
    prev: Kept,
    last: Kept,
    others_stay: bool,
    number: u32,
}

fn run_of(alloc: Global, shape: Shape, number: u32) -> Option<Run> {
    let mut state = State::new(alloc, shape).ok()?;
    Some(Run {
        plain: vec![in alloc; 0; state.len()].ok()?,
        copy: State::new(alloc, shape).ok()?,
        guessed: vec![in alloc; 0; state.len()].ok()?,
        prev: kept_of(alloc, &mut state)?,
        last: kept_of(alloc, &mut state)?,
        others_stay: true,
        state,
        number,
    })
}

fn kept_of(alloc: Global, state: &mut State) -> Option<Kept> {
    Some(Kept {
        snapshot: state.freeze(alloc).ok()?,
        plain: vec![in alloc; 0; state.len()].ok()?,
    })
}

impl Run {
    fn next(&mut self) -> u32 {
        self.number = self
            .number
            .wrapping_mul(1_664_525)
            .wrapping_add(1_013_904_223);
        self.number >> 8
    }

    // Some puts, or none, and then a freeze, a fill, or a guess that is filled in.
    fn step(&mut self, alloc: Global) {
        for _ in 0..self.next() % 8 {
            self.put();
        }
        match self.next() % 6 {
            0 => self.restore(),
            1 => self.stride(),
            2 => self.fill(),
            _ => self.freeze(alloc),
        }
    }

    // A word or a byte in the front, in the first or the last page, across two pages or two groups, or anywhere.
    fn put(&mut self) {
        let shape = self.state.shape();
        let _ = shape.base();
        let len = shape.start() + shape.size();
        let place = match self.next() % 6 {
            0 => self.next() % 4096,
            1 => self.next() % 144,
            2 => len.saturating_sub(4 + self.next() % 64),
            3 => (1024 * (self.next() % 256)).saturating_sub(self.next() % 4),
            4 => 32_768 - self.next() % 4,
            _ => self.next().saturating_mul(4) % len.max(1),
        };
        let word = self.next().wrapping_mul(257);
        if self.next() % 2 == 0 {
            let [byte, ..] = word.to_le_bytes();
            put_byte(&mut self.state, place, byte);
            put_plain(&mut self.plain, place as usize, &[byte]);
        } else if place <= len.saturating_sub(4) {
            put_whole(&mut self.state, place, word);
            put_plain(&mut self.plain, place as usize, &word.to_le_bytes());
        }
    }

    fn fill(&mut self) {
        self.state.fill();
        self.plain.fill(0);
    }

    // The copy before the last one is handed over. Sometimes somebody else has it too, and then it stays.
    fn freeze(&mut self, alloc: Global) {
        let Ok(last) = Arc::try_clone(&self.last.snapshot) else {
            return;
        };
        let spare = std::mem::replace(&mut self.prev.snapshot, last);
        let other = if self.next() % 4 == 0 {
            last_of(&spare)
        } else {
            None
        };
        let frozen = self.state.freeze_over(alloc, Some(spare));
        if let Some(other) = other {
            self.others_stay = self.others_stay && tells(&other, &self.prev.plain);
        }
        copy_plain(&mut self.prev.plain, &self.last.plain);
        if let Ok(snapshot) = frozen {
            self.last.snapshot = snapshot;
            copy_plain(&mut self.last.plain, &self.plain);
        }
    }

    fn restore(&mut self) {
        if let Some(guess) = last_of(&self.prev.snapshot) {
            fill(&mut self.state, &guess);
            copy_plain(&mut self.plain, &self.prev.plain);
        }
    }

    fn stride(&mut self) {
        let ahead = self.next();
        if let Some(guess) = stride_of(&self.prev.snapshot, &self.last.snapshot, ahead) {
            fill(&mut self.state, &guess);
            stride_plain(&mut self.plain, &self.prev.plain, &self.last.plain, ahead);
        }
    }

    // The state, both snapshots and a guess of both are as their plain lists.
    fn is_as_plain(&mut self) -> bool {
        if !self.others_stay || !is_as(&self.state, &self.plain) {
            return false;
        }
        for kept in [&self.prev, &self.last] {
            match last_of(&kept.snapshot) {
                Some(guess) if tells(&guess, &kept.plain) => fill(&mut self.copy, &guess),
                _ => return false,
            }
            if !is_as(&self.copy, &kept.plain) || self.copy.pc() != kept.snapshot.pc() {
                return false;
            }
        }
        let Some(guess) = stride_of(&self.prev.snapshot, &self.last.snapshot, 3) else {
            return false;
        };
        stride_plain(&mut self.guessed, &self.prev.plain, &self.last.plain, 3);
        tells(&guess, &self.guessed)
    }
}

fn last_of(snapshot: &Arc<Snapshot>) -> Option<Guess> {
    Some(Guess::last(Arc::try_clone(snapshot).ok()?))
}

fn stride_of(prev: &Arc<Snapshot>, last: &Arc<Snapshot>, ahead: u32) -> Option<Guess> {
    let prev = Arc::try_clone(prev).ok()?;
    let last = Arc::try_clone(last).ok()?;
    if prev.shape() != last.shape() {
        return None;
    }
    Some(Guess::stride(prev, last, ahead))
}

fn fill(state: &mut State, guess: &Guess) {
    if state.shape() == guess.shape() {
        guess.fill(state);
    }
}

// The words from these places on are asked of a guess, and the last one.
static PLACES: [u32; 12] = [
    0, 4, 5, 124, 132, 133, 136, 1020, 1022, 1024, 32_765, 65_536,
];

fn tells(guess: &Guess, plain: &[u8]) -> bool {
    let shape = guess.shape();
    let _ = shape.base();
    let last = shape.start() + shape.size() - 4;
    PLACES.iter().all(|place| tells_word(guess, plain, *place)) && tells_word(guess, plain, last)
}

fn tells_word(guess: &Guess, plain: &[u8], place: u32) -> bool {
    let shape = guess.shape();
    let _ = shape.base();
    if place > shape.start() + shape.size() - 4 {
        return true;
    }
    let at = place as usize;
    let Some(bytes) = plain.get(at..at + 4) else {
        return false;
    };
    guess.word(place) == word_of(bytes) && bytes.first() == Some(&guess.byte(place))
}

fn put_byte(state: &mut State, place: u32, byte: u8) {
    let _ = state.shape();
    if (place as usize) < state.len() {
        state.set(place, byte);
    }
}

fn put_whole(state: &mut State, place: u32, word: u32) {
    let _ = state.shape();
    if place as usize + 4 <= state.len() {
        put_word_of(state, place, word);
    }
}

fn put_plain(plain: &mut [u8], place: usize, bytes: &[u8]) {
    if place < plain.len() && bytes.len() <= plain.len() - place {
        plain[place..place + bytes.len()].copy_from_slice(bytes);
    }
}

fn copy_plain(plain: &mut [u8], from: &[u8]) {
    if plain.len() == from.len() {
        plain.copy_from_slice(from);
    }
}

fn stride_plain(plain: &mut [u8], prev: &[u8], last: &[u8], ahead: u32) {
    let words = prev.chunks_exact(4).zip(last.chunks_exact(4));
    for (place, (prev, last)) in plain.chunks_exact_mut(4).zip(words) {
        let (prev, last) = (word_of(prev), word_of(last));
        let word = last.wrapping_add(ahead.wrapping_mul(last.wrapping_sub(prev)));
        place.copy_from_slice(&word.to_le_bytes());
    }
}

fn word_of(bytes: &[u8]) -> u32 {
    let mut word = [0; 4];
    copy_plain(&mut word, bytes);
    u32::from_le_bytes(word)
}

// Memory is read as a whole, and what is before it byte by byte.
fn is_as(state: &State, plain: &[u8]) -> bool {
    let shape = state.shape();
    let start = shape.start();
    for place in 0..start {
        if plain.get(place as usize) != Some(&state.get(place)) {
            return false;
        }
    }
    state.holds(shape.base(), shape.size())
        && plain.get(start as usize..) == Some(state.mem(shape.base(), shape.size()))
}

// How many pages are changed, where a byte is put into each of these places in turn, or all is made 0.
#[test]
fn changed_pages(rt: HostRuntime) {
    let shape = Shape::new(0x10000, 65_536).expect(&rt, "a shape");
    let mut state = State::new(rt.alloc(), shape).expect(&rt, "memory");
    assert_eq!(rt; state.changed_pages(), 0);
    for _ in 0..2 {
        for (place, count) in [(1023, 1), (136, 1), (1024, 2), (65_535, 3), (1025, 3)] {
            put_byte(&mut state, place, 7);
            assert_eq!(rt; state.changed_pages(), count);
        }
        let _snapshot = state.freeze(rt.alloc()).expect(&rt, "memory");
        assert_eq!(rt; state.changed_pages(), 0);
    }
    let _snapshot = state.freeze(rt.alloc()).expect(&rt, "memory");
    let other = State::new(rt.alloc(), shape).expect(&rt, "memory");
    copy(&mut state, &other);
    assert_eq!(rt; state.changed_pages(), 65);
    state.fill();
    assert_eq!(rt; state.changed_pages(), 0);
}

fn copy(state: &mut State, from: &State) {
    if state.shape() == from.shape() {
        state.copy_from(from);
    }
}

// The greatest memory: what is put into its first and its last word comes back.
#[test]
fn largest_memory(rt: HostRuntime) {
    let shape = Shape::two(0x10000, 67_108_864).expect(&rt, "a shape");
    let mut state = State::new(rt.alloc(), shape).expect(&rt, "memory");
    let first = state.freeze(rt.alloc()).expect(&rt, "memory");
    put_whole(&mut state, 136, 3);
    put_whole(&mut state, 67_108_996, 5);
    let last = state.freeze(rt.alloc()).expect(&rt, "memory");
    let guesses = [
        (last_of(&first), (0, 0)),
        (last_of(&last), (3, 5)),
        (stride_of(&first, &last, 2), (9, 15)),
    ];
    for (guess, words) in guesses {
        let guess = guess.expect(&rt, "one shape");
        fill(&mut state, &guess);
        assert_eq!(rt; ends_of(&state), words);
    }
    state.fill();
    assert_eq!(rt; ends_of(&state), (0, 0));
}

fn ends_of(state: &State) -> (u32, u32) {
    let end = 0x10000 + 67_108_860;
    if state.holds(0x10000, 4) && state.holds(end, 4) {
        (word_of(state.mem(0x10000, 4)), word_of(state.mem(end, 4)))
    } else {
        (1, 1)
    }
}

// Threads read one snapshot.
#[test]
fn snapshots_cross_threads(rt: HostRuntime) {
    let shape = Shape::new(0x10000, 65_536).expect(&rt, "a shape");
    let mut state = State::new(rt.alloc(), shape).expect(&rt, "memory");
    state.set_pc(0x10004);
    let snapshot = Snapshot::of(rt.alloc(), &state).expect(&rt, "memory");
    let shared = &snapshot;
    let pcs = thread::join(&rt, move || shared.pc(), move || shared.pc());
    assert_eq!(rt; pcs, (0x10004, 0x10004));
    crosses(&snapshot);
    crosses(&shape);
}

// What threads may take and share.
fn crosses<T: Send + Sync>(_it: &T) {}

// It puts 9 into the second byte at an address.
fn put_nine(state: &mut State, at: u32)
    requires { IsTrue (holds state.old.shape at 2) }
    ensures { state.new ≡ with_memory state.old at (slice_set (memory_at state.old at 2) 1 9) }
{
    state.mem_mut(at, 2)[1] = 9;
}

fn get_word_of<B: Words>(bytes: &mut B, place: u32) -> u32
    requires place { place + 4 ≤ length_of (B.face bytes.old).state.shape }
    requires room { 4 ≤ room_of (B.face bytes.old).marks }
{
    let _ = bytes.shape();
    bytes.get_word(place)
}

fn put_word_of<B: Words>(bytes: &mut B, place: u32, word: u32)
    requires place { place + 4 ≤ length_of (B.face bytes.old).state.shape }
    requires room { 4 ≤ room_of (B.face bytes.old).marks }
{
    let _ = bytes.shape();
    bytes.put_word(place, word);
}

/// A register that rose from FFFFFFFE to 1, strided so many times.
#[test]
fn stride_wraps(rt: HostRuntime) {
    let alloc = rt.alloc();
    let shape = Shape::two(0x10000, 65_536).expect(&rt, "a shape");
    let mut state = State::new(alloc, shape).expect(&rt, "memory");
    state.set_reg(5, 0xFFFF_FFFE);
    let prev = state.freeze(alloc).expect(&rt, "memory");
    state.set_reg(5, 1);
    let last = state.freeze(alloc).expect(&rt, "memory");
    for (ahead, want) in [(1, 4), (0xFFFF_FFFF, 0xFFFF_FFFE), (0, 1)] {
        let guess = stride_of(&prev, &last, ahead).expect(&rt, "one shape");
        fill(&mut state, &guess);
        assert_eq!(rt; state.reg(5), want, "{ahead} times");
    }
}
