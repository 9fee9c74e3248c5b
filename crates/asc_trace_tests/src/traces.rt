ghost use Rattle.std.specs.Prelude.{◌≡◌};
ghost use Rattle.asc_traj.specs.Trace.{StandsFor};

use asc_depvec::Tracer;
use asc_model::{Fault, FaultKind, Status, Why};
use asc_shape::{Guess, Shape, Snapshot, State};
use asc_step::{Stepped, try_step};
use asc_traj::{Entry, Halt, Made, Never, Part, Stop, Traced, cells_of, trace};
use std::alloc::Global;
use std::process::Abort;
use std::sync::Arc;

/// Bytes from a place on.
type Run = (u32, &'static [u8]);

/// It says no so often, and then yes. It counts its yes answers, and how often it was asked.
#[derive(Drop)]
struct Patient {
    noes: u64,
    stops: u64,
    asks: Option<u64>,
}

impl Halt for Patient {
    ghost use Rattle.std.specs.Prelude.{Some};

    ghost count = { λ halt. halt.stops };

    ghost asks = { λ halt. halt.asks };

    ghost patience = { λ halt. Some halt.noes };

    fn asked(&mut self) -> bool {
        self.asks = match self.asks {
            Some(asks) => asks.checked_add(1),
            None => None,
        };
        if self.noes == 0 {
            self.stops = self.stops.saturating_add(1);
            true
        } else {
            self.noes -= 1;
            false
        }
    }
}

/// One that says no so often, and was not asked yet.
fn halt_after(noes: u64) -> Patient {
    Patient {
        noes,
        stops: 0,
        asks: Some(0),
    }
}

/// 65,536 bytes of memory at 0x10000, in version One.
fn shape_one<R: Abort>(rt: &R) -> Shape {
    Shape::new(0x10000, 65_536).expect(rt, "version One")
}

/// The same in version Two.
fn shape_two<R: Abort>(rt: &R) -> Shape {
    Shape::two(0x10000, 65_536).expect(rt, "version Two")
}

/// A state with these words from 0x10000 on, and its pc there.
fn state_of<R: Abort>(rt: &R, alloc: Global, shape: Shape, words: &[u32]) -> State {
    let mut state = State::new(alloc, shape).expect(rt, "memory");
    state.set_pc(0x10000);
    let mut at = 0x10000;
    for word in words {
        assert!(rt; state.holds(at, 4));
        state.write(at, &word.to_le_bytes());
        at = at.wrapping_add(4);
    }
    state
}

/// A loop from 0x10008 on that counts x5 up to x6, two steps a lap; behind it an exit, whose guest call is at 0x10018.
fn counting<R: Abort>(rt: &R, alloc: Global, pc: u32, x6: u32) -> State {
    let words = [
        0x0000_0293,
        0x0040_0313,
        0x0012_8293,
        0xFE62_9EE3,
        0x05D0_0893,
        0x0000_0513,
        0x0000_0073,
    ];
    let mut state = state_of(rt, alloc, shape_one(rt), &words);
    state.set_pc(pc);
    state.set_reg(6, x6);
    state
}

/// A program whose store at 0x1000C replaces the word behind it.
fn changing<R: Abort>(rt: &R, alloc: Global) -> State {
    let words = [
        0x0000_0297,
        0x0090_0337,
        0x5133_0313,
        0x0062_A823,
        0x0010_0513,
        0x05D0_0893,
        0x0000_0073,
    ];
    state_of(rt, alloc, shape_one(rt), &words)
}

/// Takes so many steps of a state.
fn take<R: Abort>(rt: &R, state: &mut State, steps: u64) {
    for _ in 0..steps {
        assert_eq!(rt; try_step(state), Stepped::Went);
    }
}

/// The end of a trace after so many steps.
fn end(steps: u64, why: Why) -> Traced {
    Traced { steps, why }
}

/// Where a trace is to end: after so many laps at 0x10008, or so many steps.
fn stop_at(laps: u64, span: u64) -> Stop {
    Stop {
        pc: 0x10008,
        laps,
        span,
    }
}

/// How the trace of a state ends where so many places may be touched, and its tracer.
fn traced<H: Halt, R: Abort>(
    rt: &R,
    alloc: Global,
    from: &State,
    cap: usize,
    stop: Stop,
    halt: &mut H,
) -> (Traced, Tracer)
    ensures { StandsFor result.0.steps result.1 }
{
    assert!(rt; (32..=65_536).contains(&cap) && stop.laps >= 1 && stop.span >= 1);
    let mut tracer = Tracer::new(alloc, from.shape(), cap).expect(rt, "memory");
    tracer.start(Guess::last(Snapshot::of(alloc, from).expect(rt, "memory")));
    let traced = trace(&mut tracer, &stop, halt);
    (traced, tracer)
}

/// The entry of a state's trace, which ends as said.
fn entry_of<R: Abort>(
    rt: &R,
    alloc: Global,
    from: &State,
    stop: Stop,
    ended: Traced,
) -> Arc<Entry> {
    let (traced, mut tracer) = traced(rt, alloc, from, 96, stop, &mut Never);
    assert_eq!(rt; traced, ended);
    assert!(rt; traced.steps >= 1);
    Entry::of(alloc, &mut tracer, traced.steps).expect(rt, "memory")
}

/// The places and bytes of these runs.
fn cells<R: Abort>(rt: &R, alloc: Global, runs: &[Run]) -> Vec<(u32, u8)> {
    let mut cells = Vec::new(alloc);
    for (first, bytes) in runs {
        for (place, byte) in (*first..).zip(*bytes) {
            cells.push((place, *byte)).expect(rt, "memory");
        }
    }
    cells
}

/// Compares all that an entry has.
fn look<R: Abort>(rt: &R, alloc: Global, entry: &Entry, reads: &[Run], writes: &[Run], steps: u64) {
    let found = cells_of(alloc, entry.reads()).expect(rt, "memory");
    assert_eq!(rt; found.as_slice(), cells(rt, alloc, reads).as_slice());
    let found = cells_of(alloc, entry.writes()).expect(rt, "memory");
    assert_eq!(rt; found.as_slice(), cells(rt, alloc, writes).as_slice());
    assert_eq!(rt; entry.steps(), steps);
}

/// The byte at a place, which the state has to have.
fn byte_at<R: Abort>(rt: &R, state: &State, place: u32) -> u8 {
    assert!(rt; (place as usize) < state.len());
    state.get(place)
}

/// The entry matches a state, and put into it makes what as many plain steps make of it, every byte.
fn put_is_steps<R: Abort>(rt: &R, alloc: Global, entry: &Entry, from: &State) {
    assert!(rt; entry.matches(from) && entry.shape() == from.shape());
    let mut put = State::new(alloc, from.shape()).expect(rt, "memory");
    put.copy_from(from);
    entry.put(&mut put);
    let mut stepped = State::new(alloc, from.shape()).expect(rt, "memory");
    stepped.copy_from(from);
    take(rt, &mut stepped, entry.steps());
    for place in 0..from.shape().start() + from.shape().size() {
        assert_eq!(rt;
            byte_at(rt, &put, place),
            byte_at(rt, &stepped, place),
            "at {place}"
        );
    }
}

/// Steps from 0x10000 on, with x10 and x5 before them: what their entry reads and writes.
struct Case {
    words: &'static [u32],
    x10: u32,
    x5: u32,
    reads: &'static [Run],
    writes: &'static [Run],
}

const CASES: [Case; 5] = [
    // ADDI x10, x10, 1
    Case {
        words: &[0x0015_0513],
        x10: 0xFFFF_FFFF,
        x5: 0,
        reads: &[
            (0, &[0, 0, 1, 0]),
            (40, &[255, 255, 255, 255]),
            (128, &[0x13, 5, 0x15, 0]),
        ],
        writes: &[(0, &[4, 0, 1, 0]), (40, &[0, 0, 0, 0])],
    },
    // ADDI x0, x0, 5
    Case {
        words: &[0x0050_0013],
        x10: 0,
        x5: 0,
        reads: &[(0, &[0, 0, 1, 0]), (128, &[0x13, 0, 0x50, 0])],
        writes: &[(0, &[4, 0, 1, 0])],
    },
    // SW x5, 0(x10); LW x6, 0(x10)
    Case {
        words: &[0x0055_2023, 0x0005_2303],
        x10: 0x10100,
        x5: 0x1122_3344,
        reads: &[
            (0, &[0, 0, 1, 0]),
            (20, &[0x44, 0x33, 0x22, 0x11]),
            (40, &[0, 1, 1, 0]),
            (128, &[0x23, 0x20, 0x55, 0, 3, 0x23, 5, 0]),
        ],
        writes: &[
            (0, &[8, 0, 1, 0]),
            (24, &[0x44, 0x33, 0x22, 0x11]),
            (384, &[0x44, 0x33, 0x22, 0x11]),
        ],
    },
    // LW x6, 0(x10); SW x5, 0(x10)
    Case {
        words: &[0x0005_2303, 0x0055_2023],
        x10: 0x10100,
        x5: 0x1122_3344,
        reads: &[
            (0, &[0, 0, 1, 0]),
            (20, &[0x44, 0x33, 0x22, 0x11]),
            (40, &[0, 1, 1, 0]),
            (128, &[3, 0x23, 5, 0, 0x23, 0x20, 0x55, 0]),
            (384, &[0xAA, 0xBB, 0xCC, 0xDD]),
        ],
        writes: &[
            (0, &[8, 0, 1, 0]),
            (24, &[0xAA, 0xBB, 0xCC, 0xDD]),
            (384, &[0x44, 0x33, 0x22, 0x11]),
        ],
    },
    // LHU x6, 0(x10)
    Case {
        words: &[0x0005_5303],
        x10: 0x10100,
        x5: 0,
        reads: &[
            (0, &[0, 0, 1, 0]),
            (40, &[0, 1, 1, 0]),
            (128, &[3, 0x53, 5, 0]),
            (384, &[0xAA, 0xBB]),
        ],
        writes: &[(0, &[4, 0, 1, 0]), (24, &[0xAA, 0xBB, 0, 0])],
    },
];

#[test]
fn entries(rt: HostRuntime) {
    let alloc = rt.alloc();
    for case in &CASES {
        let mut state = state_of(&rt, alloc, shape_one(&rt), case.words);
        state.set_reg(10, case.x10);
        state.set_reg(5, case.x5);
        assert!(rt; state.holds(0x10100, 4));
        state.write(0x10100, &[0xAA, 0xBB, 0xCC, 0xDD]);
        let steps = case.words.len() as u64;
        assert!(rt; steps >= 1);
        let entry = entry_of(&rt, alloc, &state, stop_at(9, steps), end(steps, Why::Span));
        look(&rt, alloc, &entry, case.reads, case.writes, steps);
        state.set_reg(9, 3);
        put_is_steps(&rt, alloc, &entry, &state);
    }
}

#[test]
fn statuses(rt: HostRuntime) {
    let alloc = rt.alloc();
    let mut state = state_of(&rt, alloc, shape_one(&rt), &[0x0015_0513]);
    state.set_reg(10, 0xFFFF_FFFF);
    // After a step fewer than 32 further places may be touched.
    let (ended, tracer) = traced(&rt, alloc, &state, 32, stop_at(9, 5), &mut Never);
    assert_eq!(rt; ended, end(1, Why::Room));
    for (first, status) in [
        (0, Status::ReadWritten),
        (40, Status::ReadWritten),
        (44, Status::Untouched),
        (128, Status::Read),
    ] {
        for place in first..first + 4 {
            assert_eq!(rt; tracer.status(place), status, "at {place}");
        }
    }
    assert_eq!(rt; tracer.touched_count(), 12);
}

/// SC.W x6, x7, (x10), which succeeds.
#[test]
fn conditional_store(rt: HostRuntime) {
    let alloc = rt.alloc();
    let mut state = state_of(&rt, alloc, shape_two(&rt), &[0x1875_232F]);
    state.set_reg(10, 0x11000);
    for (place, byte) in (128..133).zip([0, 0x10, 1, 0, 1]) {
        assert!(rt; (place as usize) < state.len());
        state.set(place, byte);
    }
    let (ended, tracer) = traced(&rt, alloc, &state, 64, stop_at(9, 1), &mut Never);
    assert_eq!(rt; (ended, tracer.touched_count()), (end(1, Why::Span), 29));
    let entry = entry_of(&rt, alloc, &state, stop_at(9, 1), end(1, Why::Span));
    let reads: [Run; 5] = [
        (0, &[0, 0, 1, 0]),
        (28, &[0, 0, 0, 0]),
        (40, &[0, 0x10, 1, 0]),
        (128, &[0, 0x10, 1, 0, 1]),
        (136, &[0x2F, 0x23, 0x75, 0x18]),
    ];
    let writes: [Run; 4] = [
        (0, &[4, 0, 1, 0]),
        (24, &[0, 0, 0, 0]),
        (132, &[0]),
        (4232, &[0, 0, 0, 0]),
    ];
    look(&rt, alloc, &entry, &reads, &writes, 1);
    put_is_steps(&rt, alloc, &entry, &state);
}

#[test]
fn other_version(rt: HostRuntime) {
    let alloc = rt.alloc();
    let word = [0x0050_0013];
    let state = state_of(&rt, alloc, shape_one(&rt), &word);
    let entry = entry_of(&rt, alloc, &state, stop_at(9, 1), end(1, Why::Span));
    let mut other = state_of(&rt, alloc, shape_two(&rt), &word);
    for (place, byte) in (128..132).zip([0x13, 0, 0x50, 0]) {
        assert!(rt; (place as usize) < other.len());
        other.set(place, byte);
    }
    assert!(rt; entry.matches(&state) && !entry.matches(&other));
}

/// What the entry of `parts_of_words` reads.
static PART_READS: [Run; 5] = [
    (0, &[0, 0, 1, 0]),
    (28, &[0xDD, 0xCC, 0xBB, 0xAA]),
    (40, &[0, 0x10, 1, 0]),
    (128, &[3, 3, 0x15, 0, 0x23, 1, 0x75, 0, 0xA3, 0x11, 0x75, 0]),
    (4225, &[0x22]),
];

/// What it writes.
static PART_WRITES: [Run; 3] = [
    (0, &[0x0C, 0, 1, 0]),
    (24, &[0x22, 0, 0, 0]),
    (4226, &[0xDD, 0xDD, 0xCC]),
];

/// Places, and whether it still matches where one has another byte.
static CHANGED_PLACES: [(u32, bool); 5] = [
    (4224, true),
    (4225, false),
    (4226, true),
    (4228, true),
    (31, false),
];

/// LB x6, 1(x10); SB x7, 2(x10); SH x7, 3(x10): words of which some bytes are touched.
#[test]
fn parts_of_words(rt: HostRuntime) {
    let alloc = rt.alloc();
    let words = [0x0015_0303, 0x0075_0123, 0x0075_11A3];
    let mut state = state_of(&rt, alloc, shape_one(&rt), &words);
    state.set_reg(7, 0xAABB_CCDD);
    state.set_reg(10, 0x11000);
    for (place, byte) in (4224..4232).zip([0x11, 0x22, 0x33, 0x44, 0x55, 0x66, 0x77, 0x88]) {
        assert!(rt; (place as usize) < state.len());
        state.set(place, byte);
    }
    let entry = entry_of(&rt, alloc, &state, stop_at(9, 3), end(3, Why::Span));
    look(&rt, alloc, &entry, &PART_READS, &PART_WRITES, 3);
    let of = |part: &Part| (part.at, part.word);
    assert_eq!(rt; entry.reads().last().map(of), Some((16 * 1056 + 2, 0x2200)));
    assert_eq!(rt; entry.writes().last().map(of), Some((16 * 1057 + 1, 0xCC)));
    assert_eq!(rt; (entry.reads().len(), entry.writes().len()), (7, 4));
    put_is_steps(&rt, alloc, &entry, &state);
    for (place, matched) in CHANGED_PLACES {
        let mut other = State::new(alloc, state.shape()).expect(&rt, "memory");
        other.copy_from(&state);
        assert!(rt; (place as usize) < other.len());
        other.set(place, 0xEE);
        assert_eq!(rt; entry.matches(&other), matched, "at {place}");
        if matched {
            put_is_steps(&rt, alloc, &entry, &other);
        }
    }
}

#[test]
fn nothing_touched(rt: HostRuntime) {
    let alloc = rt.alloc();
    // LUI x10, 0x20; LW x6, -3(x10)
    let mut loads = state_of(&rt, alloc, shape_one(&rt), &[0x0002_0537, 0xFFD5_2303]);
    take(&rt, &mut loads, 1);
    let mut full = state_of(&rt, alloc, shape_one(&rt), &[]);
    for place in 0..65_664 {
        assert!(rt; (place as usize) < full.len());
        full.set(place, 255);
    }
    let outside = Fault {
        kind: FaultKind::LoadOutside,
        pc: 0x10004,
        value: 0x1FFFD,
    };
    let misaligned = Fault {
        kind: FaultKind::Misaligned,
        pc: 0xFFFF_FFFF,
        value: 0xFFFF_FFFF,
    };
    let calls = counting(&rt, alloc, 0x10018, 0);
    for (state, why) in [
        (&loads, Why::Fault(outside)),
        (&full, Why::Fault(misaligned)),
        (&calls, Why::Call),
    ] {
        let (ended, tracer) = traced(&rt, alloc, state, 64, stop_at(9, 9), &mut Never);
        assert_eq!(rt; ended, end(0, why));
        assert_eq!(rt; tracer.touched_count(), 0);
        for place in 0..65_664 {
            assert!(rt; tracer.status(place) == Status::Untouched, "at {place}");
        }
    }
}

#[test]
fn changed_code(rt: HostRuntime) {
    let alloc = rt.alloc();
    let mut jumped = changing(&rt, alloc);
    jumped.set_pc(0x10010);
    let entry = entry_of(&rt, alloc, &jumped, stop_at(9, 1), end(1, Why::Span));
    let reads: [Run; 2] = [(0, &[16, 0, 1, 0]), (144, &[0x13, 5, 0x10, 0])];
    let writes: [Run; 2] = [(0, &[20, 0, 1, 0]), (40, &[1, 0, 0, 0])];
    look(&rt, alloc, &entry, &reads, &writes, 1);
    let mut state = changing(&rt, alloc);
    take(&rt, &mut state, 3);
    let changes = entry_of(&rt, alloc, &state, stop_at(9, 2), end(2, Why::Span));
    let reads: [Run; 4] = [
        (0, &[12, 0, 1, 0]),
        (20, &[0, 0, 1, 0]),
        (24, &[0x13, 5, 0x90, 0]),
        (140, &[0x23, 0xA8, 0x62, 0]),
    ];
    let writes: [Run; 3] = [
        (0, &[20, 0, 1, 0]),
        (40, &[9, 0, 0, 0]),
        (144, &[0x13, 5, 0x90, 0]),
    ];
    look(&rt, alloc, &changes, &reads, &writes, 2);
    take(&rt, &mut state, 1);
    assert_eq!(rt; state.pc(), 0x10010);
    assert!(rt; entry.matches(&jumped) && !entry.matches(&state));
}

#[test]
fn laps(rt: HostRuntime) {
    let alloc = rt.alloc();
    let mut list: Vec<Arc<Entry>> = Vec::new(alloc);
    for (pc, x6, laps, ended) in [
        (0x10008, 4, 1, end(2, Why::Lap)),
        (0x10008, 4, 2, end(4, Why::Lap)),
        (0x10010, 4, 9, end(2, Why::Call)),
        (0x10008, 2, 9, end(6, Why::Call)),
    ] {
        let mut state = counting(&rt, alloc, pc, x6);
        let entry = entry_of(&rt, alloc, &state, stop_at(laps, 100), ended);
        state.set_reg(7, 9);
        put_is_steps(&rt, alloc, &entry, &state);
        list.push(entry).expect(&rt, "memory");
    }
    // An entry that is shared in a list: the last one leads to the guest call, and matches there no more.
    let mut state = counting(&rt, alloc, 0x10008, 2);
    if let Some(entry) = list.last()
        && entry.matches(&state)
    {
        entry.put(&mut state);
    }
    assert_eq!(rt; (state.pc(), state.reg(5), state.reg(17)), (0x10018, 2, 93));
    assert!(rt; list.iter().all(|entry| !entry.matches(&state)));
}

// How a trace of the counting loop ends, how often its halt said yes, and how often it was asked: before each attempt
// at a step, and not where a bound is met.
#[test]
fn asked(rt: HostRuntime) {
    let alloc = rt.alloc();
    let loops = counting(&rt, alloc, 0x10008, 4);
    let ends = counting(&rt, alloc, 0x10010, 4);
    let calls = counting(&rt, alloc, 0x10018, 4);
    for (state, cap, stop, noes, ended, stops, asks) in [
        (&loops, 96, stop_at(1, 9), 9, end(2, Why::Lap), 0, 2),
        (&loops, 96, stop_at(9, 3), 9, end(3, Why::Span), 0, 3),
        (&loops, 32, stop_at(9, 9), 9, end(1, Why::Room), 0, 1),
        (&loops, 96, stop_at(9, 9), 0, end(0, Why::Stopped), 1, 1),
        (&loops, 96, stop_at(9, 9), 2, end(2, Why::Stopped), 1, 3),
        (&loops, 96, stop_at(1, 9), 2, end(2, Why::Lap), 0, 2),
        (&ends, 96, stop_at(9, 9), 9, end(2, Why::Call), 0, 3),
        (&ends, 96, stop_at(9, 9), 2, end(2, Why::Stopped), 1, 3),
        (&calls, 96, stop_at(9, 9), 9, end(0, Why::Call), 0, 1),
    ] {
        let mut halt = halt_after(noes);
        let (traced, _) = traced(&rt, alloc, state, cap, stop, &mut halt);
        assert_eq!(rt; (traced, halt.stops, halt.asks), (ended, stops, Some(asks)));
    }
}

/// What becomes of a state that is a guess, by name, and how many steps its entry has.
fn made<H: Halt, R: Abort>(
    rt: &R,
    alloc: Global,
    from: &State,
    stop: Stop,
    halt: &mut H,
) -> (&'static str, u64) {
    assert!(rt; stop.laps >= 1 && stop.span >= 1);
    let mut tracer = Tracer::new(alloc, from.shape(), 96).expect(rt, "memory");
    let guess = Guess::last(Snapshot::of(alloc, from).expect(rt, "memory"));
    match Entry::traced(alloc, &mut tracer, guess, &stop, halt) {
        Made::One(entry) => ("one", entry.steps()),
        Made::Empty => ("empty", 0),
        Made::Stopped => ("stopped", 0),
        Made::Refused => ("refused", 0),
    }
}

// What becomes of the counting loop and of its guest call where the halt says no so often, and how often it said yes.
#[test]
fn guesses(rt: HostRuntime) {
    let alloc = rt.alloc();
    let loops = counting(&rt, alloc, 0x10008, 4);
    let calls = counting(&rt, alloc, 0x10018, 4);
    for (state, noes, became, stops) in [
        (&loops, 9, ("one", 4), 0),
        (&calls, 9, ("empty", 0), 0),
        (&loops, 0, ("stopped", 0), 1),
        (&calls, 0, ("empty", 0), 1),
        (&loops, 3, ("stopped", 0), 1),
    ] {
        let mut halt = halt_after(noes);
        let found = made(&rt, alloc, state, stop_at(2, 9), &mut halt);
        assert_eq!(rt; (found, halt.stops), (became, stops));
    }
}

/// It does nothing. Its call shows that threads may share values of a type, and hand them on.
fn is_shared<T: Send + Sync>(_value: &T) {}

#[test]
fn shared(rt: HostRuntime) {
    let alloc = rt.alloc();
    let state = counting(&rt, alloc, 0x10008, 4);
    let entry = entry_of(&rt, alloc, &state, stop_at(1, 100), end(2, Why::Lap));
    is_shared(&entry);
    let held: &Entry = &entry;
    is_shared(held);
}

/// The entry of so many steps of a state, which all go on.
fn entry_of_steps<R: Abort>(rt: &R, alloc: Global, from: &State, steps: u64) -> Arc<Entry> {
    let stop = stop_at(u64::MAX, steps);
    let (traced, mut tracer) = traced(rt, alloc, from, 8_192, stop, &mut Never);
    assert_eq!(rt; traced, end(steps, Why::Span));
    assert!(rt; traced.steps >= 1);
    Entry::of(alloc, &mut tracer, traced.steps).expect(rt, "memory")
}

/// A state after so many steps of another.
fn after<R: Abort>(rt: &R, alloc: Global, from: &State, steps: u64) -> State {
    let mut state = State::new(alloc, from.shape()).expect(rt, "memory");
    state.copy_from(from);
    take(rt, &mut state, steps);
    state
}

/// The same state with another byte at a place.
fn changed<R: Abort>(rt: &R, alloc: Global, from: &State, place: u32, byte: u8) -> State {
    let mut state = after(rt, alloc, from, 0);
    assert!(rt; (place as usize) < state.len());
    state.set(place, byte);
    state
}

/// A state at these words from 0x10000 on, x10 at 0x11001, x5 7, and bytes from 0x11000 on.
fn at_words<R: Abort>(rt: &R, alloc: Global, shape: Shape, words: &[u32]) -> State {
    let mut state = state_of(rt, alloc, shape, words);
    state.set_reg(5, 7);
    state.set_reg(10, 0x11001);
    for (place, byte) in (4224..4232).zip([0x11, 0x22, 0x33, 0x44, 0x55, 0x66, 0x77, 0x88]) {
        assert!(rt; (place as usize) < state.len());
        state.set(place, byte);
    }
    state
}

/// The join of the entries of these steps of two states.
fn join_of<R: Abort>(
    rt: &R,
    alloc: Global,
    first: (&State, u64),
    second: (&State, u64),
) -> Option<Arc<Entry>> {
    let a = entry_of_steps(rt, alloc, first.0, first.1);
    let b = entry_of_steps(rt, alloc, second.0, second.1);
    Entry::join(alloc, &a, &b).expect(rt, "memory")
}

// Two laps of the counting loop, the second of which is its last one, with two steps behind it.
#[test]
fn joined_laps(rt: HostRuntime) {
    let alloc = rt.alloc();
    let mut from = counting(&rt, alloc, 0x10008, 4);
    from.set_reg(5, 2);
    let joined = join_of(&rt, alloc, (&from, 2), (&after(&rt, alloc, &from, 2), 4));
    let joined = joined.expect(&rt, "x5 is 3 after the first");
    let reads: [Run; 3] = [
        (0, &[8, 0, 1, 0]),
        (20, &[2, 0, 0, 0, 4, 0, 0, 0]),
        (
            136,
            &[
                0x93, 0x82, 0x12, 0, 0xE3, 0x9E, 0x62, 0xFE, 0x93, 8, 0xD0, 5, 0x13, 5, 0, 0,
            ],
        ),
    ];
    let writes: [Run; 4] = [
        (0, &[0x18, 0, 1, 0]),
        (20, &[4, 0, 0, 0]),
        (40, &[0, 0, 0, 0]),
        (68, &[93, 0, 0, 0]),
    ];
    look(&rt, alloc, &joined, &reads, &writes, 6);
    put_is_steps(&rt, alloc, &joined, &from);
    let mut later = counting(&rt, alloc, 0x10008, 4);
    later.set_reg(5, 4);
    assert!(rt; join_of(&rt, alloc, (&from, 2), (&later, 2)).is_none());
}

/// The parts of a join have the bytes of those of an entry.
fn check_parts<R: Abort>(rt: &R, alloc: Global, joined: &[Part], all: &[Part]) {
    let found = cells_of(alloc, joined).expect(rt, "memory");
    let cells = cells_of(alloc, all).expect(rt, "memory");
    assert_eq!(rt; found.as_slice(), cells.as_slice());
}

/// The join of the entries of a state's first steps and of those behind them. If it is there, it is the entry of all.
fn check_join<R: Abort>(rt: &R, alloc: Global, from: &State, steps: (u64, u64), there: bool) {
    let (first, second) = steps;
    let joined = join_of(
        rt,
        alloc,
        (from, first),
        (&after(rt, alloc, from, first), second),
    );
    assert_eq!(rt; joined.is_some(), there);
    if let Some(joined) = joined {
        let steps = first.checked_add(second).expect(rt, "a count of steps");
        let all = entry_of_steps(rt, alloc, from, steps);
        check_parts(rt, alloc, joined.reads(), all.reads());
        check_parts(rt, alloc, joined.writes(), all.writes());
        assert_eq!(rt; joined.steps(), steps);
        put_is_steps(rt, alloc, &joined, from);
    }
}

// An entry of all steps of a state is the join of those of its first ones and of the others, if these are not too many.
#[test]
fn joined_parts(rt: HostRuntime) {
    let alloc = rt.alloc();
    let one = shape_one(&rt);
    // SB x5, 0(x10); ADDI x10, x10, 1; JAL x0, -8: of n laps the entry has 24 reads and n + 8 writes
    let fills = at_words(&rt, alloc, one, &[0x0055_0023, 0x0015_0513, 0xFF9F_F06F]);
    // SW x5, 0(x10); LW x6, 0(x10)
    let stores = at_words(&rt, alloc, one, &[0x0055_2023, 0x0005_2303]);
    // LW x6, 0(x10); SW x5, 0(x10); LW x7, 0(x10)
    let swaps = at_words(&rt, alloc, one, &[0x0005_2303, 0x0055_2023, 0x0005_2383]);
    // LB x6, 0(x10); LB x7, 1(x10); SB x5, 2(x10); LHU x6, 1(x10)
    let bytes = [0x0005_0303, 0x0015_0383, 0x0055_0123, 0x0015_5303];
    let bytes = at_words(&rt, alloc, one, &bytes);
    let changes = changing(&rt, alloc);
    for (from, first, second, there) in [
        (&fills, 3, 3, true),
        (&fills, 6, 9, true),
        (&fills, 3 * 2001, 3 * 2031, true),
        (&fills, 3 * 2001, 3 * 2032, false),
        (&stores, 1, 1, true),
        (&swaps, 1, 2, true),
        (&swaps, 2, 1, true),
        (&bytes, 1, 1, true),
        (&bytes, 1, 3, true),
        (&bytes, 2, 2, true),
        (&bytes, 3, 1, true),
        (&changes, 2, 2, true),
        (&changes, 4, 1, true),
    ] {
        check_join(&rt, alloc, from, (first, second), there);
    }
}

// A second entry of another shape, or that reads a byte otherwise than the first one leaves or reads it.
#[test]
fn not_joined(rt: HostRuntime) {
    let alloc = rt.alloc();
    let one = shape_one(&rt);
    // SW x5, 0(x10); LW x6, 0(x10)
    let stores = at_words(&rt, alloc, one, &[0x0055_2023, 0x0005_2303]);
    let stored = after(&rt, alloc, &stores, 1);
    // LW x6, 0(x10); LW x7, 0(x10)
    let loads = at_words(&rt, alloc, one, &[0x0005_2303, 0x0005_2383]);
    let loaded = after(&rt, alloc, &loads, 1);
    // ADDI x0, x0, 5
    let word = [0x0050_0013, 0x0050_0013];
    let low = at_words(&rt, alloc, one, &word);
    let two = after(&rt, alloc, &at_words(&rt, alloc, shape_two(&rt), &word), 1);
    let large = Shape::new(0x10000, 65_540).expect(&rt, "four bytes more");
    let large = after(&rt, alloc, &at_words(&rt, alloc, large, &word), 1);
    for (first, second, there) in [
        (&stores, &stored, true),
        (&stores, &changed(&rt, alloc, &stored, 4225, 8), false),
        (&stores, &changed(&rt, alloc, &stored, 4228, 8), false),
        (&stores, &changed(&rt, alloc, &stored, 4224, 8), true),
        (&stores, &changed(&rt, alloc, &stored, 4229, 8), true),
        (&loads, &loaded, true),
        (&loads, &changed(&rt, alloc, &loaded, 4225, 8), false),
        (&loads, &changed(&rt, alloc, &loaded, 4228, 8), false),
        (&loads, &changed(&rt, alloc, &loaded, 4229, 8), true),
        (&loads, &changed(&rt, alloc, &loaded, 40, 2), false),
        (&loads, &changed(&rt, alloc, &loaded, 24, 2), true),
        (&low, &after(&rt, alloc, &low, 1), true),
        (&low, &two, false),
        (&low, &large, false),
    ] {
        assert_eq!(rt;
            join_of(&rt, alloc, (first, 1), (second, 1)).is_some(),
            there
        );
    }
}
