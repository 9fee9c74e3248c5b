//! Traced steps beside plain ones: after them the tracer has the plain machine's bytes, and each place the status that the
//! definition of a step gives it.
//!
//! What a step reads and puts is told here by its word, without the code of steps.
ghost use Rattle.std.specs.Prelude.{◌≡◌};
ghost use Rattle.asc_model.specs.Shape.{length_of};

use crate::beside::Action::{Steps, Undo};
use asc_depvec::Tracer;
use asc_model::Status::{Read, ReadWritten, Untouched, Written};
use asc_model::{MOST_PLACES, Status};
use asc_shape::{Bytes, Guess, Shape, Snapshot, State};
use asc_step::{Stepped, try_step};
use std::alloc::Global;
use std::process::Abort;

/// A place, and how many there are from it on.
type Run = (u32, u32);

const NONE: Run = (0, 0);

/// A tracer, and beside it a state that takes plain steps.
#[derive(Drop)]
struct Beside {
    tracer: Tracer,
    state: State,
    // The state before all steps.
    start: State,
    // The status of each place.
    statuses: Vec<Status>,
    // The touched places, in the order of their first touches.
    touched: Vec<u32>,
    // How many steps went on.
    steps: u64,
}

/// What is done with both.
#[derive(Clone, Copy)]
enum Action {
    /// So many steps, or as many as go on.
    Steps(u32),
    /// The places behind so many touched ones are made untouched again.
    Undo(usize),
}

/// Words from 0x10000 on, registers, and what is done. Then what the last step answers, and statuses and values of registers.
struct Case {
    two: bool,
    words: &'static [u32],
    registers: &'static [(u32, u32)],
    actions: &'static [Action],
    answer: Stepped,
    statuses: &'static [(u32, u32, Status)],
    values: &'static [(u32, u32)],
}

static CASES: [Case; 7] = [
    // A lap turns ADDI x5, x5, 1 into ADDI x7, x7, 1 and back: LW x6, 12(x8); XOR x6, x6, x9; SW x6, 12(x8)
    Case {
        two: false,
        words: &[
            0x00C4_2303,
            0x0093_4333,
            0x0064_2623,
            0x0012_8293,
            0xFF1F_F06F,
        ],
        registers: &[(8, 0x10000), (9, 0x0001_0100)],
        actions: &[Steps(20)],
        answer: Stepped::Went,
        statuses: &[
            (0, 4, ReadWritten),
            (20, 4, ReadWritten),
            (24, 4, Written),
            (28, 4, ReadWritten),
            (32, 8, Read),
            (128, 12, Read),
            (140, 4, ReadWritten),
            (144, 4, Read),
            (148, 4, Untouched),
        ],
        values: &[(5, 2), (7, 2)],
    },
    // ADDI x5, x5, 1, which the next step replaces: SW x6, 0(x8)
    Case {
        two: false,
        words: &[0x0012_8293, 0x0064_2023, 0xFF9F_F06F],
        registers: &[(6, 0x0013_8393), (8, 0x10000)],
        actions: &[Steps(6)],
        answer: Stepped::Went,
        statuses: &[
            (0, 4, ReadWritten),
            (20, 4, ReadWritten),
            (24, 4, Read),
            (28, 4, ReadWritten),
            (32, 4, Read),
            (128, 4, ReadWritten),
            (132, 8, Read),
        ],
        values: &[(5, 1), (7, 1)],
    },
    // The word at 0x10008 is read as data and executed later: LW x6, 8(x8)
    Case {
        two: false,
        words: &[0x0084_2303, 0x0012_8293, 0x0030_0393, 0xFF9F_F06F],
        registers: &[(8, 0x10000)],
        actions: &[Steps(7)],
        answer: Stepped::Went,
        statuses: &[
            (0, 4, ReadWritten),
            (20, 4, ReadWritten),
            (24, 4, Written),
            (28, 4, Written),
            (32, 4, Read),
            (128, 16, Read),
        ],
        values: &[(5, 2), (6, 0x0030_0393), (7, 3)],
    },
    // Two words are executed twice, and then a half is put across them: SH x7, 3(x8). The first adds 17 then.
    Case {
        two: false,
        words: &[0x0012_8293, 0xFE62_9EE3, 0x0074_11A3, 0xFF5F_F06F],
        registers: &[(6, 2), (7, 0xE301), (8, 0x10000)],
        actions: &[Steps(7)],
        answer: Stepped::Went,
        statuses: &[
            (0, 4, ReadWritten),
            (20, 4, ReadWritten),
            (24, 12, Read),
            (128, 3, Read),
            (131, 2, ReadWritten),
            (133, 11, Read),
        ],
        values: &[(5, 19)],
    },
    // A lap that ends in a fault at a word that was executed before: LW x6, 0(x9). Then all but the pc is taken back.
    Case {
        two: false,
        words: &[0x0012_8293, 0x0004_A303, 0x0044_8493, 0xFF5F_F06F],
        registers: &[(9, 0x1FFF8)],
        actions: &[Steps(10), Undo(4), Steps(3)],
        answer: Stepped::Went,
        statuses: &[
            (0, 4, ReadWritten),
            (20, 4, Untouched),
            (24, 4, Written),
            (36, 4, ReadWritten),
            (128, 4, Untouched),
            (132, 12, Read),
            (65_656, 4, Read),
            (65_660, 4, Untouched),
        ],
        values: &[(5, 0), (9, 0x1FFFC)],
    },
    // ADDI x5, x5, 1 and a guest call at a word that was not fetched before. Then all is taken back, and done again.
    Case {
        two: false,
        words: &[0x0012_8293, 0x0000_0073],
        registers: &[],
        actions: &[Steps(2), Undo(0), Steps(2)],
        answer: Stepped::Call,
        statuses: &[
            (0, 4, ReadWritten),
            (20, 4, ReadWritten),
            (128, 4, Read),
            (132, 4, Untouched),
        ],
        values: &[(5, 1)],
    },
    // Atomics on the word of ADDI x11, x11, 1: AMOADD.W x5, x6, (x8); LR.W x7, (x8); SC.W x10, x7, (x8)
    Case {
        two: true,
        words: &[
            0x0064_22AF,
            0x1004_23AF,
            0x1874_252F,
            0x0015_8593,
            0xFF1F_F06F,
        ],
        registers: &[(6, 0x0010_0000), (8, 0x1000C), (10, 7)],
        actions: &[Steps(10)],
        answer: Stepped::Went,
        statuses: &[
            (0, 4, ReadWritten),
            (20, 4, Written),
            (24, 4, Read),
            (28, 4, Written),
            (32, 4, Read),
            (40, 4, Written),
            (44, 4, ReadWritten),
            (128, 5, Written),
            (133, 3, Untouched),
            (136, 12, Read),
            (148, 4, ReadWritten),
            (152, 4, Read),
        ],
        values: &[(5, 0x0025_8593), (10, 0), (11, 5)],
    },
];

/// How many places a shape has.
fn places(shape: Shape) -> u32
    ensures { result ≡ length_of shape }
{
    shape.start() + shape.size()
}

/// A state with these words from 0x10000 on, and its pc there.
fn state_of<R: Abort>(rt: &R, alloc: Global, two: bool, words: &[u32]) -> State {
    let shape = if two {
        Shape::two(0x10000, 65_536)
    } else {
        Shape::new(0x10000, 65_536)
    };
    let mut state = State::new(alloc, shape.expect(rt, "a shape")).expect(rt, "memory");
    state.set_pc(0x10000);
    let mut at = 0x10000;
    for word in words {
        assert!(rt; state.holds(at, 4));
        state.write(at, &word.to_le_bytes());
        at = at.wrapping_add(4);
    }
    state
}

/// Sets these registers.
fn set_registers<R: Abort>(rt: &R, state: &mut State, registers: &[(u32, u32)]) {
    for &(k, value) in registers {
        assert!(rt; k < 32);
        state.set_reg(k, value);
    }
}

/// A tracer of a state of which nothing is touched, and the state beside it.
fn start_beside<R: Abort>(rt: &R, alloc: Global, start: State) -> Beside {
    let mut tracer = Tracer::new(alloc, start.shape(), MOST_PLACES).expect(rt, "memory");
    tracer.start(Guess::last(Snapshot::of(alloc, &start).expect(rt, "memory")));
    let mut state = State::new(alloc, start.shape()).expect(rt, "memory");
    state.copy_from(&start);
    let statuses = vec![in alloc; Untouched; start.len()].expect(rt, "memory");
    Beside {
        tracer,
        state,
        start,
        statuses,
        touched: Vec::new(alloc),
        steps: 0,
    }
}

/// The word in memory from an address on, or 0 where memory does not hold it.
fn word_at(state: &State, address: u32) -> u32 {
    let mut word = [0; 4];
    if state.holds(address, 4) {
        word.copy_from_slice(state.mem(address, 4));
    }
    u32::from_le_bytes(word)
}

/// Whether an address is reserved, in version Two.
fn is_reserved(state: &State, address: u32) -> bool {
    state.len() >= 136 && state.get(132) == 1 && state.word(128) == address
}

/// The places of a register.
fn register(k: u32) -> Run {
    match k % 32 {
        0 => NONE,
        k => (4 * k, 4),
    }
}

/// What the next step reads, and then what it puts, where it goes on.
fn touches(state: &State) -> ([Run; 5], [Run; 4]) {
    let shape = state.shape();
    let start = shape.start().wrapping_sub(shape.base());
    let pc = state.pc();
    let word = word_at(state, pc);
    let rd = register(word >> 7);
    let rs1 = register(word >> 15);
    let rs2 = register(word >> 20);
    let at = state.reg((word >> 15) % 32).wrapping_add(start);
    let loaded = (word.cast_signed() >> 20).cast_unsigned();
    let stored = (word.cast_signed() >> 25 << 5).cast_unsigned() | ((word >> 7) % 32);
    let size = match (word >> 12) % 4 {
        0 => 1,
        1 => 2,
        _ => 4,
    };
    let (a, b, c) = match word & 0x7F {
        0x03 => (rs1, (at.wrapping_add(loaded), size), NONE),
        0x13 | 0x67 => (rs1, NONE, NONE),
        0x23 | 0x33 | 0x63 => (rs1, rs2, NONE),
        0x2F => atomic_reads(word, rs1, rs2, (at, 4)),
        _ => (NONE, NONE, NONE),
    };
    let (x, y, z) = match word & 0x7F {
        0x23 => ((at.wrapping_add(stored), size), NONE, NONE),
        0x63 | 0x0F => (NONE, NONE, NONE),
        0x2F => atomic_puts(state, word, rd, (at, 4)),
        _ => (rd, NONE, NONE),
    };
    (
        [(0, 4), (pc.wrapping_add(start), 4), a, b, c],
        [(0, 4), x, y, z],
    )
}

/// What an atomic reads: LR.W, SC.W or another one.
fn atomic_reads(word: u32, rs1: Run, rs2: Run, at: Run) -> (Run, Run, Run) {
    match word >> 27 {
        2 => (rs1, at, NONE),
        3 => (rs1, rs2, (128, 5)),
        _ => (rs1, rs2, at),
    }
}

/// What an atomic puts.
fn atomic_puts(state: &State, word: u32, rd: Run, at: Run) -> (Run, Run, Run) {
    let address = state.reg((word >> 15) % 32);
    match word >> 27 {
        2 => (rd, (128, 5), NONE),
        3 if is_reserved(state, address) => (rd, (132, 1), at),
        3 => (rd, (132, 1), NONE),
        _ => (rd, at, NONE),
    }
}

/// The status of a place after a read or a put.
fn status_after(status: Status, is_put: bool) -> Status {
    match (status, is_put) {
        (Untouched, false) => Read,
        (Untouched, true) => Written,
        (Read, true) => ReadWritten,
        (other, _) => other,
    }
}

/// Touches these places, by reads or by puts.
fn touch<R: Abort>(rt: &R, beside: &mut Beside, run: Run, is_put: bool) {
    let (first, count) = run;
    for place in first..first.saturating_add(count) {
        let at = place as usize;
        assert!(rt; at < beside.statuses.len());
        let status = beside.statuses[at];
        beside.statuses[at] = status_after(status, is_put);
        if status == Untouched {
            beside.touched.push(place).expect(rt, "memory");
        }
    }
}

/// One traced step, and the plain one beside it.
fn step<R: Abort>(rt: &R, beside: &mut Beside) -> Stepped {
    let (reads, puts) = touches(&beside.state);
    let answer = try_step(&mut beside.state);
    if answer == Stepped::Went {
        beside.steps = beside.steps.saturating_add(1);
        for run in reads {
            touch(rt, beside, run, false);
        }
        put_all(rt, beside, &puts);
    }
    assert_eq!(rt; traced_step(rt, &mut beside.tracer), answer);
    answer
}

fn put_all<R: Abort>(rt: &R, beside: &mut Beside, puts: &[Run]) {
    for run in puts {
        touch(rt, beside, *run, true);
    }
}

/// One step of a tracer. Where it calls or faults, its reads are taken back, as a trace does.
fn traced_step<R: Abort>(rt: &R, tracer: &mut Tracer) -> Stepped {
    let count = tracer.touched_count();
    assert!(rt; tracer.room() >= 32);
    let answer = try_step(tracer);
    if answer != Stepped::Went {
        assert!(rt; count <= tracer.touched_count());
        tracer.undo(count);
    }
    answer
}

/// So many steps, or as many as go on. It answers what the last one answered.
fn steps<R: Abort>(rt: &R, beside: &mut Beside, count: u32) -> Stepped {
    let mut answer = Stepped::Went;
    for _ in 0..count {
        answer = step(rt, beside);
        if answer != Stepped::Went {
            break;
        }
    }
    answer
}

/// Makes the places behind so many touched ones untouched, with the bytes of the start.
fn undo<R: Abort>(rt: &R, beside: &mut Beside, count: usize) {
    assert!(rt; count <= beside.tracer.touched_count());
    beside.tracer.undo(count);
    for &place in beside.touched.iter().skip(count) {
        let at = place as usize;
        assert!(rt; at < beside.statuses.len() && at < beside.state.len());
        assert!(rt; at < beside.start.len());
        beside.statuses[at] = Untouched;
        beside.state.set(place, beside.start.get(place));
    }
    beside.touched.truncate(count);
}

/// The tracer has the bytes and statuses of the plain state beside it, and no other place is touched.
fn compare<R: Abort>(rt: &R, beside: &Beside) {
    assert_eq!(rt; beside.tracer.touched_count(), beside.touched.len());
    let count = places(Bytes::shape(&beside.tracer));
    for &place in &beside.touched {
        let at = place as usize;
        assert!(rt; at < beside.statuses.len() && at < beside.state.len() && place < count);
        assert_eq!(rt;
            (beside.tracer.status(place), beside.tracer.byte(place)),
            (beside.statuses[at], beside.state.get(place)),
            "at {place}"
        );
    }
}

/// Carries out actions, and compares after each of them. It answers what the last step answered.
fn carry_out<R: Abort>(rt: &R, beside: &mut Beside, actions: &[Action]) -> Stepped {
    let mut answer = Stepped::Went;
    for action in actions {
        match *action {
            Steps(count) => answer = steps(rt, beside, count),
            Undo(count) => undo(rt, beside, count),
        }
        compare(rt, beside);
    }
    answer
}

/// The tracer gives these places these statuses.
fn have_statuses<R: Abort>(rt: &R, tracer: &Tracer, statuses: &[(u32, u32, Status)]) {
    for &(first, count, status) in statuses {
        has_status(rt, tracer, (first, count), status);
    }
}

fn has_status<R: Abort>(rt: &R, tracer: &Tracer, run: Run, status: Status) {
    let (first, count) = run;
    for place in first..first.saturating_add(count) {
        assert_eq!(rt; tracer.status(place), status, "at {place}");
    }
}

/// The state's registers have these values.
fn have_values<R: Abort>(rt: &R, state: &State, registers: &[(u32, u32)]) {
    for &(k, value) in registers {
        assert!(rt; k < 32);
        assert_eq!(rt; state.reg(k), value, "x{k}");
    }
}

/// Code that changes, is read as data or is taken back, and atomics on it.
#[test]
fn changing_code(rt: HostRuntime) {
    let alloc = rt.alloc();
    for case in &CASES {
        let mut start = state_of(&rt, alloc, case.two, case.words);
        set_registers(&rt, &mut start, case.registers);
        let mut beside = start_beside(&rt, alloc, start);
        let answer = carry_out(&rt, &mut beside, case.actions);
        assert_eq!(rt; answer, case.answer);
        have_statuses(&rt, &beside.tracer, case.statuses);
        have_values(&rt, &beside.state, case.values);
    }
}

/// The next of a row of numbers.
fn next(number: u32) -> u32 {
    let a = number ^ (number << 13);
    let b = a ^ (a >> 17);
    b ^ (b << 5)
}

/// A word for a number. x8 and x9 point into the code, and no word sets them.
fn random_word(number: u32) -> u32 {
    let rd = (10 + (number >> 4) % 4) << 7;
    let rs1 = (10 + (number >> 6) % 4) << 15;
    let rs2 = (10 + (number >> 8) % 4) << 20;
    let byte = (number >> 10) % 64;
    let word = byte & 0x3C;
    match number % 16 {
        // ADDI, ADD, MUL and XOR
        0 | 1 => 0x0000_0013 | rd | rs1 | (byte % 4) << 20,
        2 => 0x0000_0033 | rd | rs1 | rs2,
        3 => 0x0200_0033 | rd | rs1 | rs2,
        4 => 0x0000_4033 | rd | rs1 | rs2,
        // LW and LBU from the code
        5 | 6 => 0x0004_2003 | rd | word << 20,
        7 => 0x0004_4003 | rd | byte << 20,
        // SW and SB into the code
        8 => 0x0004_2023 | rs2 | (word >> 5) << 25 | (word % 32) << 7,
        9 => 0x0004_0023 | rs2 | (byte >> 5) << 25 | (byte % 32) << 7,
        // BNE by 8 and BEQ by -12
        10 => 0x0000_1463 | rs1 | rs2,
        11 => 0xFE00_0AE3 | rs1 | rs2,
        // AMOSWAP.W, LR.W and SC.W of a word of the code
        12 => 0x0804_A02F | rd | rs2,
        13 => 0x1004_A02F | rd,
        14 => 0x1804_A02F | rd | rs2,
        // JAL by -8, or a guest call
        _ => { if byte < 48 { 0xFF9F_F06F } else { 0x0000_0073 } }
    }
}

/// Sixteen random words and a jump back, with words in registers that stores put into the code.
fn random_state<R: Abort>(rt: &R, alloc: Global, seed: u32) -> State {
    let mut words = [0xFC1F_F06F; 17];
    let mut number = seed;
    for word in words.iter_mut().take(16) {
        number = next(number);
        *word = random_word(number);
    }
    let mut state = state_of(rt, alloc, true, &words);
    set_registers(
        rt,
        &mut state,
        &[(8, 0x10000), (9, 0x10000 + 4 * (seed % 16))],
    );
    for k in 10..14 {
        number = next(number);
        state.set_reg(k, random_word(number));
    }
    state
}

/// Random steps, and random places behind which all is taken back.
fn random_run<R: Abort>(rt: &R, beside: &mut Beside, seed: u32) {
    let mut number = seed;
    for _ in 0..12 {
        number = next(number);
        let _ = carry_out(rt, beside, &[Steps(number % 64)]);
        let touched = beside.touched.len();
        number = next(number);
        let count = touched / 2 + (number % 64) as usize;
        if count < touched {
            let _ = carry_out(rt, beside, &[Undo(count)]);
        }
    }
}

/// The seeds of random programs.
static SEEDS: [u32; 24] = [
    0x0000_0001,
    0x0000_0007,
    0x0000_0101,
    0x0000_1F35,
    0x0001_2345,
    0x0077_7777,
    0x0123_4567,
    0x1111_1111,
    0x2468_ACE1,
    0x3141_5926,
    0x4D2F_0081,
    0x5A5A_5A5A,
    0x6B8B_4567,
    0x7FFF_FFFF,
    0x8000_0003,
    0x89AB_CDEF,
    0x9E37_79B9,
    0xA5A5_0F0F,
    0xB105_F00D,
    0xC0FF_EE12,
    0xD00D_2BAD,
    0xDEAD_BEEF,
    0xEDB8_8320,
    0xFFFF_FFFB,
];

/// Each program takes some steps, and all together take thousands.
#[test]
fn random_programs(rt: HostRuntime) {
    let alloc = rt.alloc();
    let mut steps: u64 = 0;
    for seed in &SEEDS {
        let mut beside = start_beside(&rt, alloc, random_state(&rt, alloc, *seed));
        random_run(&rt, &mut beside, *seed);
        assert!(rt; beside.steps > 0, "no step of {seed:#x}");
        steps = steps.saturating_add(beside.steps);
    }
    assert!(rt; steps > 4_000);
}
