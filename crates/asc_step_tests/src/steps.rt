//! Steps of a state.
ghost use Rattle.std.specs.Prelude.{◌≡◌, ◌<◌};

use asc_model::{Fault, FaultKind};
use asc_outside::Steps;
use asc_shape::{Shape, State};
use asc_step::{Stepped, step, step_down, step_many, step_until, try_step};
use std::alloc::Global;
use std::marker::Brand;
use std::process::Abort;
use std::sync::ledger::{Blank, Ledger};

/// A state with this pc and these words from there on.
fn state_of<R: Abort>(rt: &R, alloc: Global, shape: Shape, pc: u32, words: &[u32]) -> State {
    let mut state = State::new(alloc, shape).expect(rt, "memory");
    state.set_pc(pc);
    let mut at = pc;
    for word in words {
        if state.holds(at, 4) {
            state.write(at, &word.to_le_bytes());
        }
        at = at.wrapping_add(4);
    }
    state
}

/// 65,536 bytes of memory from an address on, in version Two.
fn shape_at<R: Abort>(rt: &R, base: u32) -> Shape {
    Shape::two(base, 65_536).expect(rt, "a shape")
}

fn fault(kind: FaultKind, pc: u32, value: u32) -> Stepped {
    Stepped::Faulted(Fault { kind, pc, value })
}

#[test]
fn three_steps(rt: HostRuntime) {
    // ADDI x17, x0, 93; ADDI x10, x0, 7; ECALL
    let words = [0x05D0_0893, 0x0070_0513, 0x0000_0073];
    let mut state = state_of(&rt, rt.alloc(), shape_at(&rt, 0x10000), 0x10000, &words);
    run_three::<Brand, _>(&rt, Blank::new(1), &mut state);
    assert_eq!(rt;
        (state.reg(17), state.reg(10), state.pc()),
        (93, 7, 0x10008)
    );
}

/// Two steps that are counted, by each of the loops of steps, and a call that is not.
fn run_three<L: Ledger, R: Abort>(rt: &R, blank: Blank, state: &mut State)
    requires name { blank.name ≡ L.name }
    requires parts { blank.parts ≡ L.parts }
    requires some { 0 < L.parts }
{
    let mut steps = Steps::<L>::new(blank);
    assert_eq!(rt; step(state, &mut steps), Stepped::Went);
    assert_eq!(rt; step_many(state, 1, &mut steps), (1, Stepped::Went));
    assert_eq!(rt; step(state, &mut steps), Stepped::Call);
    assert_eq!(rt; step_many(state, 5, &mut steps), (0, Stepped::Call));
    state.set_pc(0x10000);
    assert_eq!(rt;
        step_until(state, 0x10004, 5, &mut steps),
        (1, Stepped::Went)
    );
    assert_eq!(rt;
        step_until(state, 0x10004, 5, &mut steps),
        (1, Stepped::Call)
    );
    counts_four(&steps);
}

#[test]
fn steps_back(rt: HostRuntime) {
    // ADDI x10, x10, 1; JAL x0, -4
    let words = [0x0015_0513, 0xFFDF_F06F];
    let mut state = state_of(&rt, rt.alloc(), shape_at(&rt, 0x10000), 0x10000, &words);
    run_back::<Brand, _>(&rt, Blank::new(1), &mut state);
    // JAL x0, 0, which leads back to itself, and no lower.
    let words = [0x0000_006F];
    let mut state = state_of(&rt, rt.alloc(), shape_at(&rt, 0x10000), 0x10000, &words);
    run_on::<Brand, _>(&rt, Blank::new(1), &mut state);
}

/// A loop of two steps: each second one leads back.
fn run_back<L: Ledger, R: Abort>(rt: &R, blank: Blank, state: &mut State)
    requires name { blank.name ≡ L.name }
    requires parts { blank.parts ≡ L.parts }
    requires some { 0 < L.parts }
{
    let mut steps = Steps::<L>::new(blank);
    assert_eq!(rt; step_down(state, 9, &mut steps), (2, true, Stepped::Went));
    assert_eq!(rt; step_down(state, 1, &mut steps), (1, false, Stepped::Went));
    assert_eq!(rt; step_down(state, 1, &mut steps), (1, true, Stepped::Went));
    assert_eq!(rt; (state.reg(10), state.pc()), (2, 0x10000));
    // A word of zeros is no instruction.
    state.set_pc(0x10010);
    assert_eq!(rt;
        step_down(state, 9, &mut steps),
        (0, false, fault(FaultKind::Illegal, 0x10010, 0))
    );
}

fn run_on<L: Ledger, R: Abort>(rt: &R, blank: Blank, state: &mut State)
    requires name { blank.name ≡ L.name }
    requires parts { blank.parts ≡ L.parts }
    requires some { 0 < L.parts }
{
    let mut steps = Steps::<L>::new(blank);
    assert_eq!(rt; step_down(state, 5, &mut steps), (5, false, Stepped::Went));
}

fn counts_four<L: Ledger>(_steps: &Steps<L>)
    requires { _steps.now ≡ 4 }
{}

/// One step at 0x10000: its word, x10, x11 and x12 before it, and then its answer, the pc and x10.
type Case = (u32, [u32; 3], Stepped, u32, u32);

/// A step that goes on behind its word.
fn sets(word: u32, before: [u32; 3], x10: u32) -> Case {
    (word, before, Stepped::Went, 0x10004, x10)
}

/// A step that faults, and leaves the pc and x10.
fn faults(word: u32, before: [u32; 3], kind: FaultKind, value: u32) -> Case {
    let [x10, _, _] = before;
    (word, before, fault(kind, 0x10000, value), 0x10000, x10)
}

/// Takes each step, in the version of the machine that the shape has, and looks at all registers afterwards; and at all
/// memory, which stays.
fn take<R: Abort>(rt: &R, alloc: Global, shape: Shape, cases: &[Case]) {
    for (word, [x10, x11, x12], answer, pc, x10_after) in cases {
        let mut state = state_of(rt, alloc, shape, 0x10000, &[*word]);
        let before = state_of(rt, alloc, shape, 0x10000, &[*word]);
        state.set_reg(10, *x10);
        state.set_reg(11, *x11);
        state.set_reg(12, *x12);
        let answered = try_step(&mut state);
        let mut others = 0;
        for k in 1..10 {
            others |= state.reg(k);
        }
        for k in 13..32 {
            others |= state.reg(k);
        }
        let held = state.holds(0x10000, 65_536) && before.holds(0x10000, 65_536);
        let stays = held && state.mem(0x10000, 65_536) == before.mem(0x10000, 65_536);
        assert_eq!(rt;
            (
                answered,
                state.pc(),
                state.reg(10),
                state.reg(11),
                state.reg(12),
                others,
                stays
            ),
            (*answer, *pc, *x10_after, *x11, *x12, 0, true),
            "after {word}"
        );
    }
}

#[test]
fn division_edges(rt: HostRuntime) {
    let least = 0x8000_0000;
    let minus_one = 0xFFFF_FFFF;
    take(
        &rt,
        rt.alloc(),
        shape_at(&rt, 0x10000),
        &[
            // DIV, REM, DIVU and REMU x10, x11, x12
            sets(0x02C5_C533, [1, least, minus_one], least),
            sets(0x02C5_E533, [1, least, minus_one], 0),
            sets(0x02C5_C533, [1, 7, 0], minus_one),
            sets(0x02C5_E533, [1, 7, 0], 7),
            sets(0x02C5_D533, [1, 7, 0], minus_one),
            sets(0x02C5_F533, [1, 7, 0], 7),
            sets(0x02C5_C533, [1, 0xFFFF_FFF9, 2], 0xFFFF_FFFD),
            sets(0x02C5_E533, [1, 0xFFFF_FFF9, 2], minus_one),
            // MULH, MULHU and MULHSU x10, x11, x12
            sets(0x02C5_9533, [1, minus_one, minus_one], 0),
            sets(0x02C5_B533, [1, minus_one, minus_one], 0xFFFF_FFFE),
            sets(0x02C5_A533, [1, minus_one, minus_one], minus_one),
        ],
    );
}

#[test]
fn misaligned_targets(rt: HostRuntime) {
    take(
        &rt,
        rt.alloc(),
        shape_at(&rt, 0x10000),
        &[
            // JALR x1, 2(x10): x1 is not written.
            faults(0x0025_00E7, [0x10000, 0, 0], FaultKind::Misaligned, 0x10002),
            // BNE x0, x0, +2 is not taken; BEQ x0, x0, +2 is.
            sets(0x0000_1163, [3, 0, 0], 3),
            faults(0x0000_0163, [3, 0, 0], FaultKind::Misaligned, 0x10002),
        ],
    );
}

/// Illegal words, breaks, and addresses that are refused: the word, x10, x11 and x12 before it, and then the fault.
static FAULT_ROWS: [(u32, [u32; 3], FaultKind, u32); 10] = [
    (0, [3, 0, 0], FaultKind::Illegal, 0),
    (0x0010_0073, [3, 0, 0], FaultKind::Break, 0),
    // LW x6, -3(x10)
    (
        0xFFD5_2303,
        [0x20000, 0, 0],
        FaultKind::LoadOutside,
        0x1FFFD,
    ),
    // SW x11, -3(x10)
    (
        0xFEB5_2EA3,
        [0x20000, 1, 0],
        FaultKind::StoreOutside,
        0x1FFFD,
    ),
    // AMOADD.W x5, x6, (x10): alignment is tested before the bounds.
    (
        0x0065_22AF,
        [0x11001, 0, 0],
        FaultKind::AtomicMisaligned,
        0x11001,
    ),
    (0x0065_22AF, [2, 0, 0], FaultKind::AtomicMisaligned, 2),
    (0x0065_22AF, [0, 0, 0], FaultKind::StoreOutside, 0),
    // LR.W x5, (x10), and the same with a second source
    (0x1005_22AF, [0, 0, 0], FaultKind::LoadOutside, 0),
    (
        0x1015_22AF,
        [0x11000, 0, 0],
        FaultKind::Illegal,
        0x1015_22AF,
    ),
    // SC.W x5, x11, (x10) is tested also where it would fail.
    (
        0x18B5_22AF,
        [0x20000, 0, 0],
        FaultKind::StoreOutside,
        0x20000,
    ),
];

#[test]
fn single_faults(rt: HostRuntime) {
    for (word, before, kind, value) in FAULT_ROWS {
        let case = faults(word, before, kind, value);
        take(&rt, rt.alloc(), shape_at(&rt, 0x10000), &[case]);
    }
    let one = Shape::new(0x10000, 65_536).expect(&rt, "a shape");
    let case = faults(
        0x0065_22AF,
        [0x11000, 0, 0],
        FaultKind::Illegal,
        0x0065_22AF,
    );
    take(&rt, rt.alloc(), one, &[case]);
}

/// SC.W x6, x7, (x10) over each byte that may say whether an address is reserved: the word, x6 and that byte afterwards.
#[test]
fn conditional_stores(rt: HostRuntime) {
    for (reserved, valid, word_after, x6) in [
        (0x11000, 1, 3, 0),
        (0x11000, 0, 5, 1),
        (0x11000, 2, 5, 1),
        (0x11000, 255, 5, 1),
        (0x11004, 1, 5, 1),
    ] {
        let words = [0x1875_232F];
        let mut state = state_of(&rt, rt.alloc(), shape_at(&rt, 0x10000), 0x10000, &words);
        state.set_reg(10, 0x11000);
        state.set_reg(7, 3);
        if state.holds(0x11000, 4) {
            state.write(0x11000, &[5, 0, 0, 0]);
        }
        for (place, byte) in (128..132).zip(u32::to_le_bytes(reserved)) {
            if place < 65_672 && (place as usize) < state.len() {
                state.set(place, byte);
            }
        }
        if 132 < state.len() {
            state.set(132, valid);
        }
        let answered = try_step(&mut state);
        let mut word = [0; 4];
        if state.holds(0x11000, 4) {
            word.copy_from_slice(state.mem(0x11000, 4));
        }
        let valid_after = if 132 < state.len() { state.get(132) } else { 9 };
        assert_eq!(rt;
            (
                answered,
                u32::from_le_bytes(word),
                state.reg(6),
                valid_after
            ),
            (Stepped::Went, word_after, x6, 0),
            "at {reserved} with {valid}"
        );
    }
}

#[test]
fn failed_fetches(rt: HostRuntime) {
    for (pc, kind) in [
        (0x10002, FaultKind::Misaligned),
        (0x20000, FaultKind::FetchOutside),
        (0x0FFFC, FaultKind::FetchOutside),
        (0xFFFF_FFFF, FaultKind::Misaligned),
    ] {
        let mut state = state_of(&rt, rt.alloc(), shape_at(&rt, 0x10000), pc, &[]);
        assert_eq!(rt;
            (try_step(&mut state), state.pc()),
            (fault(kind, pc, pc), pc)
        );
    }
}

/// At the end of the addresses: a word at 0xFFFFFFFC, and then the pc, x10 and what the next step answers.
#[test]
fn last_addresses(rt: HostRuntime) {
    for (word, pc, x10) in [
        // ADDI x10, x10, 1; JAL x0, +8
        (0x0015_0513, 0, 1),
        (0x0080_006F, 4, 0),
    ] {
        let shape = shape_at(&rt, 0xFFFF_0000);
        let mut state = state_of(&rt, rt.alloc(), shape, 0xFFFF_FFFC, &[word]);
        let first = try_step(&mut state);
        let after = (state.pc(), state.reg(10));
        let second = try_step(&mut state);
        assert_eq!(rt;
            (first, after, second),
            (
                Stepped::Went,
                (pc, x10),
                fault(FaultKind::FetchOutside, pc, pc)
            )
        );
    }
    // LW x6, -2(x0)
    let shape = shape_at(&rt, 0xFFFF_0000);
    let mut state = state_of(&rt, rt.alloc(), shape, 0xFFFF_0000, &[0xFFE0_2303]);
    assert_eq!(rt;
        try_step(&mut state),
        fault(FaultKind::LoadOutside, 0xFFFF_0000, 0xFFFF_FFFE)
    );
}

#[test]
fn state_of_all_ones(rt: HostRuntime) {
    let mut state = state_of(&rt, rt.alloc(), shape_at(&rt, 0x10000), 0, &[]);
    for place in 0..65_672 {
        if (place as usize) < state.len() {
            state.set(place, 0xFF);
        }
    }
    assert_eq!(rt;
        try_step(&mut state),
        fault(FaultKind::Misaligned, 0xFFFF_FFFF, 0xFFFF_FFFF)
    );
}
