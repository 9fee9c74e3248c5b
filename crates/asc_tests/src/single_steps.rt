//! Single steps, with values from another implementation.
//!
//! What stands here of each step is what QEMU's user-mode emulator for 32-bit RISC-V made of it:
//! qemu-riscv32 version 7.2.22 (Debian 1:7.2+dfsg-7+deb12u18+b3).
//! The words were made by llvm-mc (Debian LLVM version 14.0.6), but for 3 that it has no text for,
//! which are written after the manual's encoding. `bench/single_steps.py` writes this file, and says how the values were
//! read from QEMU.

use asc_shape::{Shape, State};
use asc_step::{Stepped, try_step};
use std::alloc::Global;
use std::process::Abort;

/// A step of the word at 0x10000. Before it x12 is 0x5A5A5A5A, and each register k but x10 and x11 is k times
/// 0x01010101. The step changes no other register than rd, and no byte beside the two words of data.
struct Case {
    word: u32,
    x10: u32,
    x11: u32,
    /// The words at 0x10100 and 0x10104 before the step.
    data: [u32; 2],
    /// The pc after the step.
    pc: u32,
    /// The register that the step writes, and what it is after the step. It is x12 where the step writes none.
    rd: u32,
    value: u32,
    /// The words at 0x10100 and 0x10104 after the step.
    data_after: [u32; 2],
}

/// The array of these cases: what there was before the step, and after `=>` what there is after it.
macro_rules! cases {
    ($($word:literal: $x10:literal $x11:literal [$low:literal $high:literal]
        => $pc:literal $rd:literal $value:literal [$low_after:literal $high_after:literal];)*) => {
        [$(Case {
            word: $word,
            x10: $x10,
            x11: $x11,
            data: [$low, $high],
            pc: $pc,
            rd: $rd,
            value: $value,
            data_after: [$low_after, $high_after],
        }),*]
    };
}

#[test]
fn single_steps(rt: HostRuntime) {
    for case in &CASES {
        try_case(&rt, rt.alloc(), case);
    }
}

/// Takes the step of a case, and looks at the pc, the registers and the first KiB of memory after it.
fn try_case<R: Abort>(rt: &R, alloc: Global, case: &Case) {
    let (word, x10, x11) = (case.word, case.x10, case.x11);
    let mut state = state_of(rt, alloc, case, 0x10000, case.data);
    assert_eq!(rt;
        try_step(&mut state),
        Stepped::Went,
        "{word:#x} with {x10:#x}, {x11:#x}"
    );
    let mut want = state_of(rt, alloc, case, case.pc, case.data_after);
    assert!(rt; case.rd < 32, "{word:#x}");
    want.set_reg(case.rd, case.value);
    assert_eq!(rt;
        state.pc(),
        want.pc(),
        "the pc after {word:#x} with {x10:#x}, {x11:#x}"
    );
    for k in 0..32 {
        assert_eq!(rt;
            state.reg(k),
            want.reg(k),
            "x{k} after {word:#x} with {x10:#x}, {x11:#x}"
        );
    }
    assert!(rt;
        state.holds(0x10000, 0x400) && want.holds(0x10000, 0x400),
        "{word:#x}"
    );
    let same = state.mem(0x10000, 0x400) == want.mem(0x10000, 0x400);
    assert!(rt; same, "memory after {word:#x} with {x10:#x}, {x11:#x}");
}

/// A state of version Two with this pc, these words of data, and the word and the registers of a case.
fn state_of<R: Abort>(rt: &R, alloc: Global, case: &Case, pc: u32, data: [u32; 2]) -> State {
    let shape = Shape::two(0x10000, 0x10000).expect(rt, "a shape");
    let mut state = State::new(alloc, shape).expect(rt, "memory");
    state.set_pc(pc);
    for k in 1..32 {
        state.set_reg(k, k * 0x0101_0101);
    }
    state.set_reg(10, case.x10);
    state.set_reg(11, case.x11);
    state.set_reg(12, 0x5A5A_5A5A);
    for (at, word) in [(0x10000, case.word), (0x10100, data[0]), (0x10104, data[1])] {
        assert!(rt; state.holds(at, 4), "memory at {at:#x}");
        state.write(at, &word.to_le_bytes());
    }
    state
}

static CASES: [Case; 1042] = cases! {
    // LUI
    0x00000637: 0 0 [0 0] => 0x10004 12 0 [0 0]; // lui x12, 0x0
    0x00001637: 0 0 [0 0] => 0x10004 12 0x1000 [0 0]; // lui x12, 0x1
    0x7FFFF637: 0 0 [0 0] => 0x10004 12 0x7FFFF000 [0 0]; // lui x12, 0x7ffff
    0x80000637: 0 0 [0 0] => 0x10004 12 0x80000000 [0 0]; // lui x12, 0x80000
    0xFFFFF637: 0 0 [0 0] => 0x10004 12 0xFFFFF000 [0 0]; // lui x12, 0xfffff
    0x12345637: 0 0 [0 0] => 0x10004 12 0x12345000 [0 0]; // lui x12, 0x12345
    0xABCDE037: 0 0 [0 0] => 0x10004 0 0 [0 0]; // lui x0, 0xabcde
    0xABCDE537: 7 0 [0 0] => 0x10004 10 0xABCDE000 [0 0]; // lui x10, 0xabcde
    // AUIPC
    0x00000617: 0 0 [0 0] => 0x10004 12 0x10000 [0 0]; // auipc x12, 0x0
    0x00001617: 0 0 [0 0] => 0x10004 12 0x11000 [0 0]; // auipc x12, 0x1
    0x7FFFF617: 0 0 [0 0] => 0x10004 12 0x8000F000 [0 0]; // auipc x12, 0x7ffff
    0x80000617: 0 0 [0 0] => 0x10004 12 0x80010000 [0 0]; // auipc x12, 0x80000
    0xFFFFF617: 0 0 [0 0] => 0x10004 12 0xF000 [0 0]; // auipc x12, 0xfffff
    0x12345617: 0 0 [0 0] => 0x10004 12 0x12355000 [0 0]; // auipc x12, 0x12345
    0xABCDE017: 0 0 [0 0] => 0x10004 0 0 [0 0]; // auipc x0, 0xabcde
    0xABCDE517: 7 0 [0 0] => 0x10004 10 0xABCEE000 [0 0]; // auipc x10, 0xabcde
    // JAL
    0x0040066F: 0 0 [0 0] => 0x10004 12 0x10004 [0 0]; // jal x12, 4
    0x0080066F: 0 0 [0 0] => 0x10008 12 0x10004 [0 0]; // jal x12, 8
    0x4000066F: 0 0 [0 0] => 0x10400 12 0x10004 [0 0]; // jal x12, 1024
    0x0010066F: 0 0 [0 0] => 0x10800 12 0x10004 [0 0]; // jal x12, 2048
    0x0000166F: 0 0 [0 0] => 0x11000 12 0x10004 [0 0]; // jal x12, 4096
    0x0000866F: 0 0 [0 0] => 0x18000 12 0x10004 [0 0]; // jal x12, 32768
    0x0008066F: 0 0 [0 0] => 0x90000 12 0x10004 [0 0]; // jal x12, 524288
    0x7FDFF66F: 0 0 [0 0] => 0x0010FFFC 12 0x10004 [0 0]; // jal x12, 1048572
    0xFFDFF66F: 0 0 [0 0] => 0xFFFC 12 0x10004 [0 0]; // jal x12, -4
    0xFF9FF66F: 0 0 [0 0] => 0xFFF8 12 0x10004 [0 0]; // jal x12, -8
    0x801FF66F: 0 0 [0 0] => 0xF800 12 0x10004 [0 0]; // jal x12, -2048
    0x800FF66F: 0 0 [0 0] => 0xF000 12 0x10004 [0 0]; // jal x12, -4096
    0x8000066F: 0 0 [0 0] => 0xFFF10000 12 0x10004 [0 0]; // jal x12, -1048576
    0x2000006F: 0 0 [0 0] => 0x10200 0 0 [0 0]; // jal x0, 512
    0xE01FF06F: 0 0 [0 0] => 0xFE00 0 0 [0 0]; // jal x0, -512
    0x2000056F: 7 0 [0 0] => 0x10200 10 0x10004 [0 0]; // jal x10, 512
    // JALR
    0x00050667: 0x10200 0 [0 0] => 0x10200 12 0x10004 [0 0]; // jalr x12, 0(x10)
    0x00450667: 0x10200 0 [0 0] => 0x10204 12 0x10004 [0 0]; // jalr x12, 4(x10)
    0xFFC50667: 0x10204 0 [0 0] => 0x10200 12 0x10004 [0 0]; // jalr x12, -4(x10)
    0x80050667: 0x10A00 0 [0 0] => 0x10200 12 0x10004 [0 0]; // jalr x12, -2048(x10)
    0x7FF50667: 0x11001 0 [0 0] => 0x11800 12 0x10004 [0 0]; // jalr x12, 2047(x10)
    0x00050667: 0x10201 0 [0 0] => 0x10200 12 0x10004 [0 0]; // jalr x12, 0(x10)
    0x00150667: 0x10200 0 [0 0] => 0x10200 12 0x10004 [0 0]; // jalr x12, 1(x10)
    0x00250667: 0x101FF 0 [0 0] => 0x10200 12 0x10004 [0 0]; // jalr x12, 2(x10)
    0xFFE50667: 0x10203 0 [0 0] => 0x10200 12 0x10004 [0 0]; // jalr x12, -2(x10)
    0x80050667: 0x10A01 0 [0 0] => 0x10200 12 0x10004 [0 0]; // jalr x12, -2048(x10)
    0xC0050667: 0x10801 0 [0 0] => 0x10400 12 0x10004 [0 0]; // jalr x12, -1024(x10)
    0x00150667: 0xFFFFFFFF 0 [0 0] => 0 12 0x10004 [0 0]; // jalr x12, 1(x10)
    0x00450667: 0xFFFFFFFD 0 [0 0] => 0 12 0x10004 [0 0]; // jalr x12, 4(x10)
    0xFFC50667: 0 0 [0 0] => 0xFFFFFFFC 12 0x10004 [0 0]; // jalr x12, -4(x10)
    0x7FC50667: 0 0 [0 0] => 0x7FC 12 0x10004 [0 0]; // jalr x12, 2044(x10)
    0x00050667: 0xF000 0 [0 0] => 0xF000 12 0x10004 [0 0]; // jalr x12, 0(x10)
    0x00050067: 0x10200 0 [0 0] => 0x10200 0 0 [0 0]; // jalr x0, 0(x10)
    0x00150067: 0x10200 0 [0 0] => 0x10200 0 0 [0 0]; // jalr x0, 1(x10)
    0x00850567: 0x10200 0 [0 0] => 0x10208 10 0x10004 [0 0]; // jalr x10, 8(x10)
    0xFFD50567: 0x10204 0 [0 0] => 0x10200 10 0x10004 [0 0]; // jalr x10, -3(x10)
    0x7FC00667: 0 0 [0 0] => 0x7FC 12 0x10004 [0 0]; // jalr x12, 2044(x0)
    0x00058667: 0x10300 0x10200 [0 0] => 0x10200 12 0x10004 [0 0]; // jalr x12, 0(x11)
    // BEQ
    0x00B50463: 0 0 [0 0] => 0x10008 12 0x5A5A5A5A [0 0]; // beq x10, x11, 8
    0xFEB50CE3: 0 1 [0 0] => 0x10004 12 0x5A5A5A5A [0 0]; // beq x10, x11, -8
    0x00B50463: 1 0 [0 0] => 0x10004 12 0x5A5A5A5A [0 0]; // beq x10, x11, 8
    0xFEB50CE3: 0xFFFFFFFF 0 [0 0] => 0x10004 12 0x5A5A5A5A [0 0]; // beq x10, x11, -8
    0x00B50463: 0 0xFFFFFFFF [0 0] => 0x10004 12 0x5A5A5A5A [0 0]; // beq x10, x11, 8
    0xFEB50CE3: 0xFFFFFFFF 0xFFFFFFFF [0 0] => 0xFFF8 12 0x5A5A5A5A [0 0]; // beq x10, x11, -8
    0x00B50463: 0x80000000 0x7FFFFFFF [0 0] => 0x10004 12 0x5A5A5A5A [0 0]; // beq x10, x11, 8
    0xFEB50CE3: 0x7FFFFFFF 0x80000000 [0 0] => 0x10004 12 0x5A5A5A5A [0 0]; // beq x10, x11, -8
    0x00B50463: 0x80000000 0x80000000 [0 0] => 0x10008 12 0x5A5A5A5A [0 0]; // beq x10, x11, 8
    0xFEB50CE3: 0x80000000 0xFFFFFFFF [0 0] => 0x10004 12 0x5A5A5A5A [0 0]; // beq x10, x11, -8
    0x00B50463: 0x7FFFFFFF 0x7FFFFFFE [0 0] => 0x10004 12 0x5A5A5A5A [0 0]; // beq x10, x11, 8
    0xFEB50CE3: 0x80000001 1 [0 0] => 0x10004 12 0x5A5A5A5A [0 0]; // beq x10, x11, -8
    0x80B50063: 5 5 [0 0] => 0xF000 12 0x5A5A5A5A [0 0]; // beq x10, x11, -4096
    0x7EB50EE3: 5 5 [0 0] => 0x10FFC 12 0x5A5A5A5A [0 0]; // beq x10, x11, 4092
    0xFEB50EE3: 5 5 [0 0] => 0xFFFC 12 0x5A5A5A5A [0 0]; // beq x10, x11, -4
    0x00B500E3: 5 5 [0 0] => 0x10800 12 0x5A5A5A5A [0 0]; // beq x10, x11, 2048
    0x80B50063: 3 4 [0 0] => 0x10004 12 0x5A5A5A5A [0 0]; // beq x10, x11, -4096
    0x7EB50FE3: 3 4 [0 0] => 0x10004 12 0x5A5A5A5A [0 0]; // beq x10, x11, 4094
    0x00B50263: 3 4 [0 0] => 0x10004 12 0x5A5A5A5A [0 0]; // beq x10, x11, 4
    0x00B50163: 3 4 [0 0] => 0x10004 12 0x5A5A5A5A [0 0]; // beq x10, x11, 2
    0x00A50863: 9 0 [0 0] => 0x10010 12 0x5A5A5A5A [0 0]; // beq x10, x10, 16
    0x00A00863: 0x80000000 0 [0 0] => 0x10004 12 0x5A5A5A5A [0 0]; // beq x0, x10, 16
    // BNE
    0x00B51463: 0 0 [0 0] => 0x10004 12 0x5A5A5A5A [0 0]; // bne x10, x11, 8
    0xFEB51CE3: 0 1 [0 0] => 0xFFF8 12 0x5A5A5A5A [0 0]; // bne x10, x11, -8
    0x00B51463: 1 0 [0 0] => 0x10008 12 0x5A5A5A5A [0 0]; // bne x10, x11, 8
    0xFEB51CE3: 0xFFFFFFFF 0 [0 0] => 0xFFF8 12 0x5A5A5A5A [0 0]; // bne x10, x11, -8
    0x00B51463: 0 0xFFFFFFFF [0 0] => 0x10008 12 0x5A5A5A5A [0 0]; // bne x10, x11, 8
    0xFEB51CE3: 0xFFFFFFFF 0xFFFFFFFF [0 0] => 0x10004 12 0x5A5A5A5A [0 0]; // bne x10, x11, -8
    0x00B51463: 0x80000000 0x7FFFFFFF [0 0] => 0x10008 12 0x5A5A5A5A [0 0]; // bne x10, x11, 8
    0xFEB51CE3: 0x7FFFFFFF 0x80000000 [0 0] => 0xFFF8 12 0x5A5A5A5A [0 0]; // bne x10, x11, -8
    0x00B51463: 0x80000000 0x80000000 [0 0] => 0x10004 12 0x5A5A5A5A [0 0]; // bne x10, x11, 8
    0xFEB51CE3: 0x80000000 0xFFFFFFFF [0 0] => 0xFFF8 12 0x5A5A5A5A [0 0]; // bne x10, x11, -8
    0x00B51463: 0x7FFFFFFF 0x7FFFFFFE [0 0] => 0x10008 12 0x5A5A5A5A [0 0]; // bne x10, x11, 8
    0xFEB51CE3: 0x80000001 1 [0 0] => 0xFFF8 12 0x5A5A5A5A [0 0]; // bne x10, x11, -8
    0x80B51063: 3 4 [0 0] => 0xF000 12 0x5A5A5A5A [0 0]; // bne x10, x11, -4096
    0x7EB51EE3: 3 4 [0 0] => 0x10FFC 12 0x5A5A5A5A [0 0]; // bne x10, x11, 4092
    0xFEB51EE3: 3 4 [0 0] => 0xFFFC 12 0x5A5A5A5A [0 0]; // bne x10, x11, -4
    0x00B510E3: 3 4 [0 0] => 0x10800 12 0x5A5A5A5A [0 0]; // bne x10, x11, 2048
    0x80B51063: 5 5 [0 0] => 0x10004 12 0x5A5A5A5A [0 0]; // bne x10, x11, -4096
    0x7EB51FE3: 5 5 [0 0] => 0x10004 12 0x5A5A5A5A [0 0]; // bne x10, x11, 4094
    0x00B51263: 5 5 [0 0] => 0x10004 12 0x5A5A5A5A [0 0]; // bne x10, x11, 4
    0x00B51163: 5 5 [0 0] => 0x10004 12 0x5A5A5A5A [0 0]; // bne x10, x11, 2
    0x00A51863: 9 0 [0 0] => 0x10004 12 0x5A5A5A5A [0 0]; // bne x10, x10, 16
    0x00A01863: 0x80000000 0 [0 0] => 0x10010 12 0x5A5A5A5A [0 0]; // bne x0, x10, 16
    // BLT
    0x00B54463: 0 0 [0 0] => 0x10004 12 0x5A5A5A5A [0 0]; // blt x10, x11, 8
    0xFEB54CE3: 0 1 [0 0] => 0xFFF8 12 0x5A5A5A5A [0 0]; // blt x10, x11, -8
    0x00B54463: 1 0 [0 0] => 0x10004 12 0x5A5A5A5A [0 0]; // blt x10, x11, 8
    0xFEB54CE3: 0xFFFFFFFF 0 [0 0] => 0xFFF8 12 0x5A5A5A5A [0 0]; // blt x10, x11, -8
    0x00B54463: 0 0xFFFFFFFF [0 0] => 0x10004 12 0x5A5A5A5A [0 0]; // blt x10, x11, 8
    0xFEB54CE3: 0xFFFFFFFF 0xFFFFFFFF [0 0] => 0x10004 12 0x5A5A5A5A [0 0]; // blt x10, x11, -8
    0x00B54463: 0x80000000 0x7FFFFFFF [0 0] => 0x10008 12 0x5A5A5A5A [0 0]; // blt x10, x11, 8
    0xFEB54CE3: 0x7FFFFFFF 0x80000000 [0 0] => 0x10004 12 0x5A5A5A5A [0 0]; // blt x10, x11, -8
    0x00B54463: 0x80000000 0x80000000 [0 0] => 0x10004 12 0x5A5A5A5A [0 0]; // blt x10, x11, 8
    0xFEB54CE3: 0x80000000 0xFFFFFFFF [0 0] => 0xFFF8 12 0x5A5A5A5A [0 0]; // blt x10, x11, -8
    0x00B54463: 0x7FFFFFFF 0x7FFFFFFE [0 0] => 0x10004 12 0x5A5A5A5A [0 0]; // blt x10, x11, 8
    0xFEB54CE3: 0x80000001 1 [0 0] => 0xFFF8 12 0x5A5A5A5A [0 0]; // blt x10, x11, -8
    0x80B54063: 3 4 [0 0] => 0xF000 12 0x5A5A5A5A [0 0]; // blt x10, x11, -4096
    0x7EB54EE3: 3 4 [0 0] => 0x10FFC 12 0x5A5A5A5A [0 0]; // blt x10, x11, 4092
    0xFEB54EE3: 3 4 [0 0] => 0xFFFC 12 0x5A5A5A5A [0 0]; // blt x10, x11, -4
    0x00B540E3: 3 4 [0 0] => 0x10800 12 0x5A5A5A5A [0 0]; // blt x10, x11, 2048
    0x80B54063: 5 5 [0 0] => 0x10004 12 0x5A5A5A5A [0 0]; // blt x10, x11, -4096
    0x7EB54FE3: 5 5 [0 0] => 0x10004 12 0x5A5A5A5A [0 0]; // blt x10, x11, 4094
    0x00B54263: 5 5 [0 0] => 0x10004 12 0x5A5A5A5A [0 0]; // blt x10, x11, 4
    0x00B54163: 5 5 [0 0] => 0x10004 12 0x5A5A5A5A [0 0]; // blt x10, x11, 2
    0x00A54863: 9 0 [0 0] => 0x10004 12 0x5A5A5A5A [0 0]; // blt x10, x10, 16
    0x00A04863: 0x80000000 0 [0 0] => 0x10004 12 0x5A5A5A5A [0 0]; // blt x0, x10, 16
    // BGE
    0x00B55463: 0 0 [0 0] => 0x10008 12 0x5A5A5A5A [0 0]; // bge x10, x11, 8
    0xFEB55CE3: 0 1 [0 0] => 0x10004 12 0x5A5A5A5A [0 0]; // bge x10, x11, -8
    0x00B55463: 1 0 [0 0] => 0x10008 12 0x5A5A5A5A [0 0]; // bge x10, x11, 8
    0xFEB55CE3: 0xFFFFFFFF 0 [0 0] => 0x10004 12 0x5A5A5A5A [0 0]; // bge x10, x11, -8
    0x00B55463: 0 0xFFFFFFFF [0 0] => 0x10008 12 0x5A5A5A5A [0 0]; // bge x10, x11, 8
    0xFEB55CE3: 0xFFFFFFFF 0xFFFFFFFF [0 0] => 0xFFF8 12 0x5A5A5A5A [0 0]; // bge x10, x11, -8
    0x00B55463: 0x80000000 0x7FFFFFFF [0 0] => 0x10004 12 0x5A5A5A5A [0 0]; // bge x10, x11, 8
    0xFEB55CE3: 0x7FFFFFFF 0x80000000 [0 0] => 0xFFF8 12 0x5A5A5A5A [0 0]; // bge x10, x11, -8
    0x00B55463: 0x80000000 0x80000000 [0 0] => 0x10008 12 0x5A5A5A5A [0 0]; // bge x10, x11, 8
    0xFEB55CE3: 0x80000000 0xFFFFFFFF [0 0] => 0x10004 12 0x5A5A5A5A [0 0]; // bge x10, x11, -8
    0x00B55463: 0x7FFFFFFF 0x7FFFFFFE [0 0] => 0x10008 12 0x5A5A5A5A [0 0]; // bge x10, x11, 8
    0xFEB55CE3: 0x80000001 1 [0 0] => 0x10004 12 0x5A5A5A5A [0 0]; // bge x10, x11, -8
    0x80B55063: 5 5 [0 0] => 0xF000 12 0x5A5A5A5A [0 0]; // bge x10, x11, -4096
    0x7EB55EE3: 5 5 [0 0] => 0x10FFC 12 0x5A5A5A5A [0 0]; // bge x10, x11, 4092
    0xFEB55EE3: 5 5 [0 0] => 0xFFFC 12 0x5A5A5A5A [0 0]; // bge x10, x11, -4
    0x00B550E3: 5 5 [0 0] => 0x10800 12 0x5A5A5A5A [0 0]; // bge x10, x11, 2048
    0x80B55063: 3 4 [0 0] => 0x10004 12 0x5A5A5A5A [0 0]; // bge x10, x11, -4096
    0x7EB55FE3: 3 4 [0 0] => 0x10004 12 0x5A5A5A5A [0 0]; // bge x10, x11, 4094
    0x00B55263: 3 4 [0 0] => 0x10004 12 0x5A5A5A5A [0 0]; // bge x10, x11, 4
    0x00B55163: 3 4 [0 0] => 0x10004 12 0x5A5A5A5A [0 0]; // bge x10, x11, 2
    0x00A55863: 9 0 [0 0] => 0x10010 12 0x5A5A5A5A [0 0]; // bge x10, x10, 16
    0x00A05863: 0x80000000 0 [0 0] => 0x10010 12 0x5A5A5A5A [0 0]; // bge x0, x10, 16
    // BLTU
    0x00B56463: 0 0 [0 0] => 0x10004 12 0x5A5A5A5A [0 0]; // bltu x10, x11, 8
    0xFEB56CE3: 0 1 [0 0] => 0xFFF8 12 0x5A5A5A5A [0 0]; // bltu x10, x11, -8
    0x00B56463: 1 0 [0 0] => 0x10004 12 0x5A5A5A5A [0 0]; // bltu x10, x11, 8
    0xFEB56CE3: 0xFFFFFFFF 0 [0 0] => 0x10004 12 0x5A5A5A5A [0 0]; // bltu x10, x11, -8
    0x00B56463: 0 0xFFFFFFFF [0 0] => 0x10008 12 0x5A5A5A5A [0 0]; // bltu x10, x11, 8
    0xFEB56CE3: 0xFFFFFFFF 0xFFFFFFFF [0 0] => 0x10004 12 0x5A5A5A5A [0 0]; // bltu x10, x11, -8
    0x00B56463: 0x80000000 0x7FFFFFFF [0 0] => 0x10004 12 0x5A5A5A5A [0 0]; // bltu x10, x11, 8
    0xFEB56CE3: 0x7FFFFFFF 0x80000000 [0 0] => 0xFFF8 12 0x5A5A5A5A [0 0]; // bltu x10, x11, -8
    0x00B56463: 0x80000000 0x80000000 [0 0] => 0x10004 12 0x5A5A5A5A [0 0]; // bltu x10, x11, 8
    0xFEB56CE3: 0x80000000 0xFFFFFFFF [0 0] => 0xFFF8 12 0x5A5A5A5A [0 0]; // bltu x10, x11, -8
    0x00B56463: 0x7FFFFFFF 0x7FFFFFFE [0 0] => 0x10004 12 0x5A5A5A5A [0 0]; // bltu x10, x11, 8
    0xFEB56CE3: 0x80000001 1 [0 0] => 0x10004 12 0x5A5A5A5A [0 0]; // bltu x10, x11, -8
    0x80B56063: 3 4 [0 0] => 0xF000 12 0x5A5A5A5A [0 0]; // bltu x10, x11, -4096
    0x7EB56EE3: 3 4 [0 0] => 0x10FFC 12 0x5A5A5A5A [0 0]; // bltu x10, x11, 4092
    0xFEB56EE3: 3 4 [0 0] => 0xFFFC 12 0x5A5A5A5A [0 0]; // bltu x10, x11, -4
    0x00B560E3: 3 4 [0 0] => 0x10800 12 0x5A5A5A5A [0 0]; // bltu x10, x11, 2048
    0x80B56063: 5 5 [0 0] => 0x10004 12 0x5A5A5A5A [0 0]; // bltu x10, x11, -4096
    0x7EB56FE3: 5 5 [0 0] => 0x10004 12 0x5A5A5A5A [0 0]; // bltu x10, x11, 4094
    0x00B56263: 5 5 [0 0] => 0x10004 12 0x5A5A5A5A [0 0]; // bltu x10, x11, 4
    0x00B56163: 5 5 [0 0] => 0x10004 12 0x5A5A5A5A [0 0]; // bltu x10, x11, 2
    0x00A56863: 9 0 [0 0] => 0x10004 12 0x5A5A5A5A [0 0]; // bltu x10, x10, 16
    0x00A06863: 0x80000000 0 [0 0] => 0x10010 12 0x5A5A5A5A [0 0]; // bltu x0, x10, 16
    // BGEU
    0x00B57463: 0 0 [0 0] => 0x10008 12 0x5A5A5A5A [0 0]; // bgeu x10, x11, 8
    0xFEB57CE3: 0 1 [0 0] => 0x10004 12 0x5A5A5A5A [0 0]; // bgeu x10, x11, -8
    0x00B57463: 1 0 [0 0] => 0x10008 12 0x5A5A5A5A [0 0]; // bgeu x10, x11, 8
    0xFEB57CE3: 0xFFFFFFFF 0 [0 0] => 0xFFF8 12 0x5A5A5A5A [0 0]; // bgeu x10, x11, -8
    0x00B57463: 0 0xFFFFFFFF [0 0] => 0x10004 12 0x5A5A5A5A [0 0]; // bgeu x10, x11, 8
    0xFEB57CE3: 0xFFFFFFFF 0xFFFFFFFF [0 0] => 0xFFF8 12 0x5A5A5A5A [0 0]; // bgeu x10, x11, -8
    0x00B57463: 0x80000000 0x7FFFFFFF [0 0] => 0x10008 12 0x5A5A5A5A [0 0]; // bgeu x10, x11, 8
    0xFEB57CE3: 0x7FFFFFFF 0x80000000 [0 0] => 0x10004 12 0x5A5A5A5A [0 0]; // bgeu x10, x11, -8
    0x00B57463: 0x80000000 0x80000000 [0 0] => 0x10008 12 0x5A5A5A5A [0 0]; // bgeu x10, x11, 8
    0xFEB57CE3: 0x80000000 0xFFFFFFFF [0 0] => 0x10004 12 0x5A5A5A5A [0 0]; // bgeu x10, x11, -8
    0x00B57463: 0x7FFFFFFF 0x7FFFFFFE [0 0] => 0x10008 12 0x5A5A5A5A [0 0]; // bgeu x10, x11, 8
    0xFEB57CE3: 0x80000001 1 [0 0] => 0xFFF8 12 0x5A5A5A5A [0 0]; // bgeu x10, x11, -8
    0x80B57063: 5 5 [0 0] => 0xF000 12 0x5A5A5A5A [0 0]; // bgeu x10, x11, -4096
    0x7EB57EE3: 5 5 [0 0] => 0x10FFC 12 0x5A5A5A5A [0 0]; // bgeu x10, x11, 4092
    0xFEB57EE3: 5 5 [0 0] => 0xFFFC 12 0x5A5A5A5A [0 0]; // bgeu x10, x11, -4
    0x00B570E3: 5 5 [0 0] => 0x10800 12 0x5A5A5A5A [0 0]; // bgeu x10, x11, 2048
    0x80B57063: 3 4 [0 0] => 0x10004 12 0x5A5A5A5A [0 0]; // bgeu x10, x11, -4096
    0x7EB57FE3: 3 4 [0 0] => 0x10004 12 0x5A5A5A5A [0 0]; // bgeu x10, x11, 4094
    0x00B57263: 3 4 [0 0] => 0x10004 12 0x5A5A5A5A [0 0]; // bgeu x10, x11, 4
    0x00B57163: 3 4 [0 0] => 0x10004 12 0x5A5A5A5A [0 0]; // bgeu x10, x11, 2
    0x00A57863: 9 0 [0 0] => 0x10010 12 0x5A5A5A5A [0 0]; // bgeu x10, x10, 16
    0x00A07863: 0x80000000 0 [0 0] => 0x10004 12 0x5A5A5A5A [0 0]; // bgeu x0, x10, 16
    // LB
    0x00050603: 0x10100 0 [0x00FF807F 0x01FE7F80] => 0x10004 12 0x7F [0x00FF807F 0x01FE7F80]; // lb x12, 0(x10)
    0x00150603: 0x10100 0 [0x00FF807F 0x01FE7F80] => 0x10004 12 0xFFFFFF80 [0x00FF807F 0x01FE7F80]; // lb x12, 1(x10)
    0x00250603: 0x10100 0 [0x00FF807F 0x01FE7F80] => 0x10004 12 0xFFFFFFFF [0x00FF807F 0x01FE7F80]; // lb x12, 2(x10)
    0x00350603: 0x10100 0 [0x00FF807F 0x01FE7F80] => 0x10004 12 0 [0x00FF807F 0x01FE7F80]; // lb x12, 3(x10)
    0x00450603: 0x10100 0 [0x00FF807F 0x01FE7F80] => 0x10004 12 0xFFFFFF80 [0x00FF807F 0x01FE7F80]; // lb x12, 4(x10)
    0x00550603: 0x10100 0 [0x00FF807F 0x01FE7F80] => 0x10004 12 0x7F [0x00FF807F 0x01FE7F80]; // lb x12, 5(x10)
    0x00650603: 0x10100 0 [0x00FF807F 0x01FE7F80] => 0x10004 12 0xFFFFFFFE [0x00FF807F 0x01FE7F80]; // lb x12, 6(x10)
    0x00750603: 0x10100 0 [0x00FF807F 0x01FE7F80] => 0x10004 12 1 [0x00FF807F 0x01FE7F80]; // lb x12, 7(x10)
    0xFFF50603: 0x10101 0 [0x00FF807F 0x01FE7F80] => 0x10004 12 0x7F [0x00FF807F 0x01FE7F80]; // lb x12, -1(x10)
    0x80050603: 0x10900 0 [0x00FF807F 0x01FE7F80] => 0x10004 12 0x7F [0x00FF807F 0x01FE7F80]; // lb x12, -2048(x10)
    0x7FF50603: 0xF901 0 [0x00FF807F 0x01FE7F80] => 0x10004 12 0x7F [0x00FF807F 0x01FE7F80]; // lb x12, 2047(x10)
    0x80050603: 0x10901 0 [0x00FF807F 0x01FE7F80] => 0x10004 12 0xFFFFFF80 [0x00FF807F 0x01FE7F80]; // lb x12, -2048(x10)
    0x00050003: 0x10100 0 [0x00FF807F 0x01FE7F80] => 0x10004 0 0 [0x00FF807F 0x01FE7F80]; // lb x0, 0(x10)
    0x00150503: 0x10100 0 [0x00FF807F 0x01FE7F80] => 0x10004 10 0xFFFFFF80 [0x00FF807F 0x01FE7F80]; // lb x10, 1(x10)
    0x00058603: 0 0x10102 [0x00FF807F 0x01FE7F80] => 0x10004 12 0xFFFFFFFF [0x00FF807F 0x01FE7F80]; // lb x12, 0(x11)
    // LH
    0x00051603: 0x10100 0 [0x00FF807F 0x01FE7F80] => 0x10004 12 0xFFFF807F [0x00FF807F 0x01FE7F80]; // lh x12, 0(x10)
    0x00151603: 0x10100 0 [0x00FF807F 0x01FE7F80] => 0x10004 12 0xFFFFFF80 [0x00FF807F 0x01FE7F80]; // lh x12, 1(x10)
    0x00251603: 0x10100 0 [0x00FF807F 0x01FE7F80] => 0x10004 12 0xFF [0x00FF807F 0x01FE7F80]; // lh x12, 2(x10)
    0x00351603: 0x10100 0 [0x00FF807F 0x01FE7F80] => 0x10004 12 0xFFFF8000 [0x00FF807F 0x01FE7F80]; // lh x12, 3(x10)
    0x00451603: 0x10100 0 [0x00FF807F 0x01FE7F80] => 0x10004 12 0x7F80 [0x00FF807F 0x01FE7F80]; // lh x12, 4(x10)
    0x00551603: 0x10100 0 [0x00FF807F 0x01FE7F80] => 0x10004 12 0xFFFFFE7F [0x00FF807F 0x01FE7F80]; // lh x12, 5(x10)
    0x00651603: 0x10100 0 [0x00FF807F 0x01FE7F80] => 0x10004 12 0x1FE [0x00FF807F 0x01FE7F80]; // lh x12, 6(x10)
    0xFFF51603: 0x10101 0 [0x00FF807F 0x01FE7F80] => 0x10004 12 0xFFFF807F [0x00FF807F 0x01FE7F80]; // lh x12, -1(x10)
    0x80051603: 0x10900 0 [0x00FF807F 0x01FE7F80] => 0x10004 12 0xFFFF807F [0x00FF807F 0x01FE7F80]; // lh x12, -2048(x10)
    0x7FF51603: 0xF901 0 [0x00FF807F 0x01FE7F80] => 0x10004 12 0xFFFF807F [0x00FF807F 0x01FE7F80]; // lh x12, 2047(x10)
    0x80051603: 0x10901 0 [0x00FF807F 0x01FE7F80] => 0x10004 12 0xFFFFFF80 [0x00FF807F 0x01FE7F80]; // lh x12, -2048(x10)
    0x00051003: 0x10100 0 [0x00FF807F 0x01FE7F80] => 0x10004 0 0 [0x00FF807F 0x01FE7F80]; // lh x0, 0(x10)
    0x00151503: 0x10100 0 [0x00FF807F 0x01FE7F80] => 0x10004 10 0xFFFFFF80 [0x00FF807F 0x01FE7F80]; // lh x10, 1(x10)
    0x00059603: 0 0x10102 [0x00FF807F 0x01FE7F80] => 0x10004 12 0xFF [0x00FF807F 0x01FE7F80]; // lh x12, 0(x11)
    // LW
    0x00052603: 0x10100 0 [0x00FF807F 0x01FE7F80] => 0x10004 12 0x00FF807F [0x00FF807F 0x01FE7F80]; // lw x12, 0(x10)
    0x00152603: 0x10100 0 [0x00FF807F 0x01FE7F80] => 0x10004 12 0x8000FF80 [0x00FF807F 0x01FE7F80]; // lw x12, 1(x10)
    0x00252603: 0x10100 0 [0x00FF807F 0x01FE7F80] => 0x10004 12 0x7F8000FF [0x00FF807F 0x01FE7F80]; // lw x12, 2(x10)
    0x00352603: 0x10100 0 [0x00FF807F 0x01FE7F80] => 0x10004 12 0xFE7F8000 [0x00FF807F 0x01FE7F80]; // lw x12, 3(x10)
    0x00452603: 0x10100 0 [0x00FF807F 0x01FE7F80] => 0x10004 12 0x01FE7F80 [0x00FF807F 0x01FE7F80]; // lw x12, 4(x10)
    0xFFF52603: 0x10101 0 [0x00FF807F 0x01FE7F80] => 0x10004 12 0x00FF807F [0x00FF807F 0x01FE7F80]; // lw x12, -1(x10)
    0x80052603: 0x10900 0 [0x00FF807F 0x01FE7F80] => 0x10004 12 0x00FF807F [0x00FF807F 0x01FE7F80]; // lw x12, -2048(x10)
    0x7FF52603: 0xF901 0 [0x00FF807F 0x01FE7F80] => 0x10004 12 0x00FF807F [0x00FF807F 0x01FE7F80]; // lw x12, 2047(x10)
    0x80052603: 0x10901 0 [0x00FF807F 0x01FE7F80] => 0x10004 12 0x8000FF80 [0x00FF807F 0x01FE7F80]; // lw x12, -2048(x10)
    0x00052003: 0x10100 0 [0x00FF807F 0x01FE7F80] => 0x10004 0 0 [0x00FF807F 0x01FE7F80]; // lw x0, 0(x10)
    0x00152503: 0x10100 0 [0x00FF807F 0x01FE7F80] => 0x10004 10 0x8000FF80 [0x00FF807F 0x01FE7F80]; // lw x10, 1(x10)
    0x0005A603: 0 0x10102 [0x00FF807F 0x01FE7F80] => 0x10004 12 0x7F8000FF [0x00FF807F 0x01FE7F80]; // lw x12, 0(x11)
    // LBU
    0x00054603: 0x10100 0 [0x00FF807F 0x01FE7F80] => 0x10004 12 0x7F [0x00FF807F 0x01FE7F80]; // lbu x12, 0(x10)
    0x00154603: 0x10100 0 [0x00FF807F 0x01FE7F80] => 0x10004 12 0x80 [0x00FF807F 0x01FE7F80]; // lbu x12, 1(x10)
    0x00254603: 0x10100 0 [0x00FF807F 0x01FE7F80] => 0x10004 12 0xFF [0x00FF807F 0x01FE7F80]; // lbu x12, 2(x10)
    0x00354603: 0x10100 0 [0x00FF807F 0x01FE7F80] => 0x10004 12 0 [0x00FF807F 0x01FE7F80]; // lbu x12, 3(x10)
    0x00454603: 0x10100 0 [0x00FF807F 0x01FE7F80] => 0x10004 12 0x80 [0x00FF807F 0x01FE7F80]; // lbu x12, 4(x10)
    0x00554603: 0x10100 0 [0x00FF807F 0x01FE7F80] => 0x10004 12 0x7F [0x00FF807F 0x01FE7F80]; // lbu x12, 5(x10)
    0x00654603: 0x10100 0 [0x00FF807F 0x01FE7F80] => 0x10004 12 0xFE [0x00FF807F 0x01FE7F80]; // lbu x12, 6(x10)
    0x00754603: 0x10100 0 [0x00FF807F 0x01FE7F80] => 0x10004 12 1 [0x00FF807F 0x01FE7F80]; // lbu x12, 7(x10)
    0xFFF54603: 0x10101 0 [0x00FF807F 0x01FE7F80] => 0x10004 12 0x7F [0x00FF807F 0x01FE7F80]; // lbu x12, -1(x10)
    0x80054603: 0x10900 0 [0x00FF807F 0x01FE7F80] => 0x10004 12 0x7F [0x00FF807F 0x01FE7F80]; // lbu x12, -2048(x10)
    0x7FF54603: 0xF901 0 [0x00FF807F 0x01FE7F80] => 0x10004 12 0x7F [0x00FF807F 0x01FE7F80]; // lbu x12, 2047(x10)
    0x80054603: 0x10901 0 [0x00FF807F 0x01FE7F80] => 0x10004 12 0x80 [0x00FF807F 0x01FE7F80]; // lbu x12, -2048(x10)
    0x00054003: 0x10100 0 [0x00FF807F 0x01FE7F80] => 0x10004 0 0 [0x00FF807F 0x01FE7F80]; // lbu x0, 0(x10)
    0x00154503: 0x10100 0 [0x00FF807F 0x01FE7F80] => 0x10004 10 0x80 [0x00FF807F 0x01FE7F80]; // lbu x10, 1(x10)
    0x0005C603: 0 0x10102 [0x00FF807F 0x01FE7F80] => 0x10004 12 0xFF [0x00FF807F 0x01FE7F80]; // lbu x12, 0(x11)
    // LHU
    0x00055603: 0x10100 0 [0x00FF807F 0x01FE7F80] => 0x10004 12 0x807F [0x00FF807F 0x01FE7F80]; // lhu x12, 0(x10)
    0x00155603: 0x10100 0 [0x00FF807F 0x01FE7F80] => 0x10004 12 0xFF80 [0x00FF807F 0x01FE7F80]; // lhu x12, 1(x10)
    0x00255603: 0x10100 0 [0x00FF807F 0x01FE7F80] => 0x10004 12 0xFF [0x00FF807F 0x01FE7F80]; // lhu x12, 2(x10)
    0x00355603: 0x10100 0 [0x00FF807F 0x01FE7F80] => 0x10004 12 0x8000 [0x00FF807F 0x01FE7F80]; // lhu x12, 3(x10)
    0x00455603: 0x10100 0 [0x00FF807F 0x01FE7F80] => 0x10004 12 0x7F80 [0x00FF807F 0x01FE7F80]; // lhu x12, 4(x10)
    0x00555603: 0x10100 0 [0x00FF807F 0x01FE7F80] => 0x10004 12 0xFE7F [0x00FF807F 0x01FE7F80]; // lhu x12, 5(x10)
    0x00655603: 0x10100 0 [0x00FF807F 0x01FE7F80] => 0x10004 12 0x1FE [0x00FF807F 0x01FE7F80]; // lhu x12, 6(x10)
    0xFFF55603: 0x10101 0 [0x00FF807F 0x01FE7F80] => 0x10004 12 0x807F [0x00FF807F 0x01FE7F80]; // lhu x12, -1(x10)
    0x80055603: 0x10900 0 [0x00FF807F 0x01FE7F80] => 0x10004 12 0x807F [0x00FF807F 0x01FE7F80]; // lhu x12, -2048(x10)
    0x7FF55603: 0xF901 0 [0x00FF807F 0x01FE7F80] => 0x10004 12 0x807F [0x00FF807F 0x01FE7F80]; // lhu x12, 2047(x10)
    0x80055603: 0x10901 0 [0x00FF807F 0x01FE7F80] => 0x10004 12 0xFF80 [0x00FF807F 0x01FE7F80]; // lhu x12, -2048(x10)
    0x00055003: 0x10100 0 [0x00FF807F 0x01FE7F80] => 0x10004 0 0 [0x00FF807F 0x01FE7F80]; // lhu x0, 0(x10)
    0x00155503: 0x10100 0 [0x00FF807F 0x01FE7F80] => 0x10004 10 0xFF80 [0x00FF807F 0x01FE7F80]; // lhu x10, 1(x10)
    0x0005D603: 0 0x10102 [0x00FF807F 0x01FE7F80] => 0x10004 12 0xFF [0x00FF807F 0x01FE7F80]; // lhu x12, 0(x11)
    // SB
    0x00B50023: 0x10100 0x89ABCDEF [0x33221100 0x77665544] => 0x10004 12 0x5A5A5A5A [0x332211EF 0x77665544]; // sb x11, 0(x10)
    0x00B500A3: 0x10100 0x89ABCDEF [0x33221100 0x77665544] => 0x10004 12 0x5A5A5A5A [0x3322EF00 0x77665544]; // sb x11, 1(x10)
    0x00B50123: 0x10100 0x89ABCDEF [0x33221100 0x77665544] => 0x10004 12 0x5A5A5A5A [0x33EF1100 0x77665544]; // sb x11, 2(x10)
    0x00B501A3: 0x10100 0x89ABCDEF [0x33221100 0x77665544] => 0x10004 12 0x5A5A5A5A [0xEF221100 0x77665544]; // sb x11, 3(x10)
    0x00B50223: 0x10100 0x89ABCDEF [0x33221100 0x77665544] => 0x10004 12 0x5A5A5A5A [0x33221100 0x776655EF]; // sb x11, 4(x10)
    0x00B502A3: 0x10100 0x89ABCDEF [0x33221100 0x77665544] => 0x10004 12 0x5A5A5A5A [0x33221100 0x7766EF44]; // sb x11, 5(x10)
    0x00B50323: 0x10100 0x89ABCDEF [0x33221100 0x77665544] => 0x10004 12 0x5A5A5A5A [0x33221100 0x77EF5544]; // sb x11, 6(x10)
    0x00B503A3: 0x10100 0x89ABCDEF [0x33221100 0x77665544] => 0x10004 12 0x5A5A5A5A [0x33221100 0xEF665544]; // sb x11, 7(x10)
    0xFEB50FA3: 0x10101 0x89ABCDEF [0x33221100 0x77665544] => 0x10004 12 0x5A5A5A5A [0x332211EF 0x77665544]; // sb x11, -1(x10)
    0x80B50023: 0x10900 0x89ABCDEF [0x33221100 0x77665544] => 0x10004 12 0x5A5A5A5A [0x332211EF 0x77665544]; // sb x11, -2048(x10)
    0x7EB50FA3: 0xF901 0x89ABCDEF [0x33221100 0x77665544] => 0x10004 12 0x5A5A5A5A [0x332211EF 0x77665544]; // sb x11, 2047(x10)
    0x00B50FA3: 0x100E2 0x89ABCDEF [0x33221100 0x77665544] => 0x10004 12 0x5A5A5A5A [0x3322EF00 0x77665544]; // sb x11, 31(x10)
    0xFEB50023: 0x10120 0x89ABCDEF [0x33221100 0x77665544] => 0x10004 12 0x5A5A5A5A [0x332211EF 0x77665544]; // sb x11, -32(x10)
    0x00050023: 0x10100 0x89ABCDEF [0x33221100 0x77665544] => 0x10004 12 0x5A5A5A5A [0x33221100 0x77665544]; // sb x0, 0(x10)
    0x00A500A3: 0x10100 0x89ABCDEF [0x33221100 0x77665544] => 0x10004 12 0x5A5A5A5A [0x33220000 0x77665544]; // sb x10, 1(x10)
    0x00A58023: 0x89ABCDEF 0x10102 [0x33221100 0x77665544] => 0x10004 12 0x5A5A5A5A [0x33EF1100 0x77665544]; // sb x10, 0(x11)
    // SH
    0x00B51023: 0x10100 0x89ABCDEF [0x33221100 0x77665544] => 0x10004 12 0x5A5A5A5A [0x3322CDEF 0x77665544]; // sh x11, 0(x10)
    0x00B510A3: 0x10100 0x89ABCDEF [0x33221100 0x77665544] => 0x10004 12 0x5A5A5A5A [0x33CDEF00 0x77665544]; // sh x11, 1(x10)
    0x00B51123: 0x10100 0x89ABCDEF [0x33221100 0x77665544] => 0x10004 12 0x5A5A5A5A [0xCDEF1100 0x77665544]; // sh x11, 2(x10)
    0x00B511A3: 0x10100 0x89ABCDEF [0x33221100 0x77665544] => 0x10004 12 0x5A5A5A5A [0xEF221100 0x776655CD]; // sh x11, 3(x10)
    0x00B51223: 0x10100 0x89ABCDEF [0x33221100 0x77665544] => 0x10004 12 0x5A5A5A5A [0x33221100 0x7766CDEF]; // sh x11, 4(x10)
    0x00B512A3: 0x10100 0x89ABCDEF [0x33221100 0x77665544] => 0x10004 12 0x5A5A5A5A [0x33221100 0x77CDEF44]; // sh x11, 5(x10)
    0x00B51323: 0x10100 0x89ABCDEF [0x33221100 0x77665544] => 0x10004 12 0x5A5A5A5A [0x33221100 0xCDEF5544]; // sh x11, 6(x10)
    0xFEB51FA3: 0x10101 0x89ABCDEF [0x33221100 0x77665544] => 0x10004 12 0x5A5A5A5A [0x3322CDEF 0x77665544]; // sh x11, -1(x10)
    0x80B51023: 0x10900 0x89ABCDEF [0x33221100 0x77665544] => 0x10004 12 0x5A5A5A5A [0x3322CDEF 0x77665544]; // sh x11, -2048(x10)
    0x7EB51FA3: 0xF901 0x89ABCDEF [0x33221100 0x77665544] => 0x10004 12 0x5A5A5A5A [0x3322CDEF 0x77665544]; // sh x11, 2047(x10)
    0x00B51FA3: 0x100E2 0x89ABCDEF [0x33221100 0x77665544] => 0x10004 12 0x5A5A5A5A [0x33CDEF00 0x77665544]; // sh x11, 31(x10)
    0xFEB51023: 0x10120 0x89ABCDEF [0x33221100 0x77665544] => 0x10004 12 0x5A5A5A5A [0x3322CDEF 0x77665544]; // sh x11, -32(x10)
    0x00051023: 0x10100 0x89ABCDEF [0x33221100 0x77665544] => 0x10004 12 0x5A5A5A5A [0x33220000 0x77665544]; // sh x0, 0(x10)
    0x00A510A3: 0x10100 0x89ABCDEF [0x33221100 0x77665544] => 0x10004 12 0x5A5A5A5A [0x33010000 0x77665544]; // sh x10, 1(x10)
    0x00A59023: 0x89ABCDEF 0x10102 [0x33221100 0x77665544] => 0x10004 12 0x5A5A5A5A [0xCDEF1100 0x77665544]; // sh x10, 0(x11)
    // SW
    0x00B52023: 0x10100 0x89ABCDEF [0x33221100 0x77665544] => 0x10004 12 0x5A5A5A5A [0x89ABCDEF 0x77665544]; // sw x11, 0(x10)
    0x00B520A3: 0x10100 0x89ABCDEF [0x33221100 0x77665544] => 0x10004 12 0x5A5A5A5A [0xABCDEF00 0x77665589]; // sw x11, 1(x10)
    0x00B52123: 0x10100 0x89ABCDEF [0x33221100 0x77665544] => 0x10004 12 0x5A5A5A5A [0xCDEF1100 0x776689AB]; // sw x11, 2(x10)
    0x00B521A3: 0x10100 0x89ABCDEF [0x33221100 0x77665544] => 0x10004 12 0x5A5A5A5A [0xEF221100 0x7789ABCD]; // sw x11, 3(x10)
    0x00B52223: 0x10100 0x89ABCDEF [0x33221100 0x77665544] => 0x10004 12 0x5A5A5A5A [0x33221100 0x89ABCDEF]; // sw x11, 4(x10)
    0xFEB52FA3: 0x10101 0x89ABCDEF [0x33221100 0x77665544] => 0x10004 12 0x5A5A5A5A [0x89ABCDEF 0x77665544]; // sw x11, -1(x10)
    0x80B52023: 0x10900 0x89ABCDEF [0x33221100 0x77665544] => 0x10004 12 0x5A5A5A5A [0x89ABCDEF 0x77665544]; // sw x11, -2048(x10)
    0x7EB52FA3: 0xF901 0x89ABCDEF [0x33221100 0x77665544] => 0x10004 12 0x5A5A5A5A [0x89ABCDEF 0x77665544]; // sw x11, 2047(x10)
    0x00B52FA3: 0x100E2 0x89ABCDEF [0x33221100 0x77665544] => 0x10004 12 0x5A5A5A5A [0xABCDEF00 0x77665589]; // sw x11, 31(x10)
    0xFEB52023: 0x10120 0x89ABCDEF [0x33221100 0x77665544] => 0x10004 12 0x5A5A5A5A [0x89ABCDEF 0x77665544]; // sw x11, -32(x10)
    0x00052023: 0x10100 0x89ABCDEF [0x33221100 0x77665544] => 0x10004 12 0x5A5A5A5A [0 0x77665544]; // sw x0, 0(x10)
    0x00A520A3: 0x10100 0x89ABCDEF [0x33221100 0x77665544] => 0x10004 12 0x5A5A5A5A [0x01010000 0x77665500]; // sw x10, 1(x10)
    0x00A5A023: 0x89ABCDEF 0x10102 [0x33221100 0x77665544] => 0x10004 12 0x5A5A5A5A [0xCDEF1100 0x776689AB]; // sw x10, 0(x11)
    // ADDI
    0x00050613: 0 0 [0 0] => 0x10004 12 0 [0 0]; // addi x12, x10, 0
    0x00150613: 0 0 [0 0] => 0x10004 12 1 [0 0]; // addi x12, x10, 1
    0xFFF50613: 0 0 [0 0] => 0x10004 12 0xFFFFFFFF [0 0]; // addi x12, x10, -1
    0x00150613: 0xFFFFFFFF 0 [0 0] => 0x10004 12 0 [0 0]; // addi x12, x10, 1
    0xFFF50613: 0xFFFFFFFF 0 [0 0] => 0x10004 12 0xFFFFFFFE [0 0]; // addi x12, x10, -1
    0x00150613: 0x7FFFFFFF 0 [0 0] => 0x10004 12 0x80000000 [0 0]; // addi x12, x10, 1
    0xFFF50613: 0x7FFFFFFF 0 [0 0] => 0x10004 12 0x7FFFFFFE [0 0]; // addi x12, x10, -1
    0xFFF50613: 0x80000000 0 [0 0] => 0x10004 12 0x7FFFFFFF [0 0]; // addi x12, x10, -1
    0x00050613: 0x80000000 0 [0 0] => 0x10004 12 0x80000000 [0 0]; // addi x12, x10, 0
    0x7FF50613: 0 0 [0 0] => 0x10004 12 0x7FF [0 0]; // addi x12, x10, 2047
    0x80050613: 0 0 [0 0] => 0x10004 12 0xFFFFF800 [0 0]; // addi x12, x10, -2048
    0x7FF50613: 0xFFFFFFFF 0 [0 0] => 0x10004 12 0x7FE [0 0]; // addi x12, x10, 2047
    0x80050613: 0xFFFFF800 0 [0 0] => 0x10004 12 0xFFFFF000 [0 0]; // addi x12, x10, -2048
    0x80050613: 0xFFFFF7FF 0 [0 0] => 0x10004 12 0xFFFFEFFF [0 0]; // addi x12, x10, -2048
    0x7FF50613: 0x7FF 0 [0 0] => 0x10004 12 0xFFE [0 0]; // addi x12, x10, 2047
    0x7FF50613: 0x7FE 0 [0 0] => 0x10004 12 0xFFD [0 0]; // addi x12, x10, 2047
    0xAAA50613: 0x55555555 0 [0 0] => 0x10004 12 0x55554FFF [0 0]; // addi x12, x10, -1366
    0x78950613: 0x12345678 0 [0 0] => 0x10004 12 0x12345E01 [0 0]; // addi x12, x10, 1929
    0x00550013: 3 0 [0 0] => 0x10004 0 0 [0 0]; // addi x0, x10, 5
    0xFF950513: 5 0 [0 0] => 0x10004 10 0xFFFFFFFE [0 0]; // addi x10, x10, -7
    0xFFB00613: 3 0 [0 0] => 0x10004 12 0xFFFFFFFB [0 0]; // addi x12, x0, -5
    // SLTI
    0x00052613: 0 0 [0 0] => 0x10004 12 0 [0 0]; // slti x12, x10, 0
    0x00152613: 0 0 [0 0] => 0x10004 12 1 [0 0]; // slti x12, x10, 1
    0xFFF52613: 0 0 [0 0] => 0x10004 12 0 [0 0]; // slti x12, x10, -1
    0x00152613: 0xFFFFFFFF 0 [0 0] => 0x10004 12 1 [0 0]; // slti x12, x10, 1
    0xFFF52613: 0xFFFFFFFF 0 [0 0] => 0x10004 12 0 [0 0]; // slti x12, x10, -1
    0x00152613: 0x7FFFFFFF 0 [0 0] => 0x10004 12 0 [0 0]; // slti x12, x10, 1
    0xFFF52613: 0x7FFFFFFF 0 [0 0] => 0x10004 12 0 [0 0]; // slti x12, x10, -1
    0xFFF52613: 0x80000000 0 [0 0] => 0x10004 12 1 [0 0]; // slti x12, x10, -1
    0x00052613: 0x80000000 0 [0 0] => 0x10004 12 1 [0 0]; // slti x12, x10, 0
    0x7FF52613: 0 0 [0 0] => 0x10004 12 1 [0 0]; // slti x12, x10, 2047
    0x80052613: 0 0 [0 0] => 0x10004 12 0 [0 0]; // slti x12, x10, -2048
    0x7FF52613: 0xFFFFFFFF 0 [0 0] => 0x10004 12 1 [0 0]; // slti x12, x10, 2047
    0x80052613: 0xFFFFF800 0 [0 0] => 0x10004 12 0 [0 0]; // slti x12, x10, -2048
    0x80052613: 0xFFFFF7FF 0 [0 0] => 0x10004 12 1 [0 0]; // slti x12, x10, -2048
    0x7FF52613: 0x7FF 0 [0 0] => 0x10004 12 0 [0 0]; // slti x12, x10, 2047
    0x7FF52613: 0x7FE 0 [0 0] => 0x10004 12 1 [0 0]; // slti x12, x10, 2047
    0xAAA52613: 0x55555555 0 [0 0] => 0x10004 12 0 [0 0]; // slti x12, x10, -1366
    0x78952613: 0x12345678 0 [0 0] => 0x10004 12 0 [0 0]; // slti x12, x10, 1929
    0x00552013: 3 0 [0 0] => 0x10004 0 0 [0 0]; // slti x0, x10, 5
    0xFF952513: 5 0 [0 0] => 0x10004 10 0 [0 0]; // slti x10, x10, -7
    0xFFB02613: 3 0 [0 0] => 0x10004 12 0 [0 0]; // slti x12, x0, -5
    // SLTIU
    0x00053613: 0 0 [0 0] => 0x10004 12 0 [0 0]; // sltiu x12, x10, 0
    0x00153613: 0 0 [0 0] => 0x10004 12 1 [0 0]; // sltiu x12, x10, 1
    0xFFF53613: 0 0 [0 0] => 0x10004 12 1 [0 0]; // sltiu x12, x10, -1
    0x00153613: 0xFFFFFFFF 0 [0 0] => 0x10004 12 0 [0 0]; // sltiu x12, x10, 1
    0xFFF53613: 0xFFFFFFFF 0 [0 0] => 0x10004 12 0 [0 0]; // sltiu x12, x10, -1
    0x00153613: 0x7FFFFFFF 0 [0 0] => 0x10004 12 0 [0 0]; // sltiu x12, x10, 1
    0xFFF53613: 0x7FFFFFFF 0 [0 0] => 0x10004 12 1 [0 0]; // sltiu x12, x10, -1
    0xFFF53613: 0x80000000 0 [0 0] => 0x10004 12 1 [0 0]; // sltiu x12, x10, -1
    0x00053613: 0x80000000 0 [0 0] => 0x10004 12 0 [0 0]; // sltiu x12, x10, 0
    0x7FF53613: 0 0 [0 0] => 0x10004 12 1 [0 0]; // sltiu x12, x10, 2047
    0x80053613: 0 0 [0 0] => 0x10004 12 1 [0 0]; // sltiu x12, x10, -2048
    0x7FF53613: 0xFFFFFFFF 0 [0 0] => 0x10004 12 0 [0 0]; // sltiu x12, x10, 2047
    0x80053613: 0xFFFFF800 0 [0 0] => 0x10004 12 0 [0 0]; // sltiu x12, x10, -2048
    0x80053613: 0xFFFFF7FF 0 [0 0] => 0x10004 12 1 [0 0]; // sltiu x12, x10, -2048
    0x7FF53613: 0x7FF 0 [0 0] => 0x10004 12 0 [0 0]; // sltiu x12, x10, 2047
    0x7FF53613: 0x7FE 0 [0 0] => 0x10004 12 1 [0 0]; // sltiu x12, x10, 2047
    0xAAA53613: 0x55555555 0 [0 0] => 0x10004 12 1 [0 0]; // sltiu x12, x10, -1366
    0x78953613: 0x12345678 0 [0 0] => 0x10004 12 0 [0 0]; // sltiu x12, x10, 1929
    0x00553013: 3 0 [0 0] => 0x10004 0 0 [0 0]; // sltiu x0, x10, 5
    0xFF953513: 5 0 [0 0] => 0x10004 10 1 [0 0]; // sltiu x10, x10, -7
    0xFFB03613: 3 0 [0 0] => 0x10004 12 1 [0 0]; // sltiu x12, x0, -5
    // XORI
    0x00054613: 0 0 [0 0] => 0x10004 12 0 [0 0]; // xori x12, x10, 0
    0x00154613: 0 0 [0 0] => 0x10004 12 1 [0 0]; // xori x12, x10, 1
    0xFFF54613: 0 0 [0 0] => 0x10004 12 0xFFFFFFFF [0 0]; // xori x12, x10, -1
    0x00154613: 0xFFFFFFFF 0 [0 0] => 0x10004 12 0xFFFFFFFE [0 0]; // xori x12, x10, 1
    0xFFF54613: 0xFFFFFFFF 0 [0 0] => 0x10004 12 0 [0 0]; // xori x12, x10, -1
    0x00154613: 0x7FFFFFFF 0 [0 0] => 0x10004 12 0x7FFFFFFE [0 0]; // xori x12, x10, 1
    0xFFF54613: 0x7FFFFFFF 0 [0 0] => 0x10004 12 0x80000000 [0 0]; // xori x12, x10, -1
    0xFFF54613: 0x80000000 0 [0 0] => 0x10004 12 0x7FFFFFFF [0 0]; // xori x12, x10, -1
    0x00054613: 0x80000000 0 [0 0] => 0x10004 12 0x80000000 [0 0]; // xori x12, x10, 0
    0x7FF54613: 0 0 [0 0] => 0x10004 12 0x7FF [0 0]; // xori x12, x10, 2047
    0x80054613: 0 0 [0 0] => 0x10004 12 0xFFFFF800 [0 0]; // xori x12, x10, -2048
    0x7FF54613: 0xFFFFFFFF 0 [0 0] => 0x10004 12 0xFFFFF800 [0 0]; // xori x12, x10, 2047
    0x80054613: 0xFFFFF800 0 [0 0] => 0x10004 12 0 [0 0]; // xori x12, x10, -2048
    0x80054613: 0xFFFFF7FF 0 [0 0] => 0x10004 12 0xFFF [0 0]; // xori x12, x10, -2048
    0x7FF54613: 0x7FF 0 [0 0] => 0x10004 12 0 [0 0]; // xori x12, x10, 2047
    0x7FF54613: 0x7FE 0 [0 0] => 0x10004 12 1 [0 0]; // xori x12, x10, 2047
    0xAAA54613: 0x55555555 0 [0 0] => 0x10004 12 0xAAAAAFFF [0 0]; // xori x12, x10, -1366
    0x78954613: 0x12345678 0 [0 0] => 0x10004 12 0x123451F1 [0 0]; // xori x12, x10, 1929
    0x00554013: 3 0 [0 0] => 0x10004 0 0 [0 0]; // xori x0, x10, 5
    0xFF954513: 5 0 [0 0] => 0x10004 10 0xFFFFFFFC [0 0]; // xori x10, x10, -7
    0xFFB04613: 3 0 [0 0] => 0x10004 12 0xFFFFFFFB [0 0]; // xori x12, x0, -5
    // ORI
    0x00056613: 0 0 [0 0] => 0x10004 12 0 [0 0]; // ori x12, x10, 0
    0x00156613: 0 0 [0 0] => 0x10004 12 1 [0 0]; // ori x12, x10, 1
    0xFFF56613: 0 0 [0 0] => 0x10004 12 0xFFFFFFFF [0 0]; // ori x12, x10, -1
    0x00156613: 0xFFFFFFFF 0 [0 0] => 0x10004 12 0xFFFFFFFF [0 0]; // ori x12, x10, 1
    0xFFF56613: 0xFFFFFFFF 0 [0 0] => 0x10004 12 0xFFFFFFFF [0 0]; // ori x12, x10, -1
    0x00156613: 0x7FFFFFFF 0 [0 0] => 0x10004 12 0x7FFFFFFF [0 0]; // ori x12, x10, 1
    0xFFF56613: 0x7FFFFFFF 0 [0 0] => 0x10004 12 0xFFFFFFFF [0 0]; // ori x12, x10, -1
    0xFFF56613: 0x80000000 0 [0 0] => 0x10004 12 0xFFFFFFFF [0 0]; // ori x12, x10, -1
    0x00056613: 0x80000000 0 [0 0] => 0x10004 12 0x80000000 [0 0]; // ori x12, x10, 0
    0x7FF56613: 0 0 [0 0] => 0x10004 12 0x7FF [0 0]; // ori x12, x10, 2047
    0x80056613: 0 0 [0 0] => 0x10004 12 0xFFFFF800 [0 0]; // ori x12, x10, -2048
    0x7FF56613: 0xFFFFFFFF 0 [0 0] => 0x10004 12 0xFFFFFFFF [0 0]; // ori x12, x10, 2047
    0x80056613: 0xFFFFF800 0 [0 0] => 0x10004 12 0xFFFFF800 [0 0]; // ori x12, x10, -2048
    0x80056613: 0xFFFFF7FF 0 [0 0] => 0x10004 12 0xFFFFFFFF [0 0]; // ori x12, x10, -2048
    0x7FF56613: 0x7FF 0 [0 0] => 0x10004 12 0x7FF [0 0]; // ori x12, x10, 2047
    0x7FF56613: 0x7FE 0 [0 0] => 0x10004 12 0x7FF [0 0]; // ori x12, x10, 2047
    0xAAA56613: 0x55555555 0 [0 0] => 0x10004 12 0xFFFFFFFF [0 0]; // ori x12, x10, -1366
    0x78956613: 0x12345678 0 [0 0] => 0x10004 12 0x123457F9 [0 0]; // ori x12, x10, 1929
    0x00556013: 3 0 [0 0] => 0x10004 0 0 [0 0]; // ori x0, x10, 5
    0xFF956513: 5 0 [0 0] => 0x10004 10 0xFFFFFFFD [0 0]; // ori x10, x10, -7
    0xFFB06613: 3 0 [0 0] => 0x10004 12 0xFFFFFFFB [0 0]; // ori x12, x0, -5
    // ANDI
    0x00057613: 0 0 [0 0] => 0x10004 12 0 [0 0]; // andi x12, x10, 0
    0x00157613: 0 0 [0 0] => 0x10004 12 0 [0 0]; // andi x12, x10, 1
    0xFFF57613: 0 0 [0 0] => 0x10004 12 0 [0 0]; // andi x12, x10, -1
    0x00157613: 0xFFFFFFFF 0 [0 0] => 0x10004 12 1 [0 0]; // andi x12, x10, 1
    0xFFF57613: 0xFFFFFFFF 0 [0 0] => 0x10004 12 0xFFFFFFFF [0 0]; // andi x12, x10, -1
    0x00157613: 0x7FFFFFFF 0 [0 0] => 0x10004 12 1 [0 0]; // andi x12, x10, 1
    0xFFF57613: 0x7FFFFFFF 0 [0 0] => 0x10004 12 0x7FFFFFFF [0 0]; // andi x12, x10, -1
    0xFFF57613: 0x80000000 0 [0 0] => 0x10004 12 0x80000000 [0 0]; // andi x12, x10, -1
    0x00057613: 0x80000000 0 [0 0] => 0x10004 12 0 [0 0]; // andi x12, x10, 0
    0x7FF57613: 0 0 [0 0] => 0x10004 12 0 [0 0]; // andi x12, x10, 2047
    0x80057613: 0 0 [0 0] => 0x10004 12 0 [0 0]; // andi x12, x10, -2048
    0x7FF57613: 0xFFFFFFFF 0 [0 0] => 0x10004 12 0x7FF [0 0]; // andi x12, x10, 2047
    0x80057613: 0xFFFFF800 0 [0 0] => 0x10004 12 0xFFFFF800 [0 0]; // andi x12, x10, -2048
    0x80057613: 0xFFFFF7FF 0 [0 0] => 0x10004 12 0xFFFFF000 [0 0]; // andi x12, x10, -2048
    0x7FF57613: 0x7FF 0 [0 0] => 0x10004 12 0x7FF [0 0]; // andi x12, x10, 2047
    0x7FF57613: 0x7FE 0 [0 0] => 0x10004 12 0x7FE [0 0]; // andi x12, x10, 2047
    0xAAA57613: 0x55555555 0 [0 0] => 0x10004 12 0x55555000 [0 0]; // andi x12, x10, -1366
    0x78957613: 0x12345678 0 [0 0] => 0x10004 12 0x608 [0 0]; // andi x12, x10, 1929
    0x00557013: 3 0 [0 0] => 0x10004 0 0 [0 0]; // andi x0, x10, 5
    0xFF957513: 5 0 [0 0] => 0x10004 10 1 [0 0]; // andi x10, x10, -7
    0xFFB07613: 3 0 [0 0] => 0x10004 12 0 [0 0]; // andi x12, x0, -5
    // SLLI
    0x00051613: 0x80000001 0 [0 0] => 0x10004 12 0x80000001 [0 0]; // slli x12, x10, 0
    0x00151613: 0x80000001 0 [0 0] => 0x10004 12 2 [0 0]; // slli x12, x10, 1
    0x01F51613: 0x80000001 0 [0 0] => 0x10004 12 0x80000000 [0 0]; // slli x12, x10, 31
    0x00051613: 0x7FFFFFFF 0 [0 0] => 0x10004 12 0x7FFFFFFF [0 0]; // slli x12, x10, 0
    0x00151613: 0x7FFFFFFF 0 [0 0] => 0x10004 12 0xFFFFFFFE [0 0]; // slli x12, x10, 1
    0x01F51613: 0x7FFFFFFF 0 [0 0] => 0x10004 12 0x80000000 [0 0]; // slli x12, x10, 31
    0x01051613: 0xFFFFFFFF 0 [0 0] => 0x10004 12 0xFFFF0000 [0 0]; // slli x12, x10, 16
    0x01F51613: 0xFFFFFFFF 0 [0 0] => 0x10004 12 0x80000000 [0 0]; // slli x12, x10, 31
    0x01F51613: 0 0 [0 0] => 0x10004 12 0 [0 0]; // slli x12, x10, 31
    0x00451613: 0x12345678 0 [0 0] => 0x10004 12 0x23456780 [0 0]; // slli x12, x10, 4
    0x00351013: 0xFFFFFFFF 0 [0 0] => 0x10004 0 0 [0 0]; // slli x0, x10, 3
    0x00351513: 0x87654321 0 [0 0] => 0x10004 10 0x3B2A1908 [0 0]; // slli x10, x10, 3
    // SRLI
    0x00055613: 0x80000001 0 [0 0] => 0x10004 12 0x80000001 [0 0]; // srli x12, x10, 0
    0x00155613: 0x80000001 0 [0 0] => 0x10004 12 0x40000000 [0 0]; // srli x12, x10, 1
    0x01F55613: 0x80000001 0 [0 0] => 0x10004 12 1 [0 0]; // srli x12, x10, 31
    0x00055613: 0x7FFFFFFF 0 [0 0] => 0x10004 12 0x7FFFFFFF [0 0]; // srli x12, x10, 0
    0x00155613: 0x7FFFFFFF 0 [0 0] => 0x10004 12 0x3FFFFFFF [0 0]; // srli x12, x10, 1
    0x01F55613: 0x7FFFFFFF 0 [0 0] => 0x10004 12 0 [0 0]; // srli x12, x10, 31
    0x01055613: 0xFFFFFFFF 0 [0 0] => 0x10004 12 0xFFFF [0 0]; // srli x12, x10, 16
    0x01F55613: 0xFFFFFFFF 0 [0 0] => 0x10004 12 1 [0 0]; // srli x12, x10, 31
    0x01F55613: 0 0 [0 0] => 0x10004 12 0 [0 0]; // srli x12, x10, 31
    0x00455613: 0x12345678 0 [0 0] => 0x10004 12 0x01234567 [0 0]; // srli x12, x10, 4
    0x00355013: 0xFFFFFFFF 0 [0 0] => 0x10004 0 0 [0 0]; // srli x0, x10, 3
    0x00355513: 0x87654321 0 [0 0] => 0x10004 10 0x10ECA864 [0 0]; // srli x10, x10, 3
    // SRAI
    0x40055613: 0x80000001 0 [0 0] => 0x10004 12 0x80000001 [0 0]; // srai x12, x10, 0
    0x40155613: 0x80000001 0 [0 0] => 0x10004 12 0xC0000000 [0 0]; // srai x12, x10, 1
    0x41F55613: 0x80000001 0 [0 0] => 0x10004 12 0xFFFFFFFF [0 0]; // srai x12, x10, 31
    0x40055613: 0x7FFFFFFF 0 [0 0] => 0x10004 12 0x7FFFFFFF [0 0]; // srai x12, x10, 0
    0x40155613: 0x7FFFFFFF 0 [0 0] => 0x10004 12 0x3FFFFFFF [0 0]; // srai x12, x10, 1
    0x41F55613: 0x7FFFFFFF 0 [0 0] => 0x10004 12 0 [0 0]; // srai x12, x10, 31
    0x41055613: 0xFFFFFFFF 0 [0 0] => 0x10004 12 0xFFFFFFFF [0 0]; // srai x12, x10, 16
    0x41F55613: 0xFFFFFFFF 0 [0 0] => 0x10004 12 0xFFFFFFFF [0 0]; // srai x12, x10, 31
    0x41F55613: 0 0 [0 0] => 0x10004 12 0 [0 0]; // srai x12, x10, 31
    0x40455613: 0x12345678 0 [0 0] => 0x10004 12 0x01234567 [0 0]; // srai x12, x10, 4
    0x40355013: 0xFFFFFFFF 0 [0 0] => 0x10004 0 0 [0 0]; // srai x0, x10, 3
    0x40355513: 0x87654321 0 [0 0] => 0x10004 10 0xF0ECA864 [0 0]; // srai x10, x10, 3
    // ADD
    0x00B50633: 0 0 [0 0] => 0x10004 12 0 [0 0]; // add x12, x10, x11
    0x00B50633: 0 1 [0 0] => 0x10004 12 1 [0 0]; // add x12, x10, x11
    0x00B50633: 1 0xFFFFFFFF [0 0] => 0x10004 12 0 [0 0]; // add x12, x10, x11
    0x00B50633: 0xFFFFFFFF 1 [0 0] => 0x10004 12 0 [0 0]; // add x12, x10, x11
    0x00B50633: 0 0xFFFFFFFF [0 0] => 0x10004 12 0xFFFFFFFF [0 0]; // add x12, x10, x11
    0x00B50633: 0xFFFFFFFF 0xFFFFFFFF [0 0] => 0x10004 12 0xFFFFFFFE [0 0]; // add x12, x10, x11
    0x00B50633: 0x7FFFFFFF 1 [0 0] => 0x10004 12 0x80000000 [0 0]; // add x12, x10, x11
    0x00B50633: 0x80000000 0xFFFFFFFF [0 0] => 0x10004 12 0x7FFFFFFF [0 0]; // add x12, x10, x11
    0x00B50633: 0x80000000 0x80000000 [0 0] => 0x10004 12 0 [0 0]; // add x12, x10, x11
    0x00B50633: 0x7FFFFFFF 0x80000000 [0 0] => 0x10004 12 0xFFFFFFFF [0 0]; // add x12, x10, x11
    0x00B50633: 0x80000000 0x7FFFFFFF [0 0] => 0x10004 12 0xFFFFFFFF [0 0]; // add x12, x10, x11
    0x00B50633: 0 0x80000000 [0 0] => 0x10004 12 0x80000000 [0 0]; // add x12, x10, x11
    0x00B50633: 0x7FFFFFFF 0x7FFFFFFF [0 0] => 0x10004 12 0xFFFFFFFE [0 0]; // add x12, x10, x11
    0x00B50633: 0x12345678 0x9ABCDEF0 [0 0] => 0x10004 12 0xACF13568 [0 0]; // add x12, x10, x11
    0x00B50033: 0x87654321 5 [0 0] => 0x10004 0 0 [0 0]; // add x0, x10, x11
    0x00B50533: 0x87654321 5 [0 0] => 0x10004 10 0x87654326 [0 0]; // add x10, x10, x11
    0x00B505B3: 0x87654321 5 [0 0] => 0x10004 11 0x87654326 [0 0]; // add x11, x10, x11
    0x00A58633: 0x87654321 5 [0 0] => 0x10004 12 0x87654326 [0 0]; // add x12, x11, x10
    0x00A50633: 0x87654321 5 [0 0] => 0x10004 12 0x0ECA8642 [0 0]; // add x12, x10, x10
    0x00A00633: 0x87654321 5 [0 0] => 0x10004 12 0x87654321 [0 0]; // add x12, x0, x10
    0x00050633: 0x87654321 5 [0 0] => 0x10004 12 0x87654321 [0 0]; // add x12, x10, x0
    // SUB
    0x40B50633: 0 0 [0 0] => 0x10004 12 0 [0 0]; // sub x12, x10, x11
    0x40B50633: 0 1 [0 0] => 0x10004 12 0xFFFFFFFF [0 0]; // sub x12, x10, x11
    0x40B50633: 1 0xFFFFFFFF [0 0] => 0x10004 12 2 [0 0]; // sub x12, x10, x11
    0x40B50633: 0xFFFFFFFF 1 [0 0] => 0x10004 12 0xFFFFFFFE [0 0]; // sub x12, x10, x11
    0x40B50633: 0 0xFFFFFFFF [0 0] => 0x10004 12 1 [0 0]; // sub x12, x10, x11
    0x40B50633: 0xFFFFFFFF 0xFFFFFFFF [0 0] => 0x10004 12 0 [0 0]; // sub x12, x10, x11
    0x40B50633: 0x7FFFFFFF 1 [0 0] => 0x10004 12 0x7FFFFFFE [0 0]; // sub x12, x10, x11
    0x40B50633: 0x80000000 0xFFFFFFFF [0 0] => 0x10004 12 0x80000001 [0 0]; // sub x12, x10, x11
    0x40B50633: 0x80000000 0x80000000 [0 0] => 0x10004 12 0 [0 0]; // sub x12, x10, x11
    0x40B50633: 0x7FFFFFFF 0x80000000 [0 0] => 0x10004 12 0xFFFFFFFF [0 0]; // sub x12, x10, x11
    0x40B50633: 0x80000000 0x7FFFFFFF [0 0] => 0x10004 12 1 [0 0]; // sub x12, x10, x11
    0x40B50633: 0 0x80000000 [0 0] => 0x10004 12 0x80000000 [0 0]; // sub x12, x10, x11
    0x40B50633: 0x7FFFFFFF 0x7FFFFFFF [0 0] => 0x10004 12 0 [0 0]; // sub x12, x10, x11
    0x40B50633: 0x12345678 0x9ABCDEF0 [0 0] => 0x10004 12 0x77777788 [0 0]; // sub x12, x10, x11
    0x40B50033: 0x87654321 5 [0 0] => 0x10004 0 0 [0 0]; // sub x0, x10, x11
    0x40B50533: 0x87654321 5 [0 0] => 0x10004 10 0x8765431C [0 0]; // sub x10, x10, x11
    0x40B505B3: 0x87654321 5 [0 0] => 0x10004 11 0x8765431C [0 0]; // sub x11, x10, x11
    0x40A58633: 0x87654321 5 [0 0] => 0x10004 12 0x789ABCE4 [0 0]; // sub x12, x11, x10
    0x40A50633: 0x87654321 5 [0 0] => 0x10004 12 0 [0 0]; // sub x12, x10, x10
    0x40A00633: 0x87654321 5 [0 0] => 0x10004 12 0x789ABCDF [0 0]; // sub x12, x0, x10
    0x40050633: 0x87654321 5 [0 0] => 0x10004 12 0x87654321 [0 0]; // sub x12, x10, x0
    // SLL
    0x00B51633: 0x80000001 0 [0 0] => 0x10004 12 0x80000001 [0 0]; // sll x12, x10, x11
    0x00B51633: 0x80000001 1 [0 0] => 0x10004 12 2 [0 0]; // sll x12, x10, x11
    0x00B51633: 0x80000001 0x1F [0 0] => 0x10004 12 0x80000000 [0 0]; // sll x12, x10, x11
    0x00B51633: 0x80000001 0x20 [0 0] => 0x10004 12 0x80000001 [0 0]; // sll x12, x10, x11
    0x00B51633: 0x80000001 0x21 [0 0] => 0x10004 12 2 [0 0]; // sll x12, x10, x11
    0x00B51633: 0x80000001 0xFFFFFFFF [0 0] => 0x10004 12 0x80000000 [0 0]; // sll x12, x10, x11
    0x00B51633: 0x7FFFFFFF 1 [0 0] => 0x10004 12 0xFFFFFFFE [0 0]; // sll x12, x10, x11
    0x00B51633: 0x7FFFFFFF 0x1F [0 0] => 0x10004 12 0x80000000 [0 0]; // sll x12, x10, x11
    0x00B51633: 0xFFFFFFFF 0xFFFFFFE0 [0 0] => 0x10004 12 0xFFFFFFFF [0 0]; // sll x12, x10, x11
    0x00B51633: 0 0x1F [0 0] => 0x10004 12 0 [0 0]; // sll x12, x10, x11
    0x00B51633: 0x12345678 4 [0 0] => 0x10004 12 0x23456780 [0 0]; // sll x12, x10, x11
    0x00B51033: 0x87654321 5 [0 0] => 0x10004 0 0 [0 0]; // sll x0, x10, x11
    0x00B51533: 0x87654321 5 [0 0] => 0x10004 10 0xECA86420 [0 0]; // sll x10, x10, x11
    0x00B515B3: 0x87654321 5 [0 0] => 0x10004 11 0xECA86420 [0 0]; // sll x11, x10, x11
    0x00A59633: 0x87654321 5 [0 0] => 0x10004 12 0xA [0 0]; // sll x12, x11, x10
    0x00A51633: 0x87654321 5 [0 0] => 0x10004 12 0x0ECA8642 [0 0]; // sll x12, x10, x10
    0x00A01633: 0x87654321 5 [0 0] => 0x10004 12 0 [0 0]; // sll x12, x0, x10
    0x00051633: 0x87654321 5 [0 0] => 0x10004 12 0x87654321 [0 0]; // sll x12, x10, x0
    // SLT
    0x00B52633: 0 0 [0 0] => 0x10004 12 0 [0 0]; // slt x12, x10, x11
    0x00B52633: 0 1 [0 0] => 0x10004 12 1 [0 0]; // slt x12, x10, x11
    0x00B52633: 1 0xFFFFFFFF [0 0] => 0x10004 12 0 [0 0]; // slt x12, x10, x11
    0x00B52633: 0xFFFFFFFF 1 [0 0] => 0x10004 12 1 [0 0]; // slt x12, x10, x11
    0x00B52633: 0 0xFFFFFFFF [0 0] => 0x10004 12 0 [0 0]; // slt x12, x10, x11
    0x00B52633: 0xFFFFFFFF 0xFFFFFFFF [0 0] => 0x10004 12 0 [0 0]; // slt x12, x10, x11
    0x00B52633: 0x7FFFFFFF 1 [0 0] => 0x10004 12 0 [0 0]; // slt x12, x10, x11
    0x00B52633: 0x80000000 0xFFFFFFFF [0 0] => 0x10004 12 1 [0 0]; // slt x12, x10, x11
    0x00B52633: 0x80000000 0x80000000 [0 0] => 0x10004 12 0 [0 0]; // slt x12, x10, x11
    0x00B52633: 0x7FFFFFFF 0x80000000 [0 0] => 0x10004 12 0 [0 0]; // slt x12, x10, x11
    0x00B52633: 0x80000000 0x7FFFFFFF [0 0] => 0x10004 12 1 [0 0]; // slt x12, x10, x11
    0x00B52633: 0 0x80000000 [0 0] => 0x10004 12 0 [0 0]; // slt x12, x10, x11
    0x00B52633: 0x7FFFFFFF 0x7FFFFFFF [0 0] => 0x10004 12 0 [0 0]; // slt x12, x10, x11
    0x00B52633: 0x12345678 0x9ABCDEF0 [0 0] => 0x10004 12 0 [0 0]; // slt x12, x10, x11
    0x00B52033: 0x87654321 5 [0 0] => 0x10004 0 0 [0 0]; // slt x0, x10, x11
    0x00B52533: 0x87654321 5 [0 0] => 0x10004 10 1 [0 0]; // slt x10, x10, x11
    0x00B525B3: 0x87654321 5 [0 0] => 0x10004 11 1 [0 0]; // slt x11, x10, x11
    0x00A5A633: 0x87654321 5 [0 0] => 0x10004 12 0 [0 0]; // slt x12, x11, x10
    0x00A52633: 0x87654321 5 [0 0] => 0x10004 12 0 [0 0]; // slt x12, x10, x10
    0x00A02633: 0x87654321 5 [0 0] => 0x10004 12 0 [0 0]; // slt x12, x0, x10
    0x00052633: 0x87654321 5 [0 0] => 0x10004 12 1 [0 0]; // slt x12, x10, x0
    // SLTU
    0x00B53633: 0 0 [0 0] => 0x10004 12 0 [0 0]; // sltu x12, x10, x11
    0x00B53633: 0 1 [0 0] => 0x10004 12 1 [0 0]; // sltu x12, x10, x11
    0x00B53633: 1 0xFFFFFFFF [0 0] => 0x10004 12 1 [0 0]; // sltu x12, x10, x11
    0x00B53633: 0xFFFFFFFF 1 [0 0] => 0x10004 12 0 [0 0]; // sltu x12, x10, x11
    0x00B53633: 0 0xFFFFFFFF [0 0] => 0x10004 12 1 [0 0]; // sltu x12, x10, x11
    0x00B53633: 0xFFFFFFFF 0xFFFFFFFF [0 0] => 0x10004 12 0 [0 0]; // sltu x12, x10, x11
    0x00B53633: 0x7FFFFFFF 1 [0 0] => 0x10004 12 0 [0 0]; // sltu x12, x10, x11
    0x00B53633: 0x80000000 0xFFFFFFFF [0 0] => 0x10004 12 1 [0 0]; // sltu x12, x10, x11
    0x00B53633: 0x80000000 0x80000000 [0 0] => 0x10004 12 0 [0 0]; // sltu x12, x10, x11
    0x00B53633: 0x7FFFFFFF 0x80000000 [0 0] => 0x10004 12 1 [0 0]; // sltu x12, x10, x11
    0x00B53633: 0x80000000 0x7FFFFFFF [0 0] => 0x10004 12 0 [0 0]; // sltu x12, x10, x11
    0x00B53633: 0 0x80000000 [0 0] => 0x10004 12 1 [0 0]; // sltu x12, x10, x11
    0x00B53633: 0x7FFFFFFF 0x7FFFFFFF [0 0] => 0x10004 12 0 [0 0]; // sltu x12, x10, x11
    0x00B53633: 0x12345678 0x9ABCDEF0 [0 0] => 0x10004 12 1 [0 0]; // sltu x12, x10, x11
    0x00B53033: 0x87654321 5 [0 0] => 0x10004 0 0 [0 0]; // sltu x0, x10, x11
    0x00B53533: 0x87654321 5 [0 0] => 0x10004 10 0 [0 0]; // sltu x10, x10, x11
    0x00B535B3: 0x87654321 5 [0 0] => 0x10004 11 0 [0 0]; // sltu x11, x10, x11
    0x00A5B633: 0x87654321 5 [0 0] => 0x10004 12 1 [0 0]; // sltu x12, x11, x10
    0x00A53633: 0x87654321 5 [0 0] => 0x10004 12 0 [0 0]; // sltu x12, x10, x10
    0x00A03633: 0x87654321 5 [0 0] => 0x10004 12 1 [0 0]; // sltu x12, x0, x10
    0x00053633: 0x87654321 5 [0 0] => 0x10004 12 0 [0 0]; // sltu x12, x10, x0
    // XOR
    0x00B54633: 0 0 [0 0] => 0x10004 12 0 [0 0]; // xor x12, x10, x11
    0x00B54633: 0 1 [0 0] => 0x10004 12 1 [0 0]; // xor x12, x10, x11
    0x00B54633: 1 0xFFFFFFFF [0 0] => 0x10004 12 0xFFFFFFFE [0 0]; // xor x12, x10, x11
    0x00B54633: 0xFFFFFFFF 1 [0 0] => 0x10004 12 0xFFFFFFFE [0 0]; // xor x12, x10, x11
    0x00B54633: 0 0xFFFFFFFF [0 0] => 0x10004 12 0xFFFFFFFF [0 0]; // xor x12, x10, x11
    0x00B54633: 0xFFFFFFFF 0xFFFFFFFF [0 0] => 0x10004 12 0 [0 0]; // xor x12, x10, x11
    0x00B54633: 0x7FFFFFFF 1 [0 0] => 0x10004 12 0x7FFFFFFE [0 0]; // xor x12, x10, x11
    0x00B54633: 0x80000000 0xFFFFFFFF [0 0] => 0x10004 12 0x7FFFFFFF [0 0]; // xor x12, x10, x11
    0x00B54633: 0x80000000 0x80000000 [0 0] => 0x10004 12 0 [0 0]; // xor x12, x10, x11
    0x00B54633: 0x7FFFFFFF 0x80000000 [0 0] => 0x10004 12 0xFFFFFFFF [0 0]; // xor x12, x10, x11
    0x00B54633: 0x80000000 0x7FFFFFFF [0 0] => 0x10004 12 0xFFFFFFFF [0 0]; // xor x12, x10, x11
    0x00B54633: 0 0x80000000 [0 0] => 0x10004 12 0x80000000 [0 0]; // xor x12, x10, x11
    0x00B54633: 0x7FFFFFFF 0x7FFFFFFF [0 0] => 0x10004 12 0 [0 0]; // xor x12, x10, x11
    0x00B54633: 0x12345678 0x9ABCDEF0 [0 0] => 0x10004 12 0x88888888 [0 0]; // xor x12, x10, x11
    0x00B54033: 0x87654321 5 [0 0] => 0x10004 0 0 [0 0]; // xor x0, x10, x11
    0x00B54533: 0x87654321 5 [0 0] => 0x10004 10 0x87654324 [0 0]; // xor x10, x10, x11
    0x00B545B3: 0x87654321 5 [0 0] => 0x10004 11 0x87654324 [0 0]; // xor x11, x10, x11
    0x00A5C633: 0x87654321 5 [0 0] => 0x10004 12 0x87654324 [0 0]; // xor x12, x11, x10
    0x00A54633: 0x87654321 5 [0 0] => 0x10004 12 0 [0 0]; // xor x12, x10, x10
    0x00A04633: 0x87654321 5 [0 0] => 0x10004 12 0x87654321 [0 0]; // xor x12, x0, x10
    0x00054633: 0x87654321 5 [0 0] => 0x10004 12 0x87654321 [0 0]; // xor x12, x10, x0
    // SRL
    0x00B55633: 0x80000001 0 [0 0] => 0x10004 12 0x80000001 [0 0]; // srl x12, x10, x11
    0x00B55633: 0x80000001 1 [0 0] => 0x10004 12 0x40000000 [0 0]; // srl x12, x10, x11
    0x00B55633: 0x80000001 0x1F [0 0] => 0x10004 12 1 [0 0]; // srl x12, x10, x11
    0x00B55633: 0x80000001 0x20 [0 0] => 0x10004 12 0x80000001 [0 0]; // srl x12, x10, x11
    0x00B55633: 0x80000001 0x21 [0 0] => 0x10004 12 0x40000000 [0 0]; // srl x12, x10, x11
    0x00B55633: 0x80000001 0xFFFFFFFF [0 0] => 0x10004 12 1 [0 0]; // srl x12, x10, x11
    0x00B55633: 0x7FFFFFFF 1 [0 0] => 0x10004 12 0x3FFFFFFF [0 0]; // srl x12, x10, x11
    0x00B55633: 0x7FFFFFFF 0x1F [0 0] => 0x10004 12 0 [0 0]; // srl x12, x10, x11
    0x00B55633: 0xFFFFFFFF 0xFFFFFFE0 [0 0] => 0x10004 12 0xFFFFFFFF [0 0]; // srl x12, x10, x11
    0x00B55633: 0 0x1F [0 0] => 0x10004 12 0 [0 0]; // srl x12, x10, x11
    0x00B55633: 0x12345678 4 [0 0] => 0x10004 12 0x01234567 [0 0]; // srl x12, x10, x11
    0x00B55033: 0x87654321 5 [0 0] => 0x10004 0 0 [0 0]; // srl x0, x10, x11
    0x00B55533: 0x87654321 5 [0 0] => 0x10004 10 0x043B2A19 [0 0]; // srl x10, x10, x11
    0x00B555B3: 0x87654321 5 [0 0] => 0x10004 11 0x043B2A19 [0 0]; // srl x11, x10, x11
    0x00A5D633: 0x87654321 5 [0 0] => 0x10004 12 2 [0 0]; // srl x12, x11, x10
    0x00A55633: 0x87654321 5 [0 0] => 0x10004 12 0x43B2A190 [0 0]; // srl x12, x10, x10
    0x00A05633: 0x87654321 5 [0 0] => 0x10004 12 0 [0 0]; // srl x12, x0, x10
    0x00055633: 0x87654321 5 [0 0] => 0x10004 12 0x87654321 [0 0]; // srl x12, x10, x0
    // SRA
    0x40B55633: 0x80000001 0 [0 0] => 0x10004 12 0x80000001 [0 0]; // sra x12, x10, x11
    0x40B55633: 0x80000001 1 [0 0] => 0x10004 12 0xC0000000 [0 0]; // sra x12, x10, x11
    0x40B55633: 0x80000001 0x1F [0 0] => 0x10004 12 0xFFFFFFFF [0 0]; // sra x12, x10, x11
    0x40B55633: 0x80000001 0x20 [0 0] => 0x10004 12 0x80000001 [0 0]; // sra x12, x10, x11
    0x40B55633: 0x80000001 0x21 [0 0] => 0x10004 12 0xC0000000 [0 0]; // sra x12, x10, x11
    0x40B55633: 0x80000001 0xFFFFFFFF [0 0] => 0x10004 12 0xFFFFFFFF [0 0]; // sra x12, x10, x11
    0x40B55633: 0x7FFFFFFF 1 [0 0] => 0x10004 12 0x3FFFFFFF [0 0]; // sra x12, x10, x11
    0x40B55633: 0x7FFFFFFF 0x1F [0 0] => 0x10004 12 0 [0 0]; // sra x12, x10, x11
    0x40B55633: 0xFFFFFFFF 0xFFFFFFE0 [0 0] => 0x10004 12 0xFFFFFFFF [0 0]; // sra x12, x10, x11
    0x40B55633: 0 0x1F [0 0] => 0x10004 12 0 [0 0]; // sra x12, x10, x11
    0x40B55633: 0x12345678 4 [0 0] => 0x10004 12 0x01234567 [0 0]; // sra x12, x10, x11
    0x40B55033: 0x87654321 5 [0 0] => 0x10004 0 0 [0 0]; // sra x0, x10, x11
    0x40B55533: 0x87654321 5 [0 0] => 0x10004 10 0xFC3B2A19 [0 0]; // sra x10, x10, x11
    0x40B555B3: 0x87654321 5 [0 0] => 0x10004 11 0xFC3B2A19 [0 0]; // sra x11, x10, x11
    0x40A5D633: 0x87654321 5 [0 0] => 0x10004 12 2 [0 0]; // sra x12, x11, x10
    0x40A55633: 0x87654321 5 [0 0] => 0x10004 12 0xC3B2A190 [0 0]; // sra x12, x10, x10
    0x40A05633: 0x87654321 5 [0 0] => 0x10004 12 0 [0 0]; // sra x12, x0, x10
    0x40055633: 0x87654321 5 [0 0] => 0x10004 12 0x87654321 [0 0]; // sra x12, x10, x0
    // OR
    0x00B56633: 0 0 [0 0] => 0x10004 12 0 [0 0]; // or x12, x10, x11
    0x00B56633: 0 1 [0 0] => 0x10004 12 1 [0 0]; // or x12, x10, x11
    0x00B56633: 1 0xFFFFFFFF [0 0] => 0x10004 12 0xFFFFFFFF [0 0]; // or x12, x10, x11
    0x00B56633: 0xFFFFFFFF 1 [0 0] => 0x10004 12 0xFFFFFFFF [0 0]; // or x12, x10, x11
    0x00B56633: 0 0xFFFFFFFF [0 0] => 0x10004 12 0xFFFFFFFF [0 0]; // or x12, x10, x11
    0x00B56633: 0xFFFFFFFF 0xFFFFFFFF [0 0] => 0x10004 12 0xFFFFFFFF [0 0]; // or x12, x10, x11
    0x00B56633: 0x7FFFFFFF 1 [0 0] => 0x10004 12 0x7FFFFFFF [0 0]; // or x12, x10, x11
    0x00B56633: 0x80000000 0xFFFFFFFF [0 0] => 0x10004 12 0xFFFFFFFF [0 0]; // or x12, x10, x11
    0x00B56633: 0x80000000 0x80000000 [0 0] => 0x10004 12 0x80000000 [0 0]; // or x12, x10, x11
    0x00B56633: 0x7FFFFFFF 0x80000000 [0 0] => 0x10004 12 0xFFFFFFFF [0 0]; // or x12, x10, x11
    0x00B56633: 0x80000000 0x7FFFFFFF [0 0] => 0x10004 12 0xFFFFFFFF [0 0]; // or x12, x10, x11
    0x00B56633: 0 0x80000000 [0 0] => 0x10004 12 0x80000000 [0 0]; // or x12, x10, x11
    0x00B56633: 0x7FFFFFFF 0x7FFFFFFF [0 0] => 0x10004 12 0x7FFFFFFF [0 0]; // or x12, x10, x11
    0x00B56633: 0x12345678 0x9ABCDEF0 [0 0] => 0x10004 12 0x9ABCDEF8 [0 0]; // or x12, x10, x11
    0x00B56033: 0x87654321 5 [0 0] => 0x10004 0 0 [0 0]; // or x0, x10, x11
    0x00B56533: 0x87654321 5 [0 0] => 0x10004 10 0x87654325 [0 0]; // or x10, x10, x11
    0x00B565B3: 0x87654321 5 [0 0] => 0x10004 11 0x87654325 [0 0]; // or x11, x10, x11
    0x00A5E633: 0x87654321 5 [0 0] => 0x10004 12 0x87654325 [0 0]; // or x12, x11, x10
    0x00A56633: 0x87654321 5 [0 0] => 0x10004 12 0x87654321 [0 0]; // or x12, x10, x10
    0x00A06633: 0x87654321 5 [0 0] => 0x10004 12 0x87654321 [0 0]; // or x12, x0, x10
    0x00056633: 0x87654321 5 [0 0] => 0x10004 12 0x87654321 [0 0]; // or x12, x10, x0
    // AND
    0x00B57633: 0 0 [0 0] => 0x10004 12 0 [0 0]; // and x12, x10, x11
    0x00B57633: 0 1 [0 0] => 0x10004 12 0 [0 0]; // and x12, x10, x11
    0x00B57633: 1 0xFFFFFFFF [0 0] => 0x10004 12 1 [0 0]; // and x12, x10, x11
    0x00B57633: 0xFFFFFFFF 1 [0 0] => 0x10004 12 1 [0 0]; // and x12, x10, x11
    0x00B57633: 0 0xFFFFFFFF [0 0] => 0x10004 12 0 [0 0]; // and x12, x10, x11
    0x00B57633: 0xFFFFFFFF 0xFFFFFFFF [0 0] => 0x10004 12 0xFFFFFFFF [0 0]; // and x12, x10, x11
    0x00B57633: 0x7FFFFFFF 1 [0 0] => 0x10004 12 1 [0 0]; // and x12, x10, x11
    0x00B57633: 0x80000000 0xFFFFFFFF [0 0] => 0x10004 12 0x80000000 [0 0]; // and x12, x10, x11
    0x00B57633: 0x80000000 0x80000000 [0 0] => 0x10004 12 0x80000000 [0 0]; // and x12, x10, x11
    0x00B57633: 0x7FFFFFFF 0x80000000 [0 0] => 0x10004 12 0 [0 0]; // and x12, x10, x11
    0x00B57633: 0x80000000 0x7FFFFFFF [0 0] => 0x10004 12 0 [0 0]; // and x12, x10, x11
    0x00B57633: 0 0x80000000 [0 0] => 0x10004 12 0 [0 0]; // and x12, x10, x11
    0x00B57633: 0x7FFFFFFF 0x7FFFFFFF [0 0] => 0x10004 12 0x7FFFFFFF [0 0]; // and x12, x10, x11
    0x00B57633: 0x12345678 0x9ABCDEF0 [0 0] => 0x10004 12 0x12345670 [0 0]; // and x12, x10, x11
    0x00B57033: 0x87654321 5 [0 0] => 0x10004 0 0 [0 0]; // and x0, x10, x11
    0x00B57533: 0x87654321 5 [0 0] => 0x10004 10 1 [0 0]; // and x10, x10, x11
    0x00B575B3: 0x87654321 5 [0 0] => 0x10004 11 1 [0 0]; // and x11, x10, x11
    0x00A5F633: 0x87654321 5 [0 0] => 0x10004 12 1 [0 0]; // and x12, x11, x10
    0x00A57633: 0x87654321 5 [0 0] => 0x10004 12 0x87654321 [0 0]; // and x12, x10, x10
    0x00A07633: 0x87654321 5 [0 0] => 0x10004 12 0 [0 0]; // and x12, x0, x10
    0x00057633: 0x87654321 5 [0 0] => 0x10004 12 0 [0 0]; // and x12, x10, x0
    // FENCE
    0x0FF0000F: 0x10100 1 [0 0] => 0x10004 12 0x5A5A5A5A [0 0]; // fence
    0x0210000F: 0x10100 1 [0 0] => 0x10004 12 0x5A5A5A5A [0 0]; // fence r, w
    0x8330000F: 0x10100 1 [0 0] => 0x10004 12 0x5A5A5A5A [0 0]; // fence.tso
    0x0100000F: 0x10100 1 [0 0] => 0x10004 12 0x5A5A5A5A [0 0]; // .word 0x0100000F
    0xFFF5060F: 0x10100 1 [0 0] => 0x10004 12 0x5A5A5A5A [0 0]; // .word 0xFFF5060F
    // FENCE.I
    0x0000100F: 0x10100 1 [0 0] => 0x10004 12 0x5A5A5A5A [0 0]; // fence.i
    0xFFF5160F: 0x10100 1 [0 0] => 0x10004 12 0x5A5A5A5A [0 0]; // .word 0xFFF5160F
    // MUL
    0x02B50633: 0 0 [0 0] => 0x10004 12 0 [0 0]; // mul x12, x10, x11
    0x02B50633: 0 0xFFFFFFFF [0 0] => 0x10004 12 0 [0 0]; // mul x12, x10, x11
    0x02B50633: 1 0xFFFFFFFF [0 0] => 0x10004 12 0xFFFFFFFF [0 0]; // mul x12, x10, x11
    0x02B50633: 0xFFFFFFFF 1 [0 0] => 0x10004 12 0xFFFFFFFF [0 0]; // mul x12, x10, x11
    0x02B50633: 0xFFFFFFFF 0xFFFFFFFF [0 0] => 0x10004 12 1 [0 0]; // mul x12, x10, x11
    0x02B50633: 0x80000000 0xFFFFFFFF [0 0] => 0x10004 12 0x80000000 [0 0]; // mul x12, x10, x11
    0x02B50633: 0xFFFFFFFF 0x80000000 [0 0] => 0x10004 12 0x80000000 [0 0]; // mul x12, x10, x11
    0x02B50633: 0x80000000 0x80000000 [0 0] => 0x10004 12 0 [0 0]; // mul x12, x10, x11
    0x02B50633: 0x7FFFFFFF 0x7FFFFFFF [0 0] => 0x10004 12 1 [0 0]; // mul x12, x10, x11
    0x02B50633: 0x7FFFFFFF 0x80000000 [0 0] => 0x10004 12 0x80000000 [0 0]; // mul x12, x10, x11
    0x02B50633: 0x80000000 0x7FFFFFFF [0 0] => 0x10004 12 0x80000000 [0 0]; // mul x12, x10, x11
    0x02B50633: 0x7FFFFFFF 0xFFFFFFFF [0 0] => 0x10004 12 0x80000001 [0 0]; // mul x12, x10, x11
    0x02B50633: 0xFFFFFFFF 0x7FFFFFFF [0 0] => 0x10004 12 0x80000001 [0 0]; // mul x12, x10, x11
    0x02B50633: 0x10000 0x10000 [0 0] => 0x10004 12 0 [0 0]; // mul x12, x10, x11
    0x02B50633: 0x12345678 0x9ABCDEF0 [0 0] => 0x10004 12 0x242D2080 [0 0]; // mul x12, x10, x11
    0x02B50033: 0x87654321 5 [0 0] => 0x10004 0 0 [0 0]; // mul x0, x10, x11
    0x02B50533: 0x87654321 5 [0 0] => 0x10004 10 0xA4FA4FA5 [0 0]; // mul x10, x10, x11
    0x02B505B3: 0x87654321 5 [0 0] => 0x10004 11 0xA4FA4FA5 [0 0]; // mul x11, x10, x11
    0x02A58633: 0x87654321 5 [0 0] => 0x10004 12 0xA4FA4FA5 [0 0]; // mul x12, x11, x10
    0x02A50633: 0x87654321 5 [0 0] => 0x10004 12 0xD7A44A41 [0 0]; // mul x12, x10, x10
    0x02A00633: 0x87654321 5 [0 0] => 0x10004 12 0 [0 0]; // mul x12, x0, x10
    0x02050633: 0x87654321 5 [0 0] => 0x10004 12 0 [0 0]; // mul x12, x10, x0
    // MULH
    0x02B51633: 0 0 [0 0] => 0x10004 12 0 [0 0]; // mulh x12, x10, x11
    0x02B51633: 0 0xFFFFFFFF [0 0] => 0x10004 12 0 [0 0]; // mulh x12, x10, x11
    0x02B51633: 1 0xFFFFFFFF [0 0] => 0x10004 12 0xFFFFFFFF [0 0]; // mulh x12, x10, x11
    0x02B51633: 0xFFFFFFFF 1 [0 0] => 0x10004 12 0xFFFFFFFF [0 0]; // mulh x12, x10, x11
    0x02B51633: 0xFFFFFFFF 0xFFFFFFFF [0 0] => 0x10004 12 0 [0 0]; // mulh x12, x10, x11
    0x02B51633: 0x80000000 0xFFFFFFFF [0 0] => 0x10004 12 0 [0 0]; // mulh x12, x10, x11
    0x02B51633: 0xFFFFFFFF 0x80000000 [0 0] => 0x10004 12 0 [0 0]; // mulh x12, x10, x11
    0x02B51633: 0x80000000 0x80000000 [0 0] => 0x10004 12 0x40000000 [0 0]; // mulh x12, x10, x11
    0x02B51633: 0x7FFFFFFF 0x7FFFFFFF [0 0] => 0x10004 12 0x3FFFFFFF [0 0]; // mulh x12, x10, x11
    0x02B51633: 0x7FFFFFFF 0x80000000 [0 0] => 0x10004 12 0xC0000000 [0 0]; // mulh x12, x10, x11
    0x02B51633: 0x80000000 0x7FFFFFFF [0 0] => 0x10004 12 0xC0000000 [0 0]; // mulh x12, x10, x11
    0x02B51633: 0x7FFFFFFF 0xFFFFFFFF [0 0] => 0x10004 12 0xFFFFFFFF [0 0]; // mulh x12, x10, x11
    0x02B51633: 0xFFFFFFFF 0x7FFFFFFF [0 0] => 0x10004 12 0xFFFFFFFF [0 0]; // mulh x12, x10, x11
    0x02B51633: 0x10000 0x10000 [0 0] => 0x10004 12 1 [0 0]; // mulh x12, x10, x11
    0x02B51633: 0x12345678 0x9ABCDEF0 [0 0] => 0x10004 12 0xF8CC93D6 [0 0]; // mulh x12, x10, x11
    0x02B51033: 0x87654321 5 [0 0] => 0x10004 0 0 [0 0]; // mulh x0, x10, x11
    0x02B51533: 0x87654321 5 [0 0] => 0x10004 10 0xFFFFFFFD [0 0]; // mulh x10, x10, x11
    0x02B515B3: 0x87654321 5 [0 0] => 0x10004 11 0xFFFFFFFD [0 0]; // mulh x11, x10, x11
    0x02A59633: 0x87654321 5 [0 0] => 0x10004 12 0xFFFFFFFD [0 0]; // mulh x12, x11, x10
    0x02A51633: 0x87654321 5 [0 0] => 0x10004 12 0x38D16E98 [0 0]; // mulh x12, x10, x10
    0x02A01633: 0x87654321 5 [0 0] => 0x10004 12 0 [0 0]; // mulh x12, x0, x10
    0x02051633: 0x87654321 5 [0 0] => 0x10004 12 0 [0 0]; // mulh x12, x10, x0
    // MULHSU
    0x02B52633: 0 0 [0 0] => 0x10004 12 0 [0 0]; // mulhsu x12, x10, x11
    0x02B52633: 0 0xFFFFFFFF [0 0] => 0x10004 12 0 [0 0]; // mulhsu x12, x10, x11
    0x02B52633: 1 0xFFFFFFFF [0 0] => 0x10004 12 0 [0 0]; // mulhsu x12, x10, x11
    0x02B52633: 0xFFFFFFFF 1 [0 0] => 0x10004 12 0xFFFFFFFF [0 0]; // mulhsu x12, x10, x11
    0x02B52633: 0xFFFFFFFF 0xFFFFFFFF [0 0] => 0x10004 12 0xFFFFFFFF [0 0]; // mulhsu x12, x10, x11
    0x02B52633: 0x80000000 0xFFFFFFFF [0 0] => 0x10004 12 0x80000000 [0 0]; // mulhsu x12, x10, x11
    0x02B52633: 0xFFFFFFFF 0x80000000 [0 0] => 0x10004 12 0xFFFFFFFF [0 0]; // mulhsu x12, x10, x11
    0x02B52633: 0x80000000 0x80000000 [0 0] => 0x10004 12 0xC0000000 [0 0]; // mulhsu x12, x10, x11
    0x02B52633: 0x7FFFFFFF 0x7FFFFFFF [0 0] => 0x10004 12 0x3FFFFFFF [0 0]; // mulhsu x12, x10, x11
    0x02B52633: 0x7FFFFFFF 0x80000000 [0 0] => 0x10004 12 0x3FFFFFFF [0 0]; // mulhsu x12, x10, x11
    0x02B52633: 0x80000000 0x7FFFFFFF [0 0] => 0x10004 12 0xC0000000 [0 0]; // mulhsu x12, x10, x11
    0x02B52633: 0x7FFFFFFF 0xFFFFFFFF [0 0] => 0x10004 12 0x7FFFFFFE [0 0]; // mulhsu x12, x10, x11
    0x02B52633: 0xFFFFFFFF 0x7FFFFFFF [0 0] => 0x10004 12 0xFFFFFFFF [0 0]; // mulhsu x12, x10, x11
    0x02B52633: 0x10000 0x10000 [0 0] => 0x10004 12 1 [0 0]; // mulhsu x12, x10, x11
    0x02B52633: 0x12345678 0x9ABCDEF0 [0 0] => 0x10004 12 0x0B00EA4E [0 0]; // mulhsu x12, x10, x11
    0x02B52033: 0x87654321 5 [0 0] => 0x10004 0 0 [0 0]; // mulhsu x0, x10, x11
    0x02B52533: 0x87654321 5 [0 0] => 0x10004 10 0xFFFFFFFD [0 0]; // mulhsu x10, x10, x11
    0x02B525B3: 0x87654321 5 [0 0] => 0x10004 11 0xFFFFFFFD [0 0]; // mulhsu x11, x10, x11
    0x02A5A633: 0x87654321 5 [0 0] => 0x10004 12 2 [0 0]; // mulhsu x12, x11, x10
    0x02A52633: 0x87654321 5 [0 0] => 0x10004 12 0xC036B1B9 [0 0]; // mulhsu x12, x10, x10
    0x02A02633: 0x87654321 5 [0 0] => 0x10004 12 0 [0 0]; // mulhsu x12, x0, x10
    0x02052633: 0x87654321 5 [0 0] => 0x10004 12 0 [0 0]; // mulhsu x12, x10, x0
    // MULHU
    0x02B53633: 0 0 [0 0] => 0x10004 12 0 [0 0]; // mulhu x12, x10, x11
    0x02B53633: 0 0xFFFFFFFF [0 0] => 0x10004 12 0 [0 0]; // mulhu x12, x10, x11
    0x02B53633: 1 0xFFFFFFFF [0 0] => 0x10004 12 0 [0 0]; // mulhu x12, x10, x11
    0x02B53633: 0xFFFFFFFF 1 [0 0] => 0x10004 12 0 [0 0]; // mulhu x12, x10, x11
    0x02B53633: 0xFFFFFFFF 0xFFFFFFFF [0 0] => 0x10004 12 0xFFFFFFFE [0 0]; // mulhu x12, x10, x11
    0x02B53633: 0x80000000 0xFFFFFFFF [0 0] => 0x10004 12 0x7FFFFFFF [0 0]; // mulhu x12, x10, x11
    0x02B53633: 0xFFFFFFFF 0x80000000 [0 0] => 0x10004 12 0x7FFFFFFF [0 0]; // mulhu x12, x10, x11
    0x02B53633: 0x80000000 0x80000000 [0 0] => 0x10004 12 0x40000000 [0 0]; // mulhu x12, x10, x11
    0x02B53633: 0x7FFFFFFF 0x7FFFFFFF [0 0] => 0x10004 12 0x3FFFFFFF [0 0]; // mulhu x12, x10, x11
    0x02B53633: 0x7FFFFFFF 0x80000000 [0 0] => 0x10004 12 0x3FFFFFFF [0 0]; // mulhu x12, x10, x11
    0x02B53633: 0x80000000 0x7FFFFFFF [0 0] => 0x10004 12 0x3FFFFFFF [0 0]; // mulhu x12, x10, x11
    0x02B53633: 0x7FFFFFFF 0xFFFFFFFF [0 0] => 0x10004 12 0x7FFFFFFE [0 0]; // mulhu x12, x10, x11
    0x02B53633: 0xFFFFFFFF 0x7FFFFFFF [0 0] => 0x10004 12 0x7FFFFFFE [0 0]; // mulhu x12, x10, x11
    0x02B53633: 0x10000 0x10000 [0 0] => 0x10004 12 1 [0 0]; // mulhu x12, x10, x11
    0x02B53633: 0x12345678 0x9ABCDEF0 [0 0] => 0x10004 12 0x0B00EA4E [0 0]; // mulhu x12, x10, x11
    0x02B53033: 0x87654321 5 [0 0] => 0x10004 0 0 [0 0]; // mulhu x0, x10, x11
    0x02B53533: 0x87654321 5 [0 0] => 0x10004 10 2 [0 0]; // mulhu x10, x10, x11
    0x02B535B3: 0x87654321 5 [0 0] => 0x10004 11 2 [0 0]; // mulhu x11, x10, x11
    0x02A5B633: 0x87654321 5 [0 0] => 0x10004 12 2 [0 0]; // mulhu x12, x11, x10
    0x02A53633: 0x87654321 5 [0 0] => 0x10004 12 0x479BF4DA [0 0]; // mulhu x12, x10, x10
    0x02A03633: 0x87654321 5 [0 0] => 0x10004 12 0 [0 0]; // mulhu x12, x0, x10
    0x02053633: 0x87654321 5 [0 0] => 0x10004 12 0 [0 0]; // mulhu x12, x10, x0
    // DIV
    0x02B54633: 0 0 [0 0] => 0x10004 12 0xFFFFFFFF [0 0]; // div x12, x10, x11
    0x02B54633: 1 0 [0 0] => 0x10004 12 0xFFFFFFFF [0 0]; // div x12, x10, x11
    0x02B54633: 0xFFFFFFFF 0 [0 0] => 0x10004 12 0xFFFFFFFF [0 0]; // div x12, x10, x11
    0x02B54633: 0x80000000 0 [0 0] => 0x10004 12 0xFFFFFFFF [0 0]; // div x12, x10, x11
    0x02B54633: 0x7FFFFFFF 0 [0 0] => 0x10004 12 0xFFFFFFFF [0 0]; // div x12, x10, x11
    0x02B54633: 0x80000000 0xFFFFFFFF [0 0] => 0x10004 12 0x80000000 [0 0]; // div x12, x10, x11
    0x02B54633: 0x80000000 1 [0 0] => 0x10004 12 0x80000000 [0 0]; // div x12, x10, x11
    0x02B54633: 0xFFFFFFFF 0x80000000 [0 0] => 0x10004 12 0 [0 0]; // div x12, x10, x11
    0x02B54633: 0x7FFFFFFF 0xFFFFFFFF [0 0] => 0x10004 12 0x80000001 [0 0]; // div x12, x10, x11
    0x02B54633: 7 2 [0 0] => 0x10004 12 3 [0 0]; // div x12, x10, x11
    0x02B54633: 7 0xFFFFFFFE [0 0] => 0x10004 12 0xFFFFFFFD [0 0]; // div x12, x10, x11
    0x02B54633: 0xFFFFFFF9 2 [0 0] => 0x10004 12 0xFFFFFFFD [0 0]; // div x12, x10, x11
    0x02B54633: 0xFFFFFFF9 0xFFFFFFFE [0 0] => 0x10004 12 3 [0 0]; // div x12, x10, x11
    0x02B54633: 0 5 [0 0] => 0x10004 12 0 [0 0]; // div x12, x10, x11
    0x02B54633: 1 0x80000000 [0 0] => 0x10004 12 0 [0 0]; // div x12, x10, x11
    0x02B54633: 0x80000000 0x80000000 [0 0] => 0x10004 12 1 [0 0]; // div x12, x10, x11
    0x02B54633: 0x80000000 2 [0 0] => 0x10004 12 0xC0000000 [0 0]; // div x12, x10, x11
    0x02B54033: 0x87654321 5 [0 0] => 0x10004 0 0 [0 0]; // div x0, x10, x11
    0x02B54533: 0x87654321 5 [0 0] => 0x10004 10 0xE7E10D6D [0 0]; // div x10, x10, x11
    0x02B545B3: 0x87654321 5 [0 0] => 0x10004 11 0xE7E10D6D [0 0]; // div x11, x10, x11
    0x02A5C633: 0x87654321 5 [0 0] => 0x10004 12 0 [0 0]; // div x12, x11, x10
    0x02A54633: 0x87654321 5 [0 0] => 0x10004 12 1 [0 0]; // div x12, x10, x10
    0x02A04633: 0x87654321 5 [0 0] => 0x10004 12 0 [0 0]; // div x12, x0, x10
    0x02054633: 0x87654321 5 [0 0] => 0x10004 12 0xFFFFFFFF [0 0]; // div x12, x10, x0
    // DIVU
    0x02B55633: 0 0 [0 0] => 0x10004 12 0xFFFFFFFF [0 0]; // divu x12, x10, x11
    0x02B55633: 1 0 [0 0] => 0x10004 12 0xFFFFFFFF [0 0]; // divu x12, x10, x11
    0x02B55633: 0xFFFFFFFF 0 [0 0] => 0x10004 12 0xFFFFFFFF [0 0]; // divu x12, x10, x11
    0x02B55633: 0x80000000 0 [0 0] => 0x10004 12 0xFFFFFFFF [0 0]; // divu x12, x10, x11
    0x02B55633: 0x7FFFFFFF 0 [0 0] => 0x10004 12 0xFFFFFFFF [0 0]; // divu x12, x10, x11
    0x02B55633: 0x80000000 0xFFFFFFFF [0 0] => 0x10004 12 0 [0 0]; // divu x12, x10, x11
    0x02B55633: 0x80000000 1 [0 0] => 0x10004 12 0x80000000 [0 0]; // divu x12, x10, x11
    0x02B55633: 0xFFFFFFFF 0x80000000 [0 0] => 0x10004 12 1 [0 0]; // divu x12, x10, x11
    0x02B55633: 0x7FFFFFFF 0xFFFFFFFF [0 0] => 0x10004 12 0 [0 0]; // divu x12, x10, x11
    0x02B55633: 7 2 [0 0] => 0x10004 12 3 [0 0]; // divu x12, x10, x11
    0x02B55633: 7 0xFFFFFFFE [0 0] => 0x10004 12 0 [0 0]; // divu x12, x10, x11
    0x02B55633: 0xFFFFFFF9 2 [0 0] => 0x10004 12 0x7FFFFFFC [0 0]; // divu x12, x10, x11
    0x02B55633: 0xFFFFFFF9 0xFFFFFFFE [0 0] => 0x10004 12 0 [0 0]; // divu x12, x10, x11
    0x02B55633: 0 5 [0 0] => 0x10004 12 0 [0 0]; // divu x12, x10, x11
    0x02B55633: 1 0x80000000 [0 0] => 0x10004 12 0 [0 0]; // divu x12, x10, x11
    0x02B55633: 0x80000000 0x80000000 [0 0] => 0x10004 12 1 [0 0]; // divu x12, x10, x11
    0x02B55633: 0x80000000 2 [0 0] => 0x10004 12 0x40000000 [0 0]; // divu x12, x10, x11
    0x02B55033: 0x87654321 5 [0 0] => 0x10004 0 0 [0 0]; // divu x0, x10, x11
    0x02B55533: 0x87654321 5 [0 0] => 0x10004 10 0x1B1440A0 [0 0]; // divu x10, x10, x11
    0x02B555B3: 0x87654321 5 [0 0] => 0x10004 11 0x1B1440A0 [0 0]; // divu x11, x10, x11
    0x02A5D633: 0x87654321 5 [0 0] => 0x10004 12 0 [0 0]; // divu x12, x11, x10
    0x02A55633: 0x87654321 5 [0 0] => 0x10004 12 1 [0 0]; // divu x12, x10, x10
    0x02A05633: 0x87654321 5 [0 0] => 0x10004 12 0 [0 0]; // divu x12, x0, x10
    0x02055633: 0x87654321 5 [0 0] => 0x10004 12 0xFFFFFFFF [0 0]; // divu x12, x10, x0
    // REM
    0x02B56633: 0 0 [0 0] => 0x10004 12 0 [0 0]; // rem x12, x10, x11
    0x02B56633: 1 0 [0 0] => 0x10004 12 1 [0 0]; // rem x12, x10, x11
    0x02B56633: 0xFFFFFFFF 0 [0 0] => 0x10004 12 0xFFFFFFFF [0 0]; // rem x12, x10, x11
    0x02B56633: 0x80000000 0 [0 0] => 0x10004 12 0x80000000 [0 0]; // rem x12, x10, x11
    0x02B56633: 0x7FFFFFFF 0 [0 0] => 0x10004 12 0x7FFFFFFF [0 0]; // rem x12, x10, x11
    0x02B56633: 0x80000000 0xFFFFFFFF [0 0] => 0x10004 12 0 [0 0]; // rem x12, x10, x11
    0x02B56633: 0x80000000 1 [0 0] => 0x10004 12 0 [0 0]; // rem x12, x10, x11
    0x02B56633: 0xFFFFFFFF 0x80000000 [0 0] => 0x10004 12 0xFFFFFFFF [0 0]; // rem x12, x10, x11
    0x02B56633: 0x7FFFFFFF 0xFFFFFFFF [0 0] => 0x10004 12 0 [0 0]; // rem x12, x10, x11
    0x02B56633: 7 2 [0 0] => 0x10004 12 1 [0 0]; // rem x12, x10, x11
    0x02B56633: 7 0xFFFFFFFE [0 0] => 0x10004 12 1 [0 0]; // rem x12, x10, x11
    0x02B56633: 0xFFFFFFF9 2 [0 0] => 0x10004 12 0xFFFFFFFF [0 0]; // rem x12, x10, x11
    0x02B56633: 0xFFFFFFF9 0xFFFFFFFE [0 0] => 0x10004 12 0xFFFFFFFF [0 0]; // rem x12, x10, x11
    0x02B56633: 0 5 [0 0] => 0x10004 12 0 [0 0]; // rem x12, x10, x11
    0x02B56633: 1 0x80000000 [0 0] => 0x10004 12 1 [0 0]; // rem x12, x10, x11
    0x02B56633: 0x80000000 0x80000000 [0 0] => 0x10004 12 0 [0 0]; // rem x12, x10, x11
    0x02B56633: 0x80000000 2 [0 0] => 0x10004 12 0 [0 0]; // rem x12, x10, x11
    0x02B56033: 0x87654321 5 [0 0] => 0x10004 0 0 [0 0]; // rem x0, x10, x11
    0x02B56533: 0x87654321 5 [0 0] => 0x10004 10 0 [0 0]; // rem x10, x10, x11
    0x02B565B3: 0x87654321 5 [0 0] => 0x10004 11 0 [0 0]; // rem x11, x10, x11
    0x02A5E633: 0x87654321 5 [0 0] => 0x10004 12 5 [0 0]; // rem x12, x11, x10
    0x02A56633: 0x87654321 5 [0 0] => 0x10004 12 0 [0 0]; // rem x12, x10, x10
    0x02A06633: 0x87654321 5 [0 0] => 0x10004 12 0 [0 0]; // rem x12, x0, x10
    0x02056633: 0x87654321 5 [0 0] => 0x10004 12 0x87654321 [0 0]; // rem x12, x10, x0
    // REMU
    0x02B57633: 0 0 [0 0] => 0x10004 12 0 [0 0]; // remu x12, x10, x11
    0x02B57633: 1 0 [0 0] => 0x10004 12 1 [0 0]; // remu x12, x10, x11
    0x02B57633: 0xFFFFFFFF 0 [0 0] => 0x10004 12 0xFFFFFFFF [0 0]; // remu x12, x10, x11
    0x02B57633: 0x80000000 0 [0 0] => 0x10004 12 0x80000000 [0 0]; // remu x12, x10, x11
    0x02B57633: 0x7FFFFFFF 0 [0 0] => 0x10004 12 0x7FFFFFFF [0 0]; // remu x12, x10, x11
    0x02B57633: 0x80000000 0xFFFFFFFF [0 0] => 0x10004 12 0x80000000 [0 0]; // remu x12, x10, x11
    0x02B57633: 0x80000000 1 [0 0] => 0x10004 12 0 [0 0]; // remu x12, x10, x11
    0x02B57633: 0xFFFFFFFF 0x80000000 [0 0] => 0x10004 12 0x7FFFFFFF [0 0]; // remu x12, x10, x11
    0x02B57633: 0x7FFFFFFF 0xFFFFFFFF [0 0] => 0x10004 12 0x7FFFFFFF [0 0]; // remu x12, x10, x11
    0x02B57633: 7 2 [0 0] => 0x10004 12 1 [0 0]; // remu x12, x10, x11
    0x02B57633: 7 0xFFFFFFFE [0 0] => 0x10004 12 7 [0 0]; // remu x12, x10, x11
    0x02B57633: 0xFFFFFFF9 2 [0 0] => 0x10004 12 1 [0 0]; // remu x12, x10, x11
    0x02B57633: 0xFFFFFFF9 0xFFFFFFFE [0 0] => 0x10004 12 0xFFFFFFF9 [0 0]; // remu x12, x10, x11
    0x02B57633: 0 5 [0 0] => 0x10004 12 0 [0 0]; // remu x12, x10, x11
    0x02B57633: 1 0x80000000 [0 0] => 0x10004 12 1 [0 0]; // remu x12, x10, x11
    0x02B57633: 0x80000000 0x80000000 [0 0] => 0x10004 12 0 [0 0]; // remu x12, x10, x11
    0x02B57633: 0x80000000 2 [0 0] => 0x10004 12 0 [0 0]; // remu x12, x10, x11
    0x02B57033: 0x87654321 5 [0 0] => 0x10004 0 0 [0 0]; // remu x0, x10, x11
    0x02B57533: 0x87654321 5 [0 0] => 0x10004 10 1 [0 0]; // remu x10, x10, x11
    0x02B575B3: 0x87654321 5 [0 0] => 0x10004 11 1 [0 0]; // remu x11, x10, x11
    0x02A5F633: 0x87654321 5 [0 0] => 0x10004 12 5 [0 0]; // remu x12, x11, x10
    0x02A57633: 0x87654321 5 [0 0] => 0x10004 12 0 [0 0]; // remu x12, x10, x10
    0x02A07633: 0x87654321 5 [0 0] => 0x10004 12 0 [0 0]; // remu x12, x0, x10
    0x02057633: 0x87654321 5 [0 0] => 0x10004 12 0x87654321 [0 0]; // remu x12, x10, x0
    // LR.W
    0x1005262F: 0x10100 0 [0x80000000 0xFFFFFFFF] => 0x10004 12 0x80000000 [0x80000000 0xFFFFFFFF]; // lr.w x12, (x10)
    0x1005262F: 0x10104 0 [0x80000000 0xFFFFFFFF] => 0x10004 12 0xFFFFFFFF [0x80000000 0xFFFFFFFF]; // lr.w x12, (x10)
    0x1405262F: 0x10100 0 [0x80000000 0xFFFFFFFF] => 0x10004 12 0x80000000 [0x80000000 0xFFFFFFFF]; // lr.w.aq x12, (x10)
    0x1205262F: 0x10104 0 [0x80000000 0xFFFFFFFF] => 0x10004 12 0xFFFFFFFF [0x80000000 0xFFFFFFFF]; // lr.w.rl x12, (x10)
    0x1605262F: 0x10100 0 [0x80000000 0xFFFFFFFF] => 0x10004 12 0x80000000 [0x80000000 0xFFFFFFFF]; // lr.w.aqrl x12, (x10)
    0x1005202F: 0x10100 0 [0x80000000 0xFFFFFFFF] => 0x10004 0 0 [0x80000000 0xFFFFFFFF]; // lr.w x0, (x10)
    0x1005252F: 0x10100 0 [0x80000000 0xFFFFFFFF] => 0x10004 10 0x80000000 [0x80000000 0xFFFFFFFF]; // lr.w x10, (x10)
    0x1005A62F: 0 0x10104 [0x80000000 0xFFFFFFFF] => 0x10004 12 0xFFFFFFFF [0x80000000 0xFFFFFFFF]; // lr.w x12, (x11)
    // SC.W
    0x18B5262F: 0x10100 0xFFFFFFFF [0x7FFFFFFF 0] => 0x10004 12 1 [0x7FFFFFFF 0]; // sc.w x12, x11, (x10)
    0x18B5262F: 0x10104 0xFFFFFFFF [0x7FFFFFFF 0] => 0x10004 12 1 [0x7FFFFFFF 0]; // sc.w x12, x11, (x10)
    0x1CB5262F: 0x10100 0xFFFFFFFF [0x7FFFFFFF 0] => 0x10004 12 1 [0x7FFFFFFF 0]; // sc.w.aq x12, x11, (x10)
    0x1AB5262F: 0x10104 0xFFFFFFFF [0x7FFFFFFF 0] => 0x10004 12 1 [0x7FFFFFFF 0]; // sc.w.rl x12, x11, (x10)
    0x1EB5262F: 0x10100 0xFFFFFFFF [0x7FFFFFFF 0] => 0x10004 12 1 [0x7FFFFFFF 0]; // sc.w.aqrl x12, x11, (x10)
    0x18B5202F: 0x10100 5 [0x7FFFFFFF 0] => 0x10004 0 0 [0x7FFFFFFF 0]; // sc.w x0, x11, (x10)
    0x18B5252F: 0x10100 5 [0x7FFFFFFF 0] => 0x10004 10 1 [0x7FFFFFFF 0]; // sc.w x10, x11, (x10)
    0x18B525AF: 0x10100 5 [0x7FFFFFFF 0] => 0x10004 11 1 [0x7FFFFFFF 0]; // sc.w x11, x11, (x10)
    0x1805262F: 0x10100 5 [0x7FFFFFFF 0] => 0x10004 12 1 [0x7FFFFFFF 0]; // sc.w x12, x0, (x10)
    // AMOSWAP.W
    0x08B5262F: 0x10100 0 [0 0xBAD] => 0x10004 12 0 [0 0xBAD]; // amoswap.w x12, x11, (x10)
    0x08B5262F: 0x10100 0xFFFFFFFF [1 0xBAD] => 0x10004 12 1 [0xFFFFFFFF 0xBAD]; // amoswap.w x12, x11, (x10)
    0x08B5262F: 0x10100 1 [0xFFFFFFFF 0xBAD] => 0x10004 12 0xFFFFFFFF [1 0xBAD]; // amoswap.w x12, x11, (x10)
    0x08B5262F: 0x10100 1 [0x7FFFFFFF 0xBAD] => 0x10004 12 0x7FFFFFFF [1 0xBAD]; // amoswap.w x12, x11, (x10)
    0x08B5262F: 0x10100 0xFFFFFFFF [0x80000000 0xBAD] => 0x10004 12 0x80000000 [0xFFFFFFFF 0xBAD]; // amoswap.w x12, x11, (x10)
    0x08B5262F: 0x10100 0x7FFFFFFF [0x80000000 0xBAD] => 0x10004 12 0x80000000 [0x7FFFFFFF 0xBAD]; // amoswap.w x12, x11, (x10)
    0x08B5262F: 0x10100 0x80000000 [0x7FFFFFFF 0xBAD] => 0x10004 12 0x7FFFFFFF [0x80000000 0xBAD]; // amoswap.w x12, x11, (x10)
    0x08B5262F: 0x10100 0x80000000 [0x80000000 0xBAD] => 0x10004 12 0x80000000 [0x80000000 0xBAD]; // amoswap.w x12, x11, (x10)
    0x08B5262F: 0x10100 0x80000000 [0 0xBAD] => 0x10004 12 0 [0x80000000 0xBAD]; // amoswap.w x12, x11, (x10)
    0x08B5262F: 0x10100 0x9ABCDEF0 [0x12345678 0xBAD] => 0x10004 12 0x12345678 [0x9ABCDEF0 0xBAD]; // amoswap.w x12, x11, (x10)
    0x08B5262F: 0x10104 0x0FF0FF00 [0xBAD 0xF0F0F0F0] => 0x10004 12 0xF0F0F0F0 [0xBAD 0x0FF0FF00]; // amoswap.w x12, x11, (x10)
    0x0CB5262F: 0x10104 0x0FF0FF00 [0xBAD 0xF0F0F0F0] => 0x10004 12 0xF0F0F0F0 [0xBAD 0x0FF0FF00]; // amoswap.w.aq x12, x11, (x10)
    0x0AB5262F: 0x10104 0x0FF0FF00 [0xBAD 0xF0F0F0F0] => 0x10004 12 0xF0F0F0F0 [0xBAD 0x0FF0FF00]; // amoswap.w.rl x12, x11, (x10)
    0x0EB5262F: 0x10104 0x0FF0FF00 [0xBAD 0xF0F0F0F0] => 0x10004 12 0xF0F0F0F0 [0xBAD 0x0FF0FF00]; // amoswap.w.aqrl x12, x11, (x10)
    0x08B5202F: 0x10100 0x0F0F0F0F [0x00FF00FF 0] => 0x10004 0 0 [0x0F0F0F0F 0]; // amoswap.w x0, x11, (x10)
    0x08B5252F: 0x10100 0x0F0F0F0F [0x00FF00FF 0] => 0x10004 10 0x00FF00FF [0x0F0F0F0F 0]; // amoswap.w x10, x11, (x10)
    0x08B525AF: 0x10100 0x0F0F0F0F [0x00FF00FF 0] => 0x10004 11 0x00FF00FF [0x0F0F0F0F 0]; // amoswap.w x11, x11, (x10)
    0x0805262F: 0x10100 0x0F0F0F0F [0x00FF00FF 0] => 0x10004 12 0x00FF00FF [0 0]; // amoswap.w x12, x0, (x10)
    0x08A5262F: 0x10100 0x0F0F0F0F [0x00FF00FF 0] => 0x10004 12 0x00FF00FF [0x10100 0]; // amoswap.w x12, x10, (x10)
    // AMOADD.W
    0x00B5262F: 0x10100 0 [0 0xBAD] => 0x10004 12 0 [0 0xBAD]; // amoadd.w x12, x11, (x10)
    0x00B5262F: 0x10100 0xFFFFFFFF [1 0xBAD] => 0x10004 12 1 [0 0xBAD]; // amoadd.w x12, x11, (x10)
    0x00B5262F: 0x10100 1 [0xFFFFFFFF 0xBAD] => 0x10004 12 0xFFFFFFFF [0 0xBAD]; // amoadd.w x12, x11, (x10)
    0x00B5262F: 0x10100 1 [0x7FFFFFFF 0xBAD] => 0x10004 12 0x7FFFFFFF [0x80000000 0xBAD]; // amoadd.w x12, x11, (x10)
    0x00B5262F: 0x10100 0xFFFFFFFF [0x80000000 0xBAD] => 0x10004 12 0x80000000 [0x7FFFFFFF 0xBAD]; // amoadd.w x12, x11, (x10)
    0x00B5262F: 0x10100 0x7FFFFFFF [0x80000000 0xBAD] => 0x10004 12 0x80000000 [0xFFFFFFFF 0xBAD]; // amoadd.w x12, x11, (x10)
    0x00B5262F: 0x10100 0x80000000 [0x7FFFFFFF 0xBAD] => 0x10004 12 0x7FFFFFFF [0xFFFFFFFF 0xBAD]; // amoadd.w x12, x11, (x10)
    0x00B5262F: 0x10100 0x80000000 [0x80000000 0xBAD] => 0x10004 12 0x80000000 [0 0xBAD]; // amoadd.w x12, x11, (x10)
    0x00B5262F: 0x10100 0x80000000 [0 0xBAD] => 0x10004 12 0 [0x80000000 0xBAD]; // amoadd.w x12, x11, (x10)
    0x00B5262F: 0x10100 0x9ABCDEF0 [0x12345678 0xBAD] => 0x10004 12 0x12345678 [0xACF13568 0xBAD]; // amoadd.w x12, x11, (x10)
    0x00B5262F: 0x10104 0x0FF0FF00 [0xBAD 0xF0F0F0F0] => 0x10004 12 0xF0F0F0F0 [0xBAD 0x00E1EFF0]; // amoadd.w x12, x11, (x10)
    0x04B5262F: 0x10104 0x0FF0FF00 [0xBAD 0xF0F0F0F0] => 0x10004 12 0xF0F0F0F0 [0xBAD 0x00E1EFF0]; // amoadd.w.aq x12, x11, (x10)
    0x02B5262F: 0x10104 0x0FF0FF00 [0xBAD 0xF0F0F0F0] => 0x10004 12 0xF0F0F0F0 [0xBAD 0x00E1EFF0]; // amoadd.w.rl x12, x11, (x10)
    0x06B5262F: 0x10104 0x0FF0FF00 [0xBAD 0xF0F0F0F0] => 0x10004 12 0xF0F0F0F0 [0xBAD 0x00E1EFF0]; // amoadd.w.aqrl x12, x11, (x10)
    0x00B5202F: 0x10100 0x0F0F0F0F [0x00FF00FF 0] => 0x10004 0 0 [0x100E100E 0]; // amoadd.w x0, x11, (x10)
    0x00B5252F: 0x10100 0x0F0F0F0F [0x00FF00FF 0] => 0x10004 10 0x00FF00FF [0x100E100E 0]; // amoadd.w x10, x11, (x10)
    0x00B525AF: 0x10100 0x0F0F0F0F [0x00FF00FF 0] => 0x10004 11 0x00FF00FF [0x100E100E 0]; // amoadd.w x11, x11, (x10)
    0x0005262F: 0x10100 0x0F0F0F0F [0x00FF00FF 0] => 0x10004 12 0x00FF00FF [0x00FF00FF 0]; // amoadd.w x12, x0, (x10)
    0x00A5262F: 0x10100 0x0F0F0F0F [0x00FF00FF 0] => 0x10004 12 0x00FF00FF [0x010001FF 0]; // amoadd.w x12, x10, (x10)
    // AMOXOR.W
    0x20B5262F: 0x10100 0 [0 0xBAD] => 0x10004 12 0 [0 0xBAD]; // amoxor.w x12, x11, (x10)
    0x20B5262F: 0x10100 0xFFFFFFFF [1 0xBAD] => 0x10004 12 1 [0xFFFFFFFE 0xBAD]; // amoxor.w x12, x11, (x10)
    0x20B5262F: 0x10100 1 [0xFFFFFFFF 0xBAD] => 0x10004 12 0xFFFFFFFF [0xFFFFFFFE 0xBAD]; // amoxor.w x12, x11, (x10)
    0x20B5262F: 0x10100 1 [0x7FFFFFFF 0xBAD] => 0x10004 12 0x7FFFFFFF [0x7FFFFFFE 0xBAD]; // amoxor.w x12, x11, (x10)
    0x20B5262F: 0x10100 0xFFFFFFFF [0x80000000 0xBAD] => 0x10004 12 0x80000000 [0x7FFFFFFF 0xBAD]; // amoxor.w x12, x11, (x10)
    0x20B5262F: 0x10100 0x7FFFFFFF [0x80000000 0xBAD] => 0x10004 12 0x80000000 [0xFFFFFFFF 0xBAD]; // amoxor.w x12, x11, (x10)
    0x20B5262F: 0x10100 0x80000000 [0x7FFFFFFF 0xBAD] => 0x10004 12 0x7FFFFFFF [0xFFFFFFFF 0xBAD]; // amoxor.w x12, x11, (x10)
    0x20B5262F: 0x10100 0x80000000 [0x80000000 0xBAD] => 0x10004 12 0x80000000 [0 0xBAD]; // amoxor.w x12, x11, (x10)
    0x20B5262F: 0x10100 0x80000000 [0 0xBAD] => 0x10004 12 0 [0x80000000 0xBAD]; // amoxor.w x12, x11, (x10)
    0x20B5262F: 0x10100 0x9ABCDEF0 [0x12345678 0xBAD] => 0x10004 12 0x12345678 [0x88888888 0xBAD]; // amoxor.w x12, x11, (x10)
    0x20B5262F: 0x10104 0x0FF0FF00 [0xBAD 0xF0F0F0F0] => 0x10004 12 0xF0F0F0F0 [0xBAD 0xFF000FF0]; // amoxor.w x12, x11, (x10)
    0x24B5262F: 0x10104 0x0FF0FF00 [0xBAD 0xF0F0F0F0] => 0x10004 12 0xF0F0F0F0 [0xBAD 0xFF000FF0]; // amoxor.w.aq x12, x11, (x10)
    0x22B5262F: 0x10104 0x0FF0FF00 [0xBAD 0xF0F0F0F0] => 0x10004 12 0xF0F0F0F0 [0xBAD 0xFF000FF0]; // amoxor.w.rl x12, x11, (x10)
    0x26B5262F: 0x10104 0x0FF0FF00 [0xBAD 0xF0F0F0F0] => 0x10004 12 0xF0F0F0F0 [0xBAD 0xFF000FF0]; // amoxor.w.aqrl x12, x11, (x10)
    0x20B5202F: 0x10100 0x0F0F0F0F [0x00FF00FF 0] => 0x10004 0 0 [0x0FF00FF0 0]; // amoxor.w x0, x11, (x10)
    0x20B5252F: 0x10100 0x0F0F0F0F [0x00FF00FF 0] => 0x10004 10 0x00FF00FF [0x0FF00FF0 0]; // amoxor.w x10, x11, (x10)
    0x20B525AF: 0x10100 0x0F0F0F0F [0x00FF00FF 0] => 0x10004 11 0x00FF00FF [0x0FF00FF0 0]; // amoxor.w x11, x11, (x10)
    0x2005262F: 0x10100 0x0F0F0F0F [0x00FF00FF 0] => 0x10004 12 0x00FF00FF [0x00FF00FF 0]; // amoxor.w x12, x0, (x10)
    0x20A5262F: 0x10100 0x0F0F0F0F [0x00FF00FF 0] => 0x10004 12 0x00FF00FF [0x00FE01FF 0]; // amoxor.w x12, x10, (x10)
    // AMOAND.W
    0x60B5262F: 0x10100 0 [0 0xBAD] => 0x10004 12 0 [0 0xBAD]; // amoand.w x12, x11, (x10)
    0x60B5262F: 0x10100 0xFFFFFFFF [1 0xBAD] => 0x10004 12 1 [1 0xBAD]; // amoand.w x12, x11, (x10)
    0x60B5262F: 0x10100 1 [0xFFFFFFFF 0xBAD] => 0x10004 12 0xFFFFFFFF [1 0xBAD]; // amoand.w x12, x11, (x10)
    0x60B5262F: 0x10100 1 [0x7FFFFFFF 0xBAD] => 0x10004 12 0x7FFFFFFF [1 0xBAD]; // amoand.w x12, x11, (x10)
    0x60B5262F: 0x10100 0xFFFFFFFF [0x80000000 0xBAD] => 0x10004 12 0x80000000 [0x80000000 0xBAD]; // amoand.w x12, x11, (x10)
    0x60B5262F: 0x10100 0x7FFFFFFF [0x80000000 0xBAD] => 0x10004 12 0x80000000 [0 0xBAD]; // amoand.w x12, x11, (x10)
    0x60B5262F: 0x10100 0x80000000 [0x7FFFFFFF 0xBAD] => 0x10004 12 0x7FFFFFFF [0 0xBAD]; // amoand.w x12, x11, (x10)
    0x60B5262F: 0x10100 0x80000000 [0x80000000 0xBAD] => 0x10004 12 0x80000000 [0x80000000 0xBAD]; // amoand.w x12, x11, (x10)
    0x60B5262F: 0x10100 0x80000000 [0 0xBAD] => 0x10004 12 0 [0 0xBAD]; // amoand.w x12, x11, (x10)
    0x60B5262F: 0x10100 0x9ABCDEF0 [0x12345678 0xBAD] => 0x10004 12 0x12345678 [0x12345670 0xBAD]; // amoand.w x12, x11, (x10)
    0x60B5262F: 0x10104 0x0FF0FF00 [0xBAD 0xF0F0F0F0] => 0x10004 12 0xF0F0F0F0 [0xBAD 0x00F0F000]; // amoand.w x12, x11, (x10)
    0x64B5262F: 0x10104 0x0FF0FF00 [0xBAD 0xF0F0F0F0] => 0x10004 12 0xF0F0F0F0 [0xBAD 0x00F0F000]; // amoand.w.aq x12, x11, (x10)
    0x62B5262F: 0x10104 0x0FF0FF00 [0xBAD 0xF0F0F0F0] => 0x10004 12 0xF0F0F0F0 [0xBAD 0x00F0F000]; // amoand.w.rl x12, x11, (x10)
    0x66B5262F: 0x10104 0x0FF0FF00 [0xBAD 0xF0F0F0F0] => 0x10004 12 0xF0F0F0F0 [0xBAD 0x00F0F000]; // amoand.w.aqrl x12, x11, (x10)
    0x60B5202F: 0x10100 0x0F0F0F0F [0x00FF00FF 0] => 0x10004 0 0 [0xF000F 0]; // amoand.w x0, x11, (x10)
    0x60B5252F: 0x10100 0x0F0F0F0F [0x00FF00FF 0] => 0x10004 10 0x00FF00FF [0xF000F 0]; // amoand.w x10, x11, (x10)
    0x60B525AF: 0x10100 0x0F0F0F0F [0x00FF00FF 0] => 0x10004 11 0x00FF00FF [0xF000F 0]; // amoand.w x11, x11, (x10)
    0x6005262F: 0x10100 0x0F0F0F0F [0x00FF00FF 0] => 0x10004 12 0x00FF00FF [0 0]; // amoand.w x12, x0, (x10)
    0x60A5262F: 0x10100 0x0F0F0F0F [0x00FF00FF 0] => 0x10004 12 0x00FF00FF [0x10000 0]; // amoand.w x12, x10, (x10)
    // AMOOR.W
    0x40B5262F: 0x10100 0 [0 0xBAD] => 0x10004 12 0 [0 0xBAD]; // amoor.w x12, x11, (x10)
    0x40B5262F: 0x10100 0xFFFFFFFF [1 0xBAD] => 0x10004 12 1 [0xFFFFFFFF 0xBAD]; // amoor.w x12, x11, (x10)
    0x40B5262F: 0x10100 1 [0xFFFFFFFF 0xBAD] => 0x10004 12 0xFFFFFFFF [0xFFFFFFFF 0xBAD]; // amoor.w x12, x11, (x10)
    0x40B5262F: 0x10100 1 [0x7FFFFFFF 0xBAD] => 0x10004 12 0x7FFFFFFF [0x7FFFFFFF 0xBAD]; // amoor.w x12, x11, (x10)
    0x40B5262F: 0x10100 0xFFFFFFFF [0x80000000 0xBAD] => 0x10004 12 0x80000000 [0xFFFFFFFF 0xBAD]; // amoor.w x12, x11, (x10)
    0x40B5262F: 0x10100 0x7FFFFFFF [0x80000000 0xBAD] => 0x10004 12 0x80000000 [0xFFFFFFFF 0xBAD]; // amoor.w x12, x11, (x10)
    0x40B5262F: 0x10100 0x80000000 [0x7FFFFFFF 0xBAD] => 0x10004 12 0x7FFFFFFF [0xFFFFFFFF 0xBAD]; // amoor.w x12, x11, (x10)
    0x40B5262F: 0x10100 0x80000000 [0x80000000 0xBAD] => 0x10004 12 0x80000000 [0x80000000 0xBAD]; // amoor.w x12, x11, (x10)
    0x40B5262F: 0x10100 0x80000000 [0 0xBAD] => 0x10004 12 0 [0x80000000 0xBAD]; // amoor.w x12, x11, (x10)
    0x40B5262F: 0x10100 0x9ABCDEF0 [0x12345678 0xBAD] => 0x10004 12 0x12345678 [0x9ABCDEF8 0xBAD]; // amoor.w x12, x11, (x10)
    0x40B5262F: 0x10104 0x0FF0FF00 [0xBAD 0xF0F0F0F0] => 0x10004 12 0xF0F0F0F0 [0xBAD 0xFFF0FFF0]; // amoor.w x12, x11, (x10)
    0x44B5262F: 0x10104 0x0FF0FF00 [0xBAD 0xF0F0F0F0] => 0x10004 12 0xF0F0F0F0 [0xBAD 0xFFF0FFF0]; // amoor.w.aq x12, x11, (x10)
    0x42B5262F: 0x10104 0x0FF0FF00 [0xBAD 0xF0F0F0F0] => 0x10004 12 0xF0F0F0F0 [0xBAD 0xFFF0FFF0]; // amoor.w.rl x12, x11, (x10)
    0x46B5262F: 0x10104 0x0FF0FF00 [0xBAD 0xF0F0F0F0] => 0x10004 12 0xF0F0F0F0 [0xBAD 0xFFF0FFF0]; // amoor.w.aqrl x12, x11, (x10)
    0x40B5202F: 0x10100 0x0F0F0F0F [0x00FF00FF 0] => 0x10004 0 0 [0x0FFF0FFF 0]; // amoor.w x0, x11, (x10)
    0x40B5252F: 0x10100 0x0F0F0F0F [0x00FF00FF 0] => 0x10004 10 0x00FF00FF [0x0FFF0FFF 0]; // amoor.w x10, x11, (x10)
    0x40B525AF: 0x10100 0x0F0F0F0F [0x00FF00FF 0] => 0x10004 11 0x00FF00FF [0x0FFF0FFF 0]; // amoor.w x11, x11, (x10)
    0x4005262F: 0x10100 0x0F0F0F0F [0x00FF00FF 0] => 0x10004 12 0x00FF00FF [0x00FF00FF 0]; // amoor.w x12, x0, (x10)
    0x40A5262F: 0x10100 0x0F0F0F0F [0x00FF00FF 0] => 0x10004 12 0x00FF00FF [0x00FF01FF 0]; // amoor.w x12, x10, (x10)
    // AMOMIN.W
    0x80B5262F: 0x10100 0 [0 0xBAD] => 0x10004 12 0 [0 0xBAD]; // amomin.w x12, x11, (x10)
    0x80B5262F: 0x10100 0xFFFFFFFF [1 0xBAD] => 0x10004 12 1 [0xFFFFFFFF 0xBAD]; // amomin.w x12, x11, (x10)
    0x80B5262F: 0x10100 1 [0xFFFFFFFF 0xBAD] => 0x10004 12 0xFFFFFFFF [0xFFFFFFFF 0xBAD]; // amomin.w x12, x11, (x10)
    0x80B5262F: 0x10100 1 [0x7FFFFFFF 0xBAD] => 0x10004 12 0x7FFFFFFF [1 0xBAD]; // amomin.w x12, x11, (x10)
    0x80B5262F: 0x10100 0xFFFFFFFF [0x80000000 0xBAD] => 0x10004 12 0x80000000 [0x80000000 0xBAD]; // amomin.w x12, x11, (x10)
    0x80B5262F: 0x10100 0x7FFFFFFF [0x80000000 0xBAD] => 0x10004 12 0x80000000 [0x80000000 0xBAD]; // amomin.w x12, x11, (x10)
    0x80B5262F: 0x10100 0x80000000 [0x7FFFFFFF 0xBAD] => 0x10004 12 0x7FFFFFFF [0x80000000 0xBAD]; // amomin.w x12, x11, (x10)
    0x80B5262F: 0x10100 0x80000000 [0x80000000 0xBAD] => 0x10004 12 0x80000000 [0x80000000 0xBAD]; // amomin.w x12, x11, (x10)
    0x80B5262F: 0x10100 0x80000000 [0 0xBAD] => 0x10004 12 0 [0x80000000 0xBAD]; // amomin.w x12, x11, (x10)
    0x80B5262F: 0x10100 0x9ABCDEF0 [0x12345678 0xBAD] => 0x10004 12 0x12345678 [0x9ABCDEF0 0xBAD]; // amomin.w x12, x11, (x10)
    0x80B5262F: 0x10104 0x0FF0FF00 [0xBAD 0xF0F0F0F0] => 0x10004 12 0xF0F0F0F0 [0xBAD 0xF0F0F0F0]; // amomin.w x12, x11, (x10)
    0x84B5262F: 0x10104 0x0FF0FF00 [0xBAD 0xF0F0F0F0] => 0x10004 12 0xF0F0F0F0 [0xBAD 0xF0F0F0F0]; // amomin.w.aq x12, x11, (x10)
    0x82B5262F: 0x10104 0x0FF0FF00 [0xBAD 0xF0F0F0F0] => 0x10004 12 0xF0F0F0F0 [0xBAD 0xF0F0F0F0]; // amomin.w.rl x12, x11, (x10)
    0x86B5262F: 0x10104 0x0FF0FF00 [0xBAD 0xF0F0F0F0] => 0x10004 12 0xF0F0F0F0 [0xBAD 0xF0F0F0F0]; // amomin.w.aqrl x12, x11, (x10)
    0x80B5202F: 0x10100 0x0F0F0F0F [0x00FF00FF 0] => 0x10004 0 0 [0x00FF00FF 0]; // amomin.w x0, x11, (x10)
    0x80B5252F: 0x10100 0x0F0F0F0F [0x00FF00FF 0] => 0x10004 10 0x00FF00FF [0x00FF00FF 0]; // amomin.w x10, x11, (x10)
    0x80B525AF: 0x10100 0x0F0F0F0F [0x00FF00FF 0] => 0x10004 11 0x00FF00FF [0x00FF00FF 0]; // amomin.w x11, x11, (x10)
    0x8005262F: 0x10100 0x0F0F0F0F [0x00FF00FF 0] => 0x10004 12 0x00FF00FF [0 0]; // amomin.w x12, x0, (x10)
    0x80A5262F: 0x10100 0x0F0F0F0F [0x00FF00FF 0] => 0x10004 12 0x00FF00FF [0x10100 0]; // amomin.w x12, x10, (x10)
    // AMOMAX.W
    0xA0B5262F: 0x10100 0 [0 0xBAD] => 0x10004 12 0 [0 0xBAD]; // amomax.w x12, x11, (x10)
    0xA0B5262F: 0x10100 0xFFFFFFFF [1 0xBAD] => 0x10004 12 1 [1 0xBAD]; // amomax.w x12, x11, (x10)
    0xA0B5262F: 0x10100 1 [0xFFFFFFFF 0xBAD] => 0x10004 12 0xFFFFFFFF [1 0xBAD]; // amomax.w x12, x11, (x10)
    0xA0B5262F: 0x10100 1 [0x7FFFFFFF 0xBAD] => 0x10004 12 0x7FFFFFFF [0x7FFFFFFF 0xBAD]; // amomax.w x12, x11, (x10)
    0xA0B5262F: 0x10100 0xFFFFFFFF [0x80000000 0xBAD] => 0x10004 12 0x80000000 [0xFFFFFFFF 0xBAD]; // amomax.w x12, x11, (x10)
    0xA0B5262F: 0x10100 0x7FFFFFFF [0x80000000 0xBAD] => 0x10004 12 0x80000000 [0x7FFFFFFF 0xBAD]; // amomax.w x12, x11, (x10)
    0xA0B5262F: 0x10100 0x80000000 [0x7FFFFFFF 0xBAD] => 0x10004 12 0x7FFFFFFF [0x7FFFFFFF 0xBAD]; // amomax.w x12, x11, (x10)
    0xA0B5262F: 0x10100 0x80000000 [0x80000000 0xBAD] => 0x10004 12 0x80000000 [0x80000000 0xBAD]; // amomax.w x12, x11, (x10)
    0xA0B5262F: 0x10100 0x80000000 [0 0xBAD] => 0x10004 12 0 [0 0xBAD]; // amomax.w x12, x11, (x10)
    0xA0B5262F: 0x10100 0x9ABCDEF0 [0x12345678 0xBAD] => 0x10004 12 0x12345678 [0x12345678 0xBAD]; // amomax.w x12, x11, (x10)
    0xA0B5262F: 0x10104 0x0FF0FF00 [0xBAD 0xF0F0F0F0] => 0x10004 12 0xF0F0F0F0 [0xBAD 0x0FF0FF00]; // amomax.w x12, x11, (x10)
    0xA4B5262F: 0x10104 0x0FF0FF00 [0xBAD 0xF0F0F0F0] => 0x10004 12 0xF0F0F0F0 [0xBAD 0x0FF0FF00]; // amomax.w.aq x12, x11, (x10)
    0xA2B5262F: 0x10104 0x0FF0FF00 [0xBAD 0xF0F0F0F0] => 0x10004 12 0xF0F0F0F0 [0xBAD 0x0FF0FF00]; // amomax.w.rl x12, x11, (x10)
    0xA6B5262F: 0x10104 0x0FF0FF00 [0xBAD 0xF0F0F0F0] => 0x10004 12 0xF0F0F0F0 [0xBAD 0x0FF0FF00]; // amomax.w.aqrl x12, x11, (x10)
    0xA0B5202F: 0x10100 0x0F0F0F0F [0x00FF00FF 0] => 0x10004 0 0 [0x0F0F0F0F 0]; // amomax.w x0, x11, (x10)
    0xA0B5252F: 0x10100 0x0F0F0F0F [0x00FF00FF 0] => 0x10004 10 0x00FF00FF [0x0F0F0F0F 0]; // amomax.w x10, x11, (x10)
    0xA0B525AF: 0x10100 0x0F0F0F0F [0x00FF00FF 0] => 0x10004 11 0x00FF00FF [0x0F0F0F0F 0]; // amomax.w x11, x11, (x10)
    0xA005262F: 0x10100 0x0F0F0F0F [0x00FF00FF 0] => 0x10004 12 0x00FF00FF [0x00FF00FF 0]; // amomax.w x12, x0, (x10)
    0xA0A5262F: 0x10100 0x0F0F0F0F [0x00FF00FF 0] => 0x10004 12 0x00FF00FF [0x00FF00FF 0]; // amomax.w x12, x10, (x10)
    // AMOMINU.W
    0xC0B5262F: 0x10100 0 [0 0xBAD] => 0x10004 12 0 [0 0xBAD]; // amominu.w x12, x11, (x10)
    0xC0B5262F: 0x10100 0xFFFFFFFF [1 0xBAD] => 0x10004 12 1 [1 0xBAD]; // amominu.w x12, x11, (x10)
    0xC0B5262F: 0x10100 1 [0xFFFFFFFF 0xBAD] => 0x10004 12 0xFFFFFFFF [1 0xBAD]; // amominu.w x12, x11, (x10)
    0xC0B5262F: 0x10100 1 [0x7FFFFFFF 0xBAD] => 0x10004 12 0x7FFFFFFF [1 0xBAD]; // amominu.w x12, x11, (x10)
    0xC0B5262F: 0x10100 0xFFFFFFFF [0x80000000 0xBAD] => 0x10004 12 0x80000000 [0x80000000 0xBAD]; // amominu.w x12, x11, (x10)
    0xC0B5262F: 0x10100 0x7FFFFFFF [0x80000000 0xBAD] => 0x10004 12 0x80000000 [0x7FFFFFFF 0xBAD]; // amominu.w x12, x11, (x10)
    0xC0B5262F: 0x10100 0x80000000 [0x7FFFFFFF 0xBAD] => 0x10004 12 0x7FFFFFFF [0x7FFFFFFF 0xBAD]; // amominu.w x12, x11, (x10)
    0xC0B5262F: 0x10100 0x80000000 [0x80000000 0xBAD] => 0x10004 12 0x80000000 [0x80000000 0xBAD]; // amominu.w x12, x11, (x10)
    0xC0B5262F: 0x10100 0x80000000 [0 0xBAD] => 0x10004 12 0 [0 0xBAD]; // amominu.w x12, x11, (x10)
    0xC0B5262F: 0x10100 0x9ABCDEF0 [0x12345678 0xBAD] => 0x10004 12 0x12345678 [0x12345678 0xBAD]; // amominu.w x12, x11, (x10)
    0xC0B5262F: 0x10104 0x0FF0FF00 [0xBAD 0xF0F0F0F0] => 0x10004 12 0xF0F0F0F0 [0xBAD 0x0FF0FF00]; // amominu.w x12, x11, (x10)
    0xC4B5262F: 0x10104 0x0FF0FF00 [0xBAD 0xF0F0F0F0] => 0x10004 12 0xF0F0F0F0 [0xBAD 0x0FF0FF00]; // amominu.w.aq x12, x11, (x10)
    0xC2B5262F: 0x10104 0x0FF0FF00 [0xBAD 0xF0F0F0F0] => 0x10004 12 0xF0F0F0F0 [0xBAD 0x0FF0FF00]; // amominu.w.rl x12, x11, (x10)
    0xC6B5262F: 0x10104 0x0FF0FF00 [0xBAD 0xF0F0F0F0] => 0x10004 12 0xF0F0F0F0 [0xBAD 0x0FF0FF00]; // amominu.w.aqrl x12, x11, (x10)
    0xC0B5202F: 0x10100 0x0F0F0F0F [0x00FF00FF 0] => 0x10004 0 0 [0x00FF00FF 0]; // amominu.w x0, x11, (x10)
    0xC0B5252F: 0x10100 0x0F0F0F0F [0x00FF00FF 0] => 0x10004 10 0x00FF00FF [0x00FF00FF 0]; // amominu.w x10, x11, (x10)
    0xC0B525AF: 0x10100 0x0F0F0F0F [0x00FF00FF 0] => 0x10004 11 0x00FF00FF [0x00FF00FF 0]; // amominu.w x11, x11, (x10)
    0xC005262F: 0x10100 0x0F0F0F0F [0x00FF00FF 0] => 0x10004 12 0x00FF00FF [0 0]; // amominu.w x12, x0, (x10)
    0xC0A5262F: 0x10100 0x0F0F0F0F [0x00FF00FF 0] => 0x10004 12 0x00FF00FF [0x10100 0]; // amominu.w x12, x10, (x10)
    // AMOMAXU.W
    0xE0B5262F: 0x10100 0 [0 0xBAD] => 0x10004 12 0 [0 0xBAD]; // amomaxu.w x12, x11, (x10)
    0xE0B5262F: 0x10100 0xFFFFFFFF [1 0xBAD] => 0x10004 12 1 [0xFFFFFFFF 0xBAD]; // amomaxu.w x12, x11, (x10)
    0xE0B5262F: 0x10100 1 [0xFFFFFFFF 0xBAD] => 0x10004 12 0xFFFFFFFF [0xFFFFFFFF 0xBAD]; // amomaxu.w x12, x11, (x10)
    0xE0B5262F: 0x10100 1 [0x7FFFFFFF 0xBAD] => 0x10004 12 0x7FFFFFFF [0x7FFFFFFF 0xBAD]; // amomaxu.w x12, x11, (x10)
    0xE0B5262F: 0x10100 0xFFFFFFFF [0x80000000 0xBAD] => 0x10004 12 0x80000000 [0xFFFFFFFF 0xBAD]; // amomaxu.w x12, x11, (x10)
    0xE0B5262F: 0x10100 0x7FFFFFFF [0x80000000 0xBAD] => 0x10004 12 0x80000000 [0x80000000 0xBAD]; // amomaxu.w x12, x11, (x10)
    0xE0B5262F: 0x10100 0x80000000 [0x7FFFFFFF 0xBAD] => 0x10004 12 0x7FFFFFFF [0x80000000 0xBAD]; // amomaxu.w x12, x11, (x10)
    0xE0B5262F: 0x10100 0x80000000 [0x80000000 0xBAD] => 0x10004 12 0x80000000 [0x80000000 0xBAD]; // amomaxu.w x12, x11, (x10)
    0xE0B5262F: 0x10100 0x80000000 [0 0xBAD] => 0x10004 12 0 [0x80000000 0xBAD]; // amomaxu.w x12, x11, (x10)
    0xE0B5262F: 0x10100 0x9ABCDEF0 [0x12345678 0xBAD] => 0x10004 12 0x12345678 [0x9ABCDEF0 0xBAD]; // amomaxu.w x12, x11, (x10)
    0xE0B5262F: 0x10104 0x0FF0FF00 [0xBAD 0xF0F0F0F0] => 0x10004 12 0xF0F0F0F0 [0xBAD 0xF0F0F0F0]; // amomaxu.w x12, x11, (x10)
    0xE4B5262F: 0x10104 0x0FF0FF00 [0xBAD 0xF0F0F0F0] => 0x10004 12 0xF0F0F0F0 [0xBAD 0xF0F0F0F0]; // amomaxu.w.aq x12, x11, (x10)
    0xE2B5262F: 0x10104 0x0FF0FF00 [0xBAD 0xF0F0F0F0] => 0x10004 12 0xF0F0F0F0 [0xBAD 0xF0F0F0F0]; // amomaxu.w.rl x12, x11, (x10)
    0xE6B5262F: 0x10104 0x0FF0FF00 [0xBAD 0xF0F0F0F0] => 0x10004 12 0xF0F0F0F0 [0xBAD 0xF0F0F0F0]; // amomaxu.w.aqrl x12, x11, (x10)
    0xE0B5202F: 0x10100 0x0F0F0F0F [0x00FF00FF 0] => 0x10004 0 0 [0x0F0F0F0F 0]; // amomaxu.w x0, x11, (x10)
    0xE0B5252F: 0x10100 0x0F0F0F0F [0x00FF00FF 0] => 0x10004 10 0x00FF00FF [0x0F0F0F0F 0]; // amomaxu.w x10, x11, (x10)
    0xE0B525AF: 0x10100 0x0F0F0F0F [0x00FF00FF 0] => 0x10004 11 0x00FF00FF [0x0F0F0F0F 0]; // amomaxu.w x11, x11, (x10)
    0xE005262F: 0x10100 0x0F0F0F0F [0x00FF00FF 0] => 0x10004 12 0x00FF00FF [0x00FF00FF 0]; // amomaxu.w x12, x0, (x10)
    0xE0A5262F: 0x10100 0x0F0F0F0F [0x00FF00FF 0] => 0x10004 12 0x00FF00FF [0x00FF00FF 0]; // amomaxu.w x12, x10, (x10)
};
