//! Words and the instructions that they are. Where an instruction stands beside a word, llvm-mc (LLVM 14.0.6) made the
//! word of it; the other words are written after the manual's encoding.
use asc_isa::{decode, decode_likely};
use asc_model::{Instr, Op};
use std::process::Abort;

/// The decoder answers this instruction for a word with the atomics, and that one without. The one of operations that
/// programs do most answers it too, or none.
fn assert_decoded<R: Abort>(rt: &R, word: u32, with: Option<Instr>, without: Option<Instr>) {
    for (atomics, want) in [(true, with), (false, without)] {
        assert_eq!(rt; decode::<()>(word, atomics), want, "{word}");
    }
    let likely = decode_likely::<()>(word);
    assert!(rt; likely.is_none() || likely == without, "{word}");
}

#[test]
fn likely_operations(rt: HostRuntime) {
    // lui x5, 0x12345
    assert_eq!(rt;
        decode_likely::<()>(0x1234_52B7),
        Some(Instr::U {
            op: Op::Lui,
            rd: 5,
            imm: 0x1234_5000
        })
    );
    // ecall
    assert_eq!(rt; decode_likely::<()>(0x0000_0073), None);
}

#[test]
fn format_u(rt: HostRuntime) {
    for (word, op, rd, imm) in [
        // lui x5, 0x12345
        (0x1234_52B7, Op::Lui, 5, 0x1234_5000),
        // lui x31, 0x80000
        (0x8000_0FB7, Op::Lui, 31, 0x8000_0000),
        // lui x0, 0xfffff
        (0xFFFF_F037, Op::Lui, 0, 0xFFFF_F000),
        // lui x1, 1
        (0x0000_10B7, Op::Lui, 1, 0x1000),
        // lui x1, 0
        (0x0000_00B7, Op::Lui, 1, 0),
        // auipc x10, 0xabcde
        (0xABCD_E517, Op::Auipc, 10, 0xABCD_E000),
        // auipc x31, 0x7ffff
        (0x7FFF_FF97, Op::Auipc, 31, 0x7FFF_F000),
    ] {
        let want = Some(Instr::U { op, rd, imm });
        assert_decoded(&rt, word, want, want);
    }
}

#[test]
fn format_j(rt: HostRuntime) {
    for (word, op, rd, imm) in [
        // jal x1, 2048
        (0x0010_00EF, Op::Jal, 1, 2048),
        // jal x0, -2
        (0xFFFF_F06F, Op::Jal, 0, 0xFFFF_FFFE),
        // jal x5, 1048574
        (0x7FFF_F2EF, Op::Jal, 5, 0x000F_FFFE),
        // jal x31, -1048576
        (0x8000_0FEF, Op::Jal, 31, 0xFFF0_0000),
        // jal x3, 4096
        (0x0000_11EF, Op::Jal, 3, 0x0000_1000),
        // jal x4, 30
        (0x01E0_026F, Op::Jal, 4, 30),
        // jal x2, -2050
        (0xFFEF_F16F, Op::Jal, 2, 0xFFFF_F7FE),
    ] {
        let want = Some(Instr::J { op, rd, imm });
        assert_decoded(&rt, word, want, want);
    }
}

/// Words of format I, each with its operation, destination, source and immediate.
static ROWS_OF_I: [(u32, Op, u8, u8, u32); 20] = [
    // jalr x1, -4(x5)
    (0xFFC2_80E7, Op::Jalr, 1, 5, 0xFFFF_FFFC),
    // jalr x0, 2047(x31)
    (0x7FFF_8067, Op::Jalr, 0, 31, 2047),
    // lb x1, 2047(x2)
    (0x7FF1_0083, Op::Lb, 1, 2, 2047),
    // lh x3, -2048(x4)
    (0x8002_1183, Op::Lh, 3, 4, 0xFFFF_F800),
    // lw x31, -1(x8)
    (0xFFF4_2F83, Op::Lw, 31, 8, 0xFFFF_FFFF),
    // lbu x7, 1(x31)
    (0x001F_C383, Op::Lbu, 7, 31, 1),
    // lhu x9, 1024(x10)
    (0x4005_5483, Op::Lhu, 9, 10, 1024),
    // addi x1, x31, 2047
    (0x7FFF_8093, Op::Addi, 1, 31, 2047),
    // addi x0, x0, 0
    (0x0000_0013, Op::Addi, 0, 0, 0),
    // slti x2, x30, -2048
    (0x800F_2113, Op::Slti, 2, 30, 0xFFFF_F800),
    // sltiu x3, x29, -1
    (0xFFFE_B193, Op::Sltiu, 3, 29, 0xFFFF_FFFF),
    // xori x4, x28, 1365
    (0x555E_4213, Op::Xori, 4, 28, 1365),
    // ori x5, x27, 1
    (0x001D_E293, Op::Ori, 5, 27, 1),
    // andi x31, x1, 1024
    (0x4000_FF93, Op::Andi, 31, 1, 1024),
    // slli x1, x2, 31
    (0x01F1_1093, Op::Slli, 1, 2, 31),
    // slli x3, x4, 0
    (0x0002_1193, Op::Slli, 3, 4, 0),
    // srli x5, x6, 1
    (0x0013_5293, Op::Srli, 5, 6, 1),
    // srli x31, x7, 31
    (0x01F3_DF93, Op::Srli, 31, 7, 31),
    // srai x8, x31, 31
    (0x41FF_D413, Op::Srai, 8, 31, 31),
    // srai x9, x10, 0
    (0x4005_5493, Op::Srai, 9, 10, 0),
];

#[test]
fn format_i(rt: HostRuntime) {
    for (word, op, rd, rs1, imm) in ROWS_OF_I {
        let want = Some(Instr::I { op, rd, rs1, imm });
        assert_decoded(&rt, word, want, want);
    }
}

#[test]
fn format_s(rt: HostRuntime) {
    for (word, op, rs1, rs2, imm) in [
        // sb x3, 2047(x2)
        (0x7E31_0FA3, Op::Sb, 2, 3, 2047),
        // sh x5, -2048(x4)
        (0x8052_1023, Op::Sh, 4, 5, 0xFFFF_F800),
        // sw x6, -1(x31)
        (0xFE6F_AFA3, Op::Sw, 31, 6, 0xFFFF_FFFF),
        // sw x31, 31(x6)
        (0x01F3_2FA3, Op::Sw, 6, 31, 31),
        // sb x30, 32(x1)
        (0x03E0_8023, Op::Sb, 1, 30, 32),
        // sh x9, -32(x9)
        (0xFE94_9023, Op::Sh, 9, 9, 0xFFFF_FFE0),
    ] {
        let want = Some(Instr::S { op, rs1, rs2, imm });
        assert_decoded(&rt, word, want, want);
    }
}

#[test]
fn format_b(rt: HostRuntime) {
    for (word, op, rs1, rs2, imm) in [
        // beq x1, x30, 4094
        (0x7FE0_8FE3, Op::Beq, 1, 30, 4094),
        // bne x1, x30, -4096
        (0x81E0_9063, Op::Bne, 1, 30, 0xFFFF_F000),
        // blt x1, x30, -2
        (0xFFE0_CFE3, Op::Blt, 1, 30, 0xFFFF_FFFE),
        // bge x1, x30, 2048
        (0x01E0_D0E3, Op::Bge, 1, 30, 2048),
        // bltu x1, x30, 30
        (0x01E0_EF63, Op::Bltu, 1, 30, 30),
        // bgeu x1, x30, 32
        (0x03E0_F063, Op::Bgeu, 1, 30, 32),
        // beq x31, x0, -2050
        (0xFE0F_8F63, Op::Beq, 31, 0, 0xFFFF_F7FE),
        // bne x0, x31, 1024
        (0x41F0_1063, Op::Bne, 0, 31, 1024),
    ] {
        let want = Some(Instr::B { op, rs1, rs2, imm });
        assert_decoded(&rt, word, want, want);
    }
}

/// Words of format R, each with its operation, destination and sources.
static ROWS_OF_R: [(u32, Op, u8, u8, u8); 18] = [
    // add x1, x30, x10
    (0x00AF_00B3, Op::Add, 1, 30, 10),
    // sub x2, x29, x17
    (0x411E_8133, Op::Sub, 2, 29, 17),
    // sll x3, x28, x24
    (0x018E_11B3, Op::Sll, 3, 28, 24),
    // slt x4, x27, x31
    (0x01FD_A233, Op::Slt, 4, 27, 31),
    // sltu x5, x26, x6
    (0x006D_32B3, Op::Sltu, 5, 26, 6),
    // xor x6, x25, x13
    (0x00DC_C333, Op::Xor, 6, 25, 13),
    // srl x7, x24, x20
    (0x014C_53B3, Op::Srl, 7, 24, 20),
    // sra x8, x23, x27
    (0x41BB_D433, Op::Sra, 8, 23, 27),
    // or x9, x22, x2
    (0x002B_64B3, Op::Or, 9, 22, 2),
    // and x10, x21, x9
    (0x009A_F533, Op::And, 10, 21, 9),
    // mul x11, x20, x16
    (0x030A_05B3, Op::Mul, 11, 20, 16),
    // mulh x12, x19, x23
    (0x0379_9633, Op::Mulh, 12, 19, 23),
    // mulhsu x13, x18, x30
    (0x03E9_26B3, Op::Mulhsu, 13, 18, 30),
    // mulhu x14, x17, x5
    (0x0258_B733, Op::Mulhu, 14, 17, 5),
    // div x15, x16, x12
    (0x02C8_47B3, Op::Div, 15, 16, 12),
    // divu x16, x15, x19
    (0x0337_D833, Op::Divu, 16, 15, 19),
    // rem x17, x14, x26
    (0x03A7_68B3, Op::Rem, 17, 14, 26),
    // remu x18, x13, x1
    (0x0216_F933, Op::Remu, 18, 13, 1),
];

#[test]
fn format_r(rt: HostRuntime) {
    for (word, op, rd, rs1, rs2) in ROWS_OF_R {
        let want = Some(Instr::R { op, rd, rs1, rs2 });
        assert_decoded(&rt, word, want, want);
    }
}

#[test]
fn no_operands(rt: HostRuntime) {
    for (word, op) in [
        // fence iorw, iorw
        (0x0FF0_000F, Op::Fence),
        // fence rw, w
        (0x0310_000F, Op::Fence),
        // fence.tso
        (0x8330_000F, Op::Fence),
        // fence.i
        (0x0000_100F, Op::FenceI),
        // ecall
        (0x0000_0073, Op::Ecall),
        // ebreak
        (0x0010_0073, Op::Ebreak),
    ] {
        let want = Some(Instr::Plain { op });
        assert_decoded(&rt, word, want, want);
    }
}

#[test]
fn atomics(rt: HostRuntime) {
    for (word, op, rd, rs1, rs2) in [
        // lr.w x5, (x6)
        (0x1003_22AF, Op::LrW, 5, 6, 0),
        // lr.w.aqrl x31, (x1)
        (0x1600_AFAF, Op::LrW, 31, 1, 0),
        // sc.w.aq x1, x30, (x13)
        (0x1DE6_A0AF, Op::ScW, 1, 13, 30),
        // amoswap.w.rl x2, x29, (x14)
        (0x0BD7_212F, Op::AmoswapW, 2, 14, 29),
        // amoadd.w.aqrl x3, x28, (x15)
        (0x07C7_A1AF, Op::AmoaddW, 3, 15, 28),
        // amoxor.w x4, x27, (x16)
        (0x21B8_222F, Op::AmoxorW, 4, 16, 27),
        // amoand.w.aq x5, x26, (x17)
        (0x65A8_A2AF, Op::AmoandW, 5, 17, 26),
        // amoor.w.rl x6, x25, (x18)
        (0x4399_232F, Op::AmoorW, 6, 18, 25),
        // amomin.w.aqrl x7, x24, (x19)
        (0x8789_A3AF, Op::AmominW, 7, 19, 24),
        // amomax.w x8, x23, (x20)
        (0xA17A_242F, Op::AmomaxW, 8, 20, 23),
        // amominu.w.aq x9, x22, (x21)
        (0xC56A_A4AF, Op::AmominuW, 9, 21, 22),
        // amomaxu.w.rl x10, x21, (x22)
        (0xE35B_252F, Op::AmomaxuW, 10, 22, 21),
    ] {
        let want = Some(Instr::R { op, rd, rs1, rs2 });
        assert_decoded(&rt, word, want, None);
    }
}

/// Words that are no instruction, with the atomics or without.
static NO_INSTRUCTIONS: [u32; 53] = [
    // nothing
    0x0000_0000,
    // all ones
    0xFFFF_FFFF,
    // c.nop
    0x0000_0001,
    // c.li x10, 0
    0x0000_4501,
    // mret
    0x3020_0073,
    // sret
    0x1020_0073,
    // wfi
    0x1050_0073,
    // csrrw x1, mstatus, x2
    0x3001_10F3,
    // csrrsi x0, mstatus, 8
    0x3004_6073,
    // rdcycle x5
    0xC000_22F3,
    // slli x1, x2, 32
    0x0201_1093,
    // srli x1, x2, 32
    0x0201_5093,
    // srai x1, x2, 33
    0x4211_5093,
    // ld x1, 0(x2)
    0x0001_3083,
    // lwu x1, 0(x2)
    0x0001_6083,
    // sd x1, 0(x2)
    0x0011_3023,
    // addiw x1, x2, 3
    0x0031_009B,
    // addw x1, x2, x3
    0x0031_00BB,
    // lr.d x1, (x2)
    0x1001_30AF,
    // sc.d x1, x3, (x2)
    0x1831_30AF,
    // amoadd.d x1, x3, (x2)
    0x0031_30AF,
    // flw f1, 0(x2)
    0x0001_2087,
    // fsw f1, 0(x2)
    0x0011_2027,
    // fadd.s f1, f2, f3
    0x0031_70D3,
    // andn x1, x2, x3
    0x4031_70B3,
    // rol x1, x2, x3
    0x6031_10B3,
    // rori x1, x2, 3
    0x6031_5093,
    // sh1add x1, x2, x3
    0x2031_20B3,
    // max x1, x2, x3
    0x0A31_60B3,
    // bset x1, x2, x3
    0x2831_10B3,
    // bseti x1, x2, 3
    0x2831_1093,
    // branch with funct3 010
    0x0020_A063,
    // branch with funct3 011
    0x0020_B063,
    // load with funct3 111
    0x0001_7083,
    // store with funct3 111
    0x0011_7023,
    // store with funct3 100
    0x0011_4023,
    // JALR with funct3 001
    0x0002_90E7,
    // JALR with funct3 111
    0x0002_F0E7,
    // FENCE with funct3 010
    0x0001_200F,
    // SUB with funct3 001
    0x4031_10B3,
    // MUL with funct7 0000011
    0x0631_00B3,
    // ADD with funct7 1000000
    0x8031_00B3,
    // SLLI with funct7 0100000
    0x4031_1093,
    // ECALL with rd 1
    0x0000_00F3,
    // ECALL with rs1 1
    0x0000_8073,
    // EBREAK with rd 1
    0x0010_00F3,
    // ECALL of 2
    0x0020_0073,
    // opcode of 16 bits
    0x0000_0012,
    // LR with rs2 1
    0x1013_22AF,
    // LR with rs2 16
    0x1103_22AF,
    // AMO with funct5 00101
    0x2873_22AF,
    // AMO with funct5 11111
    0xF873_22AF,
    // AMO with funct3 000
    0x0073_02AF,
];

#[test]
fn words_of_no_instruction(rt: HostRuntime) {
    for word in NO_INSTRUCTIONS {
        assert_decoded(&rt, word, None, None);
    }
}
