//! Which instruction a word is (RISC-V unprivileged manual 20191213, chapter 24).
ghost use Rattle.std.specs.Prelude.{◌≡◌, ◌==◌, IfSome, None, Some, true, if◌then◌else◌};
ghost use Rattle.asc_model.specs.Instruction.{decode, find, fits, opcode, operands, base_table, atomic_table, funct7, Major, Minor, R};
ghost use Rattle.asc_isa.specs.Decode.{version_of, HasRegisters};
ghost use Rattle.asc_isa.specs.Rows.{rows_for};

use crate::encoding::{Encoding, encoding_of};
use crate::fields::{funct5, funct7, rs2};
use crate::operands::{b_type, i_type, j_type, r_type, s_type, shift, u_type};
use asc_model::{Instr, Op};

/// The instruction that a word is in RV32IM with Zifencei, and where `atomics` holds with RV32A too (RISC-V unprivileged
/// manual 20191213, chapter 24).
///
/// It is `None` where the word is none of these.
///
/// It has an arm for each operation, which builds its instruction itself. From each of these arms a compiler can lead to
/// code for that operation alone, which makes a step cheaper.
///
/// `K` is any type. It tells callers apart: each has a copy of all this that is called by it alone, and which the compiler
/// then takes into it. A decoder that is called from two places would be taken into neither.
#[inline(always)]
pub fn decode<K>(word: u32, atomics: bool) -> Option<Instr>
    ensures instruction { result ≡ decode (version_of atomics) word }
    ensures registers { IfSome result HasRegisters }
{
    instruction::<K>(word, atomics)
}

/// The instruction of a word, by its encoding. It is not in `decode`, so that what is said of registers is shown once.
#[inline(always)]
fn instruction<K>(word: u32, atomics: bool) -> Option<Instr>
    ensures { result ≡ decode (version_of atomics) word }
{
    match encoding_of(word) {
        Encoding::Lui => Some(u_type(Op::Lui, word)),
        Encoding::Auipc => Some(u_type(Op::Auipc, word)),
        Encoding::Jal => Some(j_type(Op::Jal, word)),
        Encoding::Jalr => Some(i_type(Op::Jalr, word)),
        Encoding::Beq => Some(b_type(Op::Beq, word)),
        Encoding::Bne => Some(b_type(Op::Bne, word)),
        Encoding::Blt => Some(b_type(Op::Blt, word)),
        Encoding::Bge => Some(b_type(Op::Bge, word)),
        Encoding::Bltu => Some(b_type(Op::Bltu, word)),
        Encoding::Bgeu => Some(b_type(Op::Bgeu, word)),
        Encoding::Lb => Some(i_type(Op::Lb, word)),
        Encoding::Lh => Some(i_type(Op::Lh, word)),
        Encoding::Lw => Some(i_type(Op::Lw, word)),
        Encoding::Lbu => Some(i_type(Op::Lbu, word)),
        Encoding::Lhu => Some(i_type(Op::Lhu, word)),
        Encoding::Sb => Some(s_type(Op::Sb, word)),
        Encoding::Sh => Some(s_type(Op::Sh, word)),
        Encoding::Sw => Some(s_type(Op::Sw, word)),
        Encoding::Addi => Some(i_type(Op::Addi, word)),
        Encoding::Slti => Some(i_type(Op::Slti, word)),
        Encoding::Sltiu => Some(i_type(Op::Sltiu, word)),
        Encoding::Xori => Some(i_type(Op::Xori, word)),
        Encoding::Ori => Some(i_type(Op::Ori, word)),
        Encoding::Andi => Some(i_type(Op::Andi, word)),
        Encoding::Slli => slli(word),
        Encoding::Srli => srli_or_srai(word),
        Encoding::Add => op_or(word, Op::Add, Op::Sub, Op::Mul),
        Encoding::Sll => op(word, Op::Sll, Op::Mulh),
        Encoding::Slt => op(word, Op::Slt, Op::Mulhsu),
        Encoding::Sltu => op(word, Op::Sltu, Op::Mulhu),
        Encoding::Xor => op(word, Op::Xor, Op::Div),
        Encoding::Srl => op_or(word, Op::Srl, Op::Sra, Op::Divu),
        Encoding::Or => op(word, Op::Or, Op::Rem),
        Encoding::And => op(word, Op::And, Op::Remu),
        Encoding::Fence => Some(Instr::Plain { op: Op::Fence }),
        Encoding::FenceI => Some(Instr::Plain { op: Op::FenceI }),
        Encoding::System => system(word),
        Encoding::Atomic => if atomics { amo(word) } else { None },
        Encoding::Other => None,
    }
}

/// SLLI, whose words have 0 in funct7.
#[inline(always)]
fn slli(word: u32) -> Option<Instr>
    requires { fits (Minor 0b0010011 0b001) word ≡ true }
    ensures { result ≡ find (rows_for (Minor 0b0010011 0b001) base_table) word }
{
    match funct7(word) {
        0b0000000 => Some(shift(Op::Slli, word)),
        _ => None,
    }
}

/// SRLI and SRAI, which funct7 tells apart.
#[inline(always)]
fn srli_or_srai(word: u32) -> Option<Instr>
    requires { fits (Minor 0b0010011 0b101) word ≡ true }
    ensures { result ≡ find (rows_for (Minor 0b0010011 0b101) base_table) word }
{
    match funct7(word) {
        0b0000000 => Some(shift(Op::Srli, word)),
        0b0100000 => Some(shift(Op::Srai, word)),
        _ => None,
    }
}

/// An operation on two registers: this one of RV32I where funct7 is 0, and this one of RV32M where it is 1.
#[inline(always)]
fn op(word: u32, base: Op, multiply: Op) -> Option<Instr>
    ensures { result ≡ (if funct7 word == 0b0000000 then Some (operands R base word)
        else if funct7 word == 0b0000001 then Some (operands R multiply word) else None) }
{
    // Most words of it have 0 in the seven bits of funct7.
    if word < 1 << 25 {
        return Some(r_type(base, word));
    }
    match funct7(word) {
        0b0000001 => Some(r_type(multiply, word)),
        _ => None,
    }
}

/// An operation on two registers as `op` has it, and this other one of RV32I where funct7 is 32.
#[inline(always)]
fn op_or(word: u32, base: Op, other: Op, multiply: Op) -> Option<Instr>
    ensures { result ≡ (if funct7 word == 0b0000000 then Some (operands R base word)
        else if funct7 word == 0b0100000 then Some (operands R other word)
        else if funct7 word == 0b0000001 then Some (operands R multiply word) else None) }
{
    if word < 1 << 25 {
        return Some(r_type(base, word));
    }
    match funct7(word) {
        0b0100000 => Some(r_type(other, word)),
        0b0000001 => Some(r_type(multiply, word)),
        _ => None,
    }
}

/// SYSTEM: the words that call the environment.
#[inline(always)]
fn system(word: u32) -> Option<Instr>
    requires { opcode word ≡ 0b1110011 }
    ensures { result ≡ find (rows_for (Major 0b1110011) base_table) word }
{
    match word {
        0x0000_0073 => Some(Instr::Plain { op: Op::Ecall }),
        0x0010_0073 => Some(Instr::Plain { op: Op::Ebreak }),
        _ => None,
    }
}

/// AMO: the atomics on words.
///
/// It is always taken into its caller. Else its answer would lie in memory, and then no arm leads to its own code.
#[inline(always)]
fn amo(word: u32) -> Option<Instr>
    requires { fits (Minor 0b0101111 0b010) word ≡ true }
    ensures { result ≡ find (rows_for (Minor 0b0101111 0b010) atomic_table) word }
{
    match funct5(word) {
        0b00010 if rs2(word) == 0 => Some(r_type(Op::LrW, word)),
        0b00011 => Some(r_type(Op::ScW, word)),
        0b00001 => Some(r_type(Op::AmoswapW, word)),
        0b00000 => Some(r_type(Op::AmoaddW, word)),
        0b00100 => Some(r_type(Op::AmoxorW, word)),
        0b01100 => Some(r_type(Op::AmoandW, word)),
        0b01000 => Some(r_type(Op::AmoorW, word)),
        0b10000 => Some(r_type(Op::AmominW, word)),
        0b10100 => Some(r_type(Op::AmomaxW, word)),
        0b11000 => Some(r_type(Op::AmominuW, word)),
        0b11100 => Some(r_type(Op::AmomaxuW, word)),
        _ => None,
    }
}
