//! How a word spells its operands, by format (RISC-V unprivileged manual 20191213, sections 2.2 and 2.3), and the operation
//! of an instruction.
ghost use Rattle.std.specs.Prelude.{◌≡◌};
ghost use Rattle.asc_model.specs.Instruction.{op_of, operands, U, J, I, Shift, S, B, R};

use crate::fields::{
    immediate_b, immediate_i, immediate_j, immediate_s, immediate_u, rd, rs1, rs2, shamt,
};
use asc_model::{Instr, Op};

/// The operation of an instruction.
#[inline(always)]
pub fn operation(instruction: Instr) -> Op
    ensures { result ≡ op_of instruction }
{
    match instruction {
        Instr::U { op, .. }
        | Instr::J { op, .. }
        | Instr::I { op, .. }
        | Instr::S { op, .. }
        | Instr::B { op, .. }
        | Instr::R { op, .. }
        | Instr::Plain { op } => op,
    }
}

/// A register and an upper immediate.
#[inline(always)]
pub(crate) fn u_type(op: Op, word: u32) -> Instr
    ensures { result ≡ operands U op word }
{
    Instr::U {
        op,
        rd: rd(word),
        imm: immediate_u(word),
    }
}

/// A register and a jump's offset.
#[inline(always)]
pub(crate) fn j_type(op: Op, word: u32) -> Instr
    ensures { result ≡ operands J op word }
{
    Instr::J {
        op,
        rd: rd(word),
        imm: immediate_j(word),
    }
}

/// Two registers and an immediate.
#[inline(always)]
pub(crate) fn i_type(op: Op, word: u32) -> Instr
    ensures { result ≡ operands I op word }
{
    Instr::I {
        op,
        rd: rd(word),
        rs1: rs1(word),
        imm: immediate_i(word),
    }
}

/// A shift by an immediate: format I, with the amount as its immediate.
#[inline(always)]
pub(crate) fn shift(op: Op, word: u32) -> Instr
    ensures { result ≡ operands Shift op word }
{
    Instr::I {
        op,
        rd: rd(word),
        rs1: rs1(word),
        imm: shamt(word),
    }
}

/// A store's registers and offset.
#[inline(always)]
pub(crate) fn s_type(op: Op, word: u32) -> Instr
    ensures { result ≡ operands S op word }
{
    Instr::S {
        op,
        rs1: rs1(word),
        rs2: rs2(word),
        imm: immediate_s(word),
    }
}

/// A branch's registers and offset.
#[inline(always)]
pub(crate) fn b_type(op: Op, word: u32) -> Instr
    ensures { result ≡ operands B op word }
{
    Instr::B {
        op,
        rs1: rs1(word),
        rs2: rs2(word),
        imm: immediate_b(word),
    }
}

/// Three registers.
#[inline(always)]
pub(crate) fn r_type(op: Op, word: u32) -> Instr
    ensures { result ≡ operands R op word }
{
    Instr::R {
        op,
        rd: rd(word),
        rs1: rs1(word),
        rs2: rs2(word),
    }
}
