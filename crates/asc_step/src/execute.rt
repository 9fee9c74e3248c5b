//! Carrying out an instruction.
ghost use Rattle.std.specs.Prelude.{◌≡◌, ◌≤◌, Some};
ghost use Rattle.asc_model.specs.Machine.{view_of};
ghost use Rattle.asc_model.specs.Instruction.{op_of, rd_of, rs1_of, rs2_of, imm_of};
ghost use Rattle.asc_model.specs.Places.{operand_places};
ghost use Rattle.asc_model.specs.Step.{effect_of, outcome_of_word};
ghost use Rattle.asc_isa.specs.Decode.{HasRegisters};
ghost use Rattle.asc_shape.specs.Face.{room_of};
ghost use Rattle.asc_step.specs.Execute.{AtInstruction, IsOfVersion, RunsSettled, answer_of, face_after_outcome};

use crate::Stepped;
use crate::effect::{Operands, effect_of};
use crate::finish::finish;
use crate::places::register;
use asc_model::{Instr, Op};
use asc_shape::{Shape, Words};

/// An instruction's operation, registers and immediate. What its format lacks is 0.
#[derive(Clone, Copy)]
struct Parts {
    op: Op,
    rd: u8,
    rs1: u8,
    rs2: u8,
    immediate: u32,
}

#[inline(always)]
fn split(instruction: Instr) -> Parts
    ensures op { result.op ≡ op_of instruction }
    ensures rd { result.rd ≡ rd_of instruction }
    ensures rs1 { result.rs1 ≡ rs1_of instruction }
    ensures rs2 { result.rs2 ≡ rs2_of instruction }
    ensures immediate { result.immediate ≡ imm_of instruction }
{
    let parts = |op, rd, rs1, rs2, immediate| Parts {
        op,
        rd,
        rs1,
        rs2,
        immediate,
    };
    match instruction {
        Instr::U { op, rd, imm } | Instr::J { op, rd, imm } => parts(op, rd, 0, 0, imm),
        Instr::I { op, rd, rs1, imm } => parts(op, rd, rs1, 0, imm),
        Instr::S { op, rs1, rs2, imm } | Instr::B { op, rs1, rs2, imm } => {
            parts(op, 0, rs1, rs2, imm)
        }
        Instr::R { op, rd, rs1, rs2 } => parts(op, rd, rs1, rs2, 0),
        Instr::Plain { op } => parts(op, 0, 0, 0, 0),
    }
}

/// Carries out the instruction at this pc. Its registers are settled where `SETTLED` says so.
#[inline(always)]
pub(crate) fn execute<B: Words, const SETTLED: bool>(
    bytes: &mut B,
    shape: Shape,
    pc: u32,
    instruction: Instr,
) -> Stepped
    requires shape { shape ≡ (B.face bytes.old).state.shape }
    requires registers { HasRegisters instruction }
    requires at { AtInstruction (B.face bytes.old) pc }
    requires version { let s = (B.face bytes.old).state in
        IsOfVersion s.shape.version (effect_of (view_of s) instruction) }
    requires settled { RunsSettled SETTLED (B.face bytes.old).marks instruction }
    requires room { 22 ≤ room_of (B.face bytes.old).marks }
    ensures answer { let s = (B.face bytes.old).state in
        result ≡ answer_of (outcome_of_word s.shape (view_of s) (Some instruction)) }
    ensures face { let s = (B.face bytes.old).state in
        B.face bytes.new ≡ face_after_outcome (B.face bytes.old)
        (operand_places s.shape (view_of s) (Some instruction))
        (outcome_of_word s.shape (view_of s) (Some instruction)) }
{
    let Parts {
        op,
        rd,
        rs1,
        rs2,
        immediate,
    } = split(instruction);
    let a = register::<B, SETTLED>(bytes, rs1);
    let b = register::<B, SETTLED>(bytes, rs2);
    let effect = effect_of(
        op,
        Operands {
            pc,
            a,
            b,
            immediate,
        },
    );
    finish::<B, SETTLED>(bytes, shape, pc, rd, effect)
}
