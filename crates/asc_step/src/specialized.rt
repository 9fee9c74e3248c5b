//! One step of the machine, with code of its own for each operation.
//!
//! It comes to what `try_step` comes to. There are two since a plain step is cheaper with such code for all operations,
//! and a tracer's step with such code for those alone that programs do most.
ghost use Rattle.std.specs.Prelude.{◌≡◌, ◌≤◌, Some};
ghost use Rattle.asc_model.specs.Machine.{view_of};
ghost use Rattle.asc_model.specs.Instruction.{op_of};
ghost use Rattle.asc_model.specs.Places.{operand_places};
ghost use Rattle.asc_model.specs.Step.{effect_of, outcome_of_word};
ghost use Rattle.asc_isa.specs.Decode.{HasRegisters};
ghost use Rattle.asc_shape.specs.Face.{room_of};
ghost use Rattle.asc_step.specs.Execute.{AtInstruction, IsOfVersion, RunsSettled, answer_of, face_after_outcome};
ghost use Rattle.asc_step.specs.Step.{Attempts};

use crate::Stepped;
use crate::execute::execute;
use crate::faults::{fault, word_fault};
use crate::places::read_word;
use crate::version::has_atomics;
use asc_isa::{decode, operation};
use asc_model::{FaultKind, Instr, Op, STEP_ROOM};
use asc_shape::{Shape, Words};

/// A match with an arm for each of these operations, all of which do the same.
///
/// So the compiler makes code of its own for each operation, to which decoding leads at once.
macro_rules! each_operation {
    ($operation:expr => $execute:expr; $($op:ident)*) => {
        match $operation { $(Op::$op => $execute),* }
    };
    ($operation:expr => $execute:expr; $($op:ident)*; _ => $rest:expr) => {
        match $operation { $(Op::$op => $execute,)* _ => $rest }
    };
}

/// Takes one step of a state of this shape as `try_step` does, with code of its own for each operation.
///
/// `K` is any type. It tells loops of steps apart: each has a copy of this that is called there alone, which the compiler
/// then takes into the loop.
#[inline]
pub(crate) fn step_specialized<B: Words, K>(bytes: &mut B, shape: Shape) -> Stepped
    requires shape { shape ≡ (B.face bytes.old).state.shape }
    requires room { STEP_ROOM ≤ room_of (B.face bytes.old).marks }
    ensures { Attempts (B.face bytes.old) (B.face bytes.new) result }
{
    // That its state is one, and its marks fit it.
    let _ = bytes.shape();
    let pc = read_word(bytes, 0);
    if let Some(kind) = word_fault(shape, pc, FaultKind::Misaligned, FaultKind::FetchOutside) {
        return fault(kind, pc, pc);
    }
    let word = read_word(bytes, shape.place_of(pc));
    match decode::<K>(word, has_atomics(shape.version())) {
        Some(instruction) => execute_specialized::<B, K>(bytes, shape, pc, instruction),
        None => fault(FaultKind::Illegal, pc, word),
    }
}

/// Carries out the instruction at this pc, as `execute` does.
#[inline]
fn execute_specialized<B: Words, K>(
    bytes: &mut B,
    shape: Shape,
    pc: u32,
    instruction: Instr,
) -> Stepped
    requires shape { shape ≡ (B.face bytes.old).state.shape }
    requires registers { HasRegisters instruction }
    requires at { AtInstruction (B.face bytes.old) pc }
    requires version { let s = (B.face bytes.old).state in
        IsOfVersion s.shape.version (effect_of (view_of s) instruction) }
    requires room { 22 ≤ room_of (B.face bytes.old).marks }
    ensures answer { let s = (B.face bytes.old).state in
        result ≡ answer_of (outcome_of_word s.shape (view_of s) (Some instruction)) }
    ensures face { let s = (B.face bytes.old).state in
        B.face bytes.new ≡ face_after_outcome (B.face bytes.old)
        (operand_places s.shape (view_of s) (Some instruction))
        (outcome_of_word s.shape (view_of s) (Some instruction)) }
{
    each_operation!(
        operation(instruction) => execute::<B, false>(bytes, shape, pc, instruction);
        Lui Auipc Jal Jalr Beq Bne Blt Bge Bltu Bgeu Lb Lh Lw Lbu Lhu Sb Sh Sw Addi Slti Sltiu Xori
        Ori Andi Slli Srli Srai Add Sub Sll Slt Sltu Xor Srl Sra Or And Fence FenceI Ecall Ebreak
        Mul Mulh Mulhsu Mulhu Div Divu Rem Remu LrW ScW AmoswapW AmoaddW AmoxorW AmoandW AmoorW
        AmominW AmomaxW AmominuW AmomaxuW
    )
}

/// Carries out the instruction at this pc, as `execute` does, with code of its own for the operations that programs do
/// most. The registers of the instruction are settled where `SETTLED` says so.
///
/// With many more arms the compiler no longer takes this into the loop of a trace, which then is slower. The last arm is for
/// none of the operations that `decode_likely` answers, and is a call, so that it takes no room here. What it came to is in
/// `rare`, which the caller's caller keeps: memory for it here would be filled anew at each step.
#[inline(always)]
pub(crate) fn execute_likely<B: Words, K, const SETTLED: bool>(
    bytes: &mut B,
    shape: Shape,
    pc: u32,
    instruction: Instr,
    rare: &mut Stepped,
) -> Stepped
    requires shape { shape ≡ (B.face bytes.old).state.shape }
    requires registers { HasRegisters instruction }
    requires at { AtInstruction (B.face bytes.old) pc }
    requires version { let s = (B.face bytes.old).state in
        IsOfVersion s.shape.version (effect_of (view_of s) instruction) }
    requires settled { RunsSettled SETTLED (B.face bytes.old).marks instruction }
    requires room { 22 ≤ room_of (B.face bytes.old).marks }
    ensures answer { let s = (B.face bytes.old).state in
        result ≡ answer_of (outcome_of_word s.shape (view_of s) (Some instruction)) }
    ensures face { let s = (B.face bytes.old).state in
        B.face bytes.new ≡ face_after_outcome (B.face bytes.old)
        (operand_places s.shape (view_of s) (Some instruction))
        (outcome_of_word s.shape (view_of s) (Some instruction)) }
{
    each_operation!(
        operation(instruction) => execute::<B, SETTLED>(bytes, shape, pc, instruction);
        Lui Jal Jalr Beq Bne Blt Bge Bltu Bgeu Lb Lw Lbu Sb Sw Addi Xori Ori Andi Slli Srli Srai Add
        Sub Sltu Xor Or And Mul;
        _ => {
            execute_rest(bytes, shape, pc, instruction, rare);
            *rare
        }
    )
}

/// Carries out the instruction at this pc, as `execute` does, out of line: so `execute_likely` stays small enough to be
/// taken into the loop of a trace. What it came to is put into `rare`.
#[cold]
#[inline(never)]
fn execute_rest<B: Words>(
    bytes: &mut B,
    shape: Shape,
    pc: u32,
    instruction: Instr,
    rare: &mut Stepped,
)
    requires shape { shape ≡ (B.face bytes.old).state.shape }
    requires registers { HasRegisters instruction }
    requires at { AtInstruction (B.face bytes.old) pc }
    requires version { let s = (B.face bytes.old).state in
        IsOfVersion s.shape.version (effect_of (view_of s) instruction) }
    requires room { 22 ≤ room_of (B.face bytes.old).marks }
    ensures answer { let s = (B.face bytes.old).state in
        rare.new ≡ answer_of (outcome_of_word s.shape (view_of s) (Some instruction)) }
    ensures face { let s = (B.face bytes.old).state in
        B.face bytes.new ≡ face_after_outcome (B.face bytes.old)
        (operand_places s.shape (view_of s) (Some instruction))
        (outcome_of_word s.shape (view_of s) (Some instruction)) }
{
    *rare = execute::<B, false>(bytes, shape, pc, instruction);
}
