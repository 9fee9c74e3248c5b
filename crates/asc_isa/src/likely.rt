//! Which instruction a word is, where its operation is one of those that programs do most.
ghost use Rattle.std.specs.Prelude.{◌≡◌, IfSome, false};
ghost use Rattle.asc_model.specs.Instruction.{decode};
ghost use Rattle.asc_isa.specs.Decode.{version_of, HasRegisters};
ghost use Rattle.asc_isa.specs.Likely.{is_likely, likely};

use crate::decoding::decode;
use crate::operands::operation;
use asc_model::{Instr, Op};

/// The instruction that a word is in either version, where its operation is one of those that programs do most. `K` is as in
/// `decode`.
#[inline(always)]
pub fn decode_likely<K>(word: u32) -> Option<Instr>
    ensures instruction { result ≡ likely (decode (version_of false) word) }
    ensures registers { IfSome result HasRegisters }
{
    match decode::<K>(word, false) {
        Some(instruction) if is_likely(operation(instruction)) => Some(instruction),
        _ => None,
    }
}

/// Whether an operation is one of those that programs do most.
#[inline(always)]
fn is_likely(op: Op) -> bool
    ensures { result ≡ is_likely op }
{
    matches!(
        op,
        Op::Lui
            | Op::Jal
            | Op::Jalr
            | Op::Beq
            | Op::Bne
            | Op::Blt
            | Op::Bge
            | Op::Bltu
            | Op::Bgeu
            | Op::Lb
            | Op::Lw
            | Op::Lbu
            | Op::Sb
            | Op::Sw
            | Op::Addi
            | Op::Xori
            | Op::Ori
            | Op::Andi
            | Op::Slli
            | Op::Srli
            | Op::Srai
            | Op::Add
            | Op::Sub
            | Op::Sltu
            | Op::Xor
            | Op::Or
            | Op::And
            | Op::Mul
    )
}
