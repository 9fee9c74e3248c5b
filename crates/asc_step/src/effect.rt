//! What an instruction does, once its operands are read.
ghost use Rattle.std.specs.Prelude.{◌≡◌, ◌*◌, ◌^◌, ◌<◌};
ghost use Rattle.asc_model.specs.Effect.{effect, branch, Load, Store, Modify};
ghost use Rattle.asc_model.specs.Step.{loaded_word};
ghost use Rattle.asc_step.specs.Effect.{model_effect, bytes_in, changed};

use crate::arithmetic::{
    even_part, greater, high_product_mixed, high_product_signed, high_product_unsigned, is_less,
    lesser, one_if, quotient, quotient_unsigned, remainder, remainder_unsigned, shift_left,
    shift_right, shift_right_signed,
};
use asc_model::Op;

/// How many bytes a load or a store moves.
#[derive(Clone, Copy)]
pub(crate) enum Size {
    /// One.
    Byte,
    /// Two.
    Half,
    /// Four.
    Word,
}

impl Size {
    /// How many bytes it is.
    #[inline(always)]
    pub(crate) fn bytes(self) -> u32
        ensures { result ≡ bytes_in self }
    {
        match self {
            Size::Byte => 1,
            Size::Half => 2,
            Size::Word => 4,
        }
    }
}

/// What an atomic makes of a word in memory and the value of its second source.
#[derive(Clone, Copy)]
pub(crate) enum Amo {
    Swap,
    Add,
    Xor,
    And,
    Or,
    Min,
    Max,
    MinUnsigned,
    MaxUnsigned,
}

/// What is left to do of an instruction.
#[derive(Clone, Copy)]
pub(crate) enum Effect {
    /// The destination is to get this value.
    Set(u32),
    /// The destination is to get what is loaded, extended by its sign or by zeros.
    Load {
        size: Size,
        signed: bool,
        address: u32,
    },
    /// The lowest bytes of the value are to be stored.
    Store {
        size: Size,
        address: u32,
        value: u32,
    },
    /// The destination is to get the address behind the instruction, and the program to go on at the target.
    Jump(u32),
    /// The destination is to get the word there, and its address to be reserved.
    LoadReserved(u32),
    /// The word is to become the value if its address is reserved.
    StoreConditional {
        address: u32,
        value: u32,
    },
    /// The destination is to get the word there, which is to be changed.
    Modify {
        amo: Amo,
        address: u32,
        value: u32,
    },
    /// The environment is called.
    GuestCall,
    /// The program breaks.
    Breakpoint,
}

/// What an operation computes with.
#[derive(Clone, Copy)]
pub(crate) struct Operands {
    /// The address of the instruction.
    pub(crate) pc: u32,
    /// The value of the first source register.
    pub(crate) a: u32,
    /// The value of the second source register.
    pub(crate) b: u32,
    /// The immediate, as a word.
    pub(crate) immediate: u32,
}

/// The effect of a branch, which jumps where the test holds.
#[inline(always)]
fn branch(test: bool, target: u32) -> Effect
    ensures { model_effect result ≡ branch test target }
{
    if test {
        Effect::Jump(target)
    } else {
        Effect::Set(0)
    }
}

#[inline(always)]
fn load(size: Size, signed: bool, address: u32) -> Effect
    ensures { model_effect result ≡ Load (bytes_in size) signed address }
{
    Effect::Load {
        size,
        signed,
        address,
    }
}

#[inline(always)]
fn store(size: Size, address: u32, value: u32) -> Effect
    ensures { model_effect result ≡ Store (bytes_in size) address value }
{
    Effect::Store {
        size,
        address,
        value,
    }
}

#[inline(always)]
fn modify(amo: Amo, address: u32, value: u32) -> Effect
    ensures { model_effect result ≡ Modify address (λ old. changed amo old value) }
{
    Effect::Modify {
        amo,
        address,
        value,
    }
}

/// The effect of an operation on its operands.
#[inline(always)]
pub(crate) fn effect_of(op: Op, operands: Operands) -> Effect
    ensures { model_effect result ≡ effect op operands.pc operands.a operands.b operands.immediate }
{
    let Operands {
        pc,
        a,
        b,
        immediate,
    } = operands;
    match op {
        Op::Lui => Effect::Set(immediate),
        Op::Auipc => Effect::Set(pc.wrapping_add(immediate)),
        Op::Jal => Effect::Jump(pc.wrapping_add(immediate)),
        Op::Jalr => Effect::Jump(even_part(a.wrapping_add(immediate))),
        Op::Beq => branch(a == b, pc.wrapping_add(immediate)),
        Op::Bne => branch(a != b, pc.wrapping_add(immediate)),
        Op::Blt => branch(is_less(a, b), pc.wrapping_add(immediate)),
        Op::Bge => branch(!is_less(a, b), pc.wrapping_add(immediate)),
        Op::Bltu => branch(a < b, pc.wrapping_add(immediate)),
        Op::Bgeu => branch(a >= b, pc.wrapping_add(immediate)),
        Op::Lb => load(Size::Byte, true, a.wrapping_add(immediate)),
        Op::Lh => load(Size::Half, true, a.wrapping_add(immediate)),
        Op::Lw => load(Size::Word, true, a.wrapping_add(immediate)),
        Op::Lbu => load(Size::Byte, false, a.wrapping_add(immediate)),
        Op::Lhu => load(Size::Half, false, a.wrapping_add(immediate)),
        Op::Sb => store(Size::Byte, a.wrapping_add(immediate), b),
        Op::Sh => store(Size::Half, a.wrapping_add(immediate), b),
        Op::Sw => store(Size::Word, a.wrapping_add(immediate), b),
        Op::Addi => Effect::Set(a.wrapping_add(immediate)),
        Op::Slti => Effect::Set(one_if(is_less(a, immediate))),
        Op::Sltiu => Effect::Set(one_if(a < immediate)),
        Op::Xori => Effect::Set(a ^ immediate),
        Op::Ori => Effect::Set(a | immediate),
        Op::Andi => Effect::Set(a & immediate),
        Op::Slli => Effect::Set(shift_left(a, immediate)),
        Op::Srli => Effect::Set(shift_right(a, immediate)),
        Op::Srai => Effect::Set(shift_right_signed(a, immediate)),
        Op::Add => Effect::Set(a.wrapping_add(b)),
        Op::Sub => Effect::Set(a.wrapping_sub(b)),
        Op::Sll => Effect::Set(shift_left(a, b)),
        Op::Slt => Effect::Set(one_if(is_less(a, b))),
        Op::Sltu => Effect::Set(one_if(a < b)),
        Op::Xor => Effect::Set(a ^ b),
        Op::Srl => Effect::Set(shift_right(a, b)),
        Op::Sra => Effect::Set(shift_right_signed(a, b)),
        Op::Or => Effect::Set(a | b),
        Op::And => Effect::Set(a & b),
        Op::Fence | Op::FenceI => Effect::Set(0),
        Op::Ecall => Effect::GuestCall,
        Op::Ebreak => Effect::Breakpoint,
        Op::Mul => Effect::Set(a.wrapping_mul(b)),
        Op::Mulh => Effect::Set(high_product_signed(a, b)),
        Op::Mulhsu => Effect::Set(high_product_mixed(a, b)),
        Op::Mulhu => Effect::Set(high_product_unsigned(a, b)),
        Op::Div => Effect::Set(quotient(a, b)),
        Op::Divu => Effect::Set(quotient_unsigned(a, b)),
        Op::Rem => Effect::Set(remainder(a, b)),
        Op::Remu => Effect::Set(remainder_unsigned(a, b)),
        Op::LrW => Effect::LoadReserved(a),
        Op::ScW => Effect::StoreConditional {
            address: a,
            value: b,
        },
        Op::AmoswapW => modify(Amo::Swap, a, b),
        Op::AmoaddW => modify(Amo::Add, a, b),
        Op::AmoxorW => modify(Amo::Xor, a, b),
        Op::AmoandW => modify(Amo::And, a, b),
        Op::AmoorW => modify(Amo::Or, a, b),
        Op::AmominW => modify(Amo::Min, a, b),
        Op::AmomaxW => modify(Amo::Max, a, b),
        Op::AmominuW => modify(Amo::MinUnsigned, a, b),
        Op::AmomaxuW => modify(Amo::MaxUnsigned, a, b),
    }
}

/// What an atomic makes of the word in memory and the value of its second source.
#[inline(always)]
pub(crate) fn changed(amo: Amo, old: u32, value: u32) -> u32
    ensures { result ≡ changed amo old value }
{
    match amo {
        Amo::Swap => value,
        Amo::Add => old.wrapping_add(value),
        Amo::Xor => old ^ value,
        Amo::And => old & value,
        Amo::Or => old | value,
        Amo::Min => lesser(old, value),
        Amo::Max => greater(old, value),
        Amo::MinUnsigned => old.min(value),
        Amo::MaxUnsigned => old.max(value),
    }
}

/// A loaded number of that size as a word: extended by its sign, or by zeros.
#[inline(always)]
pub(crate) fn loaded_word(size: Size, signed: bool, number: u32) -> u32
    requires { number < 2 ^ (8 * bytes_in size) }
    ensures { result ≡ loaded_word (bytes_in size) signed number }
{
    match size {
        Size::Byte if signed => i32::from((number as u8).cast_signed()).cast_unsigned(),
        Size::Half if signed => i32::from((number as u16).cast_signed()).cast_unsigned(),
        _ => number,
    }
}
