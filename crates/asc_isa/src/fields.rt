//! The fields of an instruction word (RISC-V unprivileged manual 20191213, sections 2.2 and 2.3).
ghost use Rattle.std.specs.Prelude.{◌≡◌, ◌==◌, ◌+◌, ◌-◌, ◌≤◌, ◌<◌, ◌^◌, if◌then◌else◌};
ghost use Rattle.asc_model.specs.Number.{bits, sign_extend};
ghost use Rattle.asc_model.specs.Instruction.{opcode, funct3, funct5, funct7, rd, rs1, rs2, immediate_U, immediate_J, immediate_I, immediate_S, immediate_B, shamt};

/// `n` bits of a word, from bit `low` upward.
#[inline(always)]
fn bits(word: u32, low: u32, n: u32) -> u32
    requires within { low + n ≤ 32 }
    requires some { 0 < n }
    requires n { n < 32 }
    ensures { result ≡ bits word low n }
{
    (word >> low) & ((1 << n) - 1)
}

/// A number of `n` bits, read as two's complement, as a word.
#[inline(always)]
fn sign_extend(number: u32, n: u32) -> u32
    requires number { number < 2 ^ n }
    requires some { 0 < n }
    requires n { n ≤ 32 }
    ensures { result ≡ sign_extend n number }
{
    ((number << (32 - n)).cast_signed() >> (32 - n)).cast_unsigned()
}

/// The sign of an immediate in all bits: in each format it is bit 31 of the word.
#[inline(always)]
fn sign(word: u32) -> u32
    ensures { result ≡ (if bits word 31 1 == 0 then 0 else 2 ^ 32 - 1) }
{
    0u32.wrapping_sub(bits(word, 31, 1))
}

#[inline(always)]
pub(crate) fn opcode(word: u32) -> u32
    ensures { result ≡ opcode word }
{
    bits(word, 0, 7)
}

#[inline(always)]
pub(crate) fn rd(word: u32) -> u8
    ensures { result ≡ rd word }
{
    bits(word, 7, 5) as u8
}

#[inline(always)]
pub(crate) fn funct3(word: u32) -> u32
    ensures { result ≡ funct3 word }
{
    bits(word, 12, 3)
}

#[inline(always)]
pub(crate) fn rs1(word: u32) -> u8
    ensures { result ≡ rs1 word }
{
    bits(word, 15, 5) as u8
}

#[inline(always)]
pub(crate) fn rs2(word: u32) -> u8
    ensures { result ≡ rs2 word }
{
    bits(word, 20, 5) as u8
}

#[inline(always)]
pub(crate) fn funct7(word: u32) -> u32
    ensures { result ≡ funct7 word }
{
    bits(word, 25, 7)
}

/// The function of an atomic. Its bits 26 and 25, aq and rl, order nothing here.
#[inline(always)]
pub(crate) fn funct5(word: u32) -> u32
    ensures { result ≡ funct5 word }
{
    bits(word, 27, 5)
}

/// The immediate of format U, whose low 12 bits are 0.
#[inline(always)]
pub(crate) fn immediate_u(word: u32) -> u32
    ensures { result ≡ immediate_U word }
{
    bits(word, 12, 20) << 12
}

/// The immediate of format J, extended by its sign: an offset of a multiple of 2.
#[inline(always)]
pub(crate) fn immediate_j(word: u32) -> u32
    ensures { result ≡ immediate_J word }
{
    let high = (bits(word, 12, 8) << 12) + (bits(word, 20, 1) << 11);
    (sign(word) << 20) + high + (bits(word, 21, 10) << 1)
}

/// The immediate of format I, extended by its sign.
#[inline(always)]
pub(crate) fn immediate_i(word: u32) -> u32
    ensures { result ≡ immediate_I word }
{
    sign_extend(bits(word, 20, 12), 12)
}

/// The immediate of format S, extended by its sign. It is that of format I, but for the five lowest bits.
#[inline(always)]
pub(crate) fn immediate_s(word: u32) -> u32
    ensures { result ≡ immediate_S word }
{
    (immediate_i(word) >> 5 << 5) + bits(word, 7, 5)
}

/// The immediate of format B, extended by its sign: an offset of a multiple of 2.
#[inline(always)]
pub(crate) fn immediate_b(word: u32) -> u32
    ensures { result ≡ immediate_B word }
{
    let high = (bits(word, 7, 1) << 11) + (bits(word, 25, 6) << 5);
    (sign(word) << 12) + high + (bits(word, 8, 4) << 1)
}

/// How far a shift by an immediate shifts: 0 to 31.
#[inline(always)]
pub(crate) fn shamt(word: u32) -> u32
    ensures { result ≡ shamt word }
{
    bits(word, 20, 5)
}
