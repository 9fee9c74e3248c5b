//! Arithmetic on words, which are read as unsigned or as two's complement.
ghost use Rattle.std.specs.Prelude.{◌≡◌, ◌*◌, ◌/◌, ◌^◌, ◌*ℤ◌, pos, int_lt};
ghost use Rattle.asc_model.specs.Arithmetic.{signed, one_if, even_part, shift_left, shift_right, shift_right_signed, shift_amount, high_word, quotient, quotient_unsigned, remainder, remainder_unsigned, lesser, greater};

/// 1 where the test holds, else 0.
#[inline(always)]
pub(crate) fn one_if(test: bool) -> u32
    ensures { result ≡ one_if test }
{
    u32::from(test)
}

/// Whether a word is less than another, both signed.
#[inline(always)]
pub(crate) fn is_less(a: u32, b: u32) -> bool
    ensures { result ≡ int_lt (signed a) (signed b) }
{
    a.cast_signed() < b.cast_signed()
}

/// The lesser of two words, both signed.
#[inline(always)]
pub(crate) fn lesser(a: u32, b: u32) -> u32
    ensures { result ≡ lesser a b }
{
    if is_less(a, b) { a } else { b }
}

/// The greater of two words, both signed.
#[inline(always)]
pub(crate) fn greater(a: u32, b: u32) -> u32
    ensures { result ≡ greater a b }
{
    if is_less(a, b) { b } else { a }
}

/// A word with its bit 0 cleared.
#[inline(always)]
pub(crate) fn even_part(a: u32) -> u32
    ensures { result ≡ even_part a }
{
    a & !1
}

/// A word shifted left by the low 5 bits of `b`.
#[inline(always)]
pub(crate) fn shift_left(a: u32, b: u32) -> u32
    ensures { result ≡ shift_left a (shift_amount b) }
{
    a << (b & 31)
}

/// A word shifted right by the low 5 bits of `b`; zeros move in.
#[inline(always)]
pub(crate) fn shift_right(a: u32, b: u32) -> u32
    ensures { result ≡ shift_right a (shift_amount b) }
{
    a >> (b & 31)
}

/// A word shifted right by the low 5 bits of `b`; the sign moves in.
#[inline(always)]
pub(crate) fn shift_right_signed(a: u32, b: u32) -> u32
    ensures { result ≡ shift_right_signed a (shift_amount b) }
{
    (a.cast_signed() >> (b & 31)).cast_unsigned()
}

/// The high word of a number of 64 bits.
#[inline(always)]
fn high_word(number: i64) -> u32
    ensures { result ≡ high_word number }
{
    ((number >> 32) as i32).cast_unsigned()
}

/// The high word of the product of two words, both signed.
#[inline(always)]
pub(crate) fn high_product_signed(a: u32, b: u32) -> u32
    ensures { result ≡ high_word (signed a *ℤ signed b) }
{
    high_word(i64::from(a.cast_signed()) * i64::from(b.cast_signed()))
}

/// The high word of the product of a signed word and an unsigned one.
#[inline(always)]
pub(crate) fn high_product_mixed(a: u32, b: u32) -> u32
    ensures { result ≡ high_word (signed a *ℤ pos b) }
{
    high_word(i64::from(a.cast_signed()) * i64::from(b))
}

/// The high word of the product of two words, both unsigned.
#[inline(always)]
pub(crate) fn high_product_unsigned(a: u32, b: u32) -> u32
    ensures { result ≡ a * b / 2 ^ 32 }
{
    ((u64::from(a) * u64::from(b)) >> 32) as u32
}

/// The quotient of two words, both signed, rounded towards zero; -1 where `b` is 0.
#[inline(always)]
pub(crate) fn quotient(a: u32, b: u32) -> u32
    ensures { result ≡ quotient a b }
{
    if b == 0 {
        return u32::MAX;
    }
    let quotient = a.cast_signed().wrapping_div(b.cast_signed());
    quotient.cast_unsigned()
}

/// The remainder of two words, both signed, with the sign of `a`; `a` where `b` is 0.
#[inline(always)]
pub(crate) fn remainder(a: u32, b: u32) -> u32
    ensures { result ≡ remainder a b }
{
    if b == 0 {
        return a;
    }
    let remainder = a.cast_signed().wrapping_rem(b.cast_signed());
    remainder.cast_unsigned()
}

/// The quotient of two words, both unsigned, rounded down; the greatest word where `b` is 0.
#[inline(always)]
pub(crate) fn quotient_unsigned(a: u32, b: u32) -> u32
    ensures { result ≡ quotient_unsigned a b }
{
    a.checked_div(b).unwrap_or(u32::MAX)
}

/// The remainder of two words, both unsigned; `a` where `b` is 0.
#[inline(always)]
pub(crate) fn remainder_unsigned(a: u32, b: u32) -> u32
    ensures { result ≡ remainder_unsigned a b }
{
    a.checked_rem(b).unwrap_or(a)
}
