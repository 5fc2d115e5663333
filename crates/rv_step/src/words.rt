ghost use Rattle.std.specs.Prelude.{◌≡◌, ℕ, ◌%◌, ◌^◌, ◌<◌};
ghost use Rattle.rv_isa.specs.Words as words;

use rv_isa::{Branch, Imm, Jump, Upper};
use word64::{Kind, div_s, narrow, rem_s};

/// An immediate, extended by its sign.
#[inline(always)]
pub(crate) fn signed_imm(imm: Imm) -> u64
    ensures { result ≡ words.signed_imm imm }
{
    let bits = imm.number() as u64;
    if bits < 0x800 {
        bits
    } else {
        bits + (u64::MAX - 0xfff)
    }
}

/// An upper immediate above its twelve zeros, extended by its sign.
#[inline(always)]
pub(crate) fn signed_upper(imm: Upper) -> u64
    ensures { result ≡ words.signed_upper imm }
{
    let bits = imm.number() as u64;
    if bits < 0x8_0000 {
        4096 * bits
    } else {
        4096 * bits + (u64::MAX - 0xffff_ffff)
    }
}

/// The offset of a branch in bytes, extended by its sign.
#[inline(always)]
pub(crate) fn signed_branch(offset: Branch) -> u64
    ensures { result ≡ words.signed_branch offset }
{
    let bits = offset.number() as u64;
    if bits < 0x800 {
        2 * bits
    } else {
        2 * bits + (u64::MAX - 0x1fff)
    }
}

/// The offset of a jump in bytes, extended by its sign.
#[inline(always)]
pub(crate) fn signed_jump(offset: Jump) -> u64
    ensures { result ≡ words.signed_jump offset }
{
    let bits = offset.number() as u64;
    if bits < 0x8_0000 {
        2 * bits
    } else {
        2 * bits + (u64::MAX - 0x1f_ffff)
    }
}

/// The low 32 bits, extended by their sign.
#[inline(always)]
pub(crate) fn word(value: u64) -> u64
    ensures { result ≡ words.word value }
{
    narrow(value, Kind::Long)
}

/// The low 32 bits.
#[inline(always)]
pub(crate) fn low_word(value: u64) -> u64
    ensures { result ≡ words.low_word value }
{
    value % 0x1_0000_0000
}

/// 1 for true and 0 for false.
#[inline(always)]
pub(crate) fn truth(b: bool) -> u64
    ensures { result ≡ words.truth b }
{
    if b { 1 } else { 0 }
}

/// The signed quotient; all ones for a zero divisor.
#[inline(always)]
pub(crate) fn quotient_signed(a: u64, b: u64) -> u64
    ensures { result ≡ words.quotient_signed a b }
{
    if b == 0 { u64::MAX } else { div_s(a, b) }
}

/// The signed remainder; the dividend for a zero divisor.
#[inline(always)]
pub(crate) fn remainder_signed(a: u64, b: u64) -> u64
    ensures { result ≡ words.remainder_signed a b }
{
    if b == 0 { a } else { rem_s(a, b) }
}

/// The quotient; all ones for a zero divisor.
#[inline(always)]
pub(crate) fn quotient(a: u64, b: u64) -> u64
    ensures { result ≡ words.quotient a b }
{
    if b == 0 { u64::MAX } else { a / b }
}

/// The remainder; the dividend for a zero divisor.
#[inline(always)]
pub(crate) fn remainder(a: u64, b: u64) -> u64
    ensures { result ≡ words.remainder a b }
{
    if b == 0 { a } else { a % b }
}

/// The high 64 bits of the product of two signed values.
#[inline(always)]
pub(crate) fn high_signed(a: u64, b: u64) -> u64
    ensures { result ≡ words.high_signed a b }
{
    let product = a.cast_signed() as i128 * b.cast_signed() as i128;
    ((product >> 64) as i64).cast_unsigned()
}

/// The high 64 bits of the product of a signed value and an unsigned one.
#[inline(always)]
pub(crate) fn high_mixed(a: u64, b: u64) -> u64
    ensures { result ≡ words.high_mixed a b }
{
    let product = a.cast_signed() as i128 * b as i128;
    ((product >> 64) as i64).cast_unsigned()
}

/// The high 64 bits of the product of two unsigned values.
#[inline(always)]
pub(crate) fn high_unsigned(a: u64, b: u64) -> u64
    ensures { result ≡ words.high_unsigned a b }
{
    ((a as u128 * b as u128) >> 64) as u64
}
