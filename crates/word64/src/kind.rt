ghost use Rattle.std.specs.Prelude.{◌≡◌, true};
ghost use Rattle.word64.specs.Words.{extend};
ghost use Rattle.word64.specs.Kinds.{narrow_to};

/// FreeBASIC's ten whole-number types and Boolean (Manual, Standard Data Types).
#[derive(Clone, Copy, PartialEq, Eq, Debug)]
pub enum Kind {
    /// 1 byte, signed.
    Byte,
    /// 1 byte, unsigned.
    UByte,
    /// 2 bytes, signed.
    Short,
    /// 2 bytes, unsigned.
    UShort,
    /// 4 bytes, signed.
    Long,
    /// 4 bytes, unsigned.
    ULong,
    /// 8 bytes, signed.
    Integer,
    /// 8 bytes, unsigned.
    UInteger,
    /// 8 bytes, signed.
    LongInt,
    /// 8 bytes, unsigned.
    ULongInt,
    /// False or true, which are 0 and all ones.
    Boolean,
}

#[tactic(auto, unfolding(crate::specs::Words::extend))]
fn signed_byte(v: u64) -> u64
    ensures { result ≡ extend 1 true v }
{
    let low = v % 0x100;
    if low < 0x80 {
        low
    } else {
        low + (u64::MAX - 0xff)
    }
}

#[tactic(auto, unfolding(crate::specs::Words::extend))]
fn signed_half(v: u64) -> u64
    ensures { result ≡ extend 2 true v }
{
    let low = v % 0x1_0000;
    if low < 0x8000 {
        low
    } else {
        low + (u64::MAX - 0xffff)
    }
}

#[tactic(auto, unfolding(crate::specs::Words::extend))]
fn signed_word(v: u64) -> u64
    ensures { result ≡ extend 4 true v }
{
    let low = v % 0x1_0000_0000;
    if low < 0x8000_0000 {
        low
    } else {
        low + (u64::MAX - 0xffff_ffff)
    }
}

/// The low bits that a type has, extended to a word by its sign or by zeros. Boolean gives 0 for 0, and all ones
/// for any other value.
#[inline]
#[tactic(auto, unfolding(crate::specs::Words::extend))]
pub fn narrow(v: u64, kind: Kind) -> u64
    ensures { result ≡ narrow_to kind v }
{
    match kind {
        Kind::Byte => signed_byte(v),
        Kind::UByte => v % 0x100,
        Kind::Short => signed_half(v),
        Kind::UShort => v % 0x1_0000,
        Kind::Long => signed_word(v),
        Kind::ULong => v % 0x1_0000_0000,
        Kind::Integer | Kind::UInteger | Kind::LongInt | Kind::ULongInt => v,
        Kind::Boolean => { if v == 0 { 0 } else { u64::MAX } }
    }
}
