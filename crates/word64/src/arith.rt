ghost use Rattle.std.specs.Prelude.{◌≡◌, ◌+◌, ◌-◌, ◌*◌, ◌/◌, ◌%◌, ◌^◌, ◌<◌, nat_lt};
ghost use Rattle.word64.specs.Words.{div_signed, rem_signed, less_signed, shift_right_signed};

/// The sum modulo 2^64.
pub fn add(a: u64, b: u64) -> u64
    ensures { result ≡ (a + b) % 2 ^ 64 }
{
    a.wrapping_add(b)
}

/// The difference modulo 2^64.
pub fn sub(a: u64, b: u64) -> u64
    ensures { result ≡ (a + (2 ^ 64 - b)) % 2 ^ 64 }
{
    a.wrapping_sub(b)
}

/// The product modulo 2^64.
pub fn mul(a: u64, b: u64) -> u64
    ensures { result ≡ (a * b) % 2 ^ 64 }
{
    a.wrapping_mul(b)
}

/// The quotient of the signed values, rounded toward zero. The least value by -1 gives itself.
#[tactic(auto, unfolding(crate::specs::Words::div_signed))]
pub fn div_s(a: u64, b: u64) -> u64
    requires { 0 < b }
    ensures { result ≡ div_signed a b }
{
    a.cast_signed()
        .wrapping_div(b.cast_signed())
        .cast_unsigned()
}

/// The remainder of the signed values, which has the dividend's sign. The least value by -1 gives 0.
#[tactic(auto, unfolding(crate::specs::Words::rem_signed))]
pub fn rem_s(a: u64, b: u64) -> u64
    requires { 0 < b }
    ensures { result ≡ rem_signed a b }
{
    a.cast_signed()
        .wrapping_rem(b.cast_signed())
        .cast_unsigned()
}

/// The quotient of the unsigned values, rounded down.
pub fn div_u(a: u64, b: u64) -> u64
    requires { 0 < b }
    ensures { result ≡ a / b }
{
    a / b
}

/// The remainder of the unsigned values.
pub fn rem_u(a: u64, b: u64) -> u64
    requires { 0 < b }
    ensures { result ≡ a % b }
{
    a % b
}

/// The word shifted to the left by n modulo 64.
pub fn shl(a: u64, n: u64) -> u64
    ensures { result ≡ (a * 2 ^ (n % 64)) % 2 ^ 64 }
{
    a << (n % 64)
}

/// The word shifted to the right by n modulo 64, with its sign shifted in.
#[tactic(auto, unfolding(crate::specs::Words::shift_right_signed))]
pub fn shr_s(a: u64, n: u64) -> u64
    ensures { result ≡ shift_right_signed a (n % 64) }
{
    (a.cast_signed() >> (n % 64)).cast_unsigned()
}

/// The word shifted to the right by n modulo 64, with zeros shifted in.
pub fn shr_u(a: u64, n: u64) -> u64
    ensures { result ≡ a / 2 ^ (n % 64) }
{
    a >> (n % 64)
}

/// Whether the first signed value is below the second.
#[tactic(auto, unfolding(crate::specs::Words::less_signed))]
pub fn less_s(a: u64, b: u64) -> bool
    ensures { result ≡ less_signed a b }
{
    a.cast_signed() < b.cast_signed()
}

/// Whether the first unsigned value is below the second.
pub fn less_u(a: u64, b: u64) -> bool
    ensures { result ≡ nat_lt a b }
{
    a < b
}
