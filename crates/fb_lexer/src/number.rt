//! Numbers.
ghost use Rattle.std.specs.Prelude.{◌≡◌, ◌<◌, ◌≤◌, ◌+◌, ◌*◌, ◌^◌, length};
ghost use Rattle.std.specs.Option.{SomeIff};
ghost use Rattle.std.specs.List.{prefix_len};
ghost use Rattle.fb_lexer.specs.Letters.{digit_value, is_digit};
ghost use Rattle.fb_lexer.specs.Pieces.{value_of, number};
ghost use Rattle.fb_lexer.specs.Lengths.{Stands};

use crate::letters::digit_value;
use crate::piece::Piece;
use crate::token::TokenKind;
use fb_base::FaultKind;

// How many digits of the base stand at the front.
fn digits_length(base: u8, bytes: &[u8]) -> usize
    ensures value { result ≡ prefix_len (is_digit base) bytes.now }
    ensures within { result ≤ length bytes.now }
{
    let mut n = 0;
    while n < bytes.len() && digit_value(bytes[n]) < base {
        n += 1;
    }
    n
}

// The value of digits and one more, if it is below 2^64.
fn with_digit(base: u8, value: u64, b: u8) -> Option<u64>
    ensures { SomeIff result (value * base + digit_value b < 2 ^ 64) (value * base + digit_value b) }
{
    value
        .checked_mul(u64::from(base))?
        .checked_add(u64::from(digit_value(b)))
}

// The value of digits, if it is below 2^64.
#[tactic(auto, using(crate::proofs::Numbers::overflows))]
fn value_of(base: u8, digits: &[u8]) -> Option<u64>
    requires { 0 < base }
    ensures { SomeIff result (value_of base 0 digits.now < 2 ^ 64) (value_of base 0 digits.now) }
{
    let mut value = 0u64;
    for b in digits {
        match with_digit(base, value, *b) {
            Some(next) => value = next,
            None => return None,
        }
    }
    Some(value)
}

/// The number whose digits follow so many bytes of it.
pub fn number(base: u8, before: usize, bytes: &[u8]) -> Piece
    requires base { 0 < base }
    requires short { before + length bytes.now < 2 ^ 64 }
    requires some { 0 < before + prefix_len (is_digit base) bytes.now }
    ensures value { result ≡ number base before bytes.now }
    ensures within { Stands (before + length bytes.now) result }
{
    let n = digits_length(base, bytes);
    match value_of(base, &bytes[..n]) {
        Some(value) => Piece::Token(TokenKind::Number(value), before + n),
        None => Piece::Fault(FaultKind::BigNumber),
    }
}
