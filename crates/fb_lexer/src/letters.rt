//! Classes of bytes.
ghost use Rattle.std.specs.Prelude.{◌≡◌, ◌<◌};
ghost use Rattle.fb_lexer.specs.Letters.{is_blank, begins_name, is_in_name, lower, digit_value};

/// Whether a byte is white space within a line.
pub fn is_blank(b: u8) -> bool
    ensures { result ≡ is_blank b }
{
    b == b' ' || b == b'\t' || b == b'\r'
}

/// Whether a byte is a letter or an underscore.
pub fn begins_name(b: u8) -> bool
    ensures { result ≡ begins_name b }
{
    b.is_ascii_alphabetic() || b == b'_'
}

/// Whether a byte is a letter, a digit or an underscore.
pub fn is_in_name(b: u8) -> bool
    ensures { result ≡ is_in_name b }
{
    begins_name(b) || b.is_ascii_digit()
}

/// A capital letter as a small one, every other byte as it is.
pub fn lower(b: u8) -> u8
    ensures { result ≡ lower b }
{
    if b.is_ascii_uppercase() { b + 32 } else { b }
}

/// The value of a digit. Letters go on after 9, and what is no digit is 36.
pub fn digit_value(b: u8) -> u8
    ensures value { result ≡ digit_value b }
    ensures below { result < 37 }
{
    if b.is_ascii_digit() {
        b - b'0'
    } else if b.is_ascii_lowercase() {
        b - 87
    } else if b.is_ascii_uppercase() {
        b - 55
    } else {
        36
    }
}
