ghost use Rattle.std.specs.Prelude.{◌≡◌, true, ◌+◌, ◌-◌, ◌%◌, ◌^◌, ◌<◌, ◌≤◌, ◌++◌, length, take, drop, replicate, decimal, IfOk};
ghost use Rattle.thread_system.specs.Printing.{signed_behind, signed_text};
ghost use Rattle.text_functions.specs.Functions.{is_negative, is_below_one, left, right, mid, asc, find, first_place, trimmed, left_trimmed, right_trimmed, is_space, is_blank, is_digit, digits_value, signed_value, val, compared, upper_byte, lower_byte, upper, lower};

use fb_base::{NoMemory, Text};
use itoa::Buffer;
use memchr::memmem;
use std::alloc::Global;
use std::cmp::Ordering;

/// Whether a word is a negative number.
pub fn is_negative(n: u64) -> bool
    ensures { result ≡ is_negative n }
{
    n >= 0x8000_0000_0000_0000
}

/// Whether a word is a number below 1.
pub fn is_below_one(n: u64) -> bool
    ensures { result ≡ is_below_one n }
{
    n == 0 || is_negative(n)
}

// As many first bytes, or all where there are no more.
fn leading(s: &[u8], n: u64) -> &[u8]
    ensures { result.now ≡ take n s.now }
{
    if n < s.len() as u64 {
        let (front, _) = s.split_at(n as usize);
        return front;
    }
    s
}

// The bytes behind as many first ones.
fn behind(s: &[u8], n: u64) -> &[u8]
    ensures rest { result.now ≡ drop n s.now }
    ensures len { length result.now ≡ length s.now - n }
{
    if n < s.len() as u64 {
        let (_, rest) = s.split_at(n as usize);
        return rest;
    }
    &[]
}

/// Left: the first n bytes. None where n is below 1, and all where there are no more.
pub fn left(s: &[u8], n: u64) -> &[u8]
    ensures { result.now ≡ left s.now n }
{
    if is_below_one(n) {
        return &[];
    }
    leading(s, n)
}

/// Right: the last n bytes. None where n is below 1, and all where there are no more.
pub fn right(s: &[u8], n: u64) -> &[u8]
    ensures { result.now ≡ right s.now n }
{
    if is_below_one(n) {
        return &[];
    }
    behind(s, (s.len() as u64).saturating_sub(n))
}

/// Mid: n bytes from position i on. None where there is no such position; all the rest where there are no more, and where
/// n is negative.
pub fn mid(s: &[u8], i: u64, n: u64) -> &[u8]
    ensures { result.now ≡ mid s.now i n }
{
    if i == 0 || is_negative(i) {
        return &[];
    }
    let rest = behind(s, i - 1);
    if is_negative(n) {
        return rest;
    }
    leading(rest, n)
}

/// Asc: the byte at position i, or 0 where there is none.
pub fn asc(s: &[u8], i: u64) -> u64
    ensures { result ≡ asc s.now i }
{
    if is_below_one(i) || i > s.len() as u64 {
        return 0;
    }
    s[i as usize - 1] as u64
}

/// InStr: the first position from i on at which t stands in s. 0 where there is none, where i is below 1, and where t is
/// empty.
#[tactic(auto, using(crate::proofs::Finds::find_below, crate::proofs::Finds::find_empty))]
pub fn find(i: u64, s: &[u8], t: &[u8]) -> u64
    ensures { result ≡ find i s.now t.now }
{
    if t.is_empty() {
        return 0;
    }
    if is_below_one(i) {
        return 0;
    }
    first_place(i, behind(s, i - 1), t)
}

// The first position of a text in a string whose first byte has a position, or 0.
fn first_place(at: u64, s: &[u8], t: &[u8]) -> u64
    requires some { 0 < length t.now }
    requires fits { at + length s.now < 2 ^ 64 }
    ensures { result ≡ first_place at s.now t.now }
{
    match memmem::find(s, t) {
        Some(k) => at + k as u64,
        None => 0,
    }
}

// The bytes from the first on that is neither a space nor a tab.
fn behind_blanks(s: &[u8]) -> &[u8]
    ensures { result.now ≡ trimmed is_blank s.now }
{
    for (i, b) in s.iter().enumerate() {
        if *b != b' ' && *b != b'\t' {
            let (_, rest) = s.split_at(i);
            return rest;
        }
    }
    &[]
}

/// LTrim: the string without the spaces at its front.
pub fn left_trimmed(s: &[u8]) -> &[u8]
    ensures { result.now ≡ left_trimmed s.now }
{
    for (i, b) in s.iter().enumerate() {
        if *b != b' ' {
            let (_, rest) = s.split_at(i);
            return rest;
        }
    }
    &[]
}

/// RTrim: the string without the spaces at its end.
pub fn right_trimmed(s: &[u8]) -> &[u8]
    ensures { result.now ≡ right_trimmed s.now }
{
    let mut end = s.len();
    while end > 0 && s[end - 1] == b' ' {
        end -= 1;
    }
    let (front, _) = s.split_at(end);
    front
}

// Whether a byte is a decimal digit.
fn is_digit(b: u8) -> bool
    ensures digit { result ≡ is_digit b }
    ensures low { result ≡ true → 48 ≤ b }
{
    b >= b'0' && b <= b'9'
}

// The number that the digits at the front spell, modulo 2^64.
fn unsigned_value(s: &[u8]) -> u64
    ensures { result ≡ digits_value 0 s.now % 2 ^ 64 }
{
    let mut value = 0u64;
    for b in s {
        if is_digit(*b) {
            value = value.wrapping_mul(10).wrapping_add((*b - b'0') as u64);
        } else {
            return value;
        }
    }
    value
}

/// ValLng: the number that spaces and tabs, one optional sign, and digits spell, modulo 2^64.
pub fn val(s: &[u8]) -> u64
    ensures { result ≡ val s.now }
{
    signed_value(behind_blanks(s))
}

// The number that one optional sign and digits spell, modulo 2^64.
#[tactic(auto, using(crate::proofs::Digits::signed_empty, crate::proofs::Digits::signed_minus, crate::proofs::Digits::signed_plus, crate::proofs::Digits::signed_bare))]
fn signed_value(number: &[u8]) -> u64
    ensures { result ≡ signed_value number.now }
{
    if number.is_empty() {
        return 0;
    }
    let (_, digits) = number.split_at(1);
    if number[0] == b'-' {
        return 0u64.wrapping_sub(unsigned_value(digits));
    }
    if number[0] == b'+' {
        return unsigned_value(digits);
    }
    unsigned_value(number)
}

/// The word of -1, 0 or 1, as the first string stands before the second by their bytes, is the same, or stands behind it.
pub fn compared(a: &[u8], b: &[u8]) -> u64
    ensures { result ≡ compared a.now b.now }
{
    match a.cmp(b) {
        Ordering::Less => u64::MAX,
        Ordering::Equal => 0,
        Ordering::Greater => 1,
    }
}

/// Str of a signed number: its decimal text, with a minus sign where it is negative. The error is want of memory.
pub fn signed_text(alloc: Global, v: u64) -> Result<Text, NoMemory>
    ensures { IfOk result (λ text. text ≡ signed_text v) }
{
    signed_behind(alloc, b"", v)
}

/// The decimal digits of a signed number, behind other bytes where it isn't negative, else behind a minus sign. The error
/// is want of memory.
pub fn signed_behind(alloc: Global, lead: &[u8], v: u64) -> Result<Text, NoMemory>
    ensures bytes { IfOk result (λ text. text ≡ signed_behind lead.now v) }
    ensures short { IfOk result (λ text. length text ≤ length lead.now + 41) }
{
    let mut buffer = Buffer::new();
    let is_negative = v > 0x7fff_ffff_ffff_ffff;
    let size = if is_negative { u64::MAX - v + 1 } else { v };
    let digits = buffer.format(size);
    let mut bytes = Vec::from_slice(alloc, if is_negative { b"-" } else { lead })?;
    bytes.extend_from_slice(digits.as_bytes())?;
    Ok(Text::from_vec(bytes))
}

/// Str of an unsigned number: its decimal text. The error is want of memory.
pub fn unsigned_text(alloc: Global, v: u64) -> Result<Text, NoMemory>
    ensures bytes { IfOk result (λ text. text ≡ decimal v) }
    ensures short { IfOk result (λ text. length text ≤ 40) }
{
    let mut buffer = Buffer::new();
    Text::of(alloc, buffer.format(v).as_bytes())
}

// A capital in place of a small letter.
fn upper_byte(b: u8) -> u8
    ensures { result ≡ upper_byte b }
{
    if b >= b'a' && b <= b'z' { b - 32 } else { b }
}

// A small letter in place of a capital.
fn lower_byte(b: u8) -> u8
    ensures { result ≡ lower_byte b }
{
    if b >= b'A' && b <= b'Z' { b + 32 } else { b }
}

/// UCase: capitals in place of the letters a to z. The error is want of memory.
pub fn upper(alloc: Global, s: &[u8]) -> Result<Text, NoMemory>
    ensures { IfOk result (λ text. text ≡ upper s.now) }
{
    let bytes = s.iter().map(|b| upper_byte(*b)).collect(alloc)?;
    Ok(Text::from_vec(bytes))
}

/// LCase: small letters in place of the letters A to Z. The error is want of memory.
pub fn lower(alloc: Global, s: &[u8]) -> Result<Text, NoMemory>
    ensures { IfOk result (λ text. text ≡ lower s.now) }
{
    let bytes = s.iter().map(|b| lower_byte(*b)).collect(alloc)?;
    Ok(Text::from_vec(bytes))
}

/// Space: so many spaces. The error is want of memory.
pub fn spaces(alloc: Global, n: usize) -> Result<Text, NoMemory>
    ensures { IfOk result (λ text. text ≡ replicate n 32) }
{
    let mut bytes = Vec::new(alloc);
    bytes.resize(n, b' ')?;
    Ok(Text::from_vec(bytes))
}

/// One string behind another. The error is want of memory.
pub fn joined(alloc: Global, a: &[u8], b: &[u8]) -> Result<Text, NoMemory>
    ensures { IfOk result (λ text. text ≡ a.now ++ b.now) }
{
    let mut bytes = Vec::from_slice(alloc, a)?;
    bytes.extend_from_slice(b)?;
    Ok(Text::from_vec(bytes))
}
