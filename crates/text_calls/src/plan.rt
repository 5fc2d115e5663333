ghost use Rattle.std.specs.Prelude.{◌≡◌};
ghost use Rattle.text_calls.specs.Strings.{AreKept, strings_of};
ghost use Rattle.text_calls.specs.Answers.{Tells};
ghost use Rattle.text_calls.specs.Rows as spec;

use crate::outcome::Outcome;
use crate::rows::{
    str_asc, str_cat, str_chr, str_cmp, str_copy, str_drop, str_find, str_get, str_init, str_left,
    str_len, str_lit, str_lower, str_ltrim, str_mid, str_put, str_right, str_rtrim, str_set,
    str_signed, str_space, str_unsigned, str_upper, str_val,
};
use fb_base::{NoMemory, TrapKind};
use fb_image::Literals;
use places::Memory;
use str_heap::Heap;

// The calls from 10 to 15.
#[tactic(auto, unfolding(crate::specs::Rows::from_10))]
fn from_10(
    mem: &Memory,
    heap: &Heap,
    literals: &Literals,
    number: u8,
    a: u64,
    b: u64,
    c: u64,
) -> Result<Outcome, NoMemory>
    requires { AreKept mem.now heap.now }
    ensures { Tells (spec.from_10 (strings_of mem.now heap.now) literals.now number a b c) result }
{
    match number {
        10 => str_init(mem, heap, a),
        11 => str_drop(mem, heap, a),
        12 => str_lit(mem, heap, literals, a, b),
        13 => str_copy(mem, heap, a, b),
        14 => str_cat(mem, heap, a, b, c),
        15 => str_set(mem, heap, a, b),
        _ => Ok(Outcome::Trapped(TrapKind::BadCode)),
    }
}

// The calls from 16 to 21.
#[tactic(auto, unfolding(crate::specs::Rows::from_16))]
fn from_16(
    mem: &Memory,
    heap: &Heap,
    number: u8,
    a: u64,
    b: u64,
    c: u64,
    d: u64,
) -> Result<Outcome, NoMemory>
    requires { AreKept mem.now heap.now }
    ensures { Tells (spec.from_16 (strings_of mem.now heap.now) number a b c d) result }
{
    match number {
        16 => str_cmp(mem, heap, a, b),
        17 => str_len(mem, heap, a),
        18 => str_left(mem, heap, a, b, c),
        19 => str_right(mem, heap, a, b, c),
        20 => str_mid(mem, heap, a, b, c, d),
        21 => str_chr(mem, heap, a, b),
        _ => Ok(Outcome::Trapped(TrapKind::BadCode)),
    }
}

// The calls from 22 to 27.
#[tactic(auto, unfolding(crate::specs::Rows::from_22))]
fn from_22(
    mem: &Memory,
    heap: &Heap,
    number: u8,
    a: u64,
    b: u64,
    c: u64,
) -> Result<Outcome, NoMemory>
    requires { AreKept mem.now heap.now }
    ensures { Tells (spec.from_22 (strings_of mem.now heap.now) number a b c) result }
{
    match number {
        22 => str_asc(mem, heap, a, b),
        23 => str_signed(mem, heap, a, b),
        24 => str_unsigned(mem, heap, a, b),
        25 => str_val(mem, heap, a),
        26 => str_find(mem, heap, a, b, c),
        27 => str_upper(mem, heap, a, b),
        _ => Ok(Outcome::Trapped(TrapKind::BadCode)),
    }
}

// The calls from 28 to 33.
#[tactic(auto, unfolding(crate::specs::Rows::from_28))]
fn from_28(
    mem: &Memory,
    heap: &Heap,
    number: u8,
    a: u64,
    b: u64,
    c: u64,
) -> Result<Outcome, NoMemory>
    requires { AreKept mem.now heap.now }
    ensures { Tells (spec.from_28 (strings_of mem.now heap.now) number a b c) result }
{
    match number {
        28 => str_lower(mem, heap, a, b),
        29 => str_space(mem, heap, a, b),
        30 => str_ltrim(mem, heap, a, b),
        31 => str_rtrim(mem, heap, a, b),
        32 => str_get(mem, heap, a, b),
        33 => str_put(mem, heap, a, b, c),
        _ => Ok(Outcome::Trapped(TrapKind::BadCode)),
    }
}

/// What a string call comes to, by its number and its arguments, on the strings as they are. The error is want of
/// memory, which no trap asks for.
#[tactic(auto, unfolding(crate::specs::Rows::outcome_of))]
pub fn plan(
    mem: &Memory,
    heap: &Heap,
    number: u8,
    args: [u64; 4],
    literals: &Literals,
) -> Result<Outcome, NoMemory>
    requires { AreKept mem.now heap.now }
    ensures { Tells (spec.outcome_of (strings_of mem.now heap.now) literals.now number args) result }
{
    if number < 16 {
        return from_10(mem, heap, literals, number, args[0], args[1], args[2]);
    }
    if number < 22 {
        return from_16(mem, heap, number, args[0], args[1], args[2], args[3]);
    }
    if number < 28 {
        return from_22(mem, heap, number, args[0], args[1], args[2]);
    }
    from_28(mem, heap, number, args[0], args[1], args[2])
}
