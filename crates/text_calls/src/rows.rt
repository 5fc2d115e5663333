ghost use Rattle.std.specs.Prelude.{◌≡◌, ◌+◌, ◌++◌, length};
ghost use Rattle.text_calls.specs.declared.outcome.Outcome.TheVariants.{Trapped, Makes, Sets};
ghost use Rattle.text_calls.specs.Strings.{AreKept, strings_of};
ghost use Rattle.text_calls.specs.Answers.{Tells};
ghost use Rattle.text_functions.specs.Functions as functions;
ghost use Rattle.text_calls.specs.Rows as spec;

use crate::outcome::Outcome;
use crate::reading::{is_dead, text_at};
use fb_base::{NoMemory, Text, TrapKind};
use fb_image::Literals;
use places::Memory;
use std::alloc::Global;
use str_heap::Heap;
use text_functions::{
    asc, compared, find, is_below_one, joined, left, left_trimmed, lower, mid, right,
    right_trimmed, signed_text, spaces, unsigned_text, upper, val,
};

// The most bytes of a string.
const LONGEST: usize = 16_777_216;

// A trap.
fn trap(kind: TrapKind) -> Result<Outcome, NoMemory>
    ensures { Tells (Trapped kind) result }
{
    Ok(Outcome::Trapped(kind))
}

// A cell becomes alive with a copy of these bytes.
fn made(alloc: Global, cell: u64, bytes: &[u8]) -> Result<Outcome, NoMemory>
    ensures { Tells (Makes cell bytes.now) result }
{
    Ok(Outcome::Makes {
        cell,
        bytes: Text::of(alloc, bytes)?,
    })
}

/// StrInit
#[tactic(auto, unfolding(crate::specs::Rows::str_init))]
pub fn str_init(mem: &Memory, heap: &Heap, d: u64) -> Result<Outcome, NoMemory>
    ensures { Tells (spec.str_init (strings_of mem.now heap.now) d) result }
{
    if is_dead(mem, d) {
        return made(heap.allocator(), d, &[]);
    }
    trap(TrapKind::BadString)
}

/// StrDrop
#[tactic(auto, unfolding(crate::specs::Rows::str_drop))]
pub fn str_drop(mem: &Memory, heap: &Heap, c: u64) -> Result<Outcome, NoMemory>
    requires { AreKept mem.now heap.now }
    ensures { Tells (spec.str_drop (strings_of mem.now heap.now) c) result }
{
    match text_at(mem, heap, c) {
        Some(_) => Ok(Outcome::Drops { cell: c }),
        None => trap(TrapKind::BadString),
    }
}

/// StrLit
#[tactic(auto, unfolding(crate::specs::Rows::str_lit), using(std::proofs::lemmas::Option::slice_get_past))]
pub fn str_lit(
    mem: &Memory,
    heap: &Heap,
    literals: &Literals,
    d: u64,
    k: u64,
) -> Result<Outcome, NoMemory>
    ensures { Tells (spec.str_lit (strings_of mem.now heap.now) literals.now d k) result }
{
    if !is_dead(mem, d) {
        return trap(TrapKind::BadString);
    }
    if k >= literals.len() as u64 {
        return trap(TrapKind::BadCode);
    }
    match literals.get(k as u32) {
        Some(bytes) => made(heap.allocator(), d, bytes),
        None => trap(TrapKind::BadCode),
    }
}

/// StrCopy
#[tactic(auto, unfolding(crate::specs::Rows::str_copy))]
pub fn str_copy(mem: &Memory, heap: &Heap, d: u64, s: u64) -> Result<Outcome, NoMemory>
    requires { AreKept mem.now heap.now }
    ensures { Tells (spec.str_copy (strings_of mem.now heap.now) d s) result }
{
    if !is_dead(mem, d) {
        return trap(TrapKind::BadString);
    }
    match text_at(mem, heap, s) {
        Some(x) => made(heap.allocator(), d, x),
        None => trap(TrapKind::BadString),
    }
}

// Two strings as one, if it isn't too long.
fn cat(alloc: Global, d: u64, x: &[u8], y: &[u8]) -> Result<Outcome, NoMemory>
    ensures { Tells (spec.limited (length x.now + length y.now) (Makes d (x.now ++ y.now))) result }
{
    if x.len() + y.len() > LONGEST {
        return trap(TrapKind::StrLimit);
    }
    Ok(Outcome::Makes {
        cell: d,
        bytes: joined(alloc, x, y)?,
    })
}

/// StrCat
#[tactic(auto, unfolding(crate::specs::Rows::str_cat))]
pub fn str_cat(mem: &Memory, heap: &Heap, d: u64, a: u64, b: u64) -> Result<Outcome, NoMemory>
    requires { AreKept mem.now heap.now }
    ensures { Tells (spec.str_cat (strings_of mem.now heap.now) d a b) result }
{
    if !is_dead(mem, d) {
        return trap(TrapKind::BadString);
    }
    match text_at(mem, heap, a) {
        Some(x) => match text_at(mem, heap, b) {
            Some(y) => cat(heap.allocator(), d, x, y),
            None => trap(TrapKind::BadString),
        },
        None => trap(TrapKind::BadString),
    }
}

// An alive cell has a copy of these bytes.
fn changed(alloc: Global, cell: u64, bytes: &[u8]) -> Result<Outcome, NoMemory>
    ensures { Tells (Sets cell bytes.now) result }
{
    Ok(Outcome::Sets {
        cell,
        bytes: Text::of(alloc, bytes)?,
    })
}

/// StrSet
#[tactic(auto, unfolding(crate::specs::Rows::str_set))]
pub fn str_set(mem: &Memory, heap: &Heap, c: u64, s: u64) -> Result<Outcome, NoMemory>
    requires { AreKept mem.now heap.now }
    ensures { Tells (spec.str_set (strings_of mem.now heap.now) c s) result }
{
    match text_at(mem, heap, c) {
        Some(_) => match text_at(mem, heap, s) {
            Some(x) => changed(heap.allocator(), c, x),
            None => trap(TrapKind::BadString),
        },
        None => trap(TrapKind::BadString),
    }
}

/// StrCmp
#[tactic(auto, unfolding(crate::specs::Rows::str_cmp))]
pub fn str_cmp(mem: &Memory, heap: &Heap, a: u64, b: u64) -> Result<Outcome, NoMemory>
    requires { AreKept mem.now heap.now }
    ensures { Tells (spec.str_cmp (strings_of mem.now heap.now) a b) result }
{
    match text_at(mem, heap, a) {
        Some(x) => match text_at(mem, heap, b) {
            Some(y) => Ok(Outcome::Gives(compared(x, y))),
            None => trap(TrapKind::BadString),
        },
        None => trap(TrapKind::BadString),
    }
}

/// StrLen
#[tactic(auto, unfolding(crate::specs::Rows::str_len))]
pub fn str_len(mem: &Memory, heap: &Heap, s: u64) -> Result<Outcome, NoMemory>
    requires { AreKept mem.now heap.now }
    ensures { Tells (spec.str_len (strings_of mem.now heap.now) s) result }
{
    match text_at(mem, heap, s) {
        Some(x) => Ok(Outcome::Gives(x.len() as u64)),
        None => trap(TrapKind::BadString),
    }
}

/// StrLeft
#[tactic(auto, unfolding(crate::specs::Rows::str_left))]
pub fn str_left(mem: &Memory, heap: &Heap, d: u64, s: u64, n: u64) -> Result<Outcome, NoMemory>
    requires { AreKept mem.now heap.now }
    ensures { Tells (spec.str_left (strings_of mem.now heap.now) d s n) result }
{
    if !is_dead(mem, d) {
        return trap(TrapKind::BadString);
    }
    match text_at(mem, heap, s) {
        Some(x) => made(heap.allocator(), d, left(x, n)),
        None => trap(TrapKind::BadString),
    }
}

/// StrRight
#[tactic(auto, unfolding(crate::specs::Rows::str_right))]
pub fn str_right(mem: &Memory, heap: &Heap, d: u64, s: u64, n: u64) -> Result<Outcome, NoMemory>
    requires { AreKept mem.now heap.now }
    ensures { Tells (spec.str_right (strings_of mem.now heap.now) d s n) result }
{
    if !is_dead(mem, d) {
        return trap(TrapKind::BadString);
    }
    match text_at(mem, heap, s) {
        Some(x) => made(heap.allocator(), d, right(x, n)),
        None => trap(TrapKind::BadString),
    }
}

/// StrMid
#[tactic(auto, unfolding(crate::specs::Rows::str_mid))]
pub fn str_mid(
    mem: &Memory,
    heap: &Heap,
    d: u64,
    s: u64,
    i: u64,
    n: u64,
) -> Result<Outcome, NoMemory>
    requires { AreKept mem.now heap.now }
    ensures { Tells (spec.str_mid (strings_of mem.now heap.now) d s i n) result }
{
    if !is_dead(mem, d) {
        return trap(TrapKind::BadString);
    }
    match text_at(mem, heap, s) {
        Some(x) => made(heap.allocator(), d, mid(x, i, n)),
        None => trap(TrapKind::BadString),
    }
}

/// StrChr
#[tactic(auto, unfolding(crate::specs::Rows::str_chr))]
pub fn str_chr(mem: &Memory, heap: &Heap, d: u64, n: u64) -> Result<Outcome, NoMemory>
    ensures { Tells (spec.str_chr (strings_of mem.now heap.now) d n) result }
{
    if !is_dead(mem, d) {
        return trap(TrapKind::BadString);
    }
    made(heap.allocator(), d, &[(n % 256) as u8])
}

/// StrAsc
#[tactic(auto, unfolding(crate::specs::Rows::str_asc))]
pub fn str_asc(mem: &Memory, heap: &Heap, s: u64, i: u64) -> Result<Outcome, NoMemory>
    requires { AreKept mem.now heap.now }
    ensures { Tells (spec.str_asc (strings_of mem.now heap.now) s i) result }
{
    match text_at(mem, heap, s) {
        Some(x) => Ok(Outcome::Gives(asc(x, i))),
        None => trap(TrapKind::BadString),
    }
}

/// StrSigned
#[tactic(auto, unfolding(crate::specs::Rows::str_signed))]
pub fn str_signed(mem: &Memory, heap: &Heap, d: u64, v: u64) -> Result<Outcome, NoMemory>
    ensures { Tells (spec.str_signed (strings_of mem.now heap.now) d v) result }
{
    if !is_dead(mem, d) {
        return trap(TrapKind::BadString);
    }
    Ok(Outcome::Makes {
        cell: d,
        bytes: signed_text(heap.allocator(), v)?,
    })
}

/// StrUnsigned
#[tactic(auto, unfolding(crate::specs::Rows::str_unsigned))]
pub fn str_unsigned(mem: &Memory, heap: &Heap, d: u64, v: u64) -> Result<Outcome, NoMemory>
    ensures { Tells (spec.str_unsigned (strings_of mem.now heap.now) d v) result }
{
    if !is_dead(mem, d) {
        return trap(TrapKind::BadString);
    }
    Ok(Outcome::Makes {
        cell: d,
        bytes: unsigned_text(heap.allocator(), v)?,
    })
}

/// StrVal
#[tactic(auto, unfolding(crate::specs::Rows::str_val))]
pub fn str_val(mem: &Memory, heap: &Heap, s: u64) -> Result<Outcome, NoMemory>
    requires { AreKept mem.now heap.now }
    ensures { Tells (spec.str_val (strings_of mem.now heap.now) s) result }
{
    match text_at(mem, heap, s) {
        Some(x) => Ok(Outcome::Gives(val(x))),
        None => trap(TrapKind::BadString),
    }
}

/// StrFind
#[tactic(auto, unfolding(crate::specs::Rows::str_find))]
pub fn str_find(mem: &Memory, heap: &Heap, i: u64, s: u64, t: u64) -> Result<Outcome, NoMemory>
    requires { AreKept mem.now heap.now }
    ensures { Tells (spec.str_find (strings_of mem.now heap.now) i s t) result }
{
    match text_at(mem, heap, s) {
        Some(x) => match text_at(mem, heap, t) {
            Some(y) => Ok(Outcome::Gives(find(i, x, y))),
            None => trap(TrapKind::BadString),
        },
        None => trap(TrapKind::BadString),
    }
}

// A cell becomes alive with the bytes in capitals.
fn capitals(alloc: Global, d: u64, x: &[u8]) -> Result<Outcome, NoMemory>
    ensures { Tells (Makes d (functions.upper x.now)) result }
{
    Ok(Outcome::Makes {
        cell: d,
        bytes: upper(alloc, x)?,
    })
}

/// StrUpper
#[tactic(auto, unfolding(crate::specs::Rows::str_upper))]
pub fn str_upper(mem: &Memory, heap: &Heap, d: u64, s: u64) -> Result<Outcome, NoMemory>
    requires { AreKept mem.now heap.now }
    ensures { Tells (spec.str_upper (strings_of mem.now heap.now) d s) result }
{
    if !is_dead(mem, d) {
        return trap(TrapKind::BadString);
    }
    match text_at(mem, heap, s) {
        Some(x) => capitals(heap.allocator(), d, x),
        None => trap(TrapKind::BadString),
    }
}

// A cell becomes alive with the bytes in small letters.
fn small(alloc: Global, d: u64, x: &[u8]) -> Result<Outcome, NoMemory>
    ensures { Tells (Makes d (functions.lower x.now)) result }
{
    Ok(Outcome::Makes {
        cell: d,
        bytes: lower(alloc, x)?,
    })
}

/// StrLower
#[tactic(auto, unfolding(crate::specs::Rows::str_lower))]
pub fn str_lower(mem: &Memory, heap: &Heap, d: u64, s: u64) -> Result<Outcome, NoMemory>
    requires { AreKept mem.now heap.now }
    ensures { Tells (spec.str_lower (strings_of mem.now heap.now) d s) result }
{
    if !is_dead(mem, d) {
        return trap(TrapKind::BadString);
    }
    match text_at(mem, heap, s) {
        Some(x) => small(heap.allocator(), d, x),
        None => trap(TrapKind::BadString),
    }
}

/// StrSpace
#[tactic(auto, unfolding(crate::specs::Rows::str_space))]
pub fn str_space(mem: &Memory, heap: &Heap, d: u64, n: u64) -> Result<Outcome, NoMemory>
    ensures { Tells (spec.str_space (strings_of mem.now heap.now) d n) result }
{
    if !is_dead(mem, d) {
        return trap(TrapKind::BadString);
    }
    if is_below_one(n) {
        return made(heap.allocator(), d, &[]);
    }
    if n > LONGEST as u64 {
        return trap(TrapKind::StrLimit);
    }
    Ok(Outcome::Makes {
        cell: d,
        bytes: spaces(heap.allocator(), n as usize)?,
    })
}

/// StrLTrim
#[tactic(auto, unfolding(crate::specs::Rows::str_ltrim))]
pub fn str_ltrim(mem: &Memory, heap: &Heap, d: u64, s: u64) -> Result<Outcome, NoMemory>
    requires { AreKept mem.now heap.now }
    ensures { Tells (spec.str_ltrim (strings_of mem.now heap.now) d s) result }
{
    if !is_dead(mem, d) {
        return trap(TrapKind::BadString);
    }
    match text_at(mem, heap, s) {
        Some(x) => made(heap.allocator(), d, left_trimmed(x)),
        None => trap(TrapKind::BadString),
    }
}

/// StrRTrim
#[tactic(auto, unfolding(crate::specs::Rows::str_rtrim))]
pub fn str_rtrim(mem: &Memory, heap: &Heap, d: u64, s: u64) -> Result<Outcome, NoMemory>
    requires { AreKept mem.now heap.now }
    ensures { Tells (spec.str_rtrim (strings_of mem.now heap.now) d s) result }
{
    if !is_dead(mem, d) {
        return trap(TrapKind::BadString);
    }
    match text_at(mem, heap, s) {
        Some(x) => made(heap.allocator(), d, right_trimmed(x)),
        None => trap(TrapKind::BadString),
    }
}

/// StrGet
#[tactic(auto, unfolding(crate::specs::Rows::str_get))]
pub fn str_get(mem: &Memory, heap: &Heap, s: u64, i: u64) -> Result<Outcome, NoMemory>
    requires { AreKept mem.now heap.now }
    ensures { Tells (spec.str_get (strings_of mem.now heap.now) s i) result }
{
    match text_at(mem, heap, s) {
        Some(x) => {
            if i < x.len() as u64 {
                return Ok(Outcome::Gives(x[i as usize] as u64));
            }
            trap(TrapKind::StrIndex)
        }
        None => trap(TrapKind::BadString),
    }
}

/// StrPut
#[tactic(auto, unfolding(crate::specs::Rows::str_put))]
pub fn str_put(mem: &Memory, heap: &Heap, s: u64, i: u64, v: u64) -> Result<Outcome, NoMemory>
    requires { AreKept mem.now heap.now }
    ensures { Tells (spec.str_put (strings_of mem.now heap.now) s i v) result }
{
    match text_at(mem, heap, s) {
        Some(x) => {
            if i < x.len() as u64 {
                return Ok(Outcome::Puts {
                    cell: s,
                    index: i,
                    byte: (v % 256) as u8,
                });
            }
            trap(TrapKind::StrIndex)
        }
        None => trap(TrapKind::BadString),
    }
}
