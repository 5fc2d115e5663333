//! The search for registers that may be read before they are written.
ghost use Rattle.std.specs.Prelude.{◌≡◌, ◌↔◌, ◌⊎◌, ℕ, ◌<◌, true, false, [], length, slice_set, IfOk, IsTrue, Some};
ghost use Rattle.mid_code.specs.declared.reg.Reg.{Reg};
ghost use Rattle.mid_code.specs.Covers.{AreSettled, IsCover, IsSettled, registers_of};
ghost use Rattle.mid_code.specs.Flow.{Among, in_front, reads_of, writes_of, nexts_of};
ghost use Rattle.mid_code.specs.Paths.{is_new, any_new, with_marks, marked, unmarked, Grows, AreReached, IsClosedAt, IsBlank, IsExact, IsReadAt, IsWrittenFirst, AreWrittenFirst, HasTarget, TargetsExist};

use crate::cover::{Cover, cover_of, is_covered, note_write};
use crate::{LinedOp, MidOp, Reg};
use fb_base::NoMemory;
use std::alloc::Global;

/// Marks a position, and says whether it wasn't marked before. A position behind the last one stays out.
fn mark(marks: &mut Vec<bool>, at: usize) -> bool
    ensures marks { marks.new.items ≡ slice_set marks.old.items at true }
    ensures changed { result ≡ is_new marks.old.items at }
{
    if at < marks.len() && !marks[at] {
        marks[at] = true;
        true
    } else {
        false
    }
}

/// The register that an operation writes.
pub fn written(op: MidOp) -> Option<Reg>
    ensures { result ≡ writes_of op }
{
    match op {
        MidOp::Const { to, .. }
        | MidOp::Copy { to, .. }
        | MidOp::Both { to, .. }
        | MidOp::Divide { to, .. } => Some(to),
        MidOp::Runtime { to, .. } => to,
        MidOp::Skip { .. } | MidOp::Back { .. } | MidOp::Unless { .. } => None,
    }
}

/// Whether an operation writes a register.
pub fn writes(op: MidOp, r: Reg) -> bool
    ensures { IsTrue result ↔ (writes_of op ≡ Some r) }
{
    match written(op) {
        Some(to) => to == r,
        None => false,
    }
}

/// The registers that an operation reads, in order.
#[derive(Clone, Copy)]
struct FourReads {
    first: Option<Reg>,
    second: Option<Reg>,
    third: Option<Reg>,
    fourth: Option<Reg>,
}

/// At most two.
fn two_reads(first: Option<Reg>, second: Option<Reg>) -> FourReads
    ensures { registers_of result ≡ in_front first (in_front second []) }
{
    FourReads {
        first,
        second,
        third: None,
        fourth: None,
    }
}

/// Those of an operation.
fn reads_at(op: MidOp) -> FourReads
    ensures { registers_of result ≡ reads_of op }
{
    match op {
        MidOp::Copy { from, .. } => two_reads(Some(from), None),
        MidOp::Both { left, right, .. } | MidOp::Divide { left, right, .. } => {
            two_reads(Some(left), Some(right))
        },
        MidOp::Runtime {
            first,
            second,
            third,
            fourth,
            ..
        } => FourReads {
            first,
            second,
            third,
            fourth,
        },
        MidOp::Unless { test, .. } => two_reads(Some(test), None),
        MidOp::Const { .. } | MidOp::Skip { .. } | MidOp::Back { .. } => two_reads(None, None),
    }
}

/// Whether a register that may be missing is this one.
fn is_this(one: Option<Reg>, r: Reg) -> bool
    ensures { IsTrue result ↔ (one ≡ Some r) }
{
    match one {
        Some(q) => q == r,
        None => false,
    }
}

/// Whether an operation reads a register.
fn reads(op: MidOp, r: Reg) -> bool
    ensures { IsTrue result ↔ Among r (reads_of op) }
{
    let four = reads_at(op);
    is_this(four.first, r)
        || is_this(four.second, r)
        || is_this(four.third, r)
        || is_this(four.fourth, r)
}

/// Marks where an operation may go on.
fn mark_nexts(marks: &mut Vec<bool>, i: usize, op: MidOp) -> bool
    requires { i < length marks.old.items }
    ensures marks { marks.new.items ≡ with_marks (nexts_of i op) marks.old.items }
    ensures changed { result ≡ any_new (nexts_of i op) marks.old.items }
{
    match op {
        MidOp::Skip { target } | MidOp::Back { target } => mark(marks, target as usize),
        MidOp::Unless { target, .. } => {
            let jumped = mark(marks, target as usize);
            let passed = mark(marks, i + 1);
            jumped || passed
        },
        MidOp::Const { .. }
        | MidOp::Copy { .. }
        | MidOp::Both { .. }
        | MidOp::Divide { .. }
        | MidOp::Runtime { .. } => mark(marks, i + 1),
    }
}

/// Goes on from one position, if it is marked and the register isn't written there.
fn spread_at(ops: &[LinedOp], r: Reg, i: usize, marks: &mut Vec<bool>) -> bool
    requires within { i < length ops.now }
    requires long { length marks.old.items ≡ length ops.now }
    ensures grows { Grows ops.now r marks.old.items marks.new.items result }
    ensures closed { result ≡ false → IsClosedAt ops.now r marks.new.items i }
{
    let op = ops[i].op;
    if !marks[i] {
        false
    } else if writes(op, r) {
        false
    } else {
        mark_nexts(marks, i, op)
    }
}

/// Goes on from each position once.
fn spread(ops: &[LinedOp], r: Reg, marks: &mut Vec<bool>) -> bool
    requires { length marks.old.items ≡ length ops.now }
    ensures grows { Grows ops.now r marks.old.items marks.new.items result }
    ensures closed { result ≡ false → (i : ℕ) → i < length ops.now → IsClosedAt ops.now r marks.new.items i }
{
    let mut changed = false;
    for i in 0..ops.len() {
        let more = spread_at(ops, r, i, marks);
        changed = changed | more;
    }
    changed
}

/// No mark.
fn blank(alloc: Global, ops: &[LinedOp]) -> Result<Vec<bool>, NoMemory>
    ensures { IfOk result (λ marks. IsBlank ops.now marks.items) }
{
    let mut marks = Vec::new(alloc);
    for _one in ops {
        marks.push(false)?;
    }
    Ok(marks)
}

/// Marks the positions that are reached on some path on which a register isn't written.
fn search(alloc: Global, ops: &[LinedOp], r: Reg) -> Result<Vec<bool>, NoMemory>
    ensures { IfOk result (λ marks. IsExact ops.now r marks.items) }
{
    let mut marks = blank(alloc, ops)?;
    mark(&mut marks, 0);
    while spread(ops, r, &mut marks) {}
    Ok(marks)
}

/// Whether a register is read at a position, and that is marked.
fn is_read_at(ops: &[LinedOp], r: Reg, marks: &Vec<bool>, i: usize) -> bool
    requires within { i < length ops.now }
    requires long { length marks.now.items ≡ length ops.now }
    ensures { IsTrue result ↔ IsReadAt ops.now r marks.now.items i }
{
    if !marks[i] {
        false
    } else {
        reads(ops[i].op, r)
    }
}

/// Whether a register is written before it is read on every path.
fn is_written_first(alloc: Global, ops: &[LinedOp], r: Reg) -> Result<bool, NoMemory>
    ensures { IfOk result (λ b. IsTrue b ↔ IsWrittenFirst ops.now r) }
{
    let marks = search(alloc, ops, r)?;
    for i in 0..ops.len() {
        if is_read_at(ops, r, &marks, i) {
            return Ok(false);
        }
    }
    Ok(true)
}

/// Whether a register's read at a position asks for no more looking.
fn is_settled(
    alloc: Global,
    ops: &[LinedOp],
    cover: &Cover,
    i: usize,
    r: Reg,
) -> Result<bool, NoMemory>
    requires { IsCover ops.now cover.now }
    ensures yes { IfOk result (λ b. b ≡ true → IsSettled ops.now i r) }
    ensures no { IfOk result (λ b. b ≡ false → AreWrittenFirst ops.now → ⊥) }
{
    if is_covered(ops, cover, i, r) {
        return Ok(true);
    }
    is_written_first(alloc, ops, r)
}

/// The same of a register that may be missing.
fn is_settled_if(
    alloc: Global,
    ops: &[LinedOp],
    cover: &Cover,
    i: usize,
    one: Option<Reg>,
) -> Result<bool, NoMemory>
    requires { IsCover ops.now cover.now }
    ensures yes { IfOk result (λ b. b ≡ true → (r : Reg) → one ≡ Some r → IsSettled ops.now i r) }
    ensures no { IfOk result (λ b. b ≡ false → AreWrittenFirst ops.now → ⊥) }
{
    match one {
        None => Ok(true),
        Some(r) => is_settled(alloc, ops, cover, i, r),
    }
}

/// The same of two.
fn are_settled_if(
    alloc: Global,
    ops: &[LinedOp],
    cover: &Cover,
    i: usize,
    one: Option<Reg>,
    other: Option<Reg>,
) -> Result<bool, NoMemory>
    requires { IsCover ops.now cover.now }
    ensures yes { IfOk result (λ b. b ≡ true → (r : Reg) → (one ≡ Some r) ⊎ (other ≡ Some r) → IsSettled ops.now i r) }
    ensures no { IfOk result (λ b. b ≡ false → AreWrittenFirst ops.now → ⊥) }
{
    if !is_settled_if(alloc, ops, cover, i, one)? {
        return Ok(false);
    }
    is_settled_if(alloc, ops, cover, i, other)
}

/// The same of all registers that the operation at the position reads.
fn are_settled(alloc: Global, ops: &[LinedOp], cover: &Cover, i: usize) -> Result<bool, NoMemory>
    requires cover { IsCover ops.now cover.now }
    requires within { i < length ops.now }
    ensures yes { IfOk result (λ b. b ≡ true → AreSettled ops.now i) }
    ensures no { IfOk result (λ b. b ≡ false → AreWrittenFirst ops.now → ⊥) }
{
    let four = reads_at(ops[i].op);
    if !are_settled_if(alloc, ops, cover, i, four.first, four.second)? {
        return Ok(false);
    }
    are_settled_if(alloc, ops, cover, i, four.third, four.fourth)
}

/// Whether all registers are written before they are read on every path. The error is want of memory.
///
/// A register that is read behind a write that no path passes by takes no search.
pub fn all_written_first(alloc: Global, ops: &[LinedOp]) -> Result<bool, NoMemory>
    ensures { IfOk result (λ b. IsTrue b ↔ AreWrittenFirst ops.now) }
{
    let mut cover = cover_of(alloc, ops)?;
    for i in 0..ops.len() {
        if !are_settled(alloc, ops, &cover, i)? {
            return Ok(false);
        }
        note_write(ops, &mut cover, i);
    }
    Ok(true)
}

/// Whether an operation's target, if it has one, is a position of so many.
fn has_target(op: MidOp, count: usize) -> bool
    ensures { IsTrue result ↔ HasTarget count op }
{
    match op {
        MidOp::Skip { target } | MidOp::Back { target } | MidOp::Unless { target, .. } => {
            (target as usize) < count
        },
        MidOp::Const { .. }
        | MidOp::Copy { .. }
        | MidOp::Both { .. }
        | MidOp::Divide { .. }
        | MidOp::Runtime { .. } => true,
    }
}

/// Whether every jump's target exists.
pub fn targets_exist(ops: &[LinedOp]) -> bool
    ensures { IsTrue result ↔ TargetsExist ops.now }
{
    for i in 0..ops.len() {
        if !has_target(ops[i].op, ops.len()) {
            return false;
        }
    }
    true
}
