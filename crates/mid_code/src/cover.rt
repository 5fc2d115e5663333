//! Which writes no path to a position passes by. What lowering makes reads a register behind such a write alone, so no
//! search is needed for it.
ghost use Rattle.std.specs.Prelude.{◌≡◌, ℕ, ◌<◌, ◌≤◌, length, get_or, IfOk, IsTrue, Some};
ghost use Rattle.mid_code.specs.Flow.{target_of};
ghost use Rattle.mid_code.specs.Paths.{Unwritten};
ghost use Rattle.mid_code.specs.Covers.{AreAtMost, AreLess, AreNested, Covers, EndBetween, HasEnds, HasSources, HaveGaps, IsCover};

use crate::search::{writes, written};
use crate::{LinedOp, MidOp, Reg};
use fb_base::NoMemory;
use std::alloc::Global;

/// The position that an operation may jump to.
fn target(op: MidOp) -> Option<u32>
    ensures { result ≡ target_of op }
{
    match op {
        MidOp::Skip { target } | MidOp::Back { target } | MidOp::Unless { target, .. } => Some(
            target,
        ),
        MidOp::Const { .. }
        | MidOp::Copy { .. }
        | MidOp::Both { .. }
        | MidOp::Divide { .. }
        | MidOp::Runtime { .. } => None,
    }
}

/// So many times a number.
fn filled(alloc: Global, count: usize, value: usize) -> Result<Vec<usize>, NoMemory>
    ensures long { IfOk result (λ v. length v.items ≡ count) }
    ensures most { IfOk result (λ v. AreAtMost value v.items) }
{
    let mut all = Vec::new(alloc);
    all.resize(count, value)?;
    Ok(all)
}

/// Puts a number in the place of a greater one.
fn lower_to(all: &mut Vec<usize>, at: usize, value: usize)
    requires { at < length all.old.items }
    ensures long { length all.new.items ≡ length all.old.items }
    ensures less { AreLess all.new.items all.old.items }
    ensures there { (i : ℕ) → i ≡ at → get_or all.new.items i 0 ≤ value }
{
    if all[at] > value {
        all[at] = value;
    }
}

/// Notes where an operation's jump, if it is one, comes from.
fn note_source(sources: &mut Vec<usize>, i: usize, op: MidOp)
    ensures long { length sources.new.items ≡ length sources.old.items }
    ensures less { AreLess sources.new.items sources.old.items }
    ensures there { (to : ℕ) → target_of op ≡ Some to → to < length sources.old.items → get_or sources.new.items to 0 ≤ i }
{
    if let Some(to) = target(op) {
        let to = to as usize;
        if to < sources.len() {
            lower_to(sources, to, i);
        }
    }
}

/// The least position from which a jump leads to each.
fn sources_of(alloc: Global, ops: &[LinedOp]) -> Result<Vec<usize>, NoMemory>
    ensures long { IfOk result (λ sources. length sources.items ≡ length ops.now) }
    ensures sources { IfOk result (λ sources. HasSources ops.now sources.items (length ops.now)) }
{
    let mut sources = filled(alloc, ops.len(), ops.len())?;
    for i in 0..ops.len() {
        note_source(&mut sources, i, ops[i].op);
    }
    Ok(sources)
}

/// Ends the positions behind `source` and before `p`, and gives where the stretch begins that ends there.
fn end_behind(ends: &mut Vec<usize>, gaps: &Vec<usize>, source: usize, p: usize) -> usize
    requires within { p < length ends.old.items }
    requires long { length gaps.now.items ≡ length ends.old.items }
    requires gaps { HaveGaps ends.old.items gaps.now.items p }
    ensures long { length ends.new.items ≡ length ends.old.items }
    ensures less { AreLess ends.new.items ends.old.items }
    ensures ends { EndBetween ends.new.items result p }
    ensures far { (w : ℕ) → source < w → w < p → get_or ends.new.items w 0 ≤ p }
{
    let mut low = p;
    while source < low.saturating_sub(1) {
        let top = low - 1;
        lower_to(ends, top, p);
        low = gaps[top].min(top);
    }
    low
}

/// For each position one up to which no jump leads over it.
fn ends_of(alloc: Global, ops: &[LinedOp]) -> Result<Vec<usize>, NoMemory>
    ensures long { IfOk result (λ ends. length ends.items ≡ length ops.now) }
    ensures most { IfOk result (λ ends. AreAtMost (length ops.now) ends.items) }
    ensures ends { IfOk result (λ ends. HasEnds ops.now ends.items (length ops.now)) }
{
    let sources = sources_of(alloc, ops)?;
    let mut ends = filled(alloc, ops.len(), ops.len())?;
    let mut gaps = filled(alloc, ops.len(), 0)?;
    for p in 0..ops.len() {
        let low = end_behind(&mut ends, &gaps, sources[p], p);
        gaps[p] = low;
    }
    Ok(ends)
}

/// Whether a jump back, if the operation is one, leads to a position that hasn't ended.
fn leads_within(ends: &Vec<usize>, i: usize, op: MidOp) -> bool
    ensures { IsTrue result → (to : ℕ) → target_of op ≡ Some to → to ≤ i → i < get_or ends.now.items to 0 }
{
    match target(op) {
        None => true,
        Some(to) => {
            let to = to as usize;
            if to > i {
                true
            } else if to < ends.len() {
                i < ends[to]
            } else {
                false
            }
        },
    }
}

/// Whether each jump back does.
fn are_nested(ops: &[LinedOp], ends: &Vec<usize>) -> bool
    requires long { length ends.now.items ≡ length ops.now }
    requires most { AreAtMost (length ops.now) ends.now.items }
    requires ends { HasEnds ops.now ends.now.items (length ops.now) }
    ensures { IsTrue result → AreNested ops.now }
{
    for i in 0..ops.len() {
        if !leads_within(ends, i, ops[i].op) {
            return false;
        }
    }
    true
}

/// For each position one up to which no jump leads over it, whether the jumps back lie between such positions, and the
/// position of a write to each register, which may be wrong.
#[derive(Debug, Drop)]
pub struct Cover {
    pub ends: Vec<usize>,
    pub nested: bool,
    pub latest: Vec<usize>,
}

/// What is known of a procedure, before any write is noted.
pub fn cover_of(alloc: Global, ops: &[LinedOp]) -> Result<Cover, NoMemory>
    ensures { IfOk result (λ cover. IsCover ops.now cover) }
{
    let ends = ends_of(alloc, ops)?;
    let nested = are_nested(ops, &ends);
    let latest = filled(alloc, ops.len().saturating_mul(3), 0)?;
    Ok(Cover {
        ends,
        nested,
        latest,
    })
}

/// Where a register stands among the latest writes.
fn row(r: Reg) -> usize {
    match r {
        Reg::Temp { number } => 3 * number as usize,
        Reg::Var { number } => 3 * number as usize + 1,
        Reg::Place { number } => 3 * number as usize + 2,
    }
}

/// Whether position `w` writes a register, and no path from there to `i` leaves it out.
fn covers(ops: &[LinedOp], cover: &Cover, w: usize, i: usize, r: Reg) -> bool
    requires { IsCover ops.now cover.now }
    ensures { IsTrue result → Covers ops.now w i r }
{
    if w < i && w < ops.len() && i < cover.ends[w] {
        writes(ops[w].op, r)
    } else {
        false
    }
}

/// Whether a register is known to be written on every path to a position.
pub fn is_covered(ops: &[LinedOp], cover: &Cover, i: usize, r: Reg) -> bool
    requires { IsCover ops.now cover.now }
    ensures { IsTrue result → Unwritten ops.now r i → ⊥ }
{
    match cover.latest.get(row(r)) {
        None => false,
        Some(w) => cover.nested && covers(ops, cover, *w, i, r),
    }
}

/// Notes what a position writes, unless it is known to be written there.
pub fn note_write(ops: &[LinedOp], cover: &mut Cover, i: usize)
    requires cover { IsCover ops.now cover.old }
    requires within { i < length ops.now }
    ensures { IsCover ops.now cover.new }
{
    if let Some(to) = written(ops[i].op) {
        let row = row(to);
        if row < cover.latest.len() && !is_covered(ops, cover, i, to) {
            cover.latest[row] = i;
        }
    }
}
