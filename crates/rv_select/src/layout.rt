//! The code of a whole program, one procedure behind the other.

ghost use Rattle.std.specs.Prelude.{◌≡◌, ◌<◌, ◌^◌, ◌+◌, ◌++◌, [], length, IsTrue, IfOk, OnOk};
ghost use Rattle.mid_code.specs.Operations.{line_in};
ghost use Rattle.rv_select.specs.Slots.{place_of, slots_of};
ghost use Rattle.rv_select.specs.Layout as layout;
ghost use Rattle.rv_select.specs.Starts.{start_at, starts_from, end_from};

use crate::emission::put_op;
use crate::lined::LinedInst;
use crate::size::op_size;
use crate::slots::{Slots, fit_frame, slots_for};
use crate::starts::{Starts, start};
use fb_base::{NoMemory, Sequence};
use fb_image::Entries;
use mid_code::{LinedOp, MidOp, MidProc};
use rv_isa::{Imm, Inst, Upper};
use std::alloc::Global;

/// Code of this many words or more can't be addressed.
const WORDS: u64 = 0x4000_0000;

/// Puts instructions behind the code, with a line.
fn put_lined(code: &mut Vec<LinedInst>, line: u32, insts: &[Inst]) -> Result<(), NoMemory>
    ensures { OnOk result (code.new.items ≡ code.old.items ++ layout.placed line insts.now) }
{
    for inst in insts {
        code.push(LinedInst { inst: *inst, line })?;
    }
    Ok(())
}

/// The instructions of an operation.
fn insts_of(
    alloc: Global,
    slots: Slots,
    starts: &Starts,
    at: u32,
    op: MidOp,
) -> Result<Vec<Inst>, NoMemory>
    ensures { IfOk result (λ insts. insts.items ≡ layout.op_insts slots (start_at starts.now) at op) }
{
    let mut insts = Vec::new(alloc);
    put_op(&mut insts, slots, starts, at, op)?;
    Ok(insts)
}

/// Where the operations of a procedure begin, if the first begins at a code word. Want of memory counts code that is
/// too long to be addressed.
fn starts_for(alloc: Global, slots: Slots, base: u32, ops: &[LinedOp]) -> Result<Starts, NoMemory>
    ensures places { IfOk result (λ starts. starts.places.items ≡ starts_from (place_of slots) base ops.now) }
    ensures end { IfOk result (λ starts. starts.end ≡ end_from (place_of slots) base ops.now) }
{
    let mut places = Vec::new(alloc);
    let mut end = base;
    for at in ops {
        places.push(end)?;
        let size = op_size(slots, at.op);
        if size >= WORDS - (end as u64).min(WORDS) {
            return Err(NoMemory);
        }
        end += size as u32;
    }
    Ok(Starts { places, end })
}

/// Whether a JAL reaches from one code word to another.
fn is_near(from: u32, to: u32) -> bool
    ensures { result ≡ layout.is_near from to }
{
    let from = from as u64;
    let to = to as u64;
    to < from + 0x4_0000 && from < to + 0x4_0001
}

/// Whether an operation's jump reaches.
fn op_reaches(starts: &Starts, at: u32, op: MidOp) -> bool
    ensures { result ≡ layout.op_reaches (start_at starts.now) at op }
{
    match op {
        MidOp::Skip { target } => is_near(start(starts, at), start(starts, target)),
        MidOp::Back { target } => is_near(start(starts, at), start(starts, target)),
        MidOp::Unless { target, .. } => is_near(start(starts, at), start(starts, target)),
        _ => true,
    }
}

/// Puts the operations behind the code, and an EBREAK. Want of memory counts a jump that doesn't reach.
fn put_body(
    alloc: Global,
    code: &mut Vec<LinedInst>,
    slots: Slots,
    starts: &Starts,
    ops: &[LinedOp],
) -> Result<(), NoMemory>
    requires { length ops.now < 2 ^ 32 }
    ensures code { OnOk result (code.new.items ≡ code.old.items ++ layout.body_code (place_of slots) (start_at starts.now) 0 1 ops.now) }
    ensures reaches { OnOk result (IsTrue (layout.reaches (start_at starts.now) 0 ops.now)) }
{
    let mut line = 1;
    let mut at = 0;
    for one in ops {
        if !op_reaches(starts, at, one.op) {
            return Err(NoMemory);
        }
        line = one.line;
        let insts = insts_of(alloc, slots, starts, at, one.op)?;
        put_lined(code, line, insts.as_slice())?;
        at += 1;
    }
    code.push(LinedInst {
        inst: Inst::Ebreak,
        line,
    })?;
    Ok(())
}

/// The line of the first operation.
fn first_line(ops: &[LinedOp]) -> u32
    ensures { result ≡ line_in ops.now 0 }
{
    match ops {
        [] => 1,
        [first, ..] => first.line,
    }
}

/// The entry of a procedure: it takes a frame, and one that is called stores the return's address.
fn entry_insts(alloc: Global, p: usize) -> Result<Vec<Inst>, NoMemory>
    ensures { IfOk result (λ insts. insts.items ≡ layout.entry_code p) }
{
    let there = rv_isa::Reg::new(7);
    let stack = rv_isa::Reg::new(2);
    let mut insts = Vec::new(alloc);
    let frames = if p == 0 { 2048 } else { 1024 };
    insts.push(Inst::Lui {
        rd: there,
        imm: Upper::new(0x10_0000 - frames),
    })?;
    insts.push(Inst::Add {
        rd: stack,
        rs1: stack,
        rs2: there,
    })?;
    if p != 0 {
        insts.push(Inst::Sd {
            rs1: stack,
            rs2: rv_isa::Reg::new(1),
            imm: Imm::new(0),
        })?;
    }
    Ok(insts)
}

/// Puts a procedure behind the code. Want of memory counts code that can't be addressed, and more registers than a
/// frame has slots.
fn put_proc(
    alloc: Global,
    code: &mut Vec<LinedInst>,
    p: usize,
    ops: &[LinedOp],
) -> Result<(), NoMemory>
    ensures code { OnOk result (code.new.items ≡ code.old.items ++ layout.proc_code (length code.old.items) p ops.now) }
    ensures fits { OnOk result (layout.FitsProc (length code.old.items) p ops.now) }
{
    let slots = slots_for(ops);
    let words = code.as_slice().len();
    if !fit_frame(slots) || ops.len() as u64 >= WORDS || words as u64 >= WORDS {
        return Err(NoMemory);
    }
    let insts = entry_insts(alloc, p)?;
    let entry = insts.as_slice();
    if entry.len() > 3 {
        return Err(NoMemory);
    }
    let base = words as u32 + entry.len() as u32;
    put_lined(code, first_line(ops), entry)?;
    let starts = starts_for(alloc, slots, base, ops)?;
    put_body(alloc, code, slots, &starts, ops)
}

/// The code of a program, and where its procedures begin.
#[derive(Debug, Drop)]
pub struct Selected {
    pub code: Vec<LinedInst>,
    pub entries: Entries,
}

/// The code of procedures.
pub fn selected_code(alloc: Global, procs: &[MidProc]) -> Result<Selected, NoMemory>
    ensures code { IfOk result (λ s. s.code.items ≡ layout.selected procs.now) }
    ensures entries { IfOk result (λ s. s.entries ≡ layout.entries_from 0 0 procs.now) }
    ensures fits { IfOk result (λ s. layout.FitFrom 0 0 procs.now) }
{
    let mut code = Vec::new(alloc);
    let mut entries = Sequence::new(alloc);
    let mut p = 0;
    for proc in procs {
        let words = code.as_slice().len();
        if words as u64 >= WORDS {
            return Err(NoMemory);
        }
        entries.add(words as u32)?;
        put_proc(alloc, &mut code, p, proc.ops())?;
        p += 1;
    }
    Ok(Selected { code, entries })
}
