ghost use Rattle.std.specs.Prelude.{◌≡◌, ◌&&◌, nat_lt, is_some, IfOk, IfSome};
ghost use Rattle.thread_system.specs.Printing.{signed_item};
ghost use Rattle.rv_step.specs.State.{cpu_of};
ghost use Rattle.rv_step.specs.Step.{trap_number};
ghost use Rattle.main_run.specs.Entries.{IsAskedBy, call_end, end_of};

use crate::segment::Reached;
use fb_base::{NoMemory, TrapKind};
use itoa::Buffer;
use rv_isa::Reg;
use rv_step::Cpu;
use std::alloc::Global;

/// The number of the runtime call that prints a word as a signed number.
const PRINT_SIGNED: u64 = 40;

/// The number of the runtime call that prints a line end.
const PRINT_LINE: u64 = 45;

/// The number of the runtime call that ends the main module.
const MAIN_END: u64 = 64;

/// The number of the runtime call that traps.
const TRAP: u64 = 70;

/// What an entry is about to do.
#[derive(Drop)]
pub enum Prepared {
    /// To print bytes, and go on.
    Print(Vec<u8>),
    /// To end the run with status 0.
    End,
    /// To be stopped by a trap.
    Trap { kind: TrapKind, line: u32 },
    /// To be stopped at a turn above the limit.
    Spent { line: u32 },
}

/// The trap of a number, if there is one.
fn trap_of(number: u64) -> Option<TrapKind>
    ensures lawful { (nat_lt 0 number && nat_lt number 12) ≡ is_some result }
    ensures kind { IfSome result (λ kind. number ≡ trap_number kind) }
{
    match number {
        1 => Some(TrapKind::BadPointer),
        2 => Some(TrapKind::BadFree),
        3 => Some(TrapKind::DivZero),
        4 => Some(TrapKind::Bounds),
        5 => Some(TrapKind::StrIndex),
        6 => Some(TrapKind::BadString),
        7 => Some(TrapKind::StrLimit),
        8 => Some(TrapKind::BadHandle),
        9 => Some(TrapKind::Depth),
        10 => Some(TrapKind::PlaceLimit),
        11 => Some(TrapKind::BadCode),
        _ => None,
    }
}

/// What Print writes for a word as a signed number.
fn item(alloc: Global, word: u64) -> Result<Vec<u8>, NoMemory>
    ensures { IfOk result (λ bytes. bytes.items ≡ signed_item word) }
{
    let mut digits = Buffer::new();
    let mut bytes = Vec::new(alloc);
    if word < 1 << 63 {
        bytes.push(b' ')?;
        bytes.extend_from_slice(digits.format(word).as_bytes())?;
    } else {
        bytes.push(b'-')?;
        bytes.extend_from_slice(digits.format(u64::MAX - word + 1).as_bytes())?;
    }
    Ok(bytes)
}

/// What a call asks for at which a thread stands.
fn call_of(alloc: Global, cpu: &Cpu, line: u32) -> Result<Prepared, NoMemory>
    ensures { IfOk result (λ prepared. IsAskedBy (call_end (cpu_of cpu.now) line) (cpu_of cpu.now) prepared) }
{
    let number = cpu.register(Reg::new(17));
    let word = cpu.register(Reg::new(10));
    if number == PRINT_SIGNED {
        return Ok(Prepared::Print(item(alloc, word)?));
    }
    if number == PRINT_LINE {
        let mut bytes = Vec::new(alloc);
        bytes.push(b'\n')?;
        return Ok(Prepared::Print(bytes));
    }
    if number == MAIN_END {
        return Ok(Prepared::End);
    }
    let asked = if number == TRAP { trap_of(word) } else { None };
    Ok(Prepared::Trap {
        kind: asked.unwrap_or(TrapKind::BadCode),
        line,
    })
}

/// What an entry is about to do whose segment came to this.
pub fn prepared_by(alloc: Global, cpu: &Cpu, reached: Reached) -> Result<Prepared, NoMemory>
    ensures { IfOk result (λ prepared. IsAskedBy (end_of (cpu_of cpu.now) reached) (cpu_of cpu.now) prepared) }
{
    match reached {
        Reached::Call { line } => call_of(alloc, cpu, line),
        Reached::Trap { kind, line } => Ok(Prepared::Trap { kind, line }),
        Reached::Spent { line } => Ok(Prepared::Spent { line }),
    }
}
