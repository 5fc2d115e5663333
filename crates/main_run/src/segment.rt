ghost use Rattle.std.specs.Prelude.{◌≡◌, ℕ, IfOk};
ghost use Rattle.thread_system.specs.Segment.{Segment};
ghost use Rattle.thread_system.specs.Replay.{nothing};
ghost use Rattle.rv_isa.specs.Machine as isa;
ghost use Rattle.rv_step.specs.State.{cpu_of, machine_of};
ghost use Rattle.main_run.specs.Entries.{end_of};

use crate::lone::Lone;
use fb_base::{NoMemory, TrapKind};
use rv_step::{Cpu, Program, Stop, step};

/// What a segment came to, with the line of the instruction at which it did.
pub enum Reached {
    /// A runtime call; the thread stands behind it.
    Call { line: u32 },
    /// A trap.
    Trap { kind: TrapKind, line: u32 },
    /// A turn above the limit.
    Spent { line: u32 },
}

/// The line of the instruction at an address. Addresses behind all code have the last line.
#[cold]
fn line_at(program: &Program, pc: u64) -> u32
    ensures { (low : ℕ) → result ≡ isa.line_at (machine_of program.now low) pc }
{
    let image = program.image();
    let index = pc / 4;
    if index < image.code().len() as u64 {
        image.line_of(index as u32)
    } else {
        image.line_of(u32::MAX)
    }
}

/// Runs a thread up to its next runtime call, a trap, or the turn above the limit. After that turn the thread isn't
/// used any more.
///
/// It ends for every program: each instruction that takes no turn goes on at a higher address.
pub fn segment(program: &Program, cpu: &mut Cpu, turns: u64) -> Result<Reached, NoMemory>
    ensures comes { IfOk result (λ reached. Segment (isa.machine_step (machine_of program.now cpu.old.low)) turns nothing (cpu_of cpu.old) nothing (end_of (cpu_of cpu.new) reached)) }
    ensures low { cpu.new.low ≡ cpu.old.low }
{
    let mut shared = Lone;
    let mut left = turns;
    'steps: loop {
        let pc = cpu.pc();
        match step(program, cpu, &mut shared)? {
            Stop::Next => continue,
            Stop::Turn => (),
            Stop::Call => {
                let line = line_at(program, pc);
                return Ok(Reached::Call { line });
            }
            Stop::Trap(kind) => {
                let line = line_at(program, pc);
                return Ok(Reached::Trap { kind, line });
            }
        }
        if left == 0 {
            let line = line_at(program, pc);
            return Ok(Reached::Spent { line });
        }
        left -= 1;
    }
}
