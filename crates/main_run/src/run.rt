ghost use Rattle.std.specs.Prelude.{◌≡◌, ◌≤◌, []};
ghost use Rattle.host_edge.specs.Streams.{SameTelling};
ghost use Rattle.rv_isa.specs.Machine.{machine_step};
ghost use Rattle.rv_step.specs.State.{cpu_of, stack_of};
ghost use Rattle.main_run.specs.Solo.{SoloEndsAs, main_cpu, main_machine};

use crate::entry::do_entry;
use crate::outcome::Solo;
use fb_base::{Ending, Schedule};
use fb_image::Image;
use host_edge::{Sink, Source};
use rv_step::{Cpu, Program};
use std::alloc::Global;

/// The main thread of an image as it begins.
fn main_thread(alloc: Global, program: &Program) -> Cpu
    ensures state { cpu_of result ≡ main_cpu program.now }
    ensures low { result.low ≡ stack_of 0 }
{
    let start = program.image().entry(0).unwrap_or(0);
    Cpu::new(alloc, 0, 4 * u64::from(start), 0)
}

/// Makes entries until the run is over or the limit is reached, and answers how it ends.
fn run<K: Sink>(
    alloc: Global,
    program: &Program,
    turns: u64,
    entries: u32,
    out: &mut K,
    schedule: &mut Schedule,
) -> Ending
    requires { schedule.old.items ≡ [] }
    ensures ends { SoloEndsAs (machine_step (main_machine program.now)) turns (main_cpu program.now) entries (K.written out.old) (K.written out.new) (K.faults out.old) (K.faults out.new) schedule.new.items result }
    ensures told { SameTelling (K.written out.old) (K.written out.new) }
    ensures later { K.faults out.old ≤ K.faults out.new }
{
    let mut cpu = main_thread(alloc, program);
    let mut made = 0;
    'entries: while made < entries {
        match do_entry(alloc, program, &mut cpu, turns, out, schedule) {
            Some(ending) => return ending,
            None => made += 1,
        }
    }
    Ending::EntriesSpent { limit: entries }
}

/// Decodes an image and makes its entries, and answers how the run ends.
fn run_image<K: Sink>(
    alloc: Global,
    image: Image,
    turns: u64,
    entries: u32,
    out: &mut K,
    schedule: &mut Schedule,
) -> Ending
    requires { schedule.old.items ≡ [] }
    ensures ends { SoloEndsAs (machine_step (main_machine image)) turns (main_cpu image) entries (K.written out.old) (K.written out.new) (K.faults out.old) (K.faults out.new) schedule.new.items result }
    ensures told { SameTelling (K.written out.old) (K.written out.new) }
    ensures later { K.faults out.old ≤ K.faults out.new }
{
    let Ok(program) = Program::new(alloc, image) else {
        return Ending::NoMemory;
    };
    run(alloc, &program, turns, entries, out, schedule)
}

/// Runs the main thread of an image alone, on the machine of RV64IM (RISC-V Instruction Set Manual, volume I), until
/// its run is over or one of the limits is reached: so many turns in a segment, and so many entries.
///
/// - The thread has number 0 and begins at procedure 0 with the parameter 0. It shares no memory: an access outside
///   of its own stack is the trap BadPointer.
/// - Call 40 prints a word as a signed number, call 45 a line end, and call 64 ends the run with status 0. Call 70
///   traps with the kind of that number; any other call is the trap BadCode.
/// - The endings are Ended; Trapped and TurnsSpent, with the line of the instruction; EntriesSpent exactly where as
///   many entries as the limit were made and the thread goes on, so at once where the limit is 0; WriteFault of the
///   output, whose count of faults rose then; and NoMemory. Each entry stands in the schedule, also one that traps,
///   that spends its turns, or whose bytes were cut.
/// - Each entry makes all room first and writes last, so that after want of memory whole entries were written.
/// - The input comes back as it was.
pub fn solo<S: Source, K: Sink>(
    alloc: Global,
    image: Image,
    input: S,
    out: K,
    turns: u64,
    entries: u32,
) -> Solo<S, K>
    ensures ends { SoloEndsAs (machine_step (main_machine image)) turns (main_cpu image) entries (K.written out) (K.written result.out) (K.faults out) (K.faults result.out) result.schedule.items result.ending }
    ensures input { result.input ≡ input }
    ensures told { SameTelling (K.written out) (K.written result.out) }
    ensures later { K.faults out ≤ K.faults result.out }
{
    let mut out = out;
    let mut schedule = Schedule::new(alloc);
    let ending = run_image(alloc, image, turns, entries, &mut out, &mut schedule);
    Solo {
        ending,
        schedule,
        input,
        out,
    }
}
