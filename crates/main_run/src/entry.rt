ghost use Rattle.std.specs.Prelude.{◌≡◌, ℕ, ◌≤◌, length, IfOk, OnOk, IfNone};
ghost use Rattle.host_edge.specs.Streams.{SameTelling};
ghost use Rattle.thread_system.specs.Replay.{Entry};
ghost use Rattle.rv_isa.specs.Machine as isa;
ghost use Rattle.rv_step.specs.State.{cpu_of, machine_of};
ghost use Rattle.main_run.specs.Entries.{EntryEndsAs, bytes_of, standing_of};

use crate::calls::{Prepared, prepared_by};
use crate::segment::segment;
use fb_base::{Ending, NoMemory, Schedule, WhichSink};
use host_edge::{Sink, put_all};
use rv_isa::Reg;
use rv_step::{Cpu, Program};
use std::alloc::Global;

/// Runs a segment, and finds what its end asks for.
fn next_entry(
    alloc: Global,
    program: &Program,
    cpu: &mut Cpu,
    turns: u64,
) -> Result<Prepared, NoMemory>
    ensures entry { IfOk result (λ prepared. Entry (isa.machine_step (machine_of program.now cpu.old.low)) turns (cpu_of cpu.old) (bytes_of prepared) (standing_of (cpu_of cpu.new) prepared)) }
    ensures low { cpu.new.low ≡ cpu.old.low }
{
    let reached = segment(program, cpu, turns)?;
    prepared_by(alloc, cpu, reached)
}

/// Makes the room that an entry needs.
fn make_room<K: Sink>(count: usize, out: &mut K, schedule: &mut Schedule) -> Result<(), NoMemory>
    ensures ok { OnOk result (count ≤ K.spare out.new) }
    ensures room { OnOk result (1 ≤ schedule.new.spare) }
    ensures items { schedule.new.items ≡ schedule.old.items }
    ensures written { K.written out.new ≡ K.written out.old }
    ensures faults { K.faults out.new ≡ K.faults out.old }
{
    schedule.room()?;
    out.room(count)
}

/// Finds what the next entry is about to do, and makes the room that it needs.
fn prepare<K: Sink>(
    alloc: Global,
    program: &Program,
    cpu: &mut Cpu,
    turns: u64,
    out: &mut K,
    schedule: &mut Schedule,
) -> Result<Prepared, NoMemory>
    ensures entry { IfOk result (λ prepared. Entry (isa.machine_step (machine_of program.now cpu.old.low)) turns (cpu_of cpu.old) (bytes_of prepared) (standing_of (cpu_of cpu.new) prepared)) }
    ensures low { cpu.new.low ≡ cpu.old.low }
    ensures ok { IfOk result (λ prepared. length (bytes_of prepared) ≤ K.spare out.new) }
    ensures room { OnOk result (1 ≤ schedule.new.spare) }
    ensures items { schedule.new.items ≡ schedule.old.items }
    ensures written { K.written out.new ≡ K.written out.old }
    ensures faults { K.faults out.new ≡ K.faults out.old }
{
    let prepared = next_entry(alloc, program, cpu, turns)?;
    let count = match &prepared {
        Prepared::Print(bytes) => bytes.len(),
        Prepared::End | Prepared::Trap { .. } | Prepared::Spent { .. } => 0,
    };
    make_room(count, out, schedule)?;
    Ok(prepared)
}

/// One entry of the main thread: all that it does up to its next runtime call, and that call. It answers how the run
/// ends, and nothing where the thread goes on.
///
/// All room is made first, then the entry is put into the schedule, and its bytes are written last.
pub fn do_entry<K: Sink>(
    alloc: Global,
    program: &Program,
    cpu: &mut Cpu,
    turns: u64,
    out: &mut K,
    schedule: &mut Schedule,
) -> Option<Ending>
    ensures ends { EntryEndsAs (isa.machine_step (machine_of program.now cpu.old.low)) turns (cpu_of cpu.old) (cpu_of cpu.new) (K.written out.old) (K.written out.new) (K.faults out.old) (K.faults out.new) schedule.old.items schedule.new.items result }
    ensures low { cpu.new.low ≡ cpu.old.low }
    ensures told { SameTelling (K.written out.old) (K.written out.new) }
    ensures later { K.faults out.old ≤ K.faults out.new }
{
    let Ok(prepared) = prepare(alloc, program, cpu, turns, out, schedule) else {
        return Some(Ending::NoMemory);
    };
    schedule.add(0);
    match prepared {
        Prepared::End => Some(Ending::Ended { status: 0 }),
        Prepared::Trap { kind, line } => Some(Ending::Trapped {
            kind,
            line,
            thread: 0,
        }),
        Prepared::Spent { line } => Some(Ending::TurnsSpent { thread: 0, line }),
        Prepared::Print(bytes) => match put_all(out, bytes.as_slice()) {
            Err(_) => Some(Ending::WriteFault {
                sink: WhichSink::Out,
            }),
            Ok(()) => {
                cpu.set_register(Reg::new(10), 0);
                None
            }
        },
    }
}
