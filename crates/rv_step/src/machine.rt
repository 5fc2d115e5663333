ghost use Rattle.std.specs.Prelude.{◌≡◌, ℕ, ◌+◌, ◌^◌, ◌<◌, List, Option};
ghost use Rattle.rv_step.specs.Access.{Access};
ghost use Rattle.thread_system.specs.Memory.{Memory};
ghost use Rattle.rv_isa.specs.Machine as isa;
ghost use Rattle.rv_step.specs.State.{cpu_of, machine_of};
ghost use Rattle.rv_step.specs.Plan.{carried, datum_width, datum_sign};
ghost use Rattle.rv_step.specs.Step.{StepsTo, Accesses, NoCall, CallsAt};
ghost use Rattle.rv_step.specs.Calls.{CallsBy};

use crate::bus::{Bus, BusErr};
use crate::cpu::Cpu;
use crate::plan::{Datum, Plan, plan_for};
use crate::program::Program;
use crate::stop::Stop;
use fb_base::{NoMemory, TrapKind};
use rv_isa::Reg;

const BAD_CODE: Result<Stop, NoMemory> = Ok(Stop::Trap(TrapKind::BadCode));

const BAD_POINTER: Result<Stop, NoMemory> = Ok(Stop::Trap(TrapKind::BadPointer));

// Puts a value into a register and goes on.
#[inline(always)]
fn put(cpu: &mut Cpu, rd: Reg, value: u64) -> Result<Stop, NoMemory>
    requires { cpu.old.pc + 4 < 2 ^ 64 }
    ensures steps { (m : Memory) → StepsTo (isa.writes (cpu_of cpu.old) rd value) (cpu_of cpu.old) (cpu_of cpu.new) m m result }
    ensures seen { (at : ℕ) (seen : Option (List Access)) → Accesses (isa.writes (cpu_of cpu.old) rd value) at seen seen result }
    ensures call { NoCall result }
    ensures low { cpu.new.low ≡ cpu.old.low }
{
    cpu.finish(rd, value);
    Ok(Stop::Next)
}

// A load of a number.
#[inline(always)]
fn load<B: Bus>(
    cpu: &mut Cpu,
    bus: &mut B,
    datum: Datum,
    rd: Reg,
    addr: u64,
) -> Result<Stop, NoMemory>
    requires { cpu.old.pc + 4 < 2 ^ 64 }
    ensures steps { (h : isa.Machine) → h.low ≡ cpu.old.low → StepsTo (isa.loads h (cpu_of cpu.old) (datum_width datum) (datum_sign datum) rd addr) (cpu_of cpu.old) (cpu_of cpu.new) (B.mem bus.old) (B.mem bus.new) result }
    ensures seen { (h : isa.Machine) → h.low ≡ cpu.old.low → Accesses (isa.loads h (cpu_of cpu.old) (datum_width datum) (datum_sign datum) rd addr) (B.at bus.old) (B.seen bus.old) (B.seen bus.new) result }
    ensures at { B.at bus.new ≡ B.at bus.old }
    ensures call { NoCall result }
    ensures low { cpu.new.low ≡ cpu.old.low }
{
    let width = datum.width();
    if cpu.holds(addr, width) {
        let bytes = cpu.load(addr, width);
        cpu.finish(rd, datum.extended(bytes));
        Ok(Stop::Next)
    } else if cpu.reaches(addr) {
        BAD_POINTER
    } else {
        match bus.load(addr, width) {
            Ok(bytes) => {
                cpu.finish(rd, datum.extended(bytes));
                Ok(Stop::Next)
            }
            Err(BusErr::Unmapped) => BAD_POINTER,
            Err(BusErr::NoMemory) => Err(NoMemory),
        }
    }
}

// A store of a number.
#[inline(always)]
fn store<B: Bus>(
    cpu: &mut Cpu,
    bus: &mut B,
    datum: Datum,
    value: u64,
    addr: u64,
) -> Result<Stop, NoMemory>
    requires { cpu.old.pc + 4 < 2 ^ 64 }
    ensures steps { (h : isa.Machine) → h.low ≡ cpu.old.low → StepsTo (isa.stores h (cpu_of cpu.old) (datum_width datum) value addr) (cpu_of cpu.old) (cpu_of cpu.new) (B.mem bus.old) (B.mem bus.new) result }
    ensures seen { (h : isa.Machine) → h.low ≡ cpu.old.low → Accesses (isa.stores h (cpu_of cpu.old) (datum_width datum) value addr) (B.at bus.old) (B.seen bus.old) (B.seen bus.new) result }
    ensures at { B.at bus.new ≡ B.at bus.old }
    ensures call { NoCall result }
    ensures low { cpu.new.low ≡ cpu.old.low }
{
    let width = datum.width();
    if cpu.holds(addr, width) {
        cpu.store(addr, width, value)?;
        cpu.pass();
        Ok(Stop::Next)
    } else if cpu.reaches(addr) {
        BAD_POINTER
    } else {
        match bus.store(addr, width, value) {
            Ok(()) => {
                cpu.pass();
                Ok(Stop::Next)
            }
            Err(BusErr::Unmapped) => BAD_POINTER,
            Err(BusErr::NoMemory) => Err(NoMemory),
        }
    }
}

// A jump, which is a turn or not.
#[inline(always)]
fn jump(cpu: &mut Cpu, is_turn: bool, rd: Reg, target: u64) -> Result<Stop, NoMemory>
    requires { cpu.old.pc + 4 < 2 ^ 64 }
    ensures steps { (h : isa.Machine) (m : Memory) → StepsTo (isa.jumps h (cpu_of cpu.old) is_turn rd target) (cpu_of cpu.old) (cpu_of cpu.new) m m result }
    ensures seen { (h : isa.Machine) (at : ℕ) (seen : Option (List Access)) → Accesses (isa.jumps h (cpu_of cpu.old) is_turn rd target) at seen seen result }
    ensures call { NoCall result }
    ensures low { cpu.new.low ≡ cpu.old.low }
{
    if target % 4 != 0 {
        BAD_CODE
    } else {
        cpu.go(rd, target);
        if is_turn {
            Ok(Stop::Turn)
        } else {
            Ok(Stop::Next)
        }
    }
}

// Does what is planned.
#[inline(always)]
fn carry_out<B: Bus>(cpu: &mut Cpu, bus: &mut B, plan: Plan) -> Result<Stop, NoMemory>
    requires { cpu.old.pc + 4 < 2 ^ 64 }
    ensures steps { (h : isa.Machine) → h.low ≡ cpu.old.low → StepsTo (carried h (cpu_of cpu.old) plan) (cpu_of cpu.old) (cpu_of cpu.new) (B.mem bus.old) (B.mem bus.new) result }
    ensures seen { (h : isa.Machine) → h.low ≡ cpu.old.low → Accesses (carried h (cpu_of cpu.old) plan) (B.at bus.old) (B.seen bus.old) (B.seen bus.new) result }
    ensures at { B.at bus.new ≡ B.at bus.old }
    ensures call { CallsBy plan result }
    ensures low { cpu.new.low ≡ cpu.old.low }
{
    match plan {
        Plan::Value { rd, value } => put(cpu, rd, value),
        Plan::Load { datum, rd, addr } => load(cpu, bus, datum, rd, addr),
        Plan::Store { datum, value, addr } => store(cpu, bus, datum, value, addr),
        Plan::Jump {
            is_turn,
            rd,
            target,
        } => jump(cpu, is_turn, rd, target),
        Plan::Pass => {
            cpu.pass();
            Ok(Stop::Next)
        }
        Plan::Call => {
            cpu.pass();
            Ok(Stop::Call)
        }
        Plan::Break => BAD_CODE,
    }
}

/// One step of a thread of an image: what the instruction at its pc does (RISC-V Instruction Set Manual, volume I,
/// RV64I and M). It makes an access to the bus exactly where that is a load or a store outside of the own stack, and
/// then this one.
///
/// - A turn is a JALR, a JAL whose register isn't register 0, or a JAL or taken branch whose target isn't above its
///   own address.
/// - A call is an ECALL: pc is at the next instruction, and the answer goes to register 10.
/// - The trap BadCode comes exactly where pc isn't the address of a code word, the word is no instruction or is
///   EBREAK, or a jump or taken branch goes to an address that isn't a multiple of 4.
/// - The trap BadPointer comes exactly where an access begins in the own stack and passes its end, or goes elsewhere
///   and the bus has no such bytes.
///
/// The error is want of memory. After it, and after a trap, thread and bus are as before.
#[inline(always)]
pub fn step<B: Bus>(program: &Program, cpu: &mut Cpu, bus: &mut B) -> Result<Stop, NoMemory>
    ensures steps { StepsTo (isa.machine_step (machine_of program.now cpu.old.low) (cpu_of cpu.old)) (cpu_of cpu.old) (cpu_of cpu.new) (B.mem bus.old) (B.mem bus.new) result }
    ensures seen { Accesses (isa.machine_step (machine_of program.now cpu.old.low) (cpu_of cpu.old)) (B.at bus.old) (B.seen bus.old) (B.seen bus.new) result }
    ensures at { B.at bus.new ≡ B.at bus.old }
    ensures call { CallsAt (isa.fetched (machine_of program.now cpu.old.low) (cpu_of cpu.old).pc) result }
    ensures low { cpu.new.low ≡ cpu.old.low }
{
    match program.fetch(cpu.pc()) {
        Some(inst) => {
            let planned = plan_for(cpu, inst);
            carry_out(cpu, bus, planned)
        }
        None => BAD_CODE,
    }
}
