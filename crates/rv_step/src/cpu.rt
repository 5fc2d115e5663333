ghost use Rattle.std.specs.Prelude.{◌≡◌, ℕ, ◌+◌, ◌-◌, ◌%◌, ◌^◌, ◌<◌, ◌≤◌, get_or, IsTrue, IfOk, OnOk, OnErr};
ghost use Rattle.rv_isa.specs.Machine.{reg_at, with_reg};
ghost use Rattle.rv_isa.specs.Words.{loaded, stored};
ghost use Rattle.rv_step.specs.Access.{IsWidth};
ghost use Rattle.rv_step.specs.Step.{passed};

use crate::stack::Stack;
use fb_base::NoMemory;
use rv_isa::Reg;
use std::alloc::Global;

/// What a thread of the machine is: the address of its next instruction, its 32 registers, and its own stack of
/// 2^32 bytes, zero until written. Contracts see it by `cpu_of` of specs/State.antt as a state of rv_isa's machine.
#[derive(Debug, Drop)]
pub struct Cpu {
    pc: u64,
    regs: [u64; 32],
    low: u64,
    stack: Stack,
    ghost low_fits: { low + 2 ^ 32 ≤ 2 ^ 63 },
    ghost zero: { get_or regs 0 0 ≡ 0 },
}

impl Cpu {
    ghost use Rattle.rv_isa.specs.Machine as isa;
    ghost use Rattle.rv_step.specs.State.{cpu_of, first_cpu, stack_of};

    /// A thread at its start: its number, below 2^30, says where its stack lies, from 2^62 + t * 2^32 on. Register
    /// 10 has the parameter and register 2 the stack's end, and all others are 0. It takes no memory.
    pub fn new(alloc: Global, t: u32, pc: u64, param: u64) -> Cpu
        requires { t < 2 ^ 30 }
        ensures state { cpu_of result ≡ first_cpu t pc param }
        ensures low { result.low ≡ stack_of t }
    {
        let low = 0x4000_0000_0000_0000 + t as u64 * 0x1_0000_0000;
        let mut cpu = Cpu {
            pc,
            regs: [0; 32],
            low,
            stack: Stack::new(alloc),
        };
        cpu.set_register(Reg::new(2), low + 0x1_0000_0000);
        cpu.set_register(Reg::new(10), param);
        cpu
    }

    /// An equal thread. The error is want of memory.
    pub fn copy(&self) -> Result<Cpu, NoMemory>
        ensures state { IfOk result (λ cpu. cpu_of cpu ≡ cpu_of self.now) }
        ensures low { IfOk result (λ cpu. cpu.low ≡ self.now.low) }
    {
        Ok(Cpu {
            pc: self.pc,
            regs: self.regs,
            low: self.low,
            stack: self.stack.copy()?,
        })
    }

    /// The address of the next instruction.
    #[inline(always)]
    pub fn pc(&self) -> u64
        ensures { result ≡ (cpu_of self.now).pc }
    {
        self.pc
    }

    /// The value of a register; register 0 reads 0.
    #[inline(always)]
    pub fn register(&self, r: Reg) -> u64
        ensures { result ≡ reg_at (cpu_of self.now).regs r }
    {
        self.regs[r.number() as usize]
    }

    /// Puts a value into a register; what is written to register 0 is dropped.
    #[inline(always)]
    pub fn set_register(&mut self, r: Reg, value: u64)
        ensures state { cpu_of self.new ≡ record (cpu_of self.old) { regs = with_reg (cpu_of self.old).regs r value } }
        ensures low { self.new.low ≡ self.old.low }
    {
        let number = r.number() as usize;
        if number != 0 {
            self.regs[number] = value;
        }
    }

    /// Whether so many bytes lie in the own stack.
    #[inline(always)]
    pub(crate) fn holds(&self, addr: u64, width: u8) -> bool
        requires { IsWidth width }
        ensures test { (h : isa.Machine) → h.low ≡ self.now.low → isa.on_stack h addr width ≡ result }
        ensures from { IsTrue result → self.now.low ≤ addr }
        ensures within { IsTrue result → addr + width ≤ self.now.low + 2 ^ 32 }
    {
        addr.wrapping_sub(self.low) <= 0x1_0000_0000 - width as u64
    }

    /// Whether an access begins in the own stack.
    #[inline(always)]
    pub(crate) fn reaches(&self, addr: u64) -> bool
        ensures { (h : isa.Machine) → h.low ≡ self.now.low → isa.in_stack h addr ≡ result }
    {
        addr.wrapping_sub(self.low) < 0x1_0000_0000
    }

    /// The number of so many bytes of the own stack.
    #[inline(always)]
    pub(crate) fn load(&self, addr: u64, width: u8) -> u64
        requires width { IsWidth width }
        requires from { self.now.low ≤ addr }
        requires within { addr + width ≤ self.now.low + 2 ^ 32 }
        ensures { result ≡ loaded (cpu_of self.now).bytes addr width }
    {
        self.stack.load(addr - self.low, width)
    }

    /// Stores the low bytes of a value in the own stack. The error is want of memory, and all is then as before.
    #[inline(always)]
    pub(crate) fn store(&mut self, addr: u64, width: u8, value: u64) -> Result<(), NoMemory>
        requires width { IsWidth width }
        requires from { self.old.low ≤ addr }
        requires within { addr + width ≤ self.old.low + 2 ^ 32 }
        ensures ok { OnOk result (cpu_of self.new ≡ record (cpu_of self.old) { bytes = stored (cpu_of self.old).bytes addr width value }) }
        ensures err { OnErr result (cpu_of self.new ≡ cpu_of self.old) }
        ensures low { self.new.low ≡ self.old.low }
    {
        self.stack.store(addr - self.low, width, value)
    }

    /// Goes on at the next instruction.
    #[inline(always)]
    pub(crate) fn pass(&mut self)
        requires { self.old.pc + 4 < 2 ^ 64 }
        ensures state { cpu_of self.new ≡ passed (cpu_of self.old) }
        ensures low { self.new.low ≡ self.old.low }
    {
        self.pc += 4;
    }

    /// Puts a value into a register and goes on at the next instruction.
    #[inline(always)]
    pub(crate) fn finish(&mut self, rd: Reg, value: u64)
        requires { self.old.pc + 4 < 2 ^ 64 }
        ensures state { cpu_of self.new ≡ isa.moves_on (cpu_of self.old) rd value }
        ensures low { self.new.low ≡ self.old.low }
    {
        self.set_register(rd, value);
        self.pc += 4;
    }

    /// Goes on at an address, with the next instruction's in a register.
    #[inline(always)]
    pub(crate) fn go(&mut self, rd: Reg, target: u64)
        requires { self.old.pc + 4 < 2 ^ 64 }
        ensures state { cpu_of self.new ≡ record { pc = target; regs = isa.with_reg (cpu_of self.old).regs rd ((cpu_of self.old).pc + 4); bytes = (cpu_of self.old).bytes } }
        ensures low { self.new.low ≡ self.old.low }
    {
        self.set_register(rd, self.pc + 4);
        self.pc = target;
    }
}
