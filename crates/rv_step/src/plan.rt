ghost use Rattle.std.specs.Prelude.{◌≡◌, ◌==◌, ◌||◌, not, nat_lt, true};
ghost use Rattle.word64.specs.Words.{extend, less_signed};
ghost use Rattle.rv_isa.specs.Machine as isa;
ghost use Rattle.rv_step.specs.Access.{IsWidth};
ghost use Rattle.rv_step.specs.State.{cpu_of};
ghost use Rattle.rv_step.specs.Plan.{plan_of, branch_plan, link_plan, datum_width, datum_sign};

use crate::cpu::Cpu;
use crate::words::{
    high_mixed, high_signed, high_unsigned, low_word, quotient, quotient_signed, remainder,
    remainder_signed, signed_branch, signed_imm, signed_jump, signed_upper, truth, word,
};
use rv_isa::{Branch, Imm, Inst, Jump, Reg};
use word64::{Kind, add, less_s, less_u, mul, narrow, shl, shr_s, shr_u, sub};

/// A number in memory.
#[derive(Clone, Copy, PartialEq, Eq, Debug)]
pub(crate) enum Datum {
    Byte,
    SignedByte,
    Half,
    SignedHalf,
    Word,
    SignedWord,
    Double,
}

impl Datum {
    /// How many bytes it has.
    #[inline(always)]
    pub(crate) fn width(self) -> u8
        ensures value { result ≡ datum_width self }
        ensures is_width { IsWidth result }
    {
        match self {
            Datum::Byte | Datum::SignedByte => 1,
            Datum::Half | Datum::SignedHalf => 2,
            Datum::Word | Datum::SignedWord => 4,
            Datum::Double => 8,
        }
    }

    /// The word of its bytes, extended by its sign or by zeros.
    #[inline(always)]
    pub(crate) fn extended(self, bytes: u64) -> u64
        ensures { result ≡ extend (datum_width self) (datum_sign self) bytes }
    {
        let kind = match self {
            Datum::Byte => Kind::UByte,
            Datum::SignedByte => Kind::Byte,
            Datum::Half => Kind::UShort,
            Datum::SignedHalf => Kind::Short,
            Datum::Word => Kind::ULong,
            Datum::SignedWord => Kind::Long,
            Datum::Double => Kind::ULongInt,
        };
        narrow(bytes, kind)
    }
}

/// What an instruction is going to do, with all values from the registers.
#[derive(Clone, Copy, PartialEq, Eq, Debug)]
pub(crate) enum Plan {
    /// A value goes into a register.
    Value { rd: Reg, value: u64 },
    /// A number of memory goes into a register.
    Load { datum: Datum, rd: Reg, addr: u64 },
    /// The low bytes of a value go to memory.
    Store { datum: Datum, value: u64, addr: u64 },
    /// The thread goes on at the target, with the place behind it in a register.
    Jump { is_turn: bool, rd: Reg, target: u64 },
    /// Nothing.
    Pass,
    /// A call of the runtime.
    Call,
    /// There is nothing to go on with.
    Break,
}

// The address of a load, a store or a JALR.
#[inline(always)]
fn address(cpu: &Cpu, rs1: Reg, imm: Imm) -> u64
    ensures { result ≡ isa.address (cpu_of cpu.now) rs1 imm }
{
    add(cpu.register(rs1), signed_imm(imm))
}

// Whether going to an address isn't going ahead.
#[inline(always)]
fn is_back(cpu: &Cpu, target: u64) -> bool
    ensures { result ≡ isa.is_back (cpu_of cpu.now) target }
{
    !less_u(cpu.pc(), target)
}

#[inline(always)]
fn equal(cpu: &Cpu, rs1: Reg, rs2: Reg) -> bool
    ensures { result ≡ (isa.reg_at (cpu_of cpu.now).regs rs1 == isa.reg_at (cpu_of cpu.now).regs rs2) }
{
    cpu.register(rs1) == cpu.register(rs2)
}

#[inline(always)]
fn below_s(cpu: &Cpu, rs1: Reg, rs2: Reg) -> bool
    ensures { result ≡ less_signed (isa.reg_at (cpu_of cpu.now).regs rs1) (isa.reg_at (cpu_of cpu.now).regs rs2) }
{
    less_s(cpu.register(rs1), cpu.register(rs2))
}

#[inline(always)]
fn below_u(cpu: &Cpu, rs1: Reg, rs2: Reg) -> bool
    ensures { result ≡ nat_lt (isa.reg_at (cpu_of cpu.now).regs rs1) (isa.reg_at (cpu_of cpu.now).regs rs2) }
{
    less_u(cpu.register(rs1), cpu.register(rs2))
}

#[inline(always)]
fn branch(cpu: &Cpu, taken: bool, offset: Branch) -> Plan
    ensures { result ≡ branch_plan (cpu_of cpu.now) taken offset }
{
    if taken {
        let target = add(cpu.pc(), signed_branch(offset));
        Plan::Jump {
            is_turn: is_back(cpu, target),
            rd: Reg::new(0),
            target,
        }
    } else {
        Plan::Pass
    }
}

// Whether a register keeps what is written to it, or else the other.
#[inline(always)]
fn keeps_or(rd: Reg, other: bool) -> bool
    ensures { result ≡ (not (rd == 0) || other) }
{
    if rd.number() == 0 { other } else { true }
}

// A JAL, which is a turn where it keeps the place to return to, or isn't ahead.
#[inline(always)]
fn link(cpu: &Cpu, rd: Reg, offset: Jump) -> Plan
    ensures { result ≡ link_plan (cpu_of cpu.now) rd offset }
{
    let target = add(cpu.pc(), signed_jump(offset));
    Plan::Jump {
        is_turn: keeps_or(rd, is_back(cpu, target)),
        rd,
        target,
    }
}

#[inline(always)]
fn value(rd: Reg, value: u64) -> Plan
    ensures { result ≡ Plan.Value rd value }
{
    Plan::Value { rd, value }
}

#[inline(always)]
fn load(datum: Datum, rd: Reg, addr: u64) -> Plan
    ensures { result ≡ Plan.Load datum rd addr }
{
    Plan::Load { datum, rd, addr }
}

#[inline(always)]
fn store(datum: Datum, value: u64, addr: u64) -> Plan
    ensures { result ≡ Plan.Store datum value addr }
{
    Plan::Store { datum, value, addr }
}

#[inline(always)]
fn jump(rd: Reg, target: u64) -> Plan
    ensures { result ≡ Plan.Jump true rd target }
{
    Plan::Jump {
        is_turn: true,
        rd,
        target,
    }
}

/// What an instruction is going to do.
#[inline(always)]
#[tactic(auto, unfolding(crate::specs::Plan::plan_of))]
pub(crate) fn plan_for(cpu: &Cpu, inst: Inst) -> Plan
    ensures { result ≡ plan_of (cpu_of cpu.now) inst }
{
    match inst {
        Inst::Lui { rd, imm } => value(rd, signed_upper(imm)),
        Inst::Auipc { rd, imm } => value(rd, add(cpu.pc(), signed_upper(imm))),
        Inst::Jal { rd, offset } => link(cpu, rd, offset),
        Inst::Jalr { rd, rs1, imm } => jump(rd, 2 * (address(cpu, rs1, imm) / 2)),
        Inst::Beq { rs1, rs2, offset } => branch(cpu, equal(cpu, rs1, rs2), offset),
        Inst::Bne { rs1, rs2, offset } => branch(cpu, !equal(cpu, rs1, rs2), offset),
        Inst::Blt { rs1, rs2, offset } => branch(cpu, below_s(cpu, rs1, rs2), offset),
        Inst::Bge { rs1, rs2, offset } => branch(cpu, !below_s(cpu, rs1, rs2), offset),
        Inst::Bltu { rs1, rs2, offset } => branch(cpu, below_u(cpu, rs1, rs2), offset),
        Inst::Bgeu { rs1, rs2, offset } => branch(cpu, !below_u(cpu, rs1, rs2), offset),
        Inst::Lb { rd, rs1, imm } => load(Datum::SignedByte, rd, address(cpu, rs1, imm)),
        Inst::Lh { rd, rs1, imm } => load(Datum::SignedHalf, rd, address(cpu, rs1, imm)),
        Inst::Lw { rd, rs1, imm } => load(Datum::SignedWord, rd, address(cpu, rs1, imm)),
        Inst::Ld { rd, rs1, imm } => load(Datum::Double, rd, address(cpu, rs1, imm)),
        Inst::Lbu { rd, rs1, imm } => load(Datum::Byte, rd, address(cpu, rs1, imm)),
        Inst::Lhu { rd, rs1, imm } => load(Datum::Half, rd, address(cpu, rs1, imm)),
        Inst::Lwu { rd, rs1, imm } => load(Datum::Word, rd, address(cpu, rs1, imm)),
        Inst::Sb { rs1, rs2, imm } => store(Datum::Byte, cpu.register(rs2), address(cpu, rs1, imm)),
        Inst::Sh { rs1, rs2, imm } => store(Datum::Half, cpu.register(rs2), address(cpu, rs1, imm)),
        Inst::Sw { rs1, rs2, imm } => store(Datum::Word, cpu.register(rs2), address(cpu, rs1, imm)),
        Inst::Sd { rs1, rs2, imm } => store(
            Datum::Double,
            cpu.register(rs2),
            address(cpu, rs1, imm),
        ),
        Inst::Addi { rd, rs1, imm } => value(rd, add(cpu.register(rs1), signed_imm(imm))),
        Inst::Slti { rd, rs1, imm } => value(rd, truth(less_s(cpu.register(rs1), signed_imm(imm)))),
        Inst::Sltiu { rd, rs1, imm } => value(
            rd,
            truth(less_u(cpu.register(rs1), signed_imm(imm))),
        ),
        Inst::Xori { rd, rs1, imm } => value(rd, cpu.register(rs1) ^ signed_imm(imm)),
        Inst::Ori { rd, rs1, imm } => value(rd, cpu.register(rs1) | signed_imm(imm)),
        Inst::Andi { rd, rs1, imm } => value(rd, cpu.register(rs1) & signed_imm(imm)),
        Inst::Slli { rd, rs1, amount } => value(rd, shl(cpu.register(rs1), amount.number() as u64)),
        Inst::Srli { rd, rs1, amount } => value(
            rd,
            shr_u(cpu.register(rs1), amount.number() as u64),
        ),
        Inst::Srai { rd, rs1, amount } => value(
            rd,
            shr_s(cpu.register(rs1), amount.number() as u64),
        ),
        Inst::Add { rd, rs1, rs2 } => value(rd, add(cpu.register(rs1), cpu.register(rs2))),
        Inst::Sub { rd, rs1, rs2 } => value(rd, sub(cpu.register(rs1), cpu.register(rs2))),
        Inst::Sll { rd, rs1, rs2 } => value(rd, shl(cpu.register(rs1), cpu.register(rs2))),
        Inst::Slt { rd, rs1, rs2 } => value(
            rd,
            truth(less_s(cpu.register(rs1), cpu.register(rs2))),
        ),
        Inst::Sltu { rd, rs1, rs2 } => value(
            rd,
            truth(less_u(cpu.register(rs1), cpu.register(rs2))),
        ),
        Inst::Xor { rd, rs1, rs2 } => value(rd, cpu.register(rs1) ^ cpu.register(rs2)),
        Inst::Srl { rd, rs1, rs2 } => value(rd, shr_u(cpu.register(rs1), cpu.register(rs2))),
        Inst::Sra { rd, rs1, rs2 } => value(rd, shr_s(cpu.register(rs1), cpu.register(rs2))),
        Inst::Or { rd, rs1, rs2 } => value(rd, cpu.register(rs1) | cpu.register(rs2)),
        Inst::And { rd, rs1, rs2 } => value(rd, cpu.register(rs1) & cpu.register(rs2)),
        Inst::Mul { rd, rs1, rs2 } => value(rd, mul(cpu.register(rs1), cpu.register(rs2))),
        Inst::Mulh { rd, rs1, rs2 } => value(rd, high_signed(cpu.register(rs1), cpu.register(rs2))),
        Inst::Mulhsu { rd, rs1, rs2 } => value(
            rd,
            high_mixed(cpu.register(rs1), cpu.register(rs2)),
        ),
        Inst::Mulhu { rd, rs1, rs2 } => value(
            rd,
            high_unsigned(cpu.register(rs1), cpu.register(rs2)),
        ),
        Inst::Div { rd, rs1, rs2 } => value(
            rd,
            quotient_signed(cpu.register(rs1), cpu.register(rs2)),
        ),
        Inst::Divu { rd, rs1, rs2 } => value(rd, quotient(cpu.register(rs1), cpu.register(rs2))),
        Inst::Rem { rd, rs1, rs2 } => value(
            rd,
            remainder_signed(cpu.register(rs1), cpu.register(rs2)),
        ),
        Inst::Remu { rd, rs1, rs2 } => value(rd, remainder(cpu.register(rs1), cpu.register(rs2))),
        Inst::Addiw { rd, rs1, imm } => value(rd, word(add(cpu.register(rs1), signed_imm(imm)))),
        Inst::Slliw { rd, rs1, amount } => value(
            rd,
            word(shl(cpu.register(rs1), amount.number() as u64)),
        ),
        Inst::Srliw { rd, rs1, amount } => value(
            rd,
            word(shr_u(low_word(cpu.register(rs1)), amount.number() as u64)),
        ),
        Inst::Sraiw { rd, rs1, amount } => value(
            rd,
            word(shr_s(word(cpu.register(rs1)), amount.number() as u64)),
        ),
        Inst::Addw { rd, rs1, rs2 } => value(rd, word(add(cpu.register(rs1), cpu.register(rs2)))),
        Inst::Subw { rd, rs1, rs2 } => value(rd, word(sub(cpu.register(rs1), cpu.register(rs2)))),
        Inst::Sllw { rd, rs1, rs2 } => value(
            rd,
            word(shl(cpu.register(rs1), cpu.register(rs2) % 32)),
        ),
        Inst::Srlw { rd, rs1, rs2 } => value(
            rd,
            word(shr_u(low_word(cpu.register(rs1)), cpu.register(rs2) % 32)),
        ),
        Inst::Sraw { rd, rs1, rs2 } => value(
            rd,
            word(shr_s(word(cpu.register(rs1)), cpu.register(rs2) % 32)),
        ),
        Inst::Mulw { rd, rs1, rs2 } => value(rd, word(mul(cpu.register(rs1), cpu.register(rs2)))),
        Inst::Divw { rd, rs1, rs2 } => value(
            rd,
            word(quotient_signed(word(cpu.register(rs1)), word(cpu.register(rs2)))),
        ),
        Inst::Divuw { rd, rs1, rs2 } => value(
            rd,
            word(quotient(low_word(cpu.register(rs1)), low_word(cpu.register(rs2)))),
        ),
        Inst::Remw { rd, rs1, rs2 } => value(
            rd,
            word(remainder_signed(word(cpu.register(rs1)), word(cpu.register(rs2)))),
        ),
        Inst::Remuw { rd, rs1, rs2 } => value(
            rd,
            word(remainder(low_word(cpu.register(rs1)), low_word(cpu.register(rs2)))),
        ),
        Inst::Fence { .. } => Plan::Pass,
        Inst::Ecall => Plan::Call,
        Inst::Ebreak => Plan::Break,
    }
}
