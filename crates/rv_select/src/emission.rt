//! The instructions of each operation. A register of the machine is given by its number.

ghost use Rattle.std.specs.Prelude.{◌≡◌, ◌≤◌, ◌<◌, ◌^◌, ◌+◌, ◌++◌, ◌∷◌, [], length, OnOk};
ghost use Rattle.rv_isa.specs.declared.inst.Inst.TheVariants.{Addi, Bne};
ghost use Rattle.rv_select.specs.Places.{slot_off, load_code, store_code, fetch_code, keep_code};
ghost use Rattle.rv_select.specs.Slots.{place_of, last_slot};
ghost use Rattle.rv_select.specs.Emission as emission;
ghost use Rattle.rv_select.specs.Starts.{start_at};

use crate::size::move_size;
use crate::slots::{Slots, slot};
use crate::starts::{Starts, start};
use fb_base::NoMemory;
use mid_code::{Division, MidOp, Reg, WordOp};
use rv_isa::{Branch, Imm, Inst, Jump, Shift, Upper};

/// `rd` gets the sum of `rs1` and the immediate.
fn add_immediate(rd: u8, rs1: u8, imm: u16) -> Inst
    requires rd { rd < 32 }
    requires rs1 { rs1 < 32 }
    requires imm { imm < 4096 }
    ensures { result ≡ Addi rd rs1 imm }
{
    Inst::Addi {
        rd: rv_isa::Reg::new(rd),
        rs1: rv_isa::Reg::new(rs1),
        imm: Imm::new(imm),
    }
}

/// A register gets a word of the frame.
fn put_load(code: &mut Vec<Inst>, r: u8, off: u64) -> Result<(), NoMemory>
    requires r { r < 32 }
    requires off { off < 2 ^ 22 }
    ensures { OnOk result (code.new.items ≡ code.old.items ++ load_code r off) }
{
    let rd = rv_isa::Reg::new(r);
    let stack = rv_isa::Reg::new(2);
    if off < 2048 {
        code.push(Inst::Ld {
            rd,
            rs1: stack,
            imm: Imm::new(off as u16),
        })?;
        return Ok(());
    }
    code.push(Inst::Lui {
        rd,
        imm: Upper::new(((off + 2048) / 4096) as u32),
    })?;
    code.push(Inst::Add {
        rd,
        rs1: rd,
        rs2: stack,
    })?;
    code.push(Inst::Ld {
        rd,
        rs1: rd,
        imm: Imm::new((off % 4096) as u16),
    })?;
    Ok(())
}

/// A word of the frame gets a register.
fn put_store(code: &mut Vec<Inst>, r: u8, off: u64) -> Result<(), NoMemory>
    requires r { r < 32 }
    requires off { off < 2 ^ 22 }
    ensures { OnOk result (code.new.items ≡ code.old.items ++ store_code r off) }
{
    let rs2 = rv_isa::Reg::new(r);
    let stack = rv_isa::Reg::new(2);
    let there = rv_isa::Reg::new(7);
    if off < 2048 {
        code.push(Inst::Sd {
            rs1: stack,
            rs2,
            imm: Imm::new(off as u16),
        })?;
        return Ok(());
    }
    code.push(Inst::Lui {
        rd: there,
        imm: Upper::new(((off + 2048) / 4096) as u32),
    })?;
    code.push(Inst::Add {
        rd: there,
        rs1: there,
        rs2: stack,
    })?;
    code.push(Inst::Sd {
        rs1: there,
        rs2,
        imm: Imm::new((off % 4096) as u16),
    })?;
    Ok(())
}

/// A scratch register gets a value.
fn put_fetch(code: &mut Vec<Inst>, slots: Slots, r: u8, from: Reg) -> Result<(), NoMemory>
    requires { r < 32 }
    ensures { OnOk result (code.new.items ≡ code.old.items ++ fetch_code r (place_of slots from)) }
{
    put_load(code, r, 8 * (slot(slots, from) + 32))
}

/// A value is kept from a scratch register.
fn put_keep(code: &mut Vec<Inst>, slots: Slots, to: Reg, r: u8) -> Result<(), NoMemory>
    requires { r < 32 }
    ensures { OnOk result (code.new.items ≡ code.old.items ++ keep_code (place_of slots to) r) }
{
    put_store(code, r, 8 * (slot(slots, to) + 32))
}

/// A number into a register, eleven bits at a time.
fn put_pieces(code: &mut Vec<Inst>, pieces: u32, r: u8, number: u64) -> Result<(), NoMemory>
    requires { r < 32 }
    ensures { OnOk result (code.new.items ≡ code.old.items ++ emission.pieces_code pieces r number) }
{
    let low = (number % 2048) as u16;
    if pieces == 0 {
        code.push(add_immediate(r, 0, low))?;
        return Ok(());
    }
    if number < 2048 {
        code.push(add_immediate(r, 0, low))?;
        return Ok(());
    }
    put_pieces(code, pieces - 1, r, number / 2048)?;
    code.push(Inst::Slli {
        rd: rv_isa::Reg::new(r),
        rs1: rv_isa::Reg::new(r),
        amount: Shift::new(11),
    })?;
    code.push(add_immediate(r, r, low))?;
    Ok(())
}

/// A number into a register.
fn put_const(code: &mut Vec<Inst>, r: u8, number: u64) -> Result<(), NoMemory>
    requires { r < 32 }
    ensures { OnOk result (code.new.items ≡ code.old.items ++ emission.const_code r number) }
{
    if number < 2048 {
        code.push(add_immediate(r, 0, number as u16))?;
        return Ok(());
    }
    if number < 2_147_481_600 {
        code.push(Inst::Lui {
            rd: rv_isa::Reg::new(r),
            imm: Upper::new(((number + 2048) / 4096) as u32),
        })?;
        code.push(add_immediate(r, r, (number % 4096) as u16))?;
        return Ok(());
    }
    put_pieces(code, 5, r, number)
}

/// Two values into registers 5 and 6.
fn put_two(code: &mut Vec<Inst>, slots: Slots, left: Reg, right: Reg) -> Result<(), NoMemory>
    ensures { OnOk result (code.new.items ≡ code.old.items ++ emission.two_code (place_of slots left) (place_of slots right)) }
{
    put_fetch(code, slots, 5, left)?;
    put_fetch(code, slots, 6, right)
}

/// An operator between registers 5 and 6, into register 5.
fn put_word_op(code: &mut Vec<Inst>, op: WordOp) -> Result<(), NoMemory>
    ensures { OnOk result (code.new.items ≡ code.old.items ++ emission.word_op_code op) }
{
    let zero = rv_isa::Reg::new(0);
    let rd = rv_isa::Reg::new(5);
    let rs1 = rv_isa::Reg::new(5);
    let rs2 = rv_isa::Reg::new(6);
    let one = Imm::new(1);
    match op {
        WordOp::Plus => code.push(Inst::Add { rd, rs1, rs2 })?,
        WordOp::Minus => code.push(Inst::Sub { rd, rs1, rs2 })?,
        WordOp::Times => code.push(Inst::Mul { rd, rs1, rs2 })?,
        WordOp::LessS => {
            code.push(Inst::Slt { rd, rs1, rs2 })?;
            code.push(Inst::Sub {
                rd,
                rs1: zero,
                rs2: rd,
            })?;
        }
        WordOp::AtMostS => {
            code.push(Inst::Slt {
                rd,
                rs1: rs2,
                rs2: rs1,
            })?;
            code.push(add_immediate(5, 5, 4095))?;
        }
        WordOp::Same => {
            code.push(Inst::Sub { rd, rs1, rs2 })?;
            code.push(Inst::Sltiu { rd, rs1, imm: one })?;
            code.push(Inst::Sub {
                rd,
                rs1: zero,
                rs2: rd,
            })?;
        }
        WordOp::Other => {
            code.push(Inst::Sub { rd, rs1, rs2 })?;
            code.push(Inst::Sltu {
                rd,
                rs1: zero,
                rs2: rd,
            })?;
            code.push(Inst::Sub {
                rd,
                rs1: zero,
                rs2: rd,
            })?;
        }
    }
    Ok(())
}

/// The instruction of a division between registers 5 and 6.
fn division(op: Division) -> Inst
    ensures { result ≡ emission.division_inst op }
{
    let rd = rv_isa::Reg::new(5);
    let rs1 = rv_isa::Reg::new(5);
    let rs2 = rv_isa::Reg::new(6);
    match op {
        Division::DivS => Inst::Div { rd, rs1, rs2 },
        Division::RemS => Inst::Rem { rd, rs1, rs2 },
    }
}

/// A branch ahead where a register isn't 0, over so many units of two bytes.
fn branch_around(r: u8, offset: u16) -> Inst
    requires r { r < 32 }
    requires offset { offset < 2 ^ 12 }
    ensures { result ≡ Bne r 0 offset }
{
    Inst::Bne {
        rs1: rv_isa::Reg::new(r),
        rs2: rv_isa::Reg::new(0),
        offset: Branch::new(offset),
    }
}

/// A test for a zero divisor in register 6: it leads around the trap DivZero where it isn't 0.
fn put_zero_test(code: &mut Vec<Inst>) -> Result<(), NoMemory>
    ensures { OnOk result (code.new.items ≡ code.old.items ++ emission.zero_test) }
{
    code.push(branch_around(6, 8))?;
    code.push(add_immediate(10, 0, 3))?;
    code.push(add_immediate(17, 0, 70))?;
    code.push(Inst::Ecall)?;
    Ok(())
}

/// An argument of a runtime call into its register; one that is missing is 0.
fn put_argument(
    code: &mut Vec<Inst>,
    slots: Slots,
    r: u8,
    argument: Option<Reg>,
) -> Result<(), NoMemory>
    requires { r < 32 }
    ensures { OnOk result (code.new.items ≡ code.old.items ++ emission.argument_code (place_of slots) r argument) }
{
    match argument {
        None => {
            code.push(add_immediate(r, 0, 0))?;
            Ok(())
        }
        Some(from) => put_fetch(code, slots, r, from),
    }
}

/// The runtime call of a number.
fn put_ask(code: &mut Vec<Inst>, number: u8) -> Result<(), NoMemory>
    ensures { OnOk result (code.new.items ≡ code.old.items ++ emission.ask_code number) }
{
    code.push(add_immediate(17, 0, number as u16))?;
    code.push(Inst::Ecall)?;
    Ok(())
}

/// Its answer into a place, if it is wanted.
fn put_answer(code: &mut Vec<Inst>, slots: Slots, to: Option<Reg>) -> Result<(), NoMemory>
    ensures { OnOk result (code.new.items ≡ code.old.items ++ emission.answer_code (place_of slots) to) }
{
    match to {
        None => Ok(()),
        Some(to) => put_keep(code, slots, to, 10),
    }
}

/// The offset of a JAL from one code word to another.
fn jump_offset(from: u64, to: u64) -> Jump
    requires from { from < 2 ^ 40 }
    requires to { to < 2 ^ 40 }
    ensures { result ≡ emission.jump_offset from to }
{
    Jump::new(((0x10_0000 + 2 * to).saturating_sub(2 * from) % 0x10_0000) as u32)
}

/// A jump from one code word to another.
fn put_jump(code: &mut Vec<Inst>, from: u64, to: u64) -> Result<(), NoMemory>
    requires from { from < 2 ^ 40 }
    requires to { to < 2 ^ 40 }
    ensures { OnOk result (code.new.items ≡ code.old.items ++ emission.jump_code from to) }
{
    code.push(Inst::Jal {
        rd: rv_isa::Reg::new(0),
        offset: jump_offset(from, to),
    })?;
    Ok(())
}

/// A jump where a value is 0.
fn put_unless(
    code: &mut Vec<Inst>,
    slots: Slots,
    test: Reg,
    from: u64,
    to: u64,
) -> Result<(), NoMemory>
    requires from { from < 2 ^ 39 }
    requires to { to < 2 ^ 40 }
    ensures { OnOk result (code.new.items ≡ code.old.items ++ emission.unless_code (place_of slots test) from to) }
{
    put_fetch(code, slots, 5, test)?;
    code.push(branch_around(5, 4))?;
    put_jump(code, from + move_size(slots, test) + 1, to)
}

/// The instructions of the operation at position `at`.
pub fn put_op(
    code: &mut Vec<Inst>,
    slots: Slots,
    starts: &Starts,
    at: u32,
    op: MidOp,
) -> Result<(), NoMemory>
    ensures { OnOk result (code.new.items ≡ code.old.items ++ emission.op_code (place_of slots) (start_at starts.now) at op) }
{
    match op {
        MidOp::Const { to, value } => {
            put_const(code, 5, value)?;
            put_keep(code, slots, to, 5)
        }
        MidOp::Copy { to, from } => {
            put_fetch(code, slots, 5, from)?;
            put_keep(code, slots, to, 5)
        }
        MidOp::Both {
            op,
            to,
            left,
            right,
        } => {
            put_two(code, slots, left, right)?;
            put_word_op(code, op)?;
            put_keep(code, slots, to, 5)
        }
        MidOp::Divide {
            op,
            to,
            left,
            right,
        } => {
            put_two(code, slots, left, right)?;
            put_zero_test(code)?;
            code.push(division(op))?;
            put_keep(code, slots, to, 5)
        }
        MidOp::Runtime {
            number,
            first,
            second,
            third,
            fourth,
            to,
        } => {
            put_argument(code, slots, 10, first)?;
            put_argument(code, slots, 11, second)?;
            put_argument(code, slots, 12, third)?;
            put_argument(code, slots, 13, fourth)?;
            put_ask(code, number)?;
            put_answer(code, slots, to)
        }
        MidOp::Skip { target } => put_jump(
            code,
            start(starts, at) as u64,
            start(starts, target) as u64,
        ),
        MidOp::Back { target } => {
            let back = start(starts, target) as u64;
            put_jump(code, start(starts, at) as u64, back)
        }
        MidOp::Unless { test, target } => put_unless(
            code,
            slots,
            test,
            start(starts, at) as u64,
            start(starts, target) as u64,
        ),
    }
}
