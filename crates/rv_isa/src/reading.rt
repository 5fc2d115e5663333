ghost use Rattle.std.specs.Prelude.{◌≡◌, ◌<◌, ◌^◌, IfSome, IfNone};
ghost use Rattle.rv_isa.specs.declared.inst.Inst.{Inst};
ghost use Rattle.rv_isa.specs.Encoding.{fields_of, word_of, IsInst, first_row, imm_at, store_imm_at, branch_at, upper_at, jump_of, amount_at, branch_rows, load_rows, store_rows, op_imm_rows, op_rows, op_imm_word_rows, op_word_rows, jalr_rows, fence_rows, system_rows, inst_of};

use crate::field::{Branch, Imm, Jump, Reg, Shift, Upper, WordShift};
use crate::inst::Inst;

fn rd(word: u32) -> Reg
    ensures { result ≡ (fields_of word).rd }
{
    Reg::new(((word >> 7) % 32) as u8)
}

fn rs1(word: u32) -> Reg
    ensures { result ≡ (fields_of word).rs1 }
{
    Reg::new(((word >> 15) % 32) as u8)
}

fn rs2(word: u32) -> Reg
    ensures { result ≡ (fields_of word).rs2 }
{
    Reg::new(((word >> 20) % 32) as u8)
}

fn funct3(word: u32) -> u32
    ensures { result ≡ (fields_of word).funct3 }
{
    (word >> 12) % 8
}

fn funct7(word: u32) -> u32
    ensures { result ≡ (fields_of word).funct7 }
{
    word >> 25
}

fn imm(word: u32) -> Imm
    ensures { result ≡ imm_at (fields_of word) }
{
    Imm::new((word >> 20) as u16)
}

fn store_imm(word: u32) -> Imm
    ensures { result ≡ store_imm_at (fields_of word) }
{
    Imm::new(((word >> 7) % 32 + 32 * (word >> 25)) as u16)
}

fn branch_offset(word: u32) -> Branch
    ensures { result ≡ branch_at (fields_of word) }
{
    Branch::new(
        ((word >> 8) % 16
            + 16 * ((word >> 25) % 64)
            + 1024 * ((word >> 7) % 2)
            + 2048 * (word >> 31)) as u16,
    )
}

fn upper_bits(word: u32) -> u32
    ensures value { result ≡ upper_at (fields_of word) }
    ensures below { result < 2 ^ 20 }
{
    word >> 12
}

fn upper(word: u32) -> Upper
    ensures { result ≡ upper_at (fields_of word) }
{
    Upper::new(upper_bits(word))
}

fn jump_offset(word: u32) -> Jump
    ensures { result ≡ jump_of (upper_at (fields_of word)) }
{
    let bits = upper_bits(word);
    Jump::new(
        (bits >> 9) % 1024
            + 1024 * ((bits >> 8) % 2)
            + 2048 * (bits % 256)
            + 0x8_0000 * (bits >> 19),
    )
}

fn amount(word: u32) -> Shift
    ensures { result ≡ amount_at (fields_of word) }
{
    Shift::new(((word >> 20) % 64) as u8)
}

fn word_amount(word: u32) -> WordShift
    ensures { result ≡ (fields_of word).rs2 }
{
    WordShift::new(((word >> 20) % 32) as u8)
}

/// A conditional branch.
fn branch(word: u32) -> Option<Inst>
    ensures { first_row (branch_rows (fields_of word)) ≡ result }
{
    let rs1 = rs1(word);
    let rs2 = rs2(word);
    let offset = branch_offset(word);
    match funct3(word) {
        0 => Some(Inst::Beq { rs1, rs2, offset }),
        1 => Some(Inst::Bne { rs1, rs2, offset }),
        4 => Some(Inst::Blt { rs1, rs2, offset }),
        5 => Some(Inst::Bge { rs1, rs2, offset }),
        6 => Some(Inst::Bltu { rs1, rs2, offset }),
        7 => Some(Inst::Bgeu { rs1, rs2, offset }),
        _ => None,
    }
}

/// A load.
fn load(word: u32) -> Option<Inst>
    ensures { first_row (load_rows (fields_of word)) ≡ result }
{
    let rd = rd(word);
    let rs1 = rs1(word);
    let imm = imm(word);
    match funct3(word) {
        0 => Some(Inst::Lb { rd, rs1, imm }),
        1 => Some(Inst::Lh { rd, rs1, imm }),
        2 => Some(Inst::Lw { rd, rs1, imm }),
        3 => Some(Inst::Ld { rd, rs1, imm }),
        4 => Some(Inst::Lbu { rd, rs1, imm }),
        5 => Some(Inst::Lhu { rd, rs1, imm }),
        6 => Some(Inst::Lwu { rd, rs1, imm }),
        _ => None,
    }
}

/// A store.
fn store(word: u32) -> Option<Inst>
    ensures { first_row (store_rows (fields_of word)) ≡ result }
{
    let rs1 = rs1(word);
    let rs2 = rs2(word);
    let imm = store_imm(word);
    match funct3(word) {
        0 => Some(Inst::Sb { rs1, rs2, imm }),
        1 => Some(Inst::Sh { rs1, rs2, imm }),
        2 => Some(Inst::Sw { rs1, rs2, imm }),
        3 => Some(Inst::Sd { rs1, rs2, imm }),
        _ => None,
    }
}

/// An operation on a register and an immediate.
fn op_imm(word: u32) -> Option<Inst>
    ensures { first_row (op_imm_rows (fields_of word)) ≡ result }
{
    let rd = rd(word);
    let rs1 = rs1(word);
    let imm = imm(word);
    let amount = amount(word);
    match (funct3(word), funct7(word) / 2) {
        (0, _) => Some(Inst::Addi { rd, rs1, imm }),
        (2, _) => Some(Inst::Slti { rd, rs1, imm }),
        (3, _) => Some(Inst::Sltiu { rd, rs1, imm }),
        (4, _) => Some(Inst::Xori { rd, rs1, imm }),
        (6, _) => Some(Inst::Ori { rd, rs1, imm }),
        (7, _) => Some(Inst::Andi { rd, rs1, imm }),
        (1, 0x0) => Some(Inst::Slli { rd, rs1, amount }),
        (5, 0x0) => Some(Inst::Srli { rd, rs1, amount }),
        (5, 0x10) => Some(Inst::Srai { rd, rs1, amount }),
        _ => None,
    }
}

/// An operation on two registers.
fn op(word: u32) -> Option<Inst>
    ensures { first_row (op_rows (fields_of word)) ≡ result }
{
    let rd = rd(word);
    let rs1 = rs1(word);
    let rs2 = rs2(word);
    match (funct3(word), funct7(word)) {
        (0, 0x0) => Some(Inst::Add { rd, rs1, rs2 }),
        (0, 0x20) => Some(Inst::Sub { rd, rs1, rs2 }),
        (1, 0x0) => Some(Inst::Sll { rd, rs1, rs2 }),
        (2, 0x0) => Some(Inst::Slt { rd, rs1, rs2 }),
        (3, 0x0) => Some(Inst::Sltu { rd, rs1, rs2 }),
        (4, 0x0) => Some(Inst::Xor { rd, rs1, rs2 }),
        (5, 0x0) => Some(Inst::Srl { rd, rs1, rs2 }),
        (5, 0x20) => Some(Inst::Sra { rd, rs1, rs2 }),
        (6, 0x0) => Some(Inst::Or { rd, rs1, rs2 }),
        (7, 0x0) => Some(Inst::And { rd, rs1, rs2 }),
        (0, 0x1) => Some(Inst::Mul { rd, rs1, rs2 }),
        (1, 0x1) => Some(Inst::Mulh { rd, rs1, rs2 }),
        (2, 0x1) => Some(Inst::Mulhsu { rd, rs1, rs2 }),
        (3, 0x1) => Some(Inst::Mulhu { rd, rs1, rs2 }),
        (4, 0x1) => Some(Inst::Div { rd, rs1, rs2 }),
        (5, 0x1) => Some(Inst::Divu { rd, rs1, rs2 }),
        (6, 0x1) => Some(Inst::Rem { rd, rs1, rs2 }),
        (7, 0x1) => Some(Inst::Remu { rd, rs1, rs2 }),
        _ => None,
    }
}

/// A W form of an operation on a register and an immediate.
fn op_imm_word(word: u32) -> Option<Inst>
    ensures { first_row (op_imm_word_rows (fields_of word)) ≡ result }
{
    let rd = rd(word);
    let rs1 = rs1(word);
    let imm = imm(word);
    let amount = word_amount(word);
    match (funct3(word), funct7(word)) {
        (0, _) => Some(Inst::Addiw { rd, rs1, imm }),
        (1, 0x0) => Some(Inst::Slliw { rd, rs1, amount }),
        (5, 0x0) => Some(Inst::Srliw { rd, rs1, amount }),
        (5, 0x20) => Some(Inst::Sraiw { rd, rs1, amount }),
        _ => None,
    }
}

/// A W form of an operation on two registers.
fn op_word(word: u32) -> Option<Inst>
    ensures { first_row (op_word_rows (fields_of word)) ≡ result }
{
    let rd = rd(word);
    let rs1 = rs1(word);
    let rs2 = rs2(word);
    match (funct3(word), funct7(word)) {
        (0, 0x0) => Some(Inst::Addw { rd, rs1, rs2 }),
        (0, 0x20) => Some(Inst::Subw { rd, rs1, rs2 }),
        (1, 0x0) => Some(Inst::Sllw { rd, rs1, rs2 }),
        (5, 0x0) => Some(Inst::Srlw { rd, rs1, rs2 }),
        (5, 0x20) => Some(Inst::Sraw { rd, rs1, rs2 }),
        (0, 0x1) => Some(Inst::Mulw { rd, rs1, rs2 }),
        (4, 0x1) => Some(Inst::Divw { rd, rs1, rs2 }),
        (5, 0x1) => Some(Inst::Divuw { rd, rs1, rs2 }),
        (6, 0x1) => Some(Inst::Remw { rd, rs1, rs2 }),
        (7, 0x1) => Some(Inst::Remuw { rd, rs1, rs2 }),
        _ => None,
    }
}

/// A jump to a register's value.
fn jump_register(word: u32) -> Option<Inst>
    ensures { first_row (jalr_rows (fields_of word)) ≡ result }
{
    match funct3(word) {
        0 => Some(Inst::Jalr {
            rd: rd(word),
            rs1: rs1(word),
            imm: imm(word),
        }),
        _ => None,
    }
}

/// An order of accesses.
fn fence(word: u32) -> Option<Inst>
    ensures { first_row (fence_rows (fields_of word)) ≡ result }
{
    match funct3(word) {
        0 => Some(Inst::Fence {
            rd: rd(word),
            rs1: rs1(word),
            imm: imm(word),
        }),
        _ => None,
    }
}

/// A call of the environment, or a break.
fn system(word: u32) -> Option<Inst>
    ensures { first_row (system_rows (fields_of word)) ≡ result }
{
    match (rd(word).number(), upper_bits(word)) {
        (0, 0) => Some(Inst::Ecall),
        (0, 0x100) => Some(Inst::Ebreak),
        _ => None,
    }
}

/// What the table of the opcodes says.
#[tactic(auto, unfolding(crate::specs::Encoding::inst_of))]
fn read(word: u32) -> Option<Inst>
    ensures { inst_of word ≡ result }
{
    match word % 128 {
        0x37 => Some(Inst::Lui {
            rd: rd(word),
            imm: upper(word),
        }),
        0x17 => Some(Inst::Auipc {
            rd: rd(word),
            imm: upper(word),
        }),
        0x6f => Some(Inst::Jal {
            rd: rd(word),
            offset: jump_offset(word),
        }),
        0x67 => jump_register(word),
        0x63 => branch(word),
        0x03 => load(word),
        0x23 => store(word),
        0x13 => op_imm(word),
        0x33 => op(word),
        0x1b => op_imm_word(word),
        0x3b => op_word(word),
        0x0f => fence(word),
        0x73 => system(word),
        _ => None,
    }
}

/// The instruction of a word (RISC-V Instruction Set Manual, volume I, RV64I and M); None exactly where no
/// instruction has that word.
pub fn decode(word: u32) -> Option<Inst>
    ensures value { inst_of word ≡ result }
    ensures spelt { IfSome result (λ i. (word_of i ≡ word) × IsInst i) }
    ensures none { IfNone result ((i : Inst) → IsInst i → word_of i ≡ word → ⊥) }
{
    read(word)
}
