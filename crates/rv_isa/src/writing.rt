ghost use Rattle.std.specs.Prelude.{◌≡◌, ◌<◌, ◌^◌, Some};
ghost use Rattle.rv_isa.specs.Encoding.{word_at, r_fields, i_fields, s_fields, b_fields, u_fields, jump_bits, word_of, inst_of, IsInst};

use crate::field::{Branch, Imm, Jump, Reg};
use crate::inst::Inst;

fn r_word(opcode: u32, rd: Reg, funct3: u32, rs1: Reg, rs2: Reg, funct7: u32) -> u32
    requires opcode { opcode < 2 ^ 7 }
    requires funct3 { funct3 < 2 ^ 3 }
    requires funct7 { funct7 < 2 ^ 7 }
    ensures value { result ≡ word_at (r_fields opcode rd funct3 rs1 rs2 funct7) }
    ensures ranges { (rd < 32) × (rs1 < 32) × (rs2 < 32) }
{
    let low = opcode + ((rd.number() as u32) << 7) + (funct3 << 12) + ((rs1.number() as u32) << 15);
    low + ((rs2.number() as u32) << 20) + (funct7 << 25)
}

fn i_word(opcode: u32, rd: Reg, funct3: u32, rs1: Reg, imm: u32) -> u32
    requires opcode { opcode < 2 ^ 7 }
    requires funct3 { funct3 < 2 ^ 3 }
    requires imm { imm < 2 ^ 12 }
    ensures value { result ≡ word_at (i_fields opcode rd funct3 rs1 imm) }
    ensures ranges { (rd < 32) × (rs1 < 32) }
{
    opcode
        + ((rd.number() as u32) << 7)
        + (funct3 << 12)
        + ((rs1.number() as u32) << 15)
        + (imm << 20)
}

fn s_word(opcode: u32, funct3: u32, rs1: Reg, rs2: Reg, imm: Imm) -> u32
    requires opcode { opcode < 2 ^ 7 }
    requires funct3 { funct3 < 2 ^ 3 }
    ensures value { result ≡ word_at (s_fields opcode funct3 rs1 rs2 imm) }
    ensures ranges { (rs1 < 32) × (rs2 < 32) × (imm < 2 ^ 12) }
{
    let bits = imm.number() as u32;
    r_word(
        opcode,
        Reg::new((bits % 32) as u8),
        funct3,
        rs1,
        rs2,
        bits / 32,
    )
}

fn b_word(opcode: u32, funct3: u32, rs1: Reg, rs2: Reg, offset: Branch) -> u32
    requires opcode { opcode < 2 ^ 7 }
    requires funct3 { funct3 < 2 ^ 3 }
    ensures value { result ≡ word_at (b_fields opcode funct3 rs1 rs2 offset) }
    ensures ranges { (rs1 < 32) × (rs2 < 32) × (offset < 2 ^ 12) }
{
    let bits = offset.number() as u32;
    let low = (bits >> 10) % 2 + 2 * (bits % 16);
    r_word(
        opcode,
        Reg::new(low as u8),
        funct3,
        rs1,
        rs2,
        (bits >> 4) % 64 + 64 * (bits >> 11),
    )
}

fn u_word(opcode: u32, rd: Reg, upper: u32) -> u32
    requires opcode { opcode < 2 ^ 7 }
    requires upper { upper < 2 ^ 20 }
    ensures value { result ≡ word_at (u_fields opcode rd upper) }
    ensures range { rd < 32 }
{
    opcode + ((rd.number() as u32) << 7) + (upper << 12)
}

fn upper_of_jump(offset: Jump) -> u32
    ensures value { result ≡ jump_bits offset }
    ensures below { result < 2 ^ 20 }
    ensures range { offset < 2 ^ 20 }
{
    let bits = offset.number();
    (bits >> 11) % 256 + 256 * ((bits >> 10) % 2) + 512 * (bits % 1024) + 0x8_0000 * (bits >> 19)
}

/// The word of an instruction by its format.
#[tactic(auto, unfolding(crate::specs::Encoding::word_of))]
fn spell(inst: Inst) -> u32
    ensures value { result ≡ word_of inst }
    ensures ranges { IsInst inst }
{
    match inst {
        Inst::Lui { rd, imm } => u_word(0x37, rd, imm.number()),
        Inst::Auipc { rd, imm } => u_word(0x17, rd, imm.number()),
        Inst::Jal { rd, offset } => u_word(0x6f, rd, upper_of_jump(offset)),
        Inst::Jalr { rd, rs1, imm } => i_word(0x67, rd, 0, rs1, imm.number() as u32),
        Inst::Beq { rs1, rs2, offset } => b_word(0x63, 0, rs1, rs2, offset),
        Inst::Bne { rs1, rs2, offset } => b_word(0x63, 1, rs1, rs2, offset),
        Inst::Blt { rs1, rs2, offset } => b_word(0x63, 4, rs1, rs2, offset),
        Inst::Bge { rs1, rs2, offset } => b_word(0x63, 5, rs1, rs2, offset),
        Inst::Bltu { rs1, rs2, offset } => b_word(0x63, 6, rs1, rs2, offset),
        Inst::Bgeu { rs1, rs2, offset } => b_word(0x63, 7, rs1, rs2, offset),
        Inst::Lb { rd, rs1, imm } => i_word(0x03, rd, 0, rs1, imm.number() as u32),
        Inst::Lh { rd, rs1, imm } => i_word(0x03, rd, 1, rs1, imm.number() as u32),
        Inst::Lw { rd, rs1, imm } => i_word(0x03, rd, 2, rs1, imm.number() as u32),
        Inst::Ld { rd, rs1, imm } => i_word(0x03, rd, 3, rs1, imm.number() as u32),
        Inst::Lbu { rd, rs1, imm } => i_word(0x03, rd, 4, rs1, imm.number() as u32),
        Inst::Lhu { rd, rs1, imm } => i_word(0x03, rd, 5, rs1, imm.number() as u32),
        Inst::Lwu { rd, rs1, imm } => i_word(0x03, rd, 6, rs1, imm.number() as u32),
        Inst::Sb { rs1, rs2, imm } => s_word(0x23, 0, rs1, rs2, imm),
        Inst::Sh { rs1, rs2, imm } => s_word(0x23, 1, rs1, rs2, imm),
        Inst::Sw { rs1, rs2, imm } => s_word(0x23, 2, rs1, rs2, imm),
        Inst::Sd { rs1, rs2, imm } => s_word(0x23, 3, rs1, rs2, imm),
        Inst::Addi { rd, rs1, imm } => i_word(0x13, rd, 0, rs1, imm.number() as u32),
        Inst::Slti { rd, rs1, imm } => i_word(0x13, rd, 2, rs1, imm.number() as u32),
        Inst::Sltiu { rd, rs1, imm } => i_word(0x13, rd, 3, rs1, imm.number() as u32),
        Inst::Xori { rd, rs1, imm } => i_word(0x13, rd, 4, rs1, imm.number() as u32),
        Inst::Ori { rd, rs1, imm } => i_word(0x13, rd, 6, rs1, imm.number() as u32),
        Inst::Andi { rd, rs1, imm } => i_word(0x13, rd, 7, rs1, imm.number() as u32),
        Inst::Slli { rd, rs1, amount } => i_word(0x13, rd, 1, rs1, amount.number() as u32),
        Inst::Srli { rd, rs1, amount } => i_word(0x13, rd, 5, rs1, amount.number() as u32),
        Inst::Srai { rd, rs1, amount } => i_word(0x13, rd, 5, rs1, amount.number() as u32 + 0x400),
        Inst::Add { rd, rs1, rs2 } => r_word(0x33, rd, 0, rs1, rs2, 0x0),
        Inst::Sub { rd, rs1, rs2 } => r_word(0x33, rd, 0, rs1, rs2, 0x20),
        Inst::Sll { rd, rs1, rs2 } => r_word(0x33, rd, 1, rs1, rs2, 0x0),
        Inst::Slt { rd, rs1, rs2 } => r_word(0x33, rd, 2, rs1, rs2, 0x0),
        Inst::Sltu { rd, rs1, rs2 } => r_word(0x33, rd, 3, rs1, rs2, 0x0),
        Inst::Xor { rd, rs1, rs2 } => r_word(0x33, rd, 4, rs1, rs2, 0x0),
        Inst::Srl { rd, rs1, rs2 } => r_word(0x33, rd, 5, rs1, rs2, 0x0),
        Inst::Sra { rd, rs1, rs2 } => r_word(0x33, rd, 5, rs1, rs2, 0x20),
        Inst::Or { rd, rs1, rs2 } => r_word(0x33, rd, 6, rs1, rs2, 0x0),
        Inst::And { rd, rs1, rs2 } => r_word(0x33, rd, 7, rs1, rs2, 0x0),
        Inst::Mul { rd, rs1, rs2 } => r_word(0x33, rd, 0, rs1, rs2, 0x1),
        Inst::Mulh { rd, rs1, rs2 } => r_word(0x33, rd, 1, rs1, rs2, 0x1),
        Inst::Mulhsu { rd, rs1, rs2 } => r_word(0x33, rd, 2, rs1, rs2, 0x1),
        Inst::Mulhu { rd, rs1, rs2 } => r_word(0x33, rd, 3, rs1, rs2, 0x1),
        Inst::Div { rd, rs1, rs2 } => r_word(0x33, rd, 4, rs1, rs2, 0x1),
        Inst::Divu { rd, rs1, rs2 } => r_word(0x33, rd, 5, rs1, rs2, 0x1),
        Inst::Rem { rd, rs1, rs2 } => r_word(0x33, rd, 6, rs1, rs2, 0x1),
        Inst::Remu { rd, rs1, rs2 } => r_word(0x33, rd, 7, rs1, rs2, 0x1),
        Inst::Addiw { rd, rs1, imm } => i_word(0x1b, rd, 0, rs1, imm.number() as u32),
        Inst::Slliw { rd, rs1, amount } => r_word(0x1b, rd, 1, rs1, Reg::new(amount.number()), 0x0),
        Inst::Srliw { rd, rs1, amount } => r_word(0x1b, rd, 5, rs1, Reg::new(amount.number()), 0x0),
        Inst::Sraiw { rd, rs1, amount } => r_word(
            0x1b,
            rd,
            5,
            rs1,
            Reg::new(amount.number()),
            0x20,
        ),
        Inst::Addw { rd, rs1, rs2 } => r_word(0x3b, rd, 0, rs1, rs2, 0x0),
        Inst::Subw { rd, rs1, rs2 } => r_word(0x3b, rd, 0, rs1, rs2, 0x20),
        Inst::Sllw { rd, rs1, rs2 } => r_word(0x3b, rd, 1, rs1, rs2, 0x0),
        Inst::Srlw { rd, rs1, rs2 } => r_word(0x3b, rd, 5, rs1, rs2, 0x0),
        Inst::Sraw { rd, rs1, rs2 } => r_word(0x3b, rd, 5, rs1, rs2, 0x20),
        Inst::Mulw { rd, rs1, rs2 } => r_word(0x3b, rd, 0, rs1, rs2, 0x1),
        Inst::Divw { rd, rs1, rs2 } => r_word(0x3b, rd, 4, rs1, rs2, 0x1),
        Inst::Divuw { rd, rs1, rs2 } => r_word(0x3b, rd, 5, rs1, rs2, 0x1),
        Inst::Remw { rd, rs1, rs2 } => r_word(0x3b, rd, 6, rs1, rs2, 0x1),
        Inst::Remuw { rd, rs1, rs2 } => r_word(0x3b, rd, 7, rs1, rs2, 0x1),
        Inst::Fence { rd, rs1, imm } => i_word(0x0f, rd, 0, rs1, imm.number() as u32),
        Inst::Ecall => 0x73,
        Inst::Ebreak => 0x10_0073,
    }
}

/// The word of an instruction (RISC-V Instruction Set Manual, volume I, RV64I and M), which reads as that
/// instruction.
pub fn encode(inst: Inst) -> u32
    ensures value { result ≡ word_of inst }
    ensures ranges { IsInst inst }
    ensures read { inst_of result ≡ Some inst }
{
    spell(inst)
}
