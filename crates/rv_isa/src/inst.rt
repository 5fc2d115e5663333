use crate::field::{Branch, Imm, Jump, Reg, Shift, Upper, WordShift};

/// An instruction of RV64IM, with its registers and immediates in range (RISC-V Instruction Set Manual, volume I).
///
/// Offsets and immediates are the bits of their fields; Machine.antt of specs/ says what each instruction does.
#[derive(Clone, Copy, PartialEq, Eq, Debug)]
pub enum Inst {
    /// rd gets the upper immediate.
    Lui {
        rd: Reg,
        imm: Upper,
    },
    /// rd gets pc plus the upper immediate.
    Auipc {
        rd: Reg,
        imm: Upper,
    },
    /// Jumps by the offset; rd gets pc + 4.
    Jal {
        rd: Reg,
        offset: Jump,
    },
    /// Jumps to rs1 plus the immediate, with bit 0 cleared; rd gets pc + 4.
    Jalr {
        rd: Reg,
        rs1: Reg,
        imm: Imm,
    },
    /// Branches if rs1 equals rs2.
    Beq {
        rs1: Reg,
        rs2: Reg,
        offset: Branch,
    },
    /// Branches if rs1 differs from rs2.
    Bne {
        rs1: Reg,
        rs2: Reg,
        offset: Branch,
    },
    /// Branches if rs1 is below rs2, both signed.
    Blt {
        rs1: Reg,
        rs2: Reg,
        offset: Branch,
    },
    /// Branches if rs1 isn't below rs2, both signed.
    Bge {
        rs1: Reg,
        rs2: Reg,
        offset: Branch,
    },
    /// Branches if rs1 is below rs2, both unsigned.
    Bltu {
        rs1: Reg,
        rs2: Reg,
        offset: Branch,
    },
    /// Branches if rs1 isn't below rs2, both unsigned.
    Bgeu {
        rs1: Reg,
        rs2: Reg,
        offset: Branch,
    },
    /// rd gets a byte of memory, extended by its sign.
    Lb {
        rd: Reg,
        rs1: Reg,
        imm: Imm,
    },
    /// rd gets two bytes of memory, extended by their sign.
    Lh {
        rd: Reg,
        rs1: Reg,
        imm: Imm,
    },
    /// rd gets four bytes of memory, extended by their sign.
    Lw {
        rd: Reg,
        rs1: Reg,
        imm: Imm,
    },
    /// rd gets eight bytes of memory.
    Ld {
        rd: Reg,
        rs1: Reg,
        imm: Imm,
    },
    /// rd gets a byte of memory.
    Lbu {
        rd: Reg,
        rs1: Reg,
        imm: Imm,
    },
    /// rd gets two bytes of memory.
    Lhu {
        rd: Reg,
        rs1: Reg,
        imm: Imm,
    },
    /// rd gets four bytes of memory.
    Lwu {
        rd: Reg,
        rs1: Reg,
        imm: Imm,
    },
    /// The low byte of rs2 goes to memory.
    Sb {
        rs1: Reg,
        rs2: Reg,
        imm: Imm,
    },
    /// The low two bytes of rs2 go to memory.
    Sh {
        rs1: Reg,
        rs2: Reg,
        imm: Imm,
    },
    /// The low four bytes of rs2 go to memory.
    Sw {
        rs1: Reg,
        rs2: Reg,
        imm: Imm,
    },
    /// rs2 goes to memory.
    Sd {
        rs1: Reg,
        rs2: Reg,
        imm: Imm,
    },
    /// rd gets rs1 plus the immediate.
    Addi {
        rd: Reg,
        rs1: Reg,
        imm: Imm,
    },
    /// rd gets 1 if rs1 is below the immediate, both signed, else 0.
    Slti {
        rd: Reg,
        rs1: Reg,
        imm: Imm,
    },
    /// rd gets 1 if rs1 is below the immediate, both unsigned, else 0.
    Sltiu {
        rd: Reg,
        rs1: Reg,
        imm: Imm,
    },
    /// rd gets rs1 xor the immediate.
    Xori {
        rd: Reg,
        rs1: Reg,
        imm: Imm,
    },
    /// rd gets rs1 or the immediate.
    Ori {
        rd: Reg,
        rs1: Reg,
        imm: Imm,
    },
    /// rd gets rs1 and the immediate.
    Andi {
        rd: Reg,
        rs1: Reg,
        imm: Imm,
    },
    /// rd gets rs1 shifted left.
    Slli {
        rd: Reg,
        rs1: Reg,
        amount: Shift,
    },
    /// rd gets rs1 shifted right, with zeros shifted in.
    Srli {
        rd: Reg,
        rs1: Reg,
        amount: Shift,
    },
    /// rd gets rs1 shifted right, with its sign shifted in.
    Srai {
        rd: Reg,
        rs1: Reg,
        amount: Shift,
    },
    /// rd gets rs1 plus rs2.
    Add {
        rd: Reg,
        rs1: Reg,
        rs2: Reg,
    },
    /// rd gets rs1 less rs2.
    Sub {
        rd: Reg,
        rs1: Reg,
        rs2: Reg,
    },
    /// rd gets rs1 shifted left by the low six bits of rs2.
    Sll {
        rd: Reg,
        rs1: Reg,
        rs2: Reg,
    },
    /// rd gets 1 if rs1 is below rs2, both signed, else 0.
    Slt {
        rd: Reg,
        rs1: Reg,
        rs2: Reg,
    },
    /// rd gets 1 if rs1 is below rs2, both unsigned, else 0.
    Sltu {
        rd: Reg,
        rs1: Reg,
        rs2: Reg,
    },
    /// rd gets rs1 xor rs2.
    Xor {
        rd: Reg,
        rs1: Reg,
        rs2: Reg,
    },
    /// rd gets rs1 shifted right by the low six bits of rs2, with zeros shifted in.
    Srl {
        rd: Reg,
        rs1: Reg,
        rs2: Reg,
    },
    /// rd gets rs1 shifted right by the low six bits of rs2, with its sign shifted in.
    Sra {
        rd: Reg,
        rs1: Reg,
        rs2: Reg,
    },
    /// rd gets rs1 or rs2.
    Or {
        rd: Reg,
        rs1: Reg,
        rs2: Reg,
    },
    /// rd gets rs1 and rs2.
    And {
        rd: Reg,
        rs1: Reg,
        rs2: Reg,
    },
    /// rd gets the low 64 bits of the product.
    Mul {
        rd: Reg,
        rs1: Reg,
        rs2: Reg,
    },
    /// rd gets the high 64 bits of the product, both signed.
    Mulh {
        rd: Reg,
        rs1: Reg,
        rs2: Reg,
    },
    /// rd gets the high 64 bits of the product of rs1 signed and rs2 unsigned.
    Mulhsu {
        rd: Reg,
        rs1: Reg,
        rs2: Reg,
    },
    /// rd gets the high 64 bits of the product, both unsigned.
    Mulhu {
        rd: Reg,
        rs1: Reg,
        rs2: Reg,
    },
    /// rd gets the quotient toward zero, both signed; all ones for a zero divisor.
    Div {
        rd: Reg,
        rs1: Reg,
        rs2: Reg,
    },
    /// rd gets the quotient, both unsigned; all ones for a zero divisor.
    Divu {
        rd: Reg,
        rs1: Reg,
        rs2: Reg,
    },
    /// rd gets the remainder, both signed; the dividend for a zero divisor.
    Rem {
        rd: Reg,
        rs1: Reg,
        rs2: Reg,
    },
    /// rd gets the remainder, both unsigned; the dividend for a zero divisor.
    Remu {
        rd: Reg,
        rs1: Reg,
        rs2: Reg,
    },
    /// ADDI on the low 32 bits, as each W form: its result is extended by its sign.
    Addiw {
        rd: Reg,
        rs1: Reg,
        imm: Imm,
    },
    /// SLLI on the low 32 bits.
    Slliw {
        rd: Reg,
        rs1: Reg,
        amount: WordShift,
    },
    /// SRLI on the low 32 bits.
    Srliw {
        rd: Reg,
        rs1: Reg,
        amount: WordShift,
    },
    /// SRAI on the low 32 bits.
    Sraiw {
        rd: Reg,
        rs1: Reg,
        amount: WordShift,
    },
    /// ADD on the low 32 bits.
    Addw {
        rd: Reg,
        rs1: Reg,
        rs2: Reg,
    },
    /// SUB on the low 32 bits.
    Subw {
        rd: Reg,
        rs1: Reg,
        rs2: Reg,
    },
    /// SLL on the low 32 bits, by the low five bits of rs2.
    Sllw {
        rd: Reg,
        rs1: Reg,
        rs2: Reg,
    },
    /// SRL on the low 32 bits, by the low five bits of rs2.
    Srlw {
        rd: Reg,
        rs1: Reg,
        rs2: Reg,
    },
    /// SRA on the low 32 bits, by the low five bits of rs2.
    Sraw {
        rd: Reg,
        rs1: Reg,
        rs2: Reg,
    },
    /// MUL on the low 32 bits.
    Mulw {
        rd: Reg,
        rs1: Reg,
        rs2: Reg,
    },
    /// DIV on the low 32 bits.
    Divw {
        rd: Reg,
        rs1: Reg,
        rs2: Reg,
    },
    /// DIVU on the low 32 bits.
    Divuw {
        rd: Reg,
        rs1: Reg,
        rs2: Reg,
    },
    /// REM on the low 32 bits.
    Remw {
        rd: Reg,
        rs1: Reg,
        rs2: Reg,
    },
    /// REMU on the low 32 bits.
    Remuw {
        rd: Reg,
        rs1: Reg,
        rs2: Reg,
    },
    /// Orders accesses, which needs nothing here. Its other bits are kept.
    Fence {
        rd: Reg,
        rs1: Reg,
        imm: Imm,
    },
    /// Calls the runtime.
    Ecall,
    /// Breaks into a debugger, of which there is none.
    Ebreak,
}
