use rv_isa::{Branch, Imm, Inst, Jump};
use std::alloc::{AllocError, Global};

// The variant's name in lower case, which is the instruction's.
fn name_of(alloc: Global, inst: &Inst) -> Result<String, AllocError> {
    let spelt = format!(in alloc; "{inst:?}")?;
    let mut name = String::new(alloc);
    for c in spelt.chars() {
        if !c.is_ascii_alphanumeric() {
            break;
        }
        name.push(c.to_ascii_lowercase())?;
    }
    Ok(name)
}

// The signed value of an immediate of 12 bits.
fn signed_imm(imm: Imm) -> i32 {
    let bits = imm.number() as i32;
    if bits < 2048 { bits } else { bits - 4096 }
}

// The distance of a branch in bytes.
fn distance(offset: Branch) -> i32 {
    let bits = offset.number() as i32;
    if bits < 2048 {
        2 * bits
    } else {
        2 * bits - 8192
    }
}

// The distance of a jump in bytes.
fn long_distance(offset: Jump) -> i32 {
    let bits = offset.number() as i32;
    if bits < 0x8_0000 {
        2 * bits
    } else {
        2 * bits - 0x20_0000
    }
}

/// An instruction's text as an assembler has it; FENCE has its word.
pub fn text_of(alloc: Global, word: u32, inst: Inst) -> Result<String, AllocError> {
    let name = name_of(alloc, &inst)?;
    match inst {
        Inst::Lui { rd, imm } | Inst::Auipc { rd, imm } => format!(in alloc;
            "{name} x{}, {}",
            rd.number(),
            imm.number()
        ),
        Inst::Jal { rd, offset } => format!(in alloc;
            "{name} x{}, {}",
            rd.number(),
            long_distance(offset)
        ),
        Inst::Beq { rs1, rs2, offset }
        | Inst::Bne { rs1, rs2, offset }
        | Inst::Blt { rs1, rs2, offset }
        | Inst::Bge { rs1, rs2, offset }
        | Inst::Bltu { rs1, rs2, offset }
        | Inst::Bgeu { rs1, rs2, offset } => format!(in alloc;
            "{name} x{}, x{}, {}",
            rs1.number(),
            rs2.number(),
            distance(offset)
        ),
        Inst::Jalr { rd, rs1, imm }
        | Inst::Lb { rd, rs1, imm }
        | Inst::Lh { rd, rs1, imm }
        | Inst::Lw { rd, rs1, imm }
        | Inst::Ld { rd, rs1, imm }
        | Inst::Lbu { rd, rs1, imm }
        | Inst::Lhu { rd, rs1, imm }
        | Inst::Lwu { rd, rs1, imm } => format!(in alloc;
            "{name} x{}, {}(x{})",
            rd.number(),
            signed_imm(imm),
            rs1.number()
        ),
        Inst::Sb { rs1, rs2, imm }
        | Inst::Sh { rs1, rs2, imm }
        | Inst::Sw { rs1, rs2, imm }
        | Inst::Sd { rs1, rs2, imm } => {
            format!(in alloc;
                "{name} x{}, {}(x{})",
                rs2.number(),
                signed_imm(imm),
                rs1.number()
            )
        }
        Inst::Addi { rd, rs1, imm }
        | Inst::Slti { rd, rs1, imm }
        | Inst::Sltiu { rd, rs1, imm }
        | Inst::Xori { rd, rs1, imm }
        | Inst::Ori { rd, rs1, imm }
        | Inst::Andi { rd, rs1, imm }
        | Inst::Addiw { rd, rs1, imm } => format!(in alloc;
            "{name} x{}, x{}, {}",
            rd.number(),
            rs1.number(),
            signed_imm(imm)
        ),
        Inst::Slli { rd, rs1, amount }
        | Inst::Srli { rd, rs1, amount }
        | Inst::Srai { rd, rs1, amount } => {
            format!(in alloc;
                "{name} x{}, x{}, {}",
                rd.number(),
                rs1.number(),
                amount.number()
            )
        }
        Inst::Slliw { rd, rs1, amount }
        | Inst::Srliw { rd, rs1, amount }
        | Inst::Sraiw { rd, rs1, amount } => {
            format!(in alloc;
                "{name} x{}, x{}, {}",
                rd.number(),
                rs1.number(),
                amount.number()
            )
        }
        Inst::Fence { .. } => format!(in alloc; "{name} 0x{word:08x}"),
        Inst::Ecall | Inst::Ebreak => Ok(name),
        Inst::Add { rd, rs1, rs2 }
        | Inst::Sub { rd, rs1, rs2 }
        | Inst::Sll { rd, rs1, rs2 }
        | Inst::Slt { rd, rs1, rs2 }
        | Inst::Sltu { rd, rs1, rs2 }
        | Inst::Xor { rd, rs1, rs2 }
        | Inst::Srl { rd, rs1, rs2 }
        | Inst::Sra { rd, rs1, rs2 }
        | Inst::Or { rd, rs1, rs2 }
        | Inst::And { rd, rs1, rs2 }
        | Inst::Mul { rd, rs1, rs2 }
        | Inst::Mulh { rd, rs1, rs2 }
        | Inst::Mulhsu { rd, rs1, rs2 }
        | Inst::Mulhu { rd, rs1, rs2 }
        | Inst::Div { rd, rs1, rs2 }
        | Inst::Divu { rd, rs1, rs2 }
        | Inst::Rem { rd, rs1, rs2 }
        | Inst::Remu { rd, rs1, rs2 }
        | Inst::Addw { rd, rs1, rs2 }
        | Inst::Subw { rd, rs1, rs2 }
        | Inst::Sllw { rd, rs1, rs2 }
        | Inst::Srlw { rd, rs1, rs2 }
        | Inst::Sraw { rd, rs1, rs2 }
        | Inst::Mulw { rd, rs1, rs2 }
        | Inst::Divw { rd, rs1, rs2 }
        | Inst::Divuw { rd, rs1, rs2 }
        | Inst::Remw { rd, rs1, rs2 }
        | Inst::Remuw { rd, rs1, rs2 } => format!(in alloc;
            "{name} x{}, x{}, x{}",
            rd.number(),
            rs1.number(),
            rs2.number()
        ),
    }
}
