//! Tests of rv_isa: words beside their instructions.

use rv_isa::{Branch, Imm, Inst, Jump, Reg, decode, encode, inverse, progress};
use std::test::*;

// Whether this is the word of this instruction.
fn agree(word: u32, inst: Inst) -> bool {
    match decode(word) {
        None => false,
        Some(read) => encode(read) == word && encode(inst) == word,
    }
}

#[test]
fn words_and_instructions(rt: HostRuntime) {
    inverse();
    progress();
    let (rd, rs1, rs2) = (Reg::new(10), Reg::new(10), Reg::new(11));
    assert!(rt; agree(0x02b5_4533, Inst::Div { rd, rs1, rs2 }));
    let (rd, rs1, imm) = (Reg::new(17), Reg::new(0), Imm::new(64));
    assert!(rt; agree(0x0400_0893, Inst::Addi { rd, rs1, imm }));
    let (rs1, rs2, offset) = (Reg::new(1), Reg::new(2), Branch::new(0x800));
    assert!(rt; agree(0x8020_8063, Inst::Beq { rs1, rs2, offset }));
    let (rd, offset) = (Reg::new(0), Jump::new(0xf_fffe));
    assert!(rt; agree(0xffdf_f06f, Inst::Jal { rd, offset }));
    assert!(rt; decode(0x4010_9093).is_none());
}
