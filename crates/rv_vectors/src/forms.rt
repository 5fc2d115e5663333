/// How the operands of a row stand in an instruction, and where its result is.
#[derive(Clone, Copy, PartialEq, Eq)]
pub enum Form {
    /// `name x3, x1, x2`.
    Registers,
    /// `name x3, x1, IMMEDIATE`.
    Immediate,
    /// `name x3, IMMEDIATE`, with the upper bits.
    Upper,
    /// `name x3, OFFSET(x1)`, with the eight bytes at x1 as the first operand.
    Load,
    /// `name x2, OFFSET(x1)`, with x2 as the first operand.
    Store,
    /// `name x1, x2, 8`.
    Branch,
    /// `name x3, IMMEDIATE(x1)`.
    Jump,
}

// Each instruction with its word, where the immediate is 0, or 8 for a branch.
const FORMS: [(&str, u32, Form); 61] = [
    ("beq", 0x208463, Form::Branch),
    ("bne", 0x209463, Form::Branch),
    ("blt", 0x20c463, Form::Branch),
    ("bge", 0x20d463, Form::Branch),
    ("bltu", 0x20e463, Form::Branch),
    ("bgeu", 0x20f463, Form::Branch),
    ("lb", 0x8183, Form::Load),
    ("lh", 0x9183, Form::Load),
    ("lw", 0xa183, Form::Load),
    ("ld", 0xb183, Form::Load),
    ("lbu", 0xc183, Form::Load),
    ("lhu", 0xd183, Form::Load),
    ("lwu", 0xe183, Form::Load),
    ("sb", 0x208023, Form::Store),
    ("sh", 0x209023, Form::Store),
    ("sw", 0x20a023, Form::Store),
    ("sd", 0x20b023, Form::Store),
    ("addi", 0x8193, Form::Immediate),
    ("slti", 0xa193, Form::Immediate),
    ("sltiu", 0xb193, Form::Immediate),
    ("xori", 0xc193, Form::Immediate),
    ("ori", 0xe193, Form::Immediate),
    ("andi", 0xf193, Form::Immediate),
    ("slli", 0x9193, Form::Immediate),
    ("srli", 0xd193, Form::Immediate),
    ("srai", 0x4000d193, Form::Immediate),
    ("add", 0x2081b3, Form::Registers),
    ("sub", 0x402081b3, Form::Registers),
    ("sll", 0x2091b3, Form::Registers),
    ("slt", 0x20a1b3, Form::Registers),
    ("sltu", 0x20b1b3, Form::Registers),
    ("xor", 0x20c1b3, Form::Registers),
    ("srl", 0x20d1b3, Form::Registers),
    ("sra", 0x4020d1b3, Form::Registers),
    ("or", 0x20e1b3, Form::Registers),
    ("and", 0x20f1b3, Form::Registers),
    ("mul", 0x22081b3, Form::Registers),
    ("mulh", 0x22091b3, Form::Registers),
    ("mulhsu", 0x220a1b3, Form::Registers),
    ("mulhu", 0x220b1b3, Form::Registers),
    ("div", 0x220c1b3, Form::Registers),
    ("divu", 0x220d1b3, Form::Registers),
    ("rem", 0x220e1b3, Form::Registers),
    ("remu", 0x220f1b3, Form::Registers),
    ("addiw", 0x819b, Form::Immediate),
    ("slliw", 0x919b, Form::Immediate),
    ("srliw", 0xd19b, Form::Immediate),
    ("sraiw", 0x4000d19b, Form::Immediate),
    ("addw", 0x2081bb, Form::Registers),
    ("subw", 0x402081bb, Form::Registers),
    ("sllw", 0x2091bb, Form::Registers),
    ("srlw", 0x20d1bb, Form::Registers),
    ("sraw", 0x4020d1bb, Form::Registers),
    ("mulw", 0x22081bb, Form::Registers),
    ("divw", 0x220c1bb, Form::Registers),
    ("divuw", 0x220d1bb, Form::Registers),
    ("remw", 0x220e1bb, Form::Registers),
    ("remuw", 0x220f1bb, Form::Registers),
    ("lui", 0x01b7, Form::Upper),
    ("auipc", 0x0197, Form::Upper),
    ("jalr", 0x81e7, Form::Jump),
];

/// The word of an instruction's name and its form.
pub fn form_of(name: &str) -> Option<(u32, Form)> {
    for (known, word, form) in FORMS {
        if known == name {
            return Some((word, form));
        }
    }
    None
}
