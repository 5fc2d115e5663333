use rv_isa::Inst;

/// An instruction, and the line of the text that it belongs to.
#[derive(Clone, Copy, Debug)]
pub struct LinedInst {
    pub inst: Inst,
    pub line: u32,
}
