use crate::Reg;

/// What is done with two words of 64 bits. A comparison gives all ones where it holds, else 0.
#[derive(Clone, Copy, PartialEq, Eq, Debug)]
pub enum WordOp {
    /// The sum, modulo 2^64.
    Plus,
    /// The difference, modulo 2^64.
    Minus,
    /// The product, modulo 2^64.
    Times,
    /// Whether the first signed value is below the second.
    LessS,
    /// Whether the first signed value is at most the second.
    AtMostS,
    /// Whether they are equal.
    Same,
    /// Whether they differ.
    Other,
}

/// What a division gives.
#[derive(Clone, Copy, PartialEq, Eq, Debug)]
pub enum Division {
    /// The quotient of the signed values, rounded toward zero.
    DivS,
    /// The remainder of that quotient.
    RemS,
}

/// An operation of middle code; Step.antt of specs/ says what each does. Targets are positions in the procedure's list.
#[derive(Clone, Copy, PartialEq, Eq, Debug)]
pub enum MidOp {
    /// `to` gets a number.
    Const {
        to: Reg,
        value: u64,
    },
    /// `to` gets what stands in `from`.
    Copy {
        to: Reg,
        from: Reg,
    },
    /// `to` gets what an operator makes of `left` and `right`.
    Both {
        op: WordOp,
        to: Reg,
        left: Reg,
        right: Reg,
    },
    /// `to` gets the division's result; where `right` is 0 it is the trap DivZero.
    Divide {
        op: Division,
        to: Reg,
        left: Reg,
        right: Reg,
    },
    /// A call of the runtime with up to four arguments; those that are missing are 0. `to` gets the answer.
    Runtime {
        number: u8,
        first: Option<Reg>,
        second: Option<Reg>,
        third: Option<Reg>,
        fourth: Option<Reg>,
        to: Option<Reg>,
    },
    /// Goes on at a position ahead.
    Skip {
        target: u32,
    },
    /// Goes back to a position that isn't ahead: a turn.
    Back {
        target: u32,
    },
    /// Goes on at a position ahead where the register is 0, else with the next operation.
    Unless {
        test: Reg,
        target: u32,
    },
}

/// An operation, and the line of the text that it belongs to.
#[derive(Clone, Copy, PartialEq, Eq, Debug)]
pub struct LinedOp {
    pub op: MidOp,
    pub line: u32,
}
