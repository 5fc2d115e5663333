use fb_base::TrapKind;

/// What a step comes to.
#[derive(Clone, Copy, PartialEq, Eq, Debug)]
pub enum Stop {
    /// The thread goes on.
    Next,
    /// The thread goes on after a turn: a JALR, a JAL that keeps its return's place, or a jump that isn't ahead.
    Turn,
    /// The thread calls the runtime, and goes on with the answer in register 10.
    Call,
    /// The thread is stopped by a trap: BadCode or BadPointer.
    Trap(TrapKind),
}
