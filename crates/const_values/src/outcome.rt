use fb_base::Fault;
use word64::Kind;

/// The value of a constant expression: its type, a whole number or Boolean, and its word, which is the value extended
/// to 64 bits by the type's sign or by zeros.
#[derive(Clone, Copy, Debug, PartialEq, Eq)]
pub struct Constant {
    pub kind: Kind,
    pub word: u64,
}

/// What an expression comes to as a constant expression.
#[derive(Clone, Copy, Debug, PartialEq, Eq)]
pub enum Outcome {
    /// Its value.
    Value(Constant),
    /// It isn't constant, or divides by zero.
    NoValue,
    /// The first fault of a name or a type in it.
    Fault(Fault),
}
