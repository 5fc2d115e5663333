/// A place in a text: its line and its column, both counted from 1. Columns count bytes.
#[derive(Clone, Copy, Debug, PartialEq, Eq)]
pub struct Span {
    pub line: u32,
    pub col: u32,
}

/// What is wrong with a text.
#[derive(Clone, Copy, Debug, PartialEq, Eq)]
pub enum FaultKind {
    /// A byte that begins no token.
    BadByte,
    /// A string literal that its line doesn't close.
    OpenText,
    /// A comment that is left open.
    OpenComment,
    /// A number above 2^64 - 1.
    BigNumber,
    /// Another token is required.
    Expected,
    /// Tokens behind a complete statement.
    ExtraText,
    /// A name that isn't visible, or a member that isn't there.
    Unknown,
    /// A name that is declared a second time.
    Twice,
    /// A name that is used as a type and is none.
    NotAType,
    /// What is called is no procedure, or one that is declared without a body.
    NotAProc,
    /// No candidate fits the arguments of a call.
    NoMatch,
    /// Two candidates fit the arguments of a call equally well.
    Ambiguous,
    /// A value that doesn't convert to the type that is required.
    BadConvert,
    /// An expression that names no place in memory where one is required.
    NotAPlace,
    /// An Exit, a Continue or a Return that doesn't fit the loop or the procedure around it.
    BadExit,
    /// Bounds of an array, or a constant, that don't have a value that is allowed.
    BadBounds,
    /// A value of a Type that has constructors, and none that takes no argument.
    NoDefault,
    /// A Function that gives its result in both ways.
    MixedReturn,
    /// Something that this profile of the language doesn't have.
    OutOfProfile,
    /// A procedure above the greatest weight.
    ProcTooLarge,
    /// More than 65,536 tokens.
    TooManyTokens,
    /// An expression or a statement deeper than 200.
    DeepNesting,
    /// A Type that contains itself.
    TypeCycle,
    /// A Type or a place above 16,777,216 bytes.
    BigPlace,
}

/// The first fault of a text, and where it stands.
#[derive(Clone, Copy, Debug, PartialEq, Eq)]
pub struct Fault {
    pub kind: FaultKind,
    pub at: Span,
}

/// Why a thread was stopped by a trap.
#[derive(Clone, Copy, Debug, PartialEq, Eq)]
pub enum TrapKind {
    /// An address that may not be accessed.
    BadPointer,
    /// A Delete of what no New gave, or of what is gone.
    BadFree,
    /// A division by zero.
    DivZero,
    /// An index outside its bounds.
    Bounds,
    /// A position outside a string.
    StrIndex,
    /// A string that isn't alive, or is alive already.
    BadString,
    /// A string above its greatest length.
    StrLimit,
    /// A number that names no thread, mutex or condition that it could.
    BadHandle,
    /// Too many procedures within one another.
    Depth,
    /// More live bytes than there may be.
    PlaceLimit,
    /// Code that is no instruction, or a call that there isn't.
    BadCode,
}
