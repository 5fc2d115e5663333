use word64::Kind;

/// An operator before its operand (FreeBASIC Manual, Operators).
#[derive(Clone, Copy, Debug, PartialEq, Eq)]
pub enum Unary {
    /// `@`: the address of a place.
    Address,
    /// `*`: the place that a pointer points to.
    Deref,
    /// `-`
    Minus,
    /// `Not`
    Not,
}

/// An operator between its operands (FreeBASIC Manual, Operators).
#[derive(Clone, Copy, Debug, PartialEq, Eq)]
pub enum Binary {
    /// `*`
    Multiply,
    /// `\`: the quotient of whole numbers.
    Divide,
    /// `Mod`: the remainder.
    Mod,
    /// `Shl`
    Shl,
    /// `Shr`
    Shr,
    /// `+`
    Add,
    /// `-`
    Subtract,
    /// `&`: one text behind the other.
    Join,
    /// `=`
    Equal,
    /// `<>`
    NotEqual,
    /// `<`
    Less,
    /// `<=`
    LessEqual,
    /// `>`
    Greater,
    /// `>=`
    GreaterEqual,
    /// `And`
    And,
    /// `Or`
    Or,
    /// `Xor`
    Xor,
    /// `AndAlso`: And that looks at its right operand only where the left one is true.
    AndAlso,
    /// `OrElse`: Or that looks at its right operand only where the left one is false.
    OrElse,
}

/// A comparison behind `Is` in a Case (FreeBASIC Manual, Select Case).
#[derive(Clone, Copy, Debug, PartialEq, Eq)]
pub enum Comparison {
    /// `=`
    Equal,
    /// `<>`
    NotEqual,
    /// `<`
    Less,
    /// `<=`
    LessEqual,
    /// `>`
    Greater,
    /// `>=`
    GreaterEqual,
}

/// The mark between a place and what is assigned to it (FreeBASIC Manual, Assignment Operators).
#[derive(Clone, Copy, Debug, PartialEq, Eq)]
pub enum Assignment {
    /// `=`
    Set,
    /// `+=`
    Add,
    /// `-=`
    Subtract,
    /// `*=`
    Multiply,
    /// `\=`
    Divide,
    /// `&=`
    Join,
}

/// A reserved word that is called (FreeBASIC Manual, String Functions, Threading, Type Conversion).
#[derive(Clone, Copy, Debug, PartialEq, Eq)]
pub enum CallWord {
    Len,
    Left,
    Right,
    Mid,
    Chr,
    Asc,
    Str,
    ValLng,
    InStr,
    UCase,
    LCase,
    Space,
    LTrim,
    RTrim,
    Sleep,
    ThreadCreate,
    ThreadWait,
    ThreadDetach,
    MutexCreate,
    MutexLock,
    MutexUnlock,
    MutexDestroy,
    CondCreate,
    CondWait,
    CondSignal,
    CondBroadcast,
    CondDestroy,
    /// `CByte` to `CULngInt` and `CBool`, by the type that each converts to.
    Convert(Kind),
}
