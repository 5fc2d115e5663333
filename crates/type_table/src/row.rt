use fb_ast::{Name, Ty};
use fb_base::{Fault, Sequence, Text};

/// The bounds of an array, as words of Integers, the lower one not above the upper one.
#[derive(Clone, Copy)]
pub struct Range {
    pub low: u64,
    pub high: u64,
}

/// A field of a Type: its name in lower case, its bounds where it is an array, and its type.
#[derive(Drop)]
pub struct Field {
    pub name: Text,
    pub range: Option<Range>,
    pub ty: Ty,
}

/// A Type as its text has it: its name; whether another thing before it has that name; whether it declares a constructor
/// or a destructor; the first fault of its members; and its fields in the order of the text, those with a fault aside.
#[derive(Drop)]
pub struct Row {
    pub name: Name,
    pub twice: bool,
    pub own: bool,
    pub fault: Option<Fault>,
    pub fields: Sequence<Field>,
}
