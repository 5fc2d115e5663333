/// A virtual register of an activation. The three banks are apart from one another.
#[derive(Clone, Copy, PartialEq, Eq, Debug)]
pub enum Reg {
    /// A value that waits inside an expression, by its height.
    Temp { number: u32 },
    /// A plain variable, by its number.
    Var { number: u32 },
    /// The address of an open place, by its level.
    Place { number: u32 },
}
