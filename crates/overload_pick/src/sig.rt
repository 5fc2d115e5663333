use fb_ast::Ty;
use fb_base::Sequence;

/// A parameter of a candidate (FreeBASIC Manual, Passing Arguments to Procedures). Whether it is ByRef counts for
/// nothing in the choice: an argument that isn't a place of the parameter's own type is converted into a temporary.
#[derive(Debug, Drop)]
pub struct Param {
    pub ty: Ty,
    pub by_ref: bool,
}

/// A candidate: the parameters of a procedure, in order.
pub type Sig = Sequence<Param>;

/// An argument: its type, and whether it is the literal 0, which converts to a pointer. The literal 0 is an Integer.
#[derive(Debug, Drop)]
pub struct Arg {
    pub ty: Ty,
    pub zero: bool,
}
