ghost use Rattle.std.specs.Prelude.{◌≡◌, IfOk};

use fb_base::{NoMemory, Span, Text};
use sqlite_items::Boxed;
use std::alloc::Global;
use word64::Kind;

/// A type (FreeBASIC Manual, Standard Data Types, Pointers, Type).
#[derive(Debug, Drop)]
pub enum Ty {
    /// A whole number or Boolean.
    Num(Kind),
    /// String.
    Str,
    /// The Type of this number.
    Obj(u32),
    /// A pointer to a type.
    Ptr(Boxed<Ty>),
    /// Any Ptr.
    AnyPtr,
}

impl Ty {
    /// A copy of the type. The error is want of memory.
    pub fn copy(&self, alloc: Global) -> Result<Ty, NoMemory>
        ensures { IfOk result (λ copy. copy ≡ self.now) }
    {
        match self {
            Ty::Num(kind) => Ok(Ty::Num(*kind)),
            Ty::Str => Ok(Ty::Str),
            Ty::Obj(number) => Ok(Ty::Obj(*number)),
            Ty::Ptr(target) => {
                let target = target.get().copy(alloc)?;
                Ok(Ty::Ptr(Boxed::new(alloc, target)?))
            }
            Ty::AnyPtr => Ok(Ty::AnyPtr),
        }
    }
}

/// What a written type begins with.
#[derive(Debug, Drop)]
pub enum Base {
    /// The word of a whole-number type, or Boolean.
    Num(Kind),
    /// String.
    Str,
    /// Any.
    Any,
    /// A Type's name, in lower case.
    Name(Text),
}

/// A type as it is written: its base, and how often Ptr or Pointer stands behind it.
#[derive(Debug, Drop)]
pub struct TypeName {
    pub at: Span,
    pub base: Base,
    pub pointers: usize,
}
