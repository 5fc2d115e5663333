ghost use Rattle.std.specs.Prelude.{◌≡◌, IfOk};
ghost use Rattle.type_table.specs.Names.{
  entry_of,
  type_number,
  fault_at,
  base_type,
  basis_of,
  whole,
  basis_size,
  pointed,
  type_of,
};

use crate::layout::{Measure, bytes, kind_align};
use crate::measure::measure_at;
use const_values::{Constant, Known, Outcome};
use fb_ast::{Base, Ty, TypeName};
use fb_base::{Fault, FaultKind, NoMemory, Span, Text};
use sqlite_items::Boxed;
use std::alloc::Global;
use word64::Kind;

/// A name of the module that is no Type's, in lower case, and its value where it is a Const that has one.
#[derive(Drop)]
pub struct Entry {
    pub name: Text,
    pub value: Outcome,
}

/// What the members of a Type may speak of: the names of all Types, the module's other names that stand before, and
/// what is known of the Types that stand before.
#[derive(Clone, Copy)]
pub struct Scope<'a> {
    pub types: &'a [Text],
    pub entries: &'a [Entry],
    pub known: &'a [Measure],
}

/// What a written type is, but for the pointers.
#[derive(Clone, Copy)]
pub enum Basis {
    Num(Kind),
    Str,
    Any,
    /// The Type of a number.
    Obj(usize),
}

/// The value of a name of the module, where it is one and no Type's.
pub fn entry_of(entries: &[Entry], name: &[u8]) -> Option<Outcome>
    ensures { result ≡ entry_of entries.now name.now }
{
    for entry in entries {
        if entry.name.bytes() == name {
            return Some(entry.value);
        }
    }
    None
}

/// The number of the first Type that has a name.
pub fn type_number(types: &[Text], name: &[u8]) -> Option<usize>
    ensures { result ≡ type_number types.now name.now }
{
    types.iter().position(|other| other.bytes() == name)
}

// A fault of a kind at a place.
fn fault_at(kind: FaultKind, at: Span) -> Fault
    ensures { result ≡ fault_at kind at }
{
    Fault { kind, at }
}

// The type that a base is, with so many pointers behind it, written at a place.
fn base_type(scope: &Scope<'_>, base: &Base, pointers: usize, at: Span) -> Result<Basis, Fault>
    ensures { result ≡ base_type scope.now.types.now scope.now.entries.now base.now pointers at }
{
    match base {
        Base::Num(kind) => Ok(Basis::Num(*kind)),
        Base::Str => Ok(Basis::Str),
        Base::Any => {
            if pointers == 0 {
                Err(fault_at(FaultKind::NotAType, at))
            } else {
                Ok(Basis::Any)
            }
        },
        Base::Name(name) => match type_number(scope.types, name.bytes()) {
            Some(number) => Ok(Basis::Obj(number)),
            None => match entry_of(scope.entries, name.bytes()) {
                Some(_) => Err(fault_at(FaultKind::NotAType, at)),
                None => Err(fault_at(FaultKind::Unknown, at)),
            },
        },
    }
}

/// What a written type is; the fault stands at its base: Unknown where no such name is visible, NotAType where the name
/// is no Type's, and at Any without a pointer.
pub fn basis_of(scope: &Scope<'_>, ty: &TypeName) -> Result<Basis, Fault>
    ensures { result ≡ basis_of scope.now.types.now scope.now.entries.now ty.now }
{
    base_type(scope, &ty.base, ty.pointers, ty.at)
}

// A size as SizeOf gives it, an Integer.
fn whole(size: u64) -> Outcome
    ensures { result ≡ whole size }
{
    Outcome::Value(Constant {
        kind: Kind::Integer,
        word: size,
    })
}

// What SizeOf gives for a type without pointers.
fn basis_size(known: &[Measure], basis: Basis) -> Outcome
    ensures { result ≡ basis_size known.now basis }
{
    match basis {
        Basis::Num(kind) => whole(bytes(kind_align(kind))),
        Basis::Str => whole(24),
        Basis::Any => Outcome::NoValue,
        Basis::Obj(number) => match measure_at(known, number) {
            Measure::Fits(layout) => whole(layout.size as u64),
            Measure::Waits | Measure::Big => Outcome::NoValue,
        },
    }
}

impl Known for Scope<'_> {
    ghost use Rattle.type_table.specs.Names.{named_outcome, sized_outcome};

    ghost named = { λ s. named_outcome s.types.now s.entries.now };

    ghost sized = { λ s. sized_outcome s.types.now s.entries.now s.known.now };

    fn named(&self, at: Span, name: &[u8]) -> Outcome {
        match entry_of(self.entries, name) {
            Some(value) => value,
            None => match type_number(self.types, name) {
                Some(_) => Outcome::NoValue,
                None => Outcome::Fault(fault_at(FaultKind::Unknown, at)),
            },
        }
    }

    fn sized(&self, ty: &TypeName) -> Outcome {
        match basis_of(self, ty) {
            Ok(basis) => {
                if ty.pointers == 0 {
                    basis_size(self.known, basis)
                } else {
                    whole(8)
                }
            }
            Err(fault) => Outcome::Fault(fault),
        }
    }
}

// A type behind so many pointers.
fn pointed(alloc: Global, pointers: usize, inner: Ty) -> Result<Ty, NoMemory>
    ensures { IfOk result (λ ty. ty ≡ pointed pointers inner) }
{
    let mut ty = inner;
    for _turn in 0..pointers {
        ty = Ty::Ptr(Boxed::new(alloc, ty)?);
    }
    Ok(ty)
}

/// The type of a basis with so many pointers behind it. The error is want of memory, which includes more than 2^32
/// Types.
pub fn type_of(alloc: Global, basis: Basis, pointers: usize) -> Result<Ty, NoMemory>
    ensures { IfOk result (λ ty. ty ≡ type_of basis pointers) }
{
    match basis {
        Basis::Num(kind) => pointed(alloc, pointers, Ty::Num(kind)),
        Basis::Str => pointed(alloc, pointers, Ty::Str),
        Basis::Any => pointed(alloc, pointers.saturating_sub(1), Ty::AnyPtr),
        Basis::Obj(number) => {
            if number > 0xffff_ffff {
                Err(NoMemory)
            } else {
                pointed(alloc, pointers, Ty::Obj(number as u32))
            }
        },
    }
}
