ghost use Rattle.std.specs.Prelude.{◌≡◌, [], IfOk, OnOk};
ghost use Rattle.type_table.specs.Members.{
  ranged,
  range_of,
  clashes,
  taken,
  field_parts,
  field_made,
  first_of,
  twice,
  params_fault,
  type_fault,
  declare_fault,
  with_fault,
  with_member,
  with_members,
};

use crate::row::{Field, Range, Row};
use crate::scope::{Basis, Scope, basis_of, type_of};
use const_values::{Constant, constant};
use fb_ast::{Bounds, Head, Member, Name, Param, TypeName};
use fb_base::{Fault, FaultKind, NoMemory, Span, Text};
use std::alloc::Global;
use word64::less_s;

/// What a field without a fault says: its bounds, and its type but for the pointers.
#[derive(Clone, Copy)]
pub struct Parts {
    pub range: Option<Range>,
    pub basis: Basis,
}

// Bounds of which these are the values.
fn ranged(
    at: Span,
    low: Result<Constant, Fault>,
    high: Result<Constant, Fault>,
) -> Result<Option<Range>, Fault>
    ensures { result ≡ ranged at low high }
{
    match low {
        Err(fault) => Err(fault),
        Ok(low) => match high {
            Err(fault) => Err(fault),
            Ok(high) => {
                if less_s(high.word, low.word) {
                    Err(Fault {
                        kind: FaultKind::BadBounds,
                        at,
                    })
                } else {
                    Ok(Some(Range {
                        low: low.word,
                        high: high.word,
                    }))
                }
            },
        },
    }
}

/// The bounds of an array, or their first fault. One bound alone is the upper one, above 0.
fn range_of(scope: &Scope<'_>, bounds: &Option<Bounds>) -> Result<Option<Range>, Fault>
    ensures { result ≡ range_of scope.now.types.now scope.now.entries.now scope.now.known.now bounds.now }
{
    match bounds {
        None => Ok(None),
        Some(bounds) => match &bounds.low {
            None => ranged(bounds.high.at(), Ok(ZERO), constant(scope, &bounds.high)),
            Some(low) => ranged(
                low.at(),
                constant(scope, low),
                constant(scope, &bounds.high),
            ),
        },
    }
}

const ZERO: Constant = Constant {
    kind: word64::Kind::Integer,
    word: 0,
};

// Whether a member has a name that a further member may not have: a field's name is no other member's.
fn clashes(member: &Member, name: &[u8], field: bool) -> bool
    ensures { result ≡ clashes member.now name.now field }
{
    match member {
        Member::Field(other, _, _) => other.text.bytes() == name,
        Member::Declare(_, head) => match head {
            Head::Sub(_, other, _, _) | Head::Function(_, other, _, _, _) => field
                && other.text.bytes() == name,
        },
        Member::Constructor(..) | Member::Destructor(..) | Member::Let(..) => false,
    }
}

// Whether a member before has that name.
fn taken(before: &[Member], name: &[u8], field: bool) -> bool
    ensures { result ≡ taken before.now name.now field }
{
    before.iter().any(|member| clashes(member, name, field))
}

/// What a field says, or its first fault.
fn field_parts(
    scope: &Scope<'_>,
    before: &[Member],
    name: &Name,
    bounds: &Option<Bounds>,
    ty: &TypeName,
) -> Result<Parts, Fault>
    ensures { result ≡ field_parts scope.now.types.now scope.now.entries.now scope.now.known.now before.now name.now bounds.now ty.now }
{
    if taken(before, name.text.bytes(), true) {
        return Err(Fault {
            kind: FaultKind::Twice,
            at: name.at,
        });
    }
    match range_of(scope, bounds) {
        Err(fault) => Err(fault),
        Ok(range) => match basis_of(scope, ty) {
            Err(fault) => Err(fault),
            Ok(basis) => Ok(Parts { range, basis }),
        },
    }
}

fn field_made(alloc: Global, name: &Name, pointers: usize, parts: Parts) -> Result<Field, NoMemory>
    ensures { IfOk result (λ field. field ≡ field_made name.now pointers parts) }
{
    Ok(Field {
        name: Text::of(alloc, name.text.bytes())?,
        range: parts.range,
        ty: type_of(alloc, parts.basis, pointers)?,
    })
}

// The first of two faults.
fn first_of(one: Option<Fault>, other: Option<Fault>) -> Option<Fault>
    ensures { result ≡ first_of one other }
{
    match one {
        Some(_) => one,
        None => other,
    }
}

fn type_fault(scope: &Scope<'_>, ty: &TypeName) -> Option<Fault>
    ensures { result ≡ type_fault scope.now.types.now scope.now.entries.now ty.now }
{
    match basis_of(scope, ty) {
        Err(fault) => Some(fault),
        Ok(_) => None,
    }
}

// The first fault of the types of parameters.
fn params_fault(scope: &Scope<'_>, params: &[Param]) -> Option<Fault>
    ensures { result ≡ params_fault scope.now.types.now scope.now.entries.now params.now }
{
    for param in params {
        if let Some(fault) = type_fault(scope, &param.ty) {
            return Some(fault);
        }
    }
    None
}

// The first fault of a procedure that is declared in a Type.
fn declare_fault(scope: &Scope<'_>, before: &[Member], head: &Head) -> Option<Fault>
    ensures { result ≡ declare_fault scope.now.types.now scope.now.entries.now before.now head.now }
{
    match head {
        Head::Sub(_, name, _, params) => first_of(
            twice(before, name),
            params_fault(scope, params.as_slice()),
        ),
        Head::Function(_, name, _, params, ty) => {
            let inner = first_of(
                params_fault(scope, params.as_slice()),
                type_fault(scope, ty),
            );
            first_of(twice(before, name), inner)
        },
    }
}

fn twice(before: &[Member], name: &Name) -> Option<Fault>
    ensures { result ≡ twice before.now name.now }
{
    if taken(before, name.text.bytes(), false) {
        Some(Fault {
            kind: FaultKind::Twice,
            at: name.at,
        })
    } else {
        None
    }
}

fn put_member(
    alloc: Global,
    scope: &Scope<'_>,
    before: &[Member],
    row: &mut Row,
    member: &Member,
) -> Result<(), NoMemory>
    ensures { OnOk result (row.new ≡ with_member scope.now.types.now scope.now.entries.now scope.now.known.now before.now row.old member.now) }
{
    match member {
        Member::Field(name, bounds, ty) => match field_parts(scope, before, name, bounds, ty) {
            Err(fault) => {
                row.fault = first_of(row.fault, Some(fault));
                Ok(())
            },
            Ok(parts) => {
                let field = field_made(alloc, name, ty.pointers, parts)?;
                row.fields.add(field)?;
                Ok(())
            },
        },
        Member::Declare(_, head) => {
            row.fault = first_of(row.fault, declare_fault(scope, before, head));
            Ok(())
        },
        Member::Constructor(_, _, params) => {
            row.own = true;
            row.fault = first_of(row.fault, params_fault(scope, params.as_slice()));
            Ok(())
        },
        Member::Destructor(_, _) => {
            row.own = true;
            Ok(())
        },
        Member::Let(_, _, param) => {
            row.fault = first_of(row.fault, type_fault(scope, &param.ty));
            Ok(())
        },
    }
}

/// Puts the members of a Type into its row, in the order of the text.
pub fn put_members(
    alloc: Global,
    scope: &Scope<'_>,
    row: &mut Row,
    members: &[Member],
) -> Result<(), NoMemory>
    ensures { OnOk result (row.new ≡ with_members scope.now.types.now scope.now.entries.now scope.now.known.now [] row.old members.now) }
{
    for i in 0..members.len() {
        let (before, rest) = members.split_at(i);
        put_member(alloc, scope, before, row, &rest[0])?;
    }
    Ok(())
}
