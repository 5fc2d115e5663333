ghost use Rattle.std.specs.Prelude.{◌≡◌, ◌++◌, IfOk, OnOk};
ghost use Rattle.type_table.specs.Walks.{
  type_name,
  type_names,
  put_entry,
  put_vars,
  put_listed,
  settled,
  const_value,
  with_const,
  with_stmt,
  row_named,
  is_twice,
  start_row,
  whole_row,
  with_type,
  with_head,
  with_procedure,
  with_item,
  walked,
  nothing,
};

use crate::members::put_members;
use crate::plan::Plan;
use crate::row::Row;
use crate::scope::{Entry, Scope, entry_of};
use const_values::{Outcome, cast, number_type, value};
use fb_ast::{
    Expr, Head, Item, Listed, Member, Name, Procedure, ProcedureKind, Stmt, TypeName, Var,
};
use fb_base::{NoMemory, Sequence, Text};
use std::alloc::Global;

/// What is known up to a place of the module: its names that are no Types', and its Types.
#[derive(Drop)]
pub struct Walk {
    pub entries: Sequence<Entry>,
    pub rows: Plan,
}

// The name of a Type, behind those of the Types before.
fn put_type_name(alloc: Global, names: &mut Sequence<Text>, item: &Item) -> Result<(), NoMemory>
    ensures { OnOk result (names.new ≡ names.old ++ type_name item.now) }
{
    match item {
        Item::Type(_, name, _) => {
            let text = Text::of(alloc, name.text.bytes())?;
            names.add(text)?;
            Ok(())
        },
        Item::Declare(..) | Item::DeclareOperator(..) | Item::Procedure(_) | Item::Stmt(_) => Ok(
            (),
        ),
    }
}

/// The names of all Types, in the order of the text.
pub fn type_names(alloc: Global, items: &[Item]) -> Result<Sequence<Text>, NoMemory>
    ensures { IfOk result (λ names. names ≡ type_names items.now) }
{
    let mut names = Sequence::new(alloc);
    for item in items {
        put_type_name(alloc, &mut names, item)?;
    }
    Ok(names)
}

fn put_entry(alloc: Global, walk: &mut Walk, name: &[u8], value: Outcome) -> Result<(), NoMemory>
    ensures { OnOk result (walk.new ≡ put_entry walk.old name.now value) }
{
    let name = Text::of(alloc, name)?;
    walk.entries.add(Entry { name, value })?;
    Ok(())
}

fn put_vars(alloc: Global, walk: &mut Walk, vars: &[Var]) -> Result<(), NoMemory>
    ensures { OnOk result (walk.new ≡ put_vars walk.old vars.now) }
{
    for var in vars {
        put_entry(alloc, walk, var.name.text.bytes(), Outcome::NoValue)?;
    }
    Ok(())
}

fn put_listed(alloc: Global, walk: &mut Walk, vars: &[Listed]) -> Result<(), NoMemory>
    ensures { OnOk result (walk.new ≡ put_listed walk.old vars.now) }
{
    for var in vars {
        put_entry(alloc, walk, var.name.text.bytes(), Outcome::NoValue)?;
    }
    Ok(())
}

// A Const's value, where its expression has one.
fn settled(value: Outcome) -> Outcome
    ensures { result ≡ settled value }
{
    match value {
        Outcome::Value(_) => value,
        Outcome::NoValue | Outcome::Fault(_) => Outcome::NoValue,
    }
}

// A Const's value as the type that it is declared with has it.
fn const_value(ty: &Option<TypeName>, value: Outcome) -> Outcome
    ensures { result ≡ const_value ty.now value }
{
    match ty {
        None => settled(value),
        Some(ty) => settled(cast(number_type(ty), value)),
    }
}

fn put_const(
    alloc: Global,
    walk: &mut Walk,
    types: &[Text],
    name: &Name,
    ty: &Option<TypeName>,
    e: &Expr,
) -> Result<(), NoMemory>
    ensures { OnOk result (walk.new ≡ with_const types.now walk.old name.now ty.now e.now) }
{
    let scope = Scope {
        types,
        entries: walk.entries.as_slice(),
        known: walk.rows.known(),
    };
    let value = const_value(ty, value(&scope, e));
    put_entry(alloc, walk, name.text.bytes(), value)
}

fn put_stmt(alloc: Global, walk: &mut Walk, types: &[Text], stmt: &Stmt) -> Result<(), NoMemory>
    ensures { OnOk result (walk.new ≡ with_stmt types.now walk.old stmt.now) }
{
    match stmt {
        Stmt::Dim(_, _, vars) => put_vars(alloc, walk, vars.as_slice()),
        Stmt::DimAs(_, _, _, vars) => put_listed(alloc, walk, vars.as_slice()),
        Stmt::Const(_, name, ty, e) => put_const(alloc, walk, types, name, ty, e),
        Stmt::Assign(..)
        | Stmt::Result(..)
        | Stmt::Call(..)
        | Stmt::CallName(..)
        | Stmt::CallWord(..)
        | Stmt::Print(..)
        | Stmt::LineInput(..)
        | Stmt::IfLine(..)
        | Stmt::If(..)
        | Stmt::For(..)
        | Stmt::While(..)
        | Stmt::Do(..)
        | Stmt::Select(..)
        | Stmt::Scope(..)
        | Stmt::Exit(..)
        | Stmt::Continue(..)
        | Stmt::Return(..)
        | Stmt::Delete(..)
        | Stmt::End(..) => Ok(()),
    }
}

// Whether a Type has this name.
fn row_named(rows: &[Row], name: &[u8]) -> bool
    ensures { result ≡ row_named rows.now name.now }
{
    rows.iter().any(|row| row.name.text.bytes() == name)
}

// Whether another thing before has a Type's name.
fn is_twice(walk: &Walk, name: &[u8]) -> bool
    ensures { result ≡ is_twice walk.now name.now }
{
    if row_named(walk.rows.rows(), name) {
        return true;
    }
    entry_of(walk.entries.as_slice(), name).is_some()
}

// A Type before its members.
fn start_row(alloc: Global, walk: &Walk, name: &Name) -> Result<Row, NoMemory>
    ensures { IfOk result (λ row. row ≡ start_row walk.now name.now) }
{
    Ok(Row {
        name: Name {
            at: name.at,
            text: Text::of(alloc, name.text.bytes())?,
        },
        twice: is_twice(walk, name.text.bytes()),
        own: false,
        fault: None,
        fields: Sequence::new(alloc),
    })
}

// A Type with its members.
fn whole_row(
    alloc: Global,
    walk: &Walk,
    types: &[Text],
    name: &Name,
    members: &[Member],
) -> Result<Row, NoMemory>
    ensures { IfOk result (λ row. row ≡ whole_row types.now walk.now name.now members.now) }
{
    let mut row = start_row(alloc, walk, name)?;
    let scope = Scope {
        types,
        entries: walk.entries.as_slice(),
        known: walk.rows.known(),
    };
    put_members(alloc, &scope, &mut row, members)?;
    Ok(row)
}

fn put_type(
    alloc: Global,
    walk: &mut Walk,
    types: &[Text],
    name: &Name,
    members: &[Member],
) -> Result<(), NoMemory>
    ensures { OnOk result (walk.new ≡ with_type types.now walk.old name.now members.now) }
{
    let row = whole_row(alloc, walk, types, name, members)?;
    walk.rows.add(alloc, row)
}

fn put_head(alloc: Global, walk: &mut Walk, head: &Head) -> Result<(), NoMemory>
    ensures { OnOk result (walk.new ≡ with_head walk.old head.now) }
{
    match head {
        Head::Sub(_, name, _, _) | Head::Function(_, name, _, _, _) => put_entry(
            alloc,
            walk,
            name.text.bytes(),
            Outcome::NoValue,
        ),
    }
}

fn put_procedure(alloc: Global, walk: &mut Walk, one: &Procedure) -> Result<(), NoMemory>
    ensures { OnOk result (walk.new ≡ with_procedure walk.old one.now) }
{
    match &one.kind {
        ProcedureKind::Module(head) => put_head(alloc, walk, head),
        ProcedureKind::MemberSub(..)
        | ProcedureKind::MemberFunction(..)
        | ProcedureKind::Constructor(..)
        | ProcedureKind::Destructor(..)
        | ProcedureKind::Let(..)
        | ProcedureKind::Operator(..) => Ok(()),
    }
}

fn put_item(alloc: Global, walk: &mut Walk, types: &[Text], item: &Item) -> Result<(), NoMemory>
    ensures { OnOk result (walk.new ≡ with_item types.now walk.old item.now) }
{
    match item {
        Item::Declare(_, head) => put_head(alloc, walk, head),
        Item::DeclareOperator(..) => Ok(()),
        Item::Procedure(one) => put_procedure(alloc, walk, one),
        Item::Type(_, name, members) => put_type(alloc, walk, types, name, members.as_slice()),
        Item::Stmt(stmt) => put_stmt(alloc, walk, types, stmt),
    }
}

/// What is known of a whole module.
pub fn walked(alloc: Global, types: &[Text], items: &[Item]) -> Result<Walk, NoMemory>
    ensures { IfOk result (λ walk. walk ≡ walked types.now nothing items.now) }
{
    let mut walk = Walk {
        entries: Sequence::new(alloc),
        rows: Plan::new(alloc, types.len())?,
    };
    for item in items {
        put_item(alloc, &mut walk, types, item)?;
    }
    Ok(walk)
}
