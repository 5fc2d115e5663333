ghost use Rattle.std.specs.Prelude.{◌≡◌, ℕ, [], ◌∷◌, ◌++◌, IfOk, OnOk};
ghost use Rattle.type_table.specs.Layouts.{known_of};
ghost use Rattle.type_table.specs.Plans.{is_known, waits_for, first_waiting, Among, waiters, Stands};

use crate::layout::Measure;
use crate::measure::{measure_at, type_measure};
use crate::row::{Field, Row};
use fb_ast::Ty;
use fb_base::{NoMemory, Sequence};
use std::alloc::Global;
use std::marker::Model;

/// The Types of a module so far, which contracts see as a list, and what is known of the layout of each by these.
///
/// A Type is laid out as soon as all Types in it are. Until then it stands among those that wait for one of them, and is
/// looked at again when that one is laid out.
#[derive(Drop)]
pub struct Plan {
    rows: Sequence<Row>,
    known: Vec<Measure>,
    // for each Type those that wait for it
    waiting: Vec<Vec<usize>>,
}

impl Model for Plan {
    ghost use Rattle.std.specs.Prelude.{List, []};
    ghost use Rattle.type_table.specs.declared.row.Row.{Row};
    ghost use Rattle.type_table.specs.Plans.{Stands};
    ghost use Rattle.fb_ast.specs.contracts.ty.Ty as e;
    ghost use Rattle.std.specs.Coded.{codes};

    ghost Value = { List Row };

    ghost coded = { Prim.hlevel (codes, e.the_row.coded) };

    ghost view = { λ p. p.rows };

    ghost invariant = { λ p. Stands p.rows p.known.items p.waiting.items [] };
}

/// Types, and what is known of the layout of each.
#[derive(Drop)]
pub struct Laid {
    pub rows: Sequence<Row>,
    pub known: Vec<Measure>,
}

fn is_known(measure: Measure) -> bool
    ensures { result ≡ is_known measure }
{
    match measure {
        Measure::Waits => false,
        Measure::Big | Measure::Fits(_) => true,
    }
}

// The number of the Type for which a type waits.
fn waits_for(known: &[Measure], ty: &Ty) -> Option<usize>
    ensures { result ≡ waits_for known.now ty.now }
{
    match ty {
        Ty::Obj(number) => {
            let number = *number as usize;
            match measure_at(known, number) {
                Measure::Waits => Some(number),
                Measure::Big | Measure::Fits(_) => None,
            }
        },
        Ty::Num(_) | Ty::Str | Ty::Ptr(_) | Ty::AnyPtr => None,
    }
}

// The number of the first Type for which fields wait.
fn first_waiting(known: &[Measure], fields: &[Field]) -> Option<usize>
    ensures { result ≡ first_waiting known.now fields.now }
{
    for field in fields {
        if let Some(number) = waits_for(known, &field.ty) {
            return Some(number);
        }
    }
    None
}

// Puts a Type among those that wait for another. The error is want of memory, which includes that the other one has no
// number of the module.
fn note(waiting: &mut Vec<Vec<usize>>, other: usize, number: usize) -> Result<(), NoMemory>
    ensures kept { OnOk result ((q j : ℕ) → Among (waiters waiting.old.items q) j → Among (waiters waiting.new.items q) j) }
    ensures noted { OnOk result (Among (waiters waiting.new.items other) number) }
{
    if other >= waiting.len() {
        return Err(NoMemory);
    }
    waiting[other].push(number)?;
    Ok(())
}

// Those that wait for a Type are to be looked at.
fn call_up(waiting: &[Vec<usize>], pending: &mut Vec<usize>, number: usize) -> Result<(), NoMemory>
    ensures { OnOk result (pending.new.items ≡ pending.old.items ++ waiters waiting.now number) }
{
    if number < waiting.len() {
        pending.extend_from_slice(waiting[number].as_slice())?;
    }
    Ok(())
}

// Lays a Type out where that can be, and puts it among those that wait for another where it can't.
fn look(
    rows: &[Row],
    known: &mut Vec<Measure>,
    waiting: &mut Vec<Vec<usize>>,
    pending: &mut Vec<usize>,
    number: usize,
) -> Result<(), NoMemory>
    requires { Stands rows.now known.old.items waiting.old.items (pending.old.items ++ number ∷ []) }
    ensures { OnOk result (Stands rows.now known.new.items waiting.new.items pending.new.items) }
{
    if number >= rows.len() {
        return Ok(());
    }
    if number >= known.len() {
        return Ok(());
    }
    if is_known(measure_at(known.as_slice(), number)) {
        return Ok(());
    }
    let row = &rows[number];
    if row.fault.is_some() {
        return Ok(());
    }
    match first_waiting(known.as_slice(), row.fields.as_slice()) {
        Some(other) => {
            note(waiting, other, number)?;
            Ok(())
        },
        None => {
            let measure = type_measure(known.as_slice(), row);
            known[number] = measure;
            call_up(waiting.as_slice(), pending, number)?;
            Ok(())
        },
    }
}

// Lays out what can be, from the Types that are to be looked at.
fn settle(
    rows: &[Row],
    known: &mut Vec<Measure>,
    waiting: &mut Vec<Vec<usize>>,
    pending: &mut Vec<usize>,
) -> Result<(), NoMemory>
    requires { Stands rows.now known.old.items waiting.old.items pending.old.items }
    ensures { OnOk result (Stands rows.now known.new.items waiting.new.items []) }
{
    for _turn in 0..u64::MAX {
        match pending.pop() {
            None => return Ok(()),
            Some(number) => look(rows, known, waiting, pending, number)?,
        }
    }
    Err(NoMemory)
}

// One Type more.
fn extend(
    alloc: Global,
    rows: &mut Sequence<Row>,
    known: &mut Vec<Measure>,
    waiting: &mut Vec<Vec<usize>>,
    row: Row,
) -> Result<(), NoMemory>
    requires { Stands rows.old known.old.items waiting.old.items [] }
    ensures rows { OnOk result (rows.new ≡ rows.old ++ row ∷ []) }
    ensures stands { OnOk result (Stands rows.new known.new.items waiting.new.items []) }
{
    let mut pending = Vec::new(alloc);
    pending.push(rows.len())?;
    rows.add(row)?;
    known.push(Measure::Waits)?;
    settle(rows.as_slice(), known, waiting, &mut pending)
}

impl Plan {
    /// No Types yet, and room for so many.
    pub fn new(alloc: Global, count: usize) -> Result<Plan, NoMemory>
        ensures { IfOk result (λ plan. plan ≡ []) }
    {
        let mut waiting = Vec::new(alloc);
        for _turn in 0..count {
            waiting.push(Vec::new(alloc))?;
        }
        Ok(Plan {
            rows: Sequence::new(alloc),
            known: Vec::new(alloc),
            waiting,
        })
    }

    /// The Types.
    pub fn rows(&self) -> &[Row]
        ensures { result.now ≡ self.now }
    {
        self.rows.as_slice()
    }

    /// What is known of each.
    pub fn known(&self) -> &[Measure]
        ensures { result.now ≡ known_of self.now }
    {
        self.known.as_slice()
    }

    /// One Type more. The error is want of memory, after which the list is of no use.
    pub fn add(&mut self, alloc: Global, row: Row) -> Result<(), NoMemory>
        ensures { OnOk result (self.new ≡ self.old ++ row ∷ []) }
    {
        match extend(
            alloc,
            &mut self.rows,
            &mut self.known,
            &mut self.waiting,
            row,
        ) {
            Ok(()) => Ok(()),
            Err(error) => {
                self.rows = Sequence::new(alloc);
                self.known = Vec::new(alloc);
                Err(error)
            },
        }
    }

    /// The Types, and what is known of each.
    pub fn laid(self) -> Laid
        ensures rows { result.rows ≡ self }
        ensures known { result.known.items ≡ known_of self }
    {
        Laid {
            rows: self.rows,
            known: self.known,
        }
    }
}
