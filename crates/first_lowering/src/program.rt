ghost use Rattle.std.specs.Prelude.{◌≡◌, ◌∷◌, IfOk, OnOk};
ghost use Rattle.mid_flow.specs.Emission.{Emits};
ghost use Rattle.first_language.specs.Tree.{Assign, Declare, If, Print, While, block_of, program_of, statement_of, tree_of};
ghost use Rattle.first_lowering.specs.Lowering.{block, expression, lowered, statement};

use crate::emit::{
    FIRST, call, call_with_value, keep, number, operation, put, put_test, temp, variable,
};
use fb_base::{NoMemory, Sequence};
use first_language::{Expr, Program, Stmt};
use mid_code::{LinedOp, MidOp, MidProc, MidProgram};
use std::alloc::Global;

/// The runtime calls that print a signed number, end a line of output, and end the main module.
const PRINT_SIGNED: u8 = 40;

const PRINT_LINE: u8 = 45;

const MAIN_END: u8 = 64;

/// What holds a test's place until its target is known.
const HELD: MidOp = MidOp::Skip { target: 0 };

/// Puts an expression of some line, whose value comes to a height.
fn put_expression(ops: &mut Vec<LinedOp>, line: u32, d: u64, e: &Expr) -> Result<(), NoMemory>
    ensures { OnOk result (Emits (expression line d (tree_of e.now)) ops.old.items ops.new.items) }
{
    match e {
        Expr::Literal(n) => {
            let op = MidOp::Const {
                to: temp(d)?,
                value: *n,
            };
            put(ops, op, line)
        },
        Expr::Variable(x) => {
            let op = MidOp::Copy {
                to: temp(d)?,
                from: variable(*x)?,
            };
            put(ops, op, line)
        },
        Expr::Parenthesised(inside) => put_expression(ops, line, d, inside.get()),
        Expr::Apply(op, left, right) => {
            let op = operation(*op, d)?;
            put_expression(ops, line, d, left.get())?;
            put_expression(ops, line, d + 1, right.get())?;
            put(ops, op, line)
        },
    }
}

/// `Dim NAME As Integer`.
fn put_declared(ops: &mut Vec<LinedOp>, x: u64, line: u64) -> Result<(), NoMemory>
    ensures { OnOk result (Emits (statement (Declare x line)) ops.old.items ops.new.items) }
{
    let op = MidOp::Const {
        to: variable(x)?,
        value: 0,
    };
    put(ops, op, number(line)?)
}

/// `NAME = expr`, and the same in a Dim.
fn put_assigned(ops: &mut Vec<LinedOp>, x: u64, value: &Expr, line: u64) -> Result<(), NoMemory>
    ensures { OnOk result (Emits (statement (Assign x (tree_of value.now) line)) ops.old.items ops.new.items) }
{
    let line = number(line)?;
    let op = keep(x)?;
    put_expression(ops, line, 0, value)?;
    put(ops, op, line)
}

/// `Print expr`.
fn put_print(ops: &mut Vec<LinedOp>, value: &Expr, line: u64) -> Result<(), NoMemory>
    ensures { OnOk result (Emits (statement (Print (tree_of value.now) line)) ops.old.items ops.new.items) }
{
    let line = number(line)?;
    put_expression(ops, line, 0, value)?;
    put(ops, call_with_value(PRINT_SIGNED), line)?;
    put(ops, call(PRINT_LINE), line)
}

/// `If expr Then`, lines, `End If`.
#[cycle(statements)]
fn put_if(ops: &mut Vec<LinedOp>, body: &[Stmt], test: &Expr, line: u64) -> Result<(), NoMemory>
    ensures { OnOk result (Emits (statement (If (tree_of test.now) (block_of body.now) line)) ops.old.items ops.new.items) }
{
    let line = number(line)?;
    put_expression(ops, line, 0, test)?;
    let at = ops.len();
    put(ops, HELD, line)?;
    put_block(ops, body)?;
    put_test(ops, at, line)
}

/// `While expr`, lines, `Wend`.
#[cycle(statements)]
fn put_while(
    ops: &mut Vec<LinedOp>,
    body: &[Stmt],
    condition: &Expr,
    line: u64,
    back: u64,
) -> Result<(), NoMemory>
    ensures { OnOk result (Emits (statement (While (tree_of condition.now) (block_of body.now) line back)) ops.old.items ops.new.items) }
{
    let line = number(line)?;
    let back = number(back)?;
    let target = number(ops.len() as u64)?;
    put_expression(ops, line, 0, condition)?;
    let at = ops.len();
    put(ops, HELD, line)?;
    put_block(ops, body)?;
    put(ops, MidOp::Back { target }, back)?;
    put_test(ops, at, line)
}

/// A statement.
#[cycle(statements)]
fn put_statement(ops: &mut Vec<LinedOp>, one: &Stmt) -> Result<(), NoMemory>
    ensures { OnOk result (Emits (statement (statement_of one.now)) ops.old.items ops.new.items) }
{
    match one {
        Stmt::Declare(x, line) => put_declared(ops, *x, *line),
        Stmt::DeclareWith(x, value, line) => put_assigned(ops, *x, value, *line),
        Stmt::Assign(x, value, line) => put_assigned(ops, *x, value, *line),
        Stmt::Print(value, line) => put_print(ops, value, *line),
        Stmt::If(test, body, line) => put_if(ops, body.as_slice(), test, *line),
        Stmt::While(test, body, line, back) => put_while(ops, body.as_slice(), test, *line, *back),
    }
}

/// Statements in a row.
#[cycle(statements)]
fn put_block(ops: &mut Vec<LinedOp>, body: &[Stmt]) -> Result<(), NoMemory>
    ensures { OnOk result (Emits (block (block_of body.now)) ops.old.items ops.new.items) }
{
    for one in body {
        put_statement(ops, one)?;
    }
    Ok(())
}

/// Middle code of a program: the main module is its only procedure.
///
/// The error is want of memory, which includes a program with more variables, lines or operations than 32 bits count.
pub fn lower(alloc: Global, program: &Program) -> Result<MidProgram, NoMemory>
    ensures { IfOk result (λ m. m.procs ≡ lowered (program_of program.now)) }
{
    let mut ops = Vec::new(alloc);
    put_block(&mut ops, program.statements.as_slice())?;
    put(&mut ops, call(MAIN_END), number(program.last_line)?)?;
    let mut procs = Sequence::new(alloc);
    procs.add(MidProc::of(alloc, ops)?)?;
    Ok(MidProgram { procs })
}
