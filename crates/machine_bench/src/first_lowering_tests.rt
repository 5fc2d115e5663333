//! Tests of first_lowering: the middle code of a loop and a division.

use fb_base::NoMemory;
use first_language::{Expr, Operator, Program, Stmt};
use first_lowering::lower;
use mid_code::{Division, LinedOp, MidOp, Reg, WordOp};
use sqlite_items::{Boxed, Items};
use std::alloc::Global;
use std::test::*;

const FIRST: Reg = Reg::Temp { number: 0 };

const SECOND: Reg = Reg::Temp { number: 1 };

const A: Reg = Reg::Var { number: 0 };

/// Lines `Dim a As Integer = 7`, `While a`, `a = a - 1`, `Wend`, `Print a \ 2`, the last of them ended.
fn counting(alloc: Global) -> Result<Program, NoMemory> {
    let less = Expr::Apply(
        Operator::Minus,
        Boxed::new(alloc, Expr::Variable(0))?,
        Boxed::new(alloc, Expr::Literal(1))?,
    );
    let half = Expr::Apply(
        Operator::Quotient,
        Boxed::new(alloc, Expr::Variable(0))?,
        Boxed::new(alloc, Expr::Literal(2))?,
    );
    let mut body = Vec::new(alloc);
    body.push(Stmt::Assign(0, less, 3))?;
    let mut statements = Vec::new(alloc);
    statements.push(Stmt::DeclareWith(0, Expr::Literal(7), 1))?;
    statements.push(Stmt::While(Expr::Variable(0), Items::from_vec(body), 2, 4))?;
    statements.push(Stmt::Print(half, 5))?;
    Ok(Program {
        statements: Items::from_vec(statements),
        variables: 1,
        last_line: 6,
    })
}

fn lined(op: MidOp, line: u32) -> LinedOp {
    LinedOp { op, line }
}

fn set(to: Reg, value: u64) -> MidOp {
    MidOp::Const { to, value }
}

fn copy(to: Reg, from: Reg) -> MidOp {
    MidOp::Copy { to, from }
}

fn call(number: u8, first: Option<Reg>) -> MidOp {
    MidOp::Runtime {
        number,
        first,
        second: None,
        third: None,
        fourth: None,
        to: None,
    }
}

#[test]
fn a_loop_and_a_division(rt: HostRuntime) {
    let minus = MidOp::Both {
        op: WordOp::Minus,
        to: FIRST,
        left: FIRST,
        right: SECOND,
    };
    let quotient = MidOp::Divide {
        op: Division::DivS,
        to: FIRST,
        left: FIRST,
        right: SECOND,
    };
    let test = MidOp::Unless {
        test: FIRST,
        target: 9,
    };
    let expected = [
        lined(set(FIRST, 7), 1),
        lined(copy(A, FIRST), 1),
        lined(copy(FIRST, A), 2),
        lined(test, 2),
        lined(copy(FIRST, A), 3),
        lined(set(SECOND, 1), 3),
        lined(minus, 3),
        lined(copy(A, FIRST), 3),
        lined(MidOp::Back { target: 2 }, 4),
        lined(copy(FIRST, A), 5),
        lined(set(SECOND, 2), 5),
        lined(quotient, 5),
        lined(call(40, Some(FIRST)), 5),
        lined(call(45, None), 5),
        lined(call(64, None), 6),
    ];
    let program = counting(rt.alloc()).expect(&rt, "memory");
    let middle = lower(rt.alloc(), &program).expect(&rt, "memory");
    assert!(rt; middle.check());
    assert_eq!(rt; middle.procs.len(), 1);
    let ops = match middle.procs.as_slice() {
        [main] => main.ops(),
        _ => &[],
    };
    assert!(rt; ops == &expected[..]);
}
