//! Tests of mid_code: what `check` answers of small procedures.

ghost use Rattle.mid_code.specs.Flow.{AreLawful};

use fb_base::Sequence;
use mid_code::{LinedOp, MidOp, MidProc, MidProgram, Reg};
use std::alloc::Global;
use std::test::*;

const FIRST: Reg = Reg::Temp { number: 0 };

const X: Reg = Reg::Var { number: 0 };

const SET_FIRST: LinedOp = LinedOp {
    op: MidOp::Const {
        to: FIRST,
        value: 7,
    },
    line: 1,
};

const SET_X: LinedOp = LinedOp {
    op: MidOp::Const { to: X, value: 7 },
    line: 1,
};

const GET_X: LinedOp = LinedOp {
    op: MidOp::Copy { to: FIRST, from: X },
    line: 2,
};

const SKIP_TO_2: LinedOp = LinedOp {
    op: MidOp::Skip { target: 2 },
    line: 3,
};

const UNLESS_TO_3: LinedOp = LinedOp {
    op: MidOp::Unless {
        test: FIRST,
        target: 3,
    },
    line: 3,
};

const UNLESS_TO_4: LinedOp = LinedOp {
    op: MidOp::Unless {
        test: FIRST,
        target: 4,
    },
    line: 3,
};

const BACK_TO_1: LinedOp = LinedOp {
    op: MidOp::Back { target: 1 },
    line: 4,
};

/// What `check` answers of a program of one procedure; None where memory ran out.
fn answer(alloc: Global, ops: &[LinedOp]) -> Option<bool>
    requires { AreLawful 0 ops.now }
{
    let ops = Vec::from_slice(alloc, ops).ok()?;
    let proc = MidProc::of(alloc, ops).ok()?;
    let mut procs = Sequence::new(alloc);
    procs.add(proc).ok()?;
    Some(MidProgram { procs }.check())
}

#[test]
fn written_on_every_path(rt: HostRuntime) {
    let alloc = rt.alloc();
    // straight on, and over a block that writes something else
    assert!(rt; answer(alloc, &[SET_X, GET_X, SET_FIRST]) == Some(true));
    assert!(rt; answer(alloc, &[SET_X, SET_FIRST, UNLESS_TO_3, GET_X]) == Some(true));
    // a loop that comes back to a read behind the write
    assert!(rt; answer(alloc, &[SET_X, GET_X, UNLESS_TO_4, BACK_TO_1, GET_X]) == Some(true));
}

#[test]
fn read_on_some_path(rt: HostRuntime) {
    let alloc = rt.alloc();
    assert!(rt; answer(alloc, &[GET_X]) == Some(false));
    // the block that writes it may be passed over
    assert!(rt; answer(alloc, &[SET_FIRST, UNLESS_TO_3, SET_X, GET_X]) == Some(false));
    // only the way back comes to the read
    assert!(rt; answer(alloc, &[SKIP_TO_2, GET_X, SET_FIRST, BACK_TO_1]) == Some(false));
    // nothing comes to the read
    assert!(rt; answer(alloc, &[SKIP_TO_2, GET_X, SET_FIRST]) == Some(true));
}

#[test]
fn a_target_that_is_missing(rt: HostRuntime) {
    let alloc = rt.alloc();
    assert!(rt; answer(alloc, &[SKIP_TO_2, SET_X]) == Some(false));
    assert!(rt; answer(alloc, &[SKIP_TO_2, SET_X, SET_X]) == Some(true));
}
