//! How many instructions each operation has, before any is made.

ghost use Rattle.std.specs.Prelude.{◌≡◌, ◌≤◌, ◌+◌, ◌*◌, length};
ghost use Rattle.rv_select.specs.Places.{fetch_code};
ghost use Rattle.rv_select.specs.Slots.{place_of};
ghost use Rattle.rv_select.specs.Sizes as sizes;

use crate::slots::{Slots, slot};
use mid_code::{MidOp, Reg, WordOp};

/// How many it takes to fetch a value, or to keep it.
pub fn move_size(slots: Slots, register: Reg) -> u64
    ensures value { result ≡ sizes.move_size (place_of slots register) }
    ensures long { result ≡ length (fetch_code 5 (place_of slots register)) }
    ensures small { result ≤ 3 }
{
    if 8 * (slot(slots, register) + 32) < 2048 {
        1
    } else {
        3
    }
}

/// How many it takes to put a number into a register, eleven bits at a time.
fn pieces_size(pieces: u32, number: u64) -> u64
    ensures value { result ≡ sizes.pieces_size pieces number }
    ensures small { result ≤ 2 * pieces + 1 }
{
    if pieces == 0 || number < 2048 {
        1
    } else {
        pieces_size(pieces - 1, number / 2048) + 2
    }
}

/// How many it takes to put a number into a register.
fn const_size(number: u64) -> u64
    ensures value { result ≡ sizes.const_size number }
    ensures small { result ≤ 11 }
{
    if number < 2048 {
        1
    } else if number < 2_147_481_600 {
        2
    } else {
        pieces_size(5, number)
    }
}

/// How many an operator has.
fn word_op_size(op: WordOp) -> u64
    ensures value { result ≡ sizes.word_op_size op }
    ensures small { result ≤ 3 }
{
    match op {
        WordOp::Plus | WordOp::Minus | WordOp::Times => 1,
        WordOp::LessS | WordOp::AtMostS => 2,
        WordOp::Same | WordOp::Other => 3,
    }
}

/// How many an argument of a runtime call takes.
fn argument_size(slots: Slots, argument: Option<Reg>) -> u64
    ensures value { result ≡ sizes.argument_size (place_of slots) argument }
    ensures small { result ≤ 3 }
{
    match argument {
        None => 1,
        Some(from) => move_size(slots, from),
    }
}

/// How many the answer of a runtime call takes.
fn answer_size(slots: Slots, to: Option<Reg>) -> u64
    ensures value { result ≡ sizes.answer_size (place_of slots) to }
    ensures small { result ≤ 3 }
{
    match to {
        None => 0,
        Some(to) => move_size(slots, to),
    }
}

/// How many an operation has.
pub fn op_size(slots: Slots, op: MidOp) -> u64
    ensures { result ≡ sizes.size_of (place_of slots) op }
{
    match op {
        MidOp::Const { to, value } => const_size(value) + move_size(slots, to),
        MidOp::Copy { to, from } => move_size(slots, from) + move_size(slots, to),
        MidOp::Both {
            op,
            to,
            left,
            right,
        } => {
            move_size(slots, left)
                + move_size(slots, right)
                + word_op_size(op)
                + move_size(slots, to)
        }
        MidOp::Divide {
            to,
            left,
            right,
            ..
        } => move_size(slots, left) + move_size(slots, right) + 5 + move_size(slots, to),
        MidOp::Runtime {
            first,
            second,
            third,
            fourth,
            to,
            ..
        } => {
            let arguments = argument_size(slots, first)
                + argument_size(slots, second)
                + argument_size(slots, third)
                + argument_size(slots, fourth);
            arguments + 2 + answer_size(slots, to)
        }
        MidOp::Skip { .. } | MidOp::Back { .. } => 1,
        MidOp::Unless { test, .. } => move_size(slots, test) + 2,
    }
}
