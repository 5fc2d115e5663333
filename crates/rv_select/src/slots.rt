ghost use Rattle.std.specs.Prelude.{◌≡◌, ◌≤◌, ◌<◌, min, IsTrue};
ghost use Rattle.rv_select.specs.Slots.{slot_of, last_slot, FitFrame, with_slot, with_slot_if, with_op, slots_of};

use mid_code::{LinedOp, MidOp, Reg};

/// The last slot of a frame.
const LAST_SLOT: u64 = 262_111;

/// How many registers of each bank of middle code have a slot in a procedure's frame.
#[derive(Clone, Copy, Debug)]
pub struct Slots {
    pub temps: u64,
    pub places: u64,
    pub vars: u64,
}

/// The slots with one for a register.
fn with_register(slots: Slots, register: Reg) -> Slots
    ensures { result ≡ with_slot slots register }
{
    match register {
        Reg::Temp { number } => Slots {
            temps: slots.temps.max(number as u64 + 1),
            places: slots.places,
            vars: slots.vars,
        },
        Reg::Place { number } => Slots {
            temps: slots.temps,
            places: slots.places.max(number as u64 + 1),
            vars: slots.vars,
        },
        Reg::Var { number } => Slots {
            temps: slots.temps,
            places: slots.places,
            vars: slots.vars.max(number as u64 + 1),
        },
    }
}

fn with_some(slots: Slots, register: Option<Reg>) -> Slots
    ensures { result ≡ with_slot_if slots register }
{
    match register {
        None => slots,
        Some(register) => with_register(slots, register),
    }
}

/// The slots with one for each register of an operation.
fn with_operation(slots: Slots, op: MidOp) -> Slots
    ensures { result ≡ with_op slots op }
{
    match op {
        MidOp::Const { to, .. } => with_register(slots, to),
        MidOp::Copy { to, from } => with_register(with_register(slots, from), to),
        MidOp::Both {
            to,
            left,
            right,
            ..
        } => with_register(with_register(with_register(slots, left), right), to),
        MidOp::Divide {
            to,
            left,
            right,
            ..
        } => with_register(with_register(with_register(slots, left), right), to),
        MidOp::Runtime {
            first,
            second,
            third,
            fourth,
            to,
            ..
        } => {
            let two = with_some(with_some(slots, first), second);
            with_some(with_some(with_some(two, third), fourth), to)
        }
        MidOp::Skip { .. } => slots,
        MidOp::Back { .. } => slots,
        MidOp::Unless { test, .. } => with_register(slots, test),
    }
}

/// The slots of a procedure.
pub fn slots_for(ops: &[LinedOp]) -> Slots
    ensures { result ≡ slots_of ops.now }
{
    let mut slots = Slots {
        temps: 0,
        places: 0,
        vars: 0,
    };
    for at in ops {
        slots = with_operation(slots, at.op);
    }
    slots
}

/// A register's slot.
pub fn slot(slots: Slots, register: Reg) -> u64
    ensures value { result ≡ min (slot_of slots register) last_slot }
    ensures within { result ≤ last_slot }
{
    match register {
        Reg::Temp { number } => (number as u64).min(LAST_SLOT),
        Reg::Place { number } => slots.temps.saturating_add(number as u64).min(LAST_SLOT),
        Reg::Var { number } => slots
            .temps
            .saturating_add(slots.places.saturating_add(number as u64))
            .min(LAST_SLOT),
    }
}

/// Whether the slots fit into a frame.
pub fn fit_frame(slots: Slots) -> bool
    ensures { IsTrue result → FitFrame slots }
{
    slots
        .temps
        .saturating_add(slots.places.saturating_add(slots.vars))
        <= LAST_SLOT + 1
}
