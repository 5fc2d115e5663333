ghost use Rattle.std.specs.Prelude.{◌≡◌, ◌↔◌, IfOk, IsTrue};
ghost use Rattle.mid_code.specs.Flow.{AreLawful, IsSound};
ghost use Rattle.mid_code.specs.Paths.{alone, AllSound};

use crate::LinedOp;
use crate::search::{all_written_first, targets_exist};
use fb_base::{NoMemory, Sequence};
use std::alloc::Global;
use std::marker::Model;

/// A procedure: its operations in order, which contracts see as a list.
///
/// A jump without a turn goes ahead, a jump back doesn't, and no call of the runtime is the one that traps. Whether each
/// register is written before it is read is found out once, when the procedure is made.
#[derive(Debug, Drop)]
pub struct MidProc {
    ops: Vec<LinedOp>,
    sound: bool,
}

impl Model for MidProc {
    ghost use Rattle.std.specs.Prelude.{List};
    ghost use Rattle.mid_code.specs.declared.op.LinedOp.{LinedOp};
    ghost use Rattle.mid_code.specs.Paths.{IsKept};

    ghost Value = { List LinedOp };

    ghost view = { λ p. p.ops.items };

    ghost invariant = { λ p. IsKept p.ops.items p.sound };
}

impl MidProc {
    /// The procedure of these operations. The error is want of memory.
    pub fn of(alloc: Global, ops: Vec<LinedOp>) -> Result<MidProc, NoMemory>
        requires { AreLawful 0 ops.items }
        ensures { IfOk result (λ proc. proc ≡ ops.items) }
    {
        let targets = targets_exist(&ops);
        let written = all_written_first(alloc, &ops)?;
        Ok(MidProc {
            ops,
            sound: targets & written,
        })
    }

    /// The operations, in order.
    pub fn ops(&self) -> &[LinedOp]
        ensures items { result.now ≡ self.now }
        ensures lawful { AreLawful 0 self.now }
    {
        self.ops.as_slice()
    }

    /// Whether each register is written before it is read on every path, and every target exists. It takes no memory.
    pub fn is_sound(&self) -> bool
        ensures { IsTrue result ↔ IsSound (alone self.now) 0 }
    {
        self.sound
    }
}

/// A program: its procedures by number. Procedure 0 is the main module.
#[derive(Debug, Drop)]
pub struct MidProgram {
    pub procs: Sequence<MidProc>,
}

impl MidProgram {
    /// Whether in each procedure each register is written before it is read on every path, and every target exists. It
    /// takes no memory.
    pub fn check(&self) -> bool
        ensures { IsTrue result ↔ AllSound self.now.procs }
    {
        for p in 0..self.procs.len() {
            if !self.procs.at(p).is_sound() {
                return false;
            }
        }
        true
    }
}
