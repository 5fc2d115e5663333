use fb_base::{Fault, FaultKind, NoMemory};
use std::alloc::AllocError;

/// Why tokens have no tree.
#[derive(Clone, Copy, Debug, PartialEq, Eq)]
pub enum ParseErr {
    /// Want of memory.
    NoMemory,
    /// The first fault.
    Fault(Fault),
}

/// Why a production is not read on: the fault stands at the token that comes next.
#[derive(Clone, Copy, Debug, PartialEq, Eq)]
pub enum ReadErr {
    /// Want of memory.
    NoMemory,
    /// What is wrong with the next token.
    Fault(FaultKind),
}

impl From<AllocError> for ReadErr {
    ghost use Rattle.std.specs.Prelude.{◌≡◌};
    ghost use Rattle.parse_expr.specs.declared.error.ReadErr.TheVariants.{NoMemory as WantOfMemory};

    ghost from_gives = { λ _ e. e ≡ WantOfMemory };

    fn from(_: AllocError) -> ReadErr {
        ReadErr::NoMemory
    }
}

impl From<NoMemory> for ReadErr {
    ghost use Rattle.std.specs.Prelude.{◌≡◌};
    ghost use Rattle.parse_expr.specs.declared.error.ReadErr.TheVariants.{NoMemory as WantOfMemory};

    ghost from_gives = { λ _ e. e ≡ WantOfMemory };

    fn from(_: NoMemory) -> ReadErr {
        ReadErr::NoMemory
    }
}
