use fb_base::{Desc, NoMemory};
use std::alloc::{AllocError, AllocFailed};

/// What a place is for: the variables of a scope, one object of New, or the elements of `New T[n]`.
#[derive(Clone, Copy, Debug, PartialEq, Eq)]
pub enum Form {
    Scope,
    One,
    Many,
}

/// A string cell: whether a string is kept there, and where its bytes lie.
#[derive(Clone, Copy, Debug, PartialEq, Eq)]
pub struct Cell {
    pub alive: bool,
    pub desc: Desc,
}

/// Why no place was made.
#[derive(Clone, Copy, Debug, PartialEq, Eq)]
pub enum MakeErr {
    /// An allocation was refused.
    NoMemory,
    /// The live places would have more than 67,108,864 bytes together.
    PlaceLimit,
}

impl From<NoMemory> for MakeErr {
    ghost use Rattle.std.specs.Prelude.{◌≡◌};
    ghost use Rattle.places.specs.declared.kinds.MakeErr.TheVariants.{NoMemory as WantOfMemory};

    ghost from_gives = { λ _ e. e ≡ WantOfMemory };

    fn from(_: NoMemory) -> MakeErr {
        MakeErr::NoMemory
    }
}

impl From<AllocError> for MakeErr {
    ghost use Rattle.std.specs.Prelude.{◌≡◌};
    ghost use Rattle.places.specs.declared.kinds.MakeErr.TheVariants.{NoMemory as WantOfMemory};

    ghost from_gives = { λ _ e. e ≡ WantOfMemory };

    fn from(_: AllocError) -> MakeErr {
        MakeErr::NoMemory
    }
}

impl<T: Drop> From<AllocFailed<T>> for MakeErr {
    ghost use Rattle.std.specs.Prelude.{◌≡◌};
    ghost use Rattle.places.specs.declared.kinds.MakeErr.TheVariants.{NoMemory as WantOfMemory};

    ghost from_gives = { λ _ e. e ≡ WantOfMemory };

    fn from(_: AllocFailed<T>) -> MakeErr {
        MakeErr::NoMemory
    }
}

/// An address at which nothing stands that the call could work on.
#[derive(Clone, Copy, Debug, PartialEq, Eq)]
pub struct BadPointer;

/// A Delete of what no New gave, or of what is gone.
#[derive(Clone, Copy, Debug, PartialEq, Eq)]
pub struct BadFree;
