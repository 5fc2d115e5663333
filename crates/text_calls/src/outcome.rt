use fb_base::{NoMemory, Text, TrapKind};

/// What a string call comes to.
#[derive(Debug, Drop)]
pub enum Outcome {
    /// A trap, which changes nothing.
    Trapped(TrapKind),
    /// A result, and nothing changes.
    Gives(u64),
    /// A cell that isn't alive becomes alive, with these bytes.
    Makes { cell: u64, bytes: Text },
    /// An alive cell has these bytes.
    Sets { cell: u64, bytes: Text },
    /// A byte of an alive cell's string, counted from 0, is this one.
    Puts { cell: u64, index: u64, byte: u8 },
    /// A cell is no longer alive.
    Drops { cell: u64 },
}

/// Why a string call gave no result. Nothing has changed then.
#[derive(Clone, Copy, Debug, PartialEq, Eq)]
pub enum TextErr {
    /// An allocation was refused.
    NoMemory,
    /// The call is a trap: BadString, StrIndex, StrLimit or BadCode.
    Trap(TrapKind),
}

impl From<NoMemory> for TextErr {
    ghost use Rattle.std.specs.Prelude.{◌≡◌};
    ghost use Rattle.text_calls.specs.declared.outcome.TextErr.TheVariants.{NoMemory as WantOfMemory};

    ghost from_gives = { λ _ e. e ≡ WantOfMemory };

    fn from(_: NoMemory) -> TextErr {
        TextErr::NoMemory
    }
}
