use fb_base::NoMemory;

/// What a name stands for (FreeBASIC Manual, Scope and Shared). Variables, procedures, Types and constants are numbered
/// apart from each other, by whoever declares them.
#[derive(Clone, Copy, Debug, PartialEq, Eq)]
pub enum Sym {
    /// The variable of this number.
    Var(u32),
    /// The procedure of this number, or the first of those that share the name.
    Proc(u32),
    /// The Type of this number.
    Obj(u32),
    /// The constant of this number.
    Constant(u32),
}

/// Why a name wasn't added.
#[derive(Clone, Copy, Debug, PartialEq, Eq)]
pub enum AddErr {
    /// Want of memory.
    NoMemory,
    /// The innermost scope has the name.
    Twice,
}

impl From<NoMemory> for AddErr {
    ghost use Rattle.std.specs.Prelude.{◌≡◌};
    ghost use Rattle.name_scope.specs.declared.sym.AddErr.TheVariants.{NoMemory as WantOfMemory};

    ghost from_gives = { λ _ e. e ≡ WantOfMemory };

    fn from(_: NoMemory) -> AddErr {
        AddErr::NoMemory
    }
}
