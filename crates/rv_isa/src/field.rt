ghost use Rattle.std.specs.Prelude.{◌≡◌, ◌<◌, ◌^◌};

use std::marker::Model;

/// The number of a register, below 32.
#[derive(Clone, Copy, PartialEq, Eq, Debug)]
pub struct Reg {
    number: u8,
}

impl Model for Reg {
    ghost use Rattle.std.specs.Prelude.{ℕ, ◌<◌, ◌^◌};

    ghost Value = { ℕ };

    ghost view = { λ f. f.number };

    ghost invariant = { λ f. f.number < 32 };

    ghost inverse = { λ n. record { number = n } };
}

impl Reg {
    /// The register of this number.
    pub fn new(number: u8) -> Reg
        requires { number < 32 }
        ensures { result ≡ number }
    {
        Reg { number }
    }

    /// Its number.
    pub fn number(self) -> u8
        ensures value { result ≡ self }
        ensures below { result < 32 }
    {
        self.number
    }
}

/// An immediate of 12 bits, as the bits themselves. The instruction's meaning extends it by its sign.
#[derive(Clone, Copy, PartialEq, Eq, Debug)]
pub struct Imm {
    number: u16,
}

impl Model for Imm {
    ghost use Rattle.std.specs.Prelude.{ℕ, ◌<◌, ◌^◌};

    ghost Value = { ℕ };

    ghost view = { λ f. f.number };

    ghost invariant = { λ f. f.number < 2 ^ 12 };

    ghost inverse = { λ n. record { number = n } };
}

impl Imm {
    /// The immediate of this number.
    pub fn new(number: u16) -> Imm
        requires { number < 2 ^ 12 }
        ensures { result ≡ number }
    {
        Imm { number }
    }

    /// Its number.
    pub fn number(self) -> u16
        ensures value { result ≡ self }
        ensures below { result < 2 ^ 12 }
    {
        self.number
    }
}

/// The upper immediate of LUI and AUIPC: the 20 bits that stand above twelve zeros.
#[derive(Clone, Copy, PartialEq, Eq, Debug)]
pub struct Upper {
    number: u32,
}

impl Model for Upper {
    ghost use Rattle.std.specs.Prelude.{ℕ, ◌<◌, ◌^◌};

    ghost Value = { ℕ };

    ghost view = { λ f. f.number };

    ghost invariant = { λ f. f.number < 2 ^ 20 };

    ghost inverse = { λ n. record { number = n } };
}

impl Upper {
    /// The upper immediate of this number.
    pub fn new(number: u32) -> Upper
        requires { number < 2 ^ 20 }
        ensures { result ≡ number }
    {
        Upper { number }
    }

    /// Its number.
    pub fn number(self) -> u32
        ensures value { result ≡ self }
        ensures below { result < 2 ^ 20 }
    {
        self.number
    }
}

/// The amount of a shift, below 64.
#[derive(Clone, Copy, PartialEq, Eq, Debug)]
pub struct Shift {
    number: u8,
}

impl Model for Shift {
    ghost use Rattle.std.specs.Prelude.{ℕ, ◌<◌, ◌^◌};

    ghost Value = { ℕ };

    ghost view = { λ f. f.number };

    ghost invariant = { λ f. f.number < 64 };

    ghost inverse = { λ n. record { number = n } };
}

impl Shift {
    /// The amount of this number.
    pub fn new(number: u8) -> Shift
        requires { number < 64 }
        ensures { result ≡ number }
    {
        Shift { number }
    }

    /// Its number.
    pub fn number(self) -> u8
        ensures value { result ≡ self }
        ensures below { result < 64 }
    {
        self.number
    }
}

/// The amount of a shift of 32 bits, below 32.
#[derive(Clone, Copy, PartialEq, Eq, Debug)]
pub struct WordShift {
    number: u8,
}

impl Model for WordShift {
    ghost use Rattle.std.specs.Prelude.{ℕ, ◌<◌, ◌^◌};

    ghost Value = { ℕ };

    ghost view = { λ f. f.number };

    ghost invariant = { λ f. f.number < 32 };

    ghost inverse = { λ n. record { number = n } };
}

impl WordShift {
    /// The amount of this number.
    pub fn new(number: u8) -> WordShift
        requires { number < 32 }
        ensures { result ≡ number }
    {
        WordShift { number }
    }

    /// Its number.
    pub fn number(self) -> u8
        ensures value { result ≡ self }
        ensures below { result < 32 }
    {
        self.number
    }
}

/// The offset of a branch in units of two bytes: 12 bits, which the instruction's meaning extends by their sign.
#[derive(Clone, Copy, PartialEq, Eq, Debug)]
pub struct Branch {
    number: u16,
}

impl Model for Branch {
    ghost use Rattle.std.specs.Prelude.{ℕ, ◌<◌, ◌^◌};

    ghost Value = { ℕ };

    ghost view = { λ f. f.number };

    ghost invariant = { λ f. f.number < 2 ^ 12 };

    ghost inverse = { λ n. record { number = n } };
}

impl Branch {
    /// The offset of this number.
    pub fn new(number: u16) -> Branch
        requires { number < 2 ^ 12 }
        ensures { result ≡ number }
    {
        Branch { number }
    }

    /// Its number.
    pub fn number(self) -> u16
        ensures value { result ≡ self }
        ensures below { result < 2 ^ 12 }
    {
        self.number
    }
}

/// The offset of a JAL in units of two bytes: 20 bits, which the instruction's meaning extends by their sign.
#[derive(Clone, Copy, PartialEq, Eq, Debug)]
pub struct Jump {
    number: u32,
}

impl Model for Jump {
    ghost use Rattle.std.specs.Prelude.{ℕ, ◌<◌, ◌^◌};

    ghost Value = { ℕ };

    ghost view = { λ f. f.number };

    ghost invariant = { λ f. f.number < 2 ^ 20 };

    ghost inverse = { λ n. record { number = n } };
}

impl Jump {
    /// The offset of this number.
    pub fn new(number: u32) -> Jump
        requires { number < 2 ^ 20 }
        ensures { result ≡ number }
    {
        Jump { number }
    }

    /// Its number.
    pub fn number(self) -> u32
        ensures value { result ≡ self }
        ensures below { result < 2 ^ 20 }
    {
        self.number
    }
}
