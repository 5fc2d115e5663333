ghost use Rattle.std.specs.Prelude.{◌≡◌, ◌<◌, ◌==◌, [], ◌∷◌, ◌++◌, length, remove, slice_index, OnOk, OnErr, IfErr};
ghost use Rattle.std.specs.List.Sorted.{IsStrictlyIncreasing};

use crate::sequence::Sequence;
use std::alloc::{AllocFailed, Global};
use std::marker::Model;

/// Offsets of string cells within a place, each above the one before.
#[derive(Debug, Drop)]
pub struct Cells {
    offsets: Vec<u64>,
}

impl Model for Cells {
    ghost use Rattle.std.specs.Prelude.{List, ℕ};
    ghost use Rattle.std.specs.List.Sorted.{IsStrictlyIncreasing};

    ghost Value = { List ℕ };

    ghost view = { λ cells. cells.offsets.items };

    ghost invariant = { λ cells. IsStrictlyIncreasing cells.offsets.items };
}

impl Cells {
    /// No cells.
    pub fn new(alloc: Global) -> Cells
        ensures { result ≡ [] }
    {
        Cells {
            offsets: Vec::new(alloc),
        }
    }

    /// Puts an offset last, which is above those that are there. The error is want of memory, and hands it back.
    pub fn add(&mut self, offset: u64) -> Result<(), AllocFailed<u64>>
        requires { IsStrictlyIncreasing (self.old ++ offset ∷ []) }
        ensures ok { OnOk result (self.new ≡ self.old ++ offset ∷ []) }
        ensures err { OnErr result (self.new ≡ self.old) }
        ensures back { IfErr result (λ refused. refused.value ≡ offset) }
    {
        self.offsets.push(offset)
    }

    /// How many cells there are.
    pub fn len(&self) -> usize
        ensures { result ≡ length self.now }
    {
        self.offsets.len()
    }

    /// Whether there are none.
    pub fn is_empty(&self) -> bool
        ensures { result ≡ (length self.now == 0) }
    {
        self.offsets.is_empty()
    }

    /// The offset of a cell.
    pub fn at(&self, i: usize) -> &u64
        requires { i < length self.now }
        ensures { result.now ≡ slice_index self.now i }
    {
        &self.offsets[i]
    }

    /// Takes an offset out.
    pub fn remove(&mut self, i: usize) -> u64
        requires { i < length self.old }
        ensures item { result ≡ slice_index self.old i }
        ensures items { self.new ≡ remove self.old i }
    {
        self.offsets.remove(i)
    }

    /// The offsets, rising.
    pub fn as_slice(&self) -> &[u64]
        ensures items { result.now ≡ self.now }
        ensures rising { IsStrictlyIncreasing self.now }
    {
        self.offsets.as_slice()
    }
}

/// The shape of a place: its size and alignment in bytes, and where its string cells begin.
#[derive(Debug, Drop)]
pub struct Shape {
    pub size: u64,
    pub align: u64,
    pub cells: Cells,
}

/// Where a string's bytes lie.
#[derive(Clone, Copy, Debug, PartialEq, Eq)]
pub struct Desc {
    pub place: u64,
    pub length: u64,
    pub size: u64,
}

/// From this code word on, instructions belong to this line of the text.
#[derive(Clone, Copy, Debug, PartialEq, Eq)]
pub struct LineAt {
    pub index: u32,
    pub line: u32,
}

/// The lines of a program's code words.
pub type Lines = Sequence<LineAt>;
