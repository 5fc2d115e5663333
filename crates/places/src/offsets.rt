ghost use Rattle.std.specs.Prelude.{◌≡◌, ◌*◌, ◌<◌, ◌≤◌, ◌==◌, [], length, IfOk, IfSome};
ghost use Rattle.std.specs.Bool.{OnTrue};
ghost use Rattle.std.specs.List.{list_any};
ghost use Rattle.fb_base.specs.Shapes.{AreCells};
ghost use Rattle.places.specs.Place.{cell_over};
ghost use Rattle.places.specs.Calls.{same_numbers};

use crate::table::Table;
use fb_base::NoMemory;
use std::alloc::Global;
use std::marker::Model;

/// Where the cells of a shape begin, with a table by which the cell of a byte is found by one look-up.
#[derive(Debug, Drop)]
pub(crate) struct Offsets {
    offsets: Vec<u64>,
    table: Table,
}

impl Model for Offsets {
    ghost use Rattle.std.specs.Prelude.{List, ℕ};
    ghost use Rattle.places.specs.Table.{IsTable};

    ghost Value = { List ℕ };

    ghost view = { λ o. o.offsets.items };

    ghost invariant = { λ o. IsTable o.offsets.items o.table };
}

impl Offsets {
    /// The same offsets, of the cells of a shape with so many bytes.
    pub(crate) fn new(alloc: Global, offsets: &[u64], size: u64) -> Result<Offsets, NoMemory>
        requires cells { AreCells size offsets.now }
        requires limit { size ≤ 16777216 }
        ensures ok { IfOk result (λ o. o ≡ offsets.now) }
        ensures few { length offsets.now * 24 ≤ size }
    {
        let table = Table::new(alloc, offsets, size)?;
        Ok(Offsets {
            offsets: Vec::from_slice(alloc, offsets)?,
            table,
        })
    }

    /// How many cells there are.
    pub(crate) fn len(&self) -> usize
        ensures { result ≡ length self.now }
    {
        self.offsets.len()
    }

    /// Whether there are none.
    #[inline]
    pub(crate) fn is_empty(&self) -> bool
        ensures { OnTrue result (self.now ≡ []) }
    {
        self.offsets.is_empty()
    }

    /// Whether these are the same offsets.
    pub(crate) fn is_same(&self, offsets: &[u64]) -> bool
        ensures { result ≡ same_numbers self.now offsets.now }
    {
        self.offsets.as_slice() == offsets
    }

    /// Which cell has a byte.
    #[inline]
    pub(crate) fn over(&self, o: u64) -> Option<usize>
        ensures number { result ≡ cell_over self.now o }
        ensures within { IfSome result (λ k. k < length self.now) }
    {
        self.table.over(o)
    }

    /// Whether a cell begins at an offset.
    pub(crate) fn has(&self, o: u64) -> bool
        ensures { result ≡ list_any (λ c. c == o) self.now }
    {
        match self.over(o) {
            Some(k) => self.offsets[k] == o,
            None => false,
        }
    }
}
