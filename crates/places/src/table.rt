ghost use Rattle.std.specs.Prelude.{◌≡◌, ◌+◌, ◌/◌, ◌≤◌, length, replicate, IfOk};
ghost use Rattle.fb_base.specs.Shapes.{AreCells};
ghost use Rattle.places.specs.Table.{number_before, cell_by, with_words, with_cells, IsTable};

use fb_base::NoMemory;
use std::alloc::Global;
use std::marker::Model;

/// Which cell of an element has a byte, told by one look-up: for each eight bytes of the element one more than the
/// number of the cell that has them, or 0. A cell has 24 bytes, from a multiple of 8 on.
#[derive(Debug, Drop)]
pub(crate) struct Table {
    words: Vec<u32>,
}

impl Model for Table {
    ghost use Rattle.std.specs.Prelude.{List, ℕ};

    ghost Value = { List ℕ };

    ghost view = { λ t. t.words.items };
}

impl Table {
    /// The table of the cells that begin at these offsets of an element with so many bytes. It takes no memory where
    /// there are none.
    pub(crate) fn new(alloc: Global, offsets: &[u64], size: u64) -> Result<Table, NoMemory>
        requires cells { AreCells size offsets.now }
        requires limit { size ≤ 16777216 }
        ensures { IfOk result (λ t. IsTable offsets.now t) }
    {
        if offsets.is_empty() {
            return Ok(Table {
                words: Vec::new(alloc),
            });
        }
        Table::filled(alloc, offsets, size)
    }

    // The table of at least one cell.
    fn filled(alloc: Global, offsets: &[u64], size: u64) -> Result<Table, NoMemory>
        requires cells { AreCells size offsets.now }
        requires limit { size ≤ 16777216 }
        ensures { IfOk result (λ t. t ≡ with_cells 0 offsets.now (replicate (size / 8) 0)) }
    {
        let mut words = Vec::new(alloc);
        words.resize((size / 8) as usize, 0)?;
        let mut table = Table { words };
        for k in 0..offsets.len() {
            table.put((offsets[k] / 8) as usize, k as u32 + 1);
        }
        Ok(table)
    }

    // Gives the 24 bytes of a cell its number.
    fn put(&mut self, word: usize, number: u32)
        requires { word + 3 ≤ length self.old }
        ensures { self.new ≡ with_words word number self.old }
    {
        self.words[word] = number;
        self.words[word + 1] = number;
        self.words[word + 2] = number;
    }

    /// Which cell has a byte.
    #[inline]
    pub(crate) fn over(&self, o: u64) -> Option<usize>
        ensures { result ≡ cell_by self.now o }
    {
        match self.words.get((o / 8) as usize) {
            Some(number) => before(*number),
            None => None,
        }
    }
}

// The number before another one; none is before 0.
#[inline]
fn before(number: u32) -> Option<usize>
    ensures { result ≡ number_before number }
{
    if number == 0 {
        None
    } else {
        Some(number as usize - 1)
    }
}
