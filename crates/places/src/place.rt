ghost use Rattle.std.specs.Prelude.{◌≡◌, ℕ, ◌+◌, ◌-◌, ◌*◌, ◌^◌, ◌<◌, ◌≤◌, true, Option, Some, None, is_some, length, IfOk, IfSome};
ghost use Rattle.std.specs.Bool.{OnTrue, OnFalse};
ghost use Rattle.thread_system.specs.Memory.{read};
ghost use Rattle.fb_base.specs.Shapes.{IsShape};
ghost use Rattle.places.specs.Place as spec;
ghost use Rattle.places.specs.Memory.{each_byte};
ghost use Rattle.places.specs.Calls.{most_live, new_head, may_die, is_scope, begins_alive};
ghost use Rattle.places.specs.Standing.{IsPlace};
ghost use Rattle.places.specs.Answers.{IsWidth, Writes, SetsCell, Closes};

use crate::flags::Flags;
use crate::offsets::Offsets;
use crate::{BadPointer, Cell, Form, NoMemory};
use fb_base::{Desc, Shape};
use std::alloc::Global;
use std::marker::Model;

/// One place of a memory: its bytes, which of them are closed, and its cells.
#[derive(Debug, Drop)]
pub(crate) struct Place {
    size: u64,
    align: u64,
    offsets: Offsets,
    count: u64,
    form: Form,
    dying: bool,
    bytes: Vec<u8>,
    closed: Flags,
    cells: Vec<Cell>,
}

impl Model for Place {
    ghost use Rattle.places.specs.Place as spec;
    ghost use Rattle.places.specs.Standing.{IsPlace};

    ghost Value = { spec.Place };

    ghost view = { λ p. record { head = record { shape = record { size = p.size; align = p.align; cells = p.offsets }; count = p.count; form = p.form; dying = p.dying }; bytes = p.bytes.items; closed = p.closed; cells = p.cells.items } };

    ghost invariant = { λ p. IsPlace (record { head = record { shape = record { size = p.size; align = p.align; cells = p.offsets }; count = p.count; form = p.form; dying = p.dying }; bytes = p.bytes.items; closed = p.closed; cells = p.cells.items }) };
}

const DEAD: Cell = Cell {
    alive: false,
    desc: Desc {
        place: 0,
        length: 0,
        size: 0,
    },
};

impl Place {
    /// A place of so many elements. The error is want of memory.
    pub(crate) fn new(
        alloc: Global,
        shape: &Shape,
        count: u64,
        form: Form,
    ) -> Result<Place, NoMemory>
        requires shape { IsShape 0 shape.now }
        requires count { 1 ≤ count }
        requires size { shape.now.size * count ≤ 67108864 }
        ensures { IfOk result (λ p. p ≡ spec.fresh (new_head shape.now count form)) }
    {
        let size = (shape.size * count) as usize;
        let mut bytes = Vec::new(alloc);
        bytes.resize(size, 0)?;
        let offsets = Offsets::new(alloc, shape.cells.as_slice(), shape.size)?;
        let mut cells = Vec::new(alloc);
        cells.resize(count as usize * offsets.len(), DEAD)?;
        Ok(Place {
            size: shape.size,
            align: shape.align,
            offsets,
            count,
            form,
            dying: false,
            bytes,
            closed: Flags::new(alloc, size)?,
            cells,
        })
    }

    /// How many bytes it has.
    pub(crate) fn size(&self) -> u64
        ensures value { result ≡ spec.size_of self.now.head }
        ensures place { IsPlace self.now }
    {
        self.bytes.len() as u64
    }

    /// Whether it is that of a scope.
    pub(crate) fn is_scope(&self) -> bool
        ensures { result ≡ is_scope self.now.head }
    {
        matches!(self.form, Form::Scope)
    }

    /// Whether it is dying.
    pub(crate) fn is_dying(&self) -> bool
        ensures { result ≡ self.now.head.dying }
    {
        self.dying
    }

    /// How many elements it has.
    pub(crate) fn count(&self) -> u64
        ensures { result ≡ self.now.head.count }
    {
        self.count
    }

    /// Whether it may begin to die as a place of this form and shape.
    pub(crate) fn may_die(&self, shape: &Shape, form: Form) -> bool
        ensures { result ≡ may_die shape.now form self.now.head }
    {
        !self.dying
            && self.form == form
            && self.size == shape.size
            && self.align == shape.align
            && self.offsets.is_same(shape.cells.as_slice())
    }

    /// It is dying from now on.
    pub(crate) fn die(&mut self)
        ensures { self.new ≡ record self.old { head = record self.old.head { dying = true } } }
    {
        self.dying = true;
    }

    // Which of its cells has a byte.
    #[inline]
    fn cell_number(&self, o: u64) -> Option<usize>
        requires { o < spec.size_of self.now.head }
        ensures number { result ≡ spec.cell_number self.now.head o }
        ensures within { IfSome result (λ k. k < length self.now.cells) }
        ensures place { IsPlace self.now }
    {
        if self.offsets.is_empty() {
            return None;
        }
        let k = self.offsets.over(o % self.size)?;
        Some((o / self.size) as usize * self.offsets.len() + k)
    }

    #[inline]
    fn is_live(&self, o: u64) -> bool
        requires { o < spec.size_of self.now.head }
        ensures live { result ≡ spec.is_live_in self.now o }
        ensures place { IsPlace self.now }
    {
        !self.closed.get(o as usize)
    }

    #[inline]
    fn may_access(&self, o: u64) -> bool
        requires { o < spec.size_of self.now.head }
        ensures { result ≡ is_some (spec.byte_in self.now o) }
    {
        match self.cell_number(o) {
            Some(_) => false,
            None => self.is_live(o),
        }
    }

    fn may_close(&self, o: u64) -> bool
        requires { o < spec.size_of self.now.head }
        ensures { result ≡ spec.may_close_in self.now o }
    {
        match self.cell_number(o) {
            Some(k) => !self.cells[k].alive,
            None => true,
        }
    }

    // Whether so many bytes, from an offset on, are all its own.
    #[inline]
    fn has(&self, o: u64, len: u64) -> bool
        ensures within { OnTrue result (o + len ≤ spec.size_of self.now.head) }
        ensures beyond { OnFalse result (spec.size_of self.now.head < o + len) }
        ensures limit { spec.size_of self.now.head ≤ most_live }
        ensures place { IsPlace self.now }
    {
        let size = self.bytes.len() as u64;
        o <= size && len <= size - o
    }

    /// Whether each of so many bytes, from an offset on, is live.
    pub(crate) fn are_live(&self, o: u64, len: u64) -> bool
        requires { o < 2 ^ 32 }
        ensures { result ≡ each_byte (spec.is_live_in self.now) o len }
    {
        if len == 0 {
            return true;
        }
        if !self.has(o, len) {
            return false;
        }
        for at in o..o + len {
            if !self.is_live(at) {
                return false;
            }
        }
        true
    }

    /// Whether each of so many bytes, from an offset on, may be closed.
    pub(crate) fn may_close_all(&self, o: u64, len: u64) -> bool
        requires { o < 2 ^ 32 }
        ensures all { result ≡ each_byte (spec.may_close_in self.now) o len }
        ensures within { OnTrue result (0 < len → o + len ≤ spec.size_of self.now.head) }
        ensures limit { spec.size_of self.now.head ≤ most_live }
    {
        let fits = self.has(o, len);
        if len == 0 {
            return true;
        }
        if !fits {
            return false;
        }
        for at in o..o + len {
            if !self.may_close(at) {
                return false;
            }
        }
        true
    }

    // Closes so many bytes, from an offset on.
    fn close_all(&mut self, o: u64, len: u64)
        requires within { o + len ≤ spec.size_of self.old.head }
        requires limit { o + len ≤ most_live }
        ensures { self.new ≡ spec.closes_in o len self.old }
    {
        self.closed.set_all(o as usize, len as usize);
    }

    /// Closes at least one byte, from an offset on, if they all may be closed.
    pub(crate) fn close(&mut self, o: u64, len: u64) -> Result<(), BadPointer>
        requires at { o < 2 ^ 32 }
        requires some { 0 < len }
        ensures { Closes o len self.old self.new result }
    {
        if !self.may_close_all(o, len) {
            return Err(BadPointer);
        }
        self.close_all(o, len);
        Ok(())
    }

    // Whether each of 1, 2, 4 or 8 bytes, from an offset on, may be accessed.
    #[inline]
    fn is_open(&self, o: u64, width: u8) -> bool
        requires at { o < 2 ^ 32 }
        requires width { IsWidth width }
        ensures all { result ≡ is_some (read (spec.byte_in self.now) o width) }
        ensures within { OnTrue result (o + width ≤ spec.size_of self.now.head) }
        ensures limit { OnTrue result (o + width ≤ most_live) }
        ensures place { IsPlace self.now }
    {
        if !self.has(o, width as u64) {
            return false;
        }
        for at in o..o + width as u64 {
            if !self.may_access(at) {
                return false;
            }
        }
        true
    }

    #[inline]
    fn one(&self, o: usize) -> u64
        requires { o < spec.size_of self.now.head }
        ensures value { result ≡ spec.number_in self.now.bytes o 1 }
        ensures below { result < 2 ^ 8 }
    {
        self.bytes[o] as u64
    }

    #[inline]
    fn two(&self, o: usize) -> u64
        requires within { o + 2 ≤ spec.size_of self.now.head }
        requires limit { o + 2 ≤ most_live }
        ensures value { result ≡ spec.number_in self.now.bytes o 2 }
        ensures below { result < 2 ^ 16 }
    {
        self.one(o) + 0x100 * self.one(o + 1)
    }

    #[inline]
    fn four(&self, o: usize) -> u64
        requires within { o + 4 ≤ spec.size_of self.now.head }
        requires limit { o + 4 ≤ most_live }
        ensures value { result ≡ spec.number_in self.now.bytes o 4 }
        ensures below { result < 2 ^ 32 }
    {
        self.two(o) + 0x1_0000 * self.two(o + 2)
    }

    #[inline]
    fn eight(&self, o: usize) -> u64
        requires within { o + 8 ≤ spec.size_of self.now.head }
        requires limit { o + 8 ≤ most_live }
        ensures { result ≡ spec.number_in self.now.bytes o 8 }
    {
        self.four(o) + 0x1_0000_0000 * self.four(o + 4)
    }

    /// The number that 1, 2, 4 or 8 bytes spell from an offset on, if they all may be accessed.
    #[inline]
    pub(crate) fn read(&self, o: u64, width: u8) -> Option<u64>
        requires at { o < 2 ^ 32 }
        requires width { IsWidth width }
        ensures { result ≡ read (spec.byte_in self.now) o width }
    {
        if !self.is_open(o, width) {
            return None;
        }
        let at = o as usize;
        let value = match width {
            1 => self.one(at),
            2 => self.two(at),
            4 => self.four(at),
            _ => self.eight(at),
        };
        Some(value)
    }

    #[inline]
    fn put_one(&mut self, o: usize, v: u64)
        requires within { o + 1 ≤ spec.size_of self.old.head }
        requires limit { o + 1 ≤ most_live }
        ensures { self.new ≡ spec.puts_in o 1 v self.old }
    {
        self.bytes[o] = (v % 0x100) as u8;
    }

    #[inline]
    fn put_two(&mut self, o: usize, v: u64)
        requires within { o + 2 ≤ spec.size_of self.old.head }
        requires limit { o + 2 ≤ most_live }
        ensures { self.new ≡ spec.puts_in o 2 v self.old }
    {
        self.put_one(o + 1, v / 0x100);
        self.put_one(o, v);
    }

    #[inline]
    fn put_four(&mut self, o: usize, v: u64)
        requires within { o + 4 ≤ spec.size_of self.old.head }
        requires limit { o + 4 ≤ most_live }
        ensures { self.new ≡ spec.puts_in o 4 v self.old }
    {
        self.put_two(o + 2, v / 0x1_0000);
        self.put_two(o, v);
    }

    #[inline]
    fn put_eight(&mut self, o: usize, v: u64)
        requires within { o + 8 ≤ spec.size_of self.old.head }
        requires limit { o + 8 ≤ most_live }
        ensures { self.new ≡ spec.puts_in o 8 v self.old }
    {
        self.put_four(o + 4, v / 0x1_0000_0000);
        self.put_four(o, v);
    }

    /// Writes the low bytes of a value to 1, 2, 4 or 8 bytes from an offset on, if they all may be accessed.
    #[inline]
    pub(crate) fn write(&mut self, o: u64, width: u8, v: u64) -> Option<()>
        requires at { o < 2 ^ 32 }
        requires width { IsWidth width }
        ensures { Writes o width v self.old self.new result }
    {
        if !self.is_open(o, width) {
            return None;
        }
        let at = o as usize;
        match width {
            1 => self.put_one(at, v),
            2 => self.put_two(at, v),
            4 => self.put_four(at, v),
            _ => self.put_eight(at, v),
        }
        Some(())
    }

    /// The cell that begins at an offset.
    pub(crate) fn cell(&self, o: u64) -> Option<Cell>
        ensures { result ≡ spec.cell_in self.now o }
    {
        Some(self.cells[self.beginning(o)?])
    }

    // The number of the cell that begins at an offset.
    fn beginning(&self, o: u64) -> Option<usize>
        ensures number { IfSome result (λ k. spec.cell_number self.now.head o ≡ Some k) }
        ensures within { IfSome result (λ k. k < length self.now.cells) }
        ensures begins { is_some result ≡ is_some (spec.cell_in self.now o) }
    {
        if !self.has(o, 1) {
            return None;
        }
        if !self.offsets.has(o % self.size) {
            return None;
        }
        self.cell_number(o)
    }

    /// Sets the cell that begins at an offset.
    pub(crate) fn set_cell(&mut self, o: u64, cell: Cell) -> Option<()>
        ensures { SetsCell o cell self.old self.new result }
    {
        let k = self.beginning(o)?;
        self.cells[k] = cell;
        Some(())
    }

    /// The offset of the first alive cell, from an offset on.
    pub(crate) fn first_alive(&self, from: u64) -> Option<u64>
        ensures found { result ≡ spec.first_from (begins_alive self.now) from (spec.size_of self.now.head - from) }
        ensures low { IfSome result (λ o. o < 2 ^ 31) }
    {
        for at in from..self.bytes.len() as u64 {
            if self.begins_alive(at) {
                return Some(at);
            }
        }
        None
    }

    // Whether an alive cell begins at an offset.
    fn begins_alive(&self, o: u64) -> bool
        ensures { result ≡ begins_alive self.now o }
    {
        match self.beginning(o) {
            Some(k) => self.cells[k].alive,
            None => false,
        }
    }
}
