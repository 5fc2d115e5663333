ghost use Rattle.std.specs.Prelude.{◌≡◌, ℕ, true, ◌+◌, ◌*◌, ◌/◌, ◌%◌, ◌^◌, ◌<◌, ◌≤◌, Option, Some, None, is_some, IfSome};
ghost use Rattle.thread_system.specs.Memory.{read};
ghost use Rattle.fb_base.specs.Shapes.{IsShape};
ghost use Rattle.std.specs.Option.{option_copied};
ghost use Rattle.places.specs.Memory.{no_places, next_number, number_of, place_at, starts_at, with_place, byte_at, cell_at, is_live, each_byte};
ghost use Rattle.places.specs.Calls.{made, scope_freed, begun, freed, closed, written, with_cell, alive_from};
ghost use Rattle.places.specs.Standing.{IsPlace, Stands};
ghost use Rattle.places.specs.Answers.{IsWidth, Does, Gives, Sets, Makes};

use crate::place::Place;
use crate::{BadFree, BadPointer, Cell, Form, MakeErr, NoMemory};
use fb_base::Shape;
use std::alloc::Global;
use std::marker::Model;

// The most bytes that live places have together.
const MOST_LIVE: u64 = 67_108_864;

/// The memory of a run: places with plain bytes and string cells.
///
/// A place has a number; the first one has number 1, and no number is given twice. The address of a byte is its
/// place's number times 2^32 and its offset in the place. A place has one element or several, one after another, each
/// with the size of its shape and with the shape's cells. A byte is live if its place has it and it isn't closed. It
/// may be accessed if it is live and no cell's. An access of several bytes goes on at address 0 after 2^64 - 1.
#[derive(Debug, Drop)]
pub struct Memory {
    // by number, from 1 on
    places: Vec<Option<Box<Place>>>,
    // the bytes of all live places together
    live: u64,
}

impl Model for Memory {
    ghost use Rattle.std.specs.Prelude.{◌≡◌, map};
    ghost use Rattle.std.specs.Option.{option_map};
    ghost use Rattle.places.specs.Memory.{Places, live_size};
    ghost use Rattle.places.specs.Kept.{IsKept, places_of};

    ghost Value = { Places };

    ghost view = { λ m. places_of m.places.items };

    ghost invariant = { λ m. IsKept (places_of m.places.items) m.live };
}

impl Memory {
    /// A memory without places, which gives 1 as its first number.
    pub fn new(alloc: Global) -> Memory
        ensures { result ≡ no_places }
    {
        Memory {
            places: Vec::new(alloc),
            live: 0,
        }
    }

    /// What is so of every memory: each place has all its bytes and cells, and all places together keep the limit.
    pub fn facts(&self)
        ensures { Stands self.now }
    {
        let _ = &self.live;
    }

    /// The number that the next place gets.
    pub fn next(&self) -> u64
        ensures { result ≡ next_number self.now }
    {
        self.places.len() as u64 + 1
    }

    /// Makes a place of so many elements, with zeros as its bytes and no cell alive, and gives the address of its first
    /// byte. PlaceLimit comes exactly where the live places would have more than 67,108,864 bytes together. After an
    /// error all is as before.
    pub fn make(&mut self, shape: &Shape, count: u64, form: Form) -> Result<u64, MakeErr>
        requires shape { IsShape 0 shape.now }
        requires count { 1 ≤ count }
        requires numbers { next_number self.old < 2 ^ 30 }
        ensures { Makes (made shape.now count form self.old) self.old self.new result }
    {
        let room = MOST_LIVE - self.live;
        let size = match shape.size.checked_mul(count) {
            Some(size) if size <= room => size,
            _ => return Err(MakeErr::PlaceLimit),
        };
        let alloc = *self.places.allocator();
        self.places.reserve(1)?;
        let place = Box::new(alloc, Place::new(alloc, shape, count, form)?)?;
        match self.places.push(Some(place)) {
            Ok(()) => (),
            Err(_) => unreachable!(),
        }
        self.live += size;
        Ok((self.places.len() as u64) << 32)
    }

    // The place with a number, if there is one.
    #[inline]
    fn place(&self, number: u64) -> Option<&Place>
        ensures found { option_copied result ≡ place_at self.now number }
        ensures lawful { IfSome result (λ p. IsPlace p.now) }
    {
        if number == 0 || number > self.places.len() as u64 {
            return None;
        }
        match &self.places[number as usize - 1] {
            Some(place) => Some(place),
            None => None,
        }
    }

    // The place that begins at an address.
    fn starting(&self, addr: u64) -> Option<&Place>
        ensures found { option_copied result ≡ starts_at self.now addr }
        ensures aligned { IfSome result (λ _. addr % 2 ^ 32 ≡ 0) }
    {
        if addr % 0x1_0000_0000 == 0 {
            self.place(addr >> 32)
        } else {
            None
        }
    }

    // Frees the place that begins at an address.
    fn remove(&mut self, addr: u64)
        requires { is_some (starts_at self.old addr) ≡ true }
        ensures { self.new ≡ with_place (number_of addr) None self.old }
    {
        let at = (addr >> 32) as usize - 1;
        match self.places[at].take() {
            Some(place) => self.live -= place.size(),
            None => (),
        }
    }

    /// PlaceFree: frees the place of form Scope that begins at an address. It is refused exactly where no such place
    /// is live.
    pub fn free_scope(&mut self, addr: u64) -> Result<(), BadPointer>
        ensures { Does (scope_freed addr self.old) self.old self.new result }
    {
        if self.can_free_scope(addr) {
            self.remove(addr);
            Ok(())
        } else {
            Err(BadPointer)
        }
    }

    /// DeleteBegin: the place that begins at an address is dying from now on, and the count of its elements is given.
    /// It is refused exactly where no live place of that form and shape begins there that isn't dying yet.
    pub fn begin_free(&mut self, addr: u64, shape: &Shape, form: Form) -> Result<u64, BadFree>
        ensures { Gives (begun addr shape.now form self.old) self.old self.new result }
    {
        match self.starting(addr) {
            Some(place) if place.may_die(shape, form) => (),
            _ => return Err(BadFree),
        }
        match &mut self.places[(addr >> 32) as usize - 1] {
            Some(place) => {
                place.die();
                return Ok(place.count());
            }
            None => return Err(BadFree),
        }
    }

    /// DeleteEnd: frees the dying place that begins at an address. It is refused exactly where there is none.
    pub fn free(&mut self, addr: u64) -> Result<(), BadFree>
        ensures { Does (freed addr self.old) self.old self.new result }
    {
        if self.can_free(addr) {
            self.remove(addr);
            Ok(())
        } else {
            Err(BadFree)
        }
    }

    /// ObjDead: closes so many bytes, from an address on. It is refused exactly where one of them is in no live place
    /// or in an alive cell.
    pub fn close(&mut self, addr: u64, len: u64) -> Result<(), BadPointer>
        ensures { Does (closed addr len self.old) self.old self.new result }
    {
        if len == 0 {
            return Ok(());
        }
        let number = addr >> 32;
        if number == 0 || number > self.places.len() as u64 {
            return Err(BadPointer);
        }
        match &mut self.places[number as usize - 1] {
            Some(place) => return place.close(addr % 0x1_0000_0000, len),
            None => return Err(BadPointer),
        }
    }

    /// Whether `free_scope` would free a place.
    pub fn can_free_scope(&self, addr: u64) -> bool
        ensures { result ≡ is_some (scope_freed addr self.now) }
    {
        match self.starting(addr) {
            Some(place) => place.is_scope(),
            None => false,
        }
    }

    /// Whether `free` would free a place.
    pub fn can_free(&self, addr: u64) -> bool
        ensures { result ≡ is_some (freed addr self.now) }
    {
        match self.starting(addr) {
            Some(place) => place.is_dying(),
            None => false,
        }
    }

    /// Whether `close` would close these bytes.
    pub fn can_close(&self, addr: u64, len: u64) -> bool
        ensures { result ≡ is_some (closed addr len self.now) }
    {
        match self.place(addr >> 32) {
            Some(place) => place.may_close_all(addr % 0x1_0000_0000, len),
            None => len == 0,
        }
    }

    /// Whether each of so many bytes, from an address on, is live, bytes of cells among them.
    pub fn live(&self, addr: u64, len: u64) -> bool
        ensures { result ≡ each_byte (is_live self.now) addr len }
    {
        match self.place(addr >> 32) {
            Some(place) => place.are_live(addr % 0x1_0000_0000, len),
            None => len == 0,
        }
    }

    /// The number that 1, 2, 4 or 8 bytes spell from an address on, the lowest first. None comes exactly where one of
    /// them may not be accessed.
    pub fn read(&self, addr: u64, width: u8) -> Option<u64>
        requires { IsWidth width }
        ensures { result ≡ read (byte_at self.now) addr width }
    {
        match self.place(addr >> 32) {
            Some(place) => place.read(addr % 0x1_0000_0000, width),
            None => None,
        }
    }

    /// Writes the low bytes of a value to 1, 2, 4 or 8 bytes from an address on, the lowest first. None comes exactly
    /// where one of them may not be accessed, and all is as before then.
    pub fn write(&mut self, addr: u64, width: u8, v: u64) -> Option<()>
        requires { IsWidth width }
        ensures { Sets (written addr width v self.old) self.old self.new result }
    {
        let number = addr >> 32;
        if number == 0 || number > self.places.len() as u64 {
            return None;
        }
        match &mut self.places[number as usize - 1] {
            Some(place) => return place.write(addr % 0x1_0000_0000, width, v),
            None => return None,
        }
    }

    /// The cell that begins at an address. None comes exactly where no cell of a live place does.
    pub fn cell(&self, addr: u64) -> Option<Cell>
        ensures { result ≡ cell_at self.now addr }
    {
        match self.place(addr >> 32) {
            Some(place) => place.cell(addr % 0x1_0000_0000),
            None => None,
        }
    }

    /// Sets the cell that begins at an address. None comes exactly where no cell of a live place does.
    pub fn set_cell(&mut self, addr: u64, cell: Cell) -> Option<()>
        ensures { Sets (with_cell addr cell self.old) self.old self.new result }
    {
        let number = addr >> 32;
        if number == 0 || number > self.places.len() as u64 {
            return None;
        }
        match &mut self.places[number as usize - 1] {
            Some(place) => return place.set_cell(addr % 0x1_0000_0000, cell),
            None => return None,
        }
    }

    /// The address of the first alive cell, from an offset on, of the live place that begins at an address. None comes
    /// exactly where there is none.
    pub fn alive_cell(&self, addr: u64, from: u64) -> Option<u64>
        ensures { result ≡ alive_from addr from self.now }
    {
        match self.starting(addr) {
            Some(place) => match place.first_alive(from) {
                Some(o) => Some(addr + o),
                None => None,
            },
            None => None,
        }
    }
}
