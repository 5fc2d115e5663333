ghost use Rattle.std.specs.Prelude.{◌≡◌, ◌+◌, ◌*◌, ◌<◌, ◌≤◌, ◌^◌, [], ◌∷◌, ◌++◌, ℕ, true, length, take, drop, replicate, slice_set, vec_len, vec_capacity, IfOk, OnErr};
ghost use Rattle.fb_base.specs.declared.shape.Desc.{Desc};
ghost use Rattle.str_heap.specs.Blocks.{is_free, fit_at};
ghost use Rattle.str_heap.specs.Payloads.{IsLive, bytes_of, IsApart, Keeps, Stores, Releases, Assigns, Changes, contents};
ghost use Rattle.str_heap.specs.FirstFit.{IsFirstFit};
ghost use Rattle.str_heap.specs.Sound.{Finds};

use crate::holes::Holes;
use fb_base::{Desc, NoMemory};
use std::alloc::Global;
use std::marker::Model;

/// The strings of a run: their bytes, in one arena that is counted in blocks of 16 bytes.
///
/// Contracts see the bytes of each string by the block where it begins, and no bytes where none begins.
#[derive(Debug, Drop)]
pub struct Heap {
    // the bytes of all blocks
    arena: Vec<u8>,
    // for each block the length of the string that begins there, or 0
    lengths: Vec<u32>,
    // the blocks that are no string's
    holes: Holes,
    // how many strings there are
    live: usize,
}

impl Model for Heap {
    ghost use Rattle.std.specs.Prelude.{List, ℕ};
    ghost use Rattle.str_heap.specs.Payloads.{contents};
    ghost use Rattle.str_heap.specs.Sound.{IsSound};

    ghost Value = { List (List ℕ) };

    ghost view = { λ h. contents h.lengths.items h.arena.items };

    ghost invariant = { λ h. IsSound h.lengths.items h.arena.items h.holes h.live };
}

/// The descriptor of the empty string, which takes nothing.
const EMPTY: Desc = Desc {
    place: 0,
    length: 0,
    size: 0,
};

// The greatest length that a block's entry can have.
const LONGEST: usize = 0xffff_ffff;

// The bytes of a block without a string.
const ZEROS: [u8; 16] = [0; 16];

impl Heap {
    /// No strings.
    pub fn new(alloc: Global) -> Heap
        ensures { result ≡ [] }
    {
        Heap {
            arena: Vec::new(alloc),
            lengths: Vec::new(alloc),
            holes: Holes::new(alloc),
            live: 0,
        }
    }

    /// Stores bytes at the first place where they fit, and gives their descriptor; no bytes take nothing. The error is
    /// want of memory, and leaves the strings as they were. Bytes that one string can't have are want of memory, too.
    pub fn store(&mut self, bytes: &[u8]) -> Result<Desc, NoMemory>
        ensures stored { IfOk result (λ d. Stores self.old self.new d bytes.now) }
        ensures first { IfOk result (λ d. IsFirstFit self.old d) }
        ensures kept { IfOk result (λ d. (e : Desc) → IsLive self.old e → Keeps self.old self.new e × IsApart e d) }
        ensures err { OnErr result (self.new ≡ self.old) }
    {
        if bytes.is_empty() {
            return Ok(EMPTY);
        }
        if bytes.len() > LONGEST {
            return Err(NoMemory);
        }
        let size = bytes.len().div_ceil(16);
        self.holes.reserve(self.holes.len() + self.live + 1)?;
        let place = find_room(&mut self.lengths, &mut self.arena, &mut self.holes, size)?;
        write(&mut self.arena, 16 * place, bytes);
        self.lengths[place] = bytes.len() as u32;
        self.live += 1;
        Ok(Desc {
            place: place as u64,
            length: bytes.len() as u64,
            size: size as u64,
        })
    }

    /// The bytes of a live descriptor.
    pub fn bytes(&self, d: Desc) -> &[u8]
        requires { IsLive self.now d }
        ensures { result.now ≡ bytes_of self.now d }
    {
        if d.length == 0 {
            return &[];
        }
        let arena = self.arena.as_slice();
        part(arena, 16 * d.place as usize, d.length as usize)
    }

    /// Sets a byte of a live descriptor's string, in its place. It takes no memory.
    pub fn set_byte(&mut self, d: Desc, i: u64, byte: u8)
        requires live { IsLive self.old d }
        requires index { i < d.length }
        ensures changed { Changes self.old self.new d (slice_set (bytes_of self.old d) i byte) }
        ensures kept { (e : Desc) → IsLive self.old e → IsApart e d → Keeps self.old self.new e }
    {
        set_at(&mut self.arena, d.place as usize, i as usize, byte);
    }

    /// What the heap takes memory from.
    pub fn allocator(&self) -> Global {
        *self.arena.allocator()
    }

    /// No two strings overlap: of two live descriptors that begin at different blocks, one lies before the other.
    pub fn strings_are_apart(&self)
        ensures { (d e : Desc) → IsLive self.now d → IsLive self.now e → 0 < d.length → 0 < e.length → d.place < e.place → d.place + d.size ≤ e.place }
    {
        let _ = &self.arena;
    }

    /// Gives back what a live descriptor's string takes. It takes no memory.
    pub fn release(&mut self, d: Desc)
        requires { IsLive self.old d }
        ensures released { Releases self.old self.new d }
        ensures kept { (e : Desc) → IsLive self.old e → IsApart e d → Keeps self.old self.new e }
    {
        if d.length == 0 {
            return;
        }
        let place = d.place as usize;
        self.lengths[place] = 0;
        self.live -= 1;
        self.holes.put(place, d.size as usize);
    }

    /// Stores bytes in place of a live descriptor's string, which is no more, and gives their descriptor. The error is
    /// want of memory, and leaves the strings as they were.
    pub fn assign(&mut self, d: Desc, bytes: &[u8]) -> Result<Desc, NoMemory>
        requires { IsLive self.old d }
        ensures assigned { IfOk result (λ f. Assigns self.old self.new d f bytes.now) }
        ensures first { IfOk result (λ f. IsFirstFit self.old f) }
        ensures kept { IfOk result (λ f. (e : Desc) → IsLive self.old e → IsApart e d → Keeps self.old self.new e × IsApart e f) }
        ensures err { OnErr result (self.new ≡ self.old) }
    {
        let assigned = self.store(bytes)?;
        self.release(d);
        Ok(assigned)
    }
}

// Takes n blocks for a string: the first free ones that suffice, else those at the arena's end, which grows. After an
// error, want of memory, all is as before.
fn find_room(
    lengths: &mut Vec<u32>,
    arena: &mut Vec<u8>,
    holes: &mut Holes,
    n: usize,
) -> Result<usize, NoMemory>
    requires some { 0 < n }
    requires small { n < 2 ^ 32 }
    requires sized { length arena.old.items ≡ 16 * length lengths.old.items }
    requires known { (b : ℕ) → is_free holes.old.spans b ≡ true → b < length lengths.old.items }
    ensures found { IfOk result (λ place. Finds n place lengths.old.items arena.old.items holes.old lengths.new.items arena.new.items holes.new) }
    ensures lengths { OnErr result (lengths.new.items ≡ lengths.old.items) }
    ensures arena { OnErr result (arena.new.items ≡ arena.old.items) }
    ensures spans { OnErr result (holes.new.spans ≡ holes.old.spans) }
    ensures room { OnErr result (holes.old.room ≤ holes.new.room) }
{
    if let Some(place) = holes.take(n) {
        return Ok(place);
    }
    lengths.reserve(n)?;
    arena.reserve(16 * n)?;
    let end = lengths.len();
    let place = holes.take_tail(end);
    grow(lengths, arena, n - (end - place));
    Ok(place)
}

// Behind the arena, n blocks without strings.
fn grow(lengths: &mut Vec<u32>, arena: &mut Vec<u8>, n: usize)
    requires lengths { vec_len lengths.old + n ≤ vec_capacity lengths.old }
    requires arena { vec_len arena.old + 16 * n ≤ vec_capacity arena.old }
    ensures lengths { lengths.new.items ≡ lengths.old.items ++ replicate n 0 }
    ensures arena { arena.new.items ≡ arena.old.items ++ replicate (16 * n) 0 }
{
    for _i in 0..n {
        match lengths.push(0) {
            Ok(()) => (),
            Err(_) => unreachable!(),
        }
        match arena.extend_from_slice(&ZEROS) {
            Ok(()) => (),
            Err(_) => unreachable!(),
        }
    }
}

// So many bytes from a place on.
fn part(bytes: &[u8], start: usize, count: usize) -> &[u8]
    requires { start + count ≤ length bytes.now }
    ensures { result.now ≡ take count (drop start bytes.now) }
{
    &bytes[start..start + count]
}

// Sets a byte of the string that begins at a block.
fn set_at(arena: &mut Vec<u8>, place: usize, i: usize, byte: u8)
    requires { 16 * place + i < length arena.old.items }
    ensures { arena.new.items ≡ slice_set arena.old.items (16 * place + i) byte }
{
    arena[16 * place + i] = byte;
}

// Writes bytes into the arena from a place on.
fn write(arena: &mut Vec<u8>, start: usize, bytes: &[u8])
    requires { start + length bytes.now ≤ length arena.old.items }
    ensures { arena.new.items ≡ take start arena.old.items ++ (bytes.now ++ drop (start + length bytes.now) arena.old.items) }
{
    arena[start..start + bytes.len()].copy_from_slice(bytes);
}
