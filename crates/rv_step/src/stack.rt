ghost use Rattle.std.specs.Prelude.{◌≡◌, ℕ, ◌+◌, ◌%◌, ◌^◌, ◌<◌, ◌≤◌, [], nat_le, IfOk, OnOk, OnErr, MatchBool};
ghost use Rattle.rv_isa.specs.Words.{loaded};
ghost use Rattle.rv_step.specs.Access.{IsWidth};
ghost use Rattle.rv_step.specs.Pages.{page_index, byte_at, kept, SameBytes, KeepsMore, IsStored};

use crate::page::{PAGE, Page};
use fb_base::NoMemory;
use std::alloc::Global;
use std::marker::Model;

/// The own stack of a thread: 2^32 bytes by their offset, zero until written. It takes memory for pages that are
/// written alone, and of each page up to its last byte written.
#[derive(Debug, Drop)]
pub(crate) struct Stack {
    pages: Vec<Page>,
}

impl Model for Stack {
    ghost use Rattle.std.specs.Prelude.{List, ℕ};

    ghost Value = { List (List ℕ) };

    ghost view = { λ stack. stack.pages.items };
}

// Where the page of an offset stands: the page at the end of the stack comes first.
fn index_of(o: u64) -> usize
    requires { o < 2 ^ 32 }
    ensures { result ≡ page_index o }
{
    0xffff - (o / 0x1_0000) as usize
}

// Where in its page an offset lies.
fn place_of(o: u64) -> usize
    ensures value { result ≡ o % 2 ^ 16 }
    ensures below { result < 2 ^ 16 }
{
    (o % 0x1_0000) as usize
}

impl Stack {
    /// A stack of zeros.
    pub(crate) fn new(alloc: Global) -> Stack
        ensures { result ≡ [] }
    {
        Stack {
            pages: Vec::new(alloc),
        }
    }

    /// An equal stack. The error is want of memory.
    pub(crate) fn copy(&self) -> Result<Stack, NoMemory>
        ensures { IfOk result (λ stack. stack ≡ self.now) }
    {
        let mut pages = Vec::new(*self.pages.allocator());
        for page in &self.pages {
            pages.push(page.copy()?)?;
        }
        Ok(Stack { pages })
    }

    fn byte(&self, o: u64) -> u64
        requires { o < 2 ^ 32 }
        ensures value { result ≡ byte_at self.now o }
        ensures below { result < 2 ^ 8 }
    {
        match self.pages.get(index_of(o)) {
            Some(page) => page.byte(place_of(o)) as u64,
            None => 0,
        }
    }

    fn one_byte(&self, o: u64) -> u64
        requires { o < 2 ^ 32 }
        ensures value { result ≡ loaded (byte_at self.now) o 1 }
        ensures below { result < 2 ^ 8 }
    {
        self.byte(o)
    }

    fn two_bytes(&self, o: u64) -> u64
        requires { o + 2 ≤ 2 ^ 32 }
        ensures value { result ≡ loaded (byte_at self.now) o 2 }
        ensures below { result < 2 ^ 16 }
    {
        self.one_byte(o) + 0x100 * self.one_byte(o + 1)
    }

    fn four_bytes(&self, o: u64) -> u64
        requires { o + 4 ≤ 2 ^ 32 }
        ensures value { result ≡ loaded (byte_at self.now) o 4 }
        ensures below { result < 2 ^ 32 }
    {
        self.two_bytes(o) + 0x1_0000 * self.two_bytes(o + 2)
    }

    fn eight_bytes(&self, o: u64) -> u64
        requires { o + 8 ≤ 2 ^ 32 }
        ensures { result ≡ loaded (byte_at self.now) o 8 }
    {
        self.four_bytes(o) + 0x1_0000_0000 * self.four_bytes(o + 4)
    }

    // The number of so many bytes, byte by byte.
    #[cold]
    fn gather(&self, o: u64, width: u8) -> u64
        requires width { IsWidth width }
        requires within { o + width ≤ 2 ^ 32 }
        ensures { result ≡ loaded (byte_at self.now) o width }
    {
        match width {
            1 => self.one_byte(o),
            2 => self.two_bytes(o),
            4 => self.four_bytes(o),
            _ => self.eight_bytes(o),
        }
    }

    /// The number of so many bytes, the lowest first.
    #[inline(always)]
    pub(crate) fn load(&self, o: u64, width: u8) -> u64
        requires width { IsWidth width }
        requires within { o + width ≤ 2 ^ 32 }
        ensures { result ≡ loaded (byte_at self.now) o width }
    {
        if let Some(page) = self.pages.get(index_of(o)) {
            if let Some(value) = page.load(place_of(o), width) {
                return value;
            }
        }
        self.gather(o, width)
    }

    // Stores the low bytes of a value if their page keeps them all, and says whether it did.
    #[inline(always)]
    fn put(&mut self, o: u64, width: u8, value: u64) -> bool
        requires at { o < 2 ^ 32 }
        requires least { 0 < width }
        requires most { width ≤ 8 }
        ensures kept { result ≡ nat_le (o % 2 ^ 16 + width) (kept self.old o) }
        ensures same { (q : ℕ) → kept self.new q ≡ kept self.old q }
        ensures bytes { MatchBool result (IsStored self.old self.new o width value) (self.new ≡ self.old) }
    {
        let index = index_of(o);
        if index < self.pages.len() {
            self.pages[index].store(place_of(o), width, value)
        } else {
            false
        }
    }

    // Makes so many bytes from an offset on, all of its page, kept. The bytes are as before.
    fn reserve(&mut self, o: u64, width: u8) -> Result<(), NoMemory>
        requires at { o < 2 ^ 32 }
        requires within { o % 2 ^ 16 + width ≤ 2 ^ 16 }
        ensures ok { OnOk result (o % 2 ^ 16 + width ≤ kept self.new o) }
        ensures more { KeepsMore self.old self.new }
        ensures bytes { SameBytes self.old self.new }
    {
        let index = index_of(o);
        let alloc = *self.pages.allocator();
        while self.pages.len() <= index {
            self.pages.push(Page::new(alloc))?;
        }
        self.pages[index].grow(place_of(o) + width as usize)
    }

    // The same as `store`, where the bytes aren't all kept or lie in two pages.
    #[cold]
    fn store_anew(&mut self, o: u64, width: u8, value: u64) -> Result<(), NoMemory>
        requires width { IsWidth width }
        requires within { o + width ≤ 2 ^ 32 }
        ensures ok { OnOk result (IsStored self.old self.new o width value) }
        ensures err { OnErr result (SameBytes self.old self.new) }
    {
        let room = PAGE - place_of(o);
        if width as usize <= room {
            self.reserve(o, width)?;
            let _ = self.put(o, width, value);
        } else {
            let first = room as u8;
            let next = o + first as u64;
            self.reserve(o, first)?;
            self.reserve(next, width - first)?;
            let _ = self.put(o, first, value);
            let _ = self.put(next, width - first, value >> (8 * first));
        }
        Ok(())
    }

    /// Stores the low bytes of a value. The error is want of memory, and the bytes are then as before.
    #[inline(always)]
    pub(crate) fn store(&mut self, o: u64, width: u8, value: u64) -> Result<(), NoMemory>
        requires width { IsWidth width }
        requires within { o + width ≤ 2 ^ 32 }
        ensures ok { OnOk result (IsStored self.old self.new o width value) }
        ensures err { OnErr result (SameBytes self.old self.new) }
    {
        if self.put(o, width, value) {
            Ok(())
        } else {
            self.store_anew(o, width, value)
        }
    }
}
