ghost use Rattle.std.specs.Prelude.{◌≡◌, ℕ, ◌+◌, ◌*◌, ◌^◌, ◌<◌, ◌≤◌, [], length, nat_le, OnOk, IfOk, IfSome, IfNone, MatchBool};
ghost use Rattle.rv_isa.specs.Words.{loaded, stored};
ghost use Rattle.rv_step.specs.Access.{IsWidth};
ghost use Rattle.rv_step.specs.Pages.{byte_in};

use fb_base::NoMemory;
use std::alloc::Global;
use std::marker::Model;

/// How many bytes a page has.
pub(crate) const PAGE: usize = 0x1_0000;

// A page grows by so many bytes at least.
const GRAIN: usize = 0x200;

/// The bytes of a page up to the last one that was written. All others are zero.
#[derive(Debug, Drop)]
pub(crate) struct Page {
    bytes: Vec<u8>,
}

impl Model for Page {
    ghost use Rattle.std.specs.Prelude.{List, ℕ};

    ghost Value = { List ℕ };

    ghost use Rattle.std.specs.Prelude.{◌^◌, ◌≤◌, length};

    ghost view = { λ page. page.bytes.items };

    ghost invariant = { λ page. length page.bytes.items ≤ 2 ^ 16 };
}

impl Page {
    /// A page of zeros.
    pub(crate) fn new(alloc: Global) -> Page
        ensures { result ≡ [] }
    {
        Page {
            bytes: Vec::new(alloc),
        }
    }

    /// An own copy.
    pub(crate) fn copy(&self) -> Result<Page, NoMemory>
        ensures { IfOk result (λ page. page ≡ self.now) }
    {
        Ok(Page {
            bytes: Vec::from_slice(*self.bytes.allocator(), &self.bytes)?,
        })
    }

    /// A byte.
    pub(crate) fn byte(&self, k: usize) -> u8
        ensures { result ≡ byte_in self.now k }
    {
        match self.bytes.get(k) {
            Some(byte) => *byte,
            None => 0,
        }
    }

    #[inline(always)]
    fn one(&self, k: usize) -> u64
        requires { k < length self.now }
        ensures value { result ≡ loaded (byte_in self.now) k 1 }
        ensures below { result < 2 ^ 8 }
    {
        self.bytes[k] as u64
    }

    #[inline(always)]
    fn two(&self, k: usize) -> u64
        requires kept { k + 2 ≤ length self.now }
        requires within { k + 2 ≤ 2 ^ 16 }
        ensures value { result ≡ loaded (byte_in self.now) k 2 }
        ensures below { result < 2 ^ 16 }
    {
        self.one(k) + 0x100 * self.one(k + 1)
    }

    #[inline(always)]
    fn four(&self, k: usize) -> u64
        requires kept { k + 4 ≤ length self.now }
        requires within { k + 4 ≤ 2 ^ 16 }
        ensures value { result ≡ loaded (byte_in self.now) k 4 }
        ensures below { result < 2 ^ 32 }
    {
        self.two(k) + 0x1_0000 * self.two(k + 2)
    }

    #[inline(always)]
    fn eight(&self, k: usize) -> u64
        requires kept { k + 8 ≤ length self.now }
        requires within { k + 8 ≤ 2 ^ 16 }
        ensures { result ≡ loaded (byte_in self.now) k 8 }
    {
        self.four(k) + 0x1_0000_0000 * self.four(k + 4)
    }

    /// The number of so many bytes, the lowest first, if they are all kept.
    #[inline(always)]
    pub(crate) fn load(&self, k: usize, width: u8) -> Option<u64>
        requires width { IsWidth width }
        requires at { k < 2 ^ 16 }
        ensures value { IfSome result (λ v. v ≡ loaded (byte_in self.now) k width) }
        ensures within { IfSome result (λ v. k + width ≤ 2 ^ 16) }
    {
        if self.bytes.len() < k + width as usize {
            return None;
        }
        let value = match width {
            1 => self.one(k),
            2 => self.two(k),
            4 => self.four(k),
            _ => self.eight(k),
        };
        Some(value)
    }

    /// Keeps at least so many bytes. The page's bytes are as before.
    pub(crate) fn grow(&mut self, need: usize) -> Result<(), NoMemory>
        requires { need ≤ 2 ^ 16 }
        ensures ok { OnOk result (need ≤ length self.new) }
        ensures more { length self.old ≤ length self.new }
        ensures bytes { (q : ℕ) → byte_in self.new q ≡ byte_in self.old q }
    {
        if self.bytes.len() < need {
            self.bytes.resize((need + GRAIN - 1) / GRAIN * GRAIN, 0)?;
        }
        Ok(())
    }

    /// Stores the low bytes of a value if they are all kept, and says whether it did.
    #[inline(always)]
    pub(crate) fn store(&mut self, k: usize, width: u8, value: u64) -> bool
        requires width { width ≤ 8 }
        requires at { k < 2 ^ 16 }
        ensures kept { result ≡ nat_le (k + width) (length self.old) }
        ensures within { length self.old ≤ 2 ^ 16 }
        ensures length { length self.new ≡ length self.old }
        ensures bytes { MatchBool result ((q : ℕ) → byte_in self.new q ≡ stored (byte_in self.old) k width value q) (self.new ≡ self.old) }
    {
        if k + width as usize <= self.bytes.len() {
            for i in 0..width {
                self.bytes[k + i as usize] = ((value >> (8 * i)) % 0x100) as u8;
            }
            true
        } else {
            false
        }
    }
}
