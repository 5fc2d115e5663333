ghost use Rattle.std.specs.Prelude.{◌≡◌, ◌+◌, ◌^◌, ◌-◌, ◌<◌, ◌≤◌, ◌==◌, [], ◌∷◌, ◌++◌, length, slice_get, option_map, IfOk, OnErr};
ghost use Rattle.fb_image.specs.Texts.{AreLiterals};

use fb_base::{NoMemory, Text};
use std::alloc::Global;
use std::marker::Model;

/// The literals of a program, each of at most 16,777,216 bytes. Contracts see them as a list of lists of bytes.
#[derive(Debug, Drop)]
pub struct Literals {
    texts: Vec<Text>,
}

impl Model for Literals {
    ghost use Rattle.std.specs.Prelude.{List, ℕ};
    ghost use Rattle.fb_image.specs.Texts.{AreLiterals};

    ghost Value = { List (List ℕ) };

    ghost view = { λ l. l.texts.items };

    ghost invariant = { λ l. AreLiterals l.texts.items };
}

impl Literals {
    /// No literals.
    pub fn new(alloc: Global) -> Literals
        ensures { result ≡ [] }
    {
        Literals {
            texts: Vec::new(alloc),
        }
    }

    /// No literals, with room for so many. The error is want of memory.
    pub(crate) fn with_room(alloc: Global, count: usize) -> Result<Literals, NoMemory>
        ensures { IfOk result (λ literals. literals ≡ []) }
    {
        Ok(Literals {
            texts: Vec::with_capacity(alloc, count)?,
        })
    }

    /// Puts a literal last, and gives its number, counted from 0.
    /// The error is want of memory, and leaves the literals as before.
    pub fn add(&mut self, bytes: &[u8]) -> Result<u32, NoMemory>
        requires short { length bytes.now ≤ 16777216 }
        requires few { length self.old < 2 ^ 32 - 1 }
        ensures number { IfOk result (λ number. number ≡ length self.old) }
        ensures ok { IfOk result (λ _. self.new ≡ self.old ++ bytes.now ∷ []) }
        ensures err { OnErr result (self.new ≡ self.old) }
    {
        let number = self.texts.len() as u32;
        let text = Text::of(*self.texts.allocator(), bytes)?;
        self.texts.push(text)?;
        Ok(number)
    }

    /// How many literals there are.
    pub fn len(&self) -> u32
        ensures count { result ≡ length self.now }
        ensures kept { AreLiterals self.now }
    {
        self.texts.len() as u32
    }

    /// Whether there are none.
    pub fn is_empty(&self) -> bool
        ensures { result ≡ (length self.now == 0) }
    {
        self.texts.is_empty()
    }

    /// The bytes of a literal. None exactly where its number isn't below the count.
    pub fn get(&self, k: u32) -> Option<&[u8]>
        ensures { option_map (λ bytes. bytes.now) result ≡ slice_get self.now k }
    {
        match self.texts.get(k as usize) {
            Some(text) => Some(text.bytes()),
            None => None,
        }
    }

    /// There are fewer than 2^32 literals, each of at most 16,777,216 bytes.
    pub(crate) fn are_kept(&self)
        ensures { AreLiterals self.now }
    {
        let _ = &self.texts;
    }

    /// The literals in order.
    pub(crate) fn texts(&self) -> &[Text]
        ensures texts { result.now ≡ self.now }
        ensures kept { AreLiterals self.now }
    {
        self.texts.as_slice()
    }

    /// Equal literals. The error is want of memory.
    pub(crate) fn copy(&self, alloc: Global) -> Result<Literals, NoMemory>
        ensures { IfOk result (λ copy. copy ≡ self.now) }
    {
        let mut copy = Literals::new(alloc);
        for text in &self.texts {
            copy.add(text.bytes())?;
        }
        Ok(copy)
    }
}
