ghost use Rattle.std.specs.Prelude.{◌≡◌, ◌+◌, ◌^◌, ◌<◌, ◌≤◌, false, true, length, replicate, slice_index_or, slice_set, IfOk};
ghost use Rattle.places.specs.Place.{with_flags};

use fb_base::NoMemory;
use std::alloc::Global;
use std::marker::Model;

/// A row of flags.
#[derive(Debug, Drop)]
pub(crate) struct Flags {
    flags: Vec<bool>,
}

impl Model for Flags {
    ghost use Rattle.std.specs.Prelude.{List, Bool};

    ghost Value = { List Bool };

    ghost view = { λ f. f.flags.items };
}

impl Flags {
    /// So many flags, none of which is set.
    pub(crate) fn new(alloc: Global, count: usize) -> Result<Flags, NoMemory>
        ensures { IfOk result (λ f. f ≡ replicate count false) }
    {
        let mut flags = Vec::new(alloc);
        flags.resize(count, false)?;
        Ok(Flags { flags })
    }

    /// Whether a flag is set; past the end each one counts as set.
    #[inline]
    pub(crate) fn get(&self, i: usize) -> bool
        ensures { result ≡ slice_index_or self.now i true }
    {
        match self.flags.get(i) {
            Some(flag) => *flag,
            None => true,
        }
    }

    /// Sets a flag.
    pub(crate) fn set(&mut self, i: usize)
        requires { i < length self.old }
        ensures { self.new ≡ slice_set self.old i true }
    {
        self.flags[i] = true;
    }

    /// Sets so many flags, from one on.
    pub(crate) fn set_all(&mut self, from: usize, count: usize)
        requires within { from + count ≤ length self.old }
        requires limit { from + count < 2 ^ 63 }
        ensures { self.new ≡ with_flags from count self.old }
    {
        for i in from..from + count {
            self.set(i);
        }
    }
}
