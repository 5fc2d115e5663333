ghost use Rattle.std.specs.Prelude.{◌≡◌, ◌≤◌, ℕ, List, [], ◌∷◌, length, OnOk, OnErr, IsSome, is_some, IsErrOf, ◌↔◌};
ghost use Rattle.name_scope.specs.Scopes.{innermost, in_scope, first_scope, outer_scopes, with_name};

use crate::names::{self, Seen};
use crate::sym::{AddErr, Sym};
use fb_base::NoMemory;
use std::alloc::Global;
use std::collections::BTreeMap;
use std::marker::Model;

// What was done: a scope was entered, or a name was added in it, which hid what is noted.
#[derive(Debug, Drop)]
pub(crate) enum Step {
    Entered,
    Added(Vec<u8>, Sym, Option<Seen>),
}

/// The scopes that are entered, with their names (FreeBASIC Manual, Scope).
///
/// A name is compared byte by byte. FreeBASIC's names have no case, and a name token's text is in lower case, so names
/// are given in lower case. A look-up costs the logarithm of the number of names, however many scopes are entered.
#[derive(Debug, Drop)]
pub struct Scopes {
    // what each name stands for now
    names: BTreeMap<Vec<u8>, Seen>,
    // what was done in the scopes that are entered
    steps: Vec<Step>,
    // how many scopes are entered
    depth: usize,
}

impl Model for Scopes {
    ghost use Rattle.std.specs.Prelude.{List};
    ghost use Rattle.name_scope.specs.Scopes.{Scope};
    ghost use Rattle.name_scope.specs.Kept.{IsKept, scopes_of, pile_of};

    ghost Value = { List Scope };

    ghost view = { λ s. scopes_of (pile_of s.steps.items) };

    ghost invariant = { λ s. IsKept s.names (pile_of s.steps.items) s.depth };
}

impl Scopes {
    /// No scope is entered. It takes no memory.
    pub fn new(alloc: Global) -> Scopes
        ensures { result ≡ [] }
    {
        Scopes {
            names: BTreeMap::new(alloc),
            steps: Vec::new(alloc),
            depth: 0,
        }
    }

    /// How many scopes are entered.
    pub fn depth(&self) -> usize
        ensures { result ≡ length self.now }
    {
        self.depth
    }

    /// Enters a scope, which has no names yet. The error is want of memory, and all is as before then.
    pub fn enter(&mut self) -> Result<(), NoMemory>
        ensures ok { OnOk result (self.new ≡ [] ∷ self.old) }
        ensures err { OnErr result (self.new ≡ self.old) }
    {
        self.steps.push(Step::Entered)?;
        self.depth += 1;
        Ok(())
    }

    /// Leaves the innermost scope: its names stand for what they stood for around it. It takes no memory.
    pub fn leave(&mut self)
        requires { 1 ≤ length self.old }
        ensures { self.new ≡ outer_scopes self.old }
    {
        while let Some(step) = self.steps.pop() {
            match step {
                Step::Entered => {
                    self.depth -= 1;
                    return;
                }
                Step::Added(name, _, hidden) => names::restore(&mut self.names, name, hidden),
            }
        }
    }

    /// Adds a name to the innermost scope. Twice comes exactly where that scope has the name. After an error all is as
    /// before.
    pub fn add(&mut self, name: &[u8], sym: Sym) -> Result<(), AddErr>
        requires { 1 ≤ length self.old }
        ensures ok { OnOk result (self.new ≡ with_name name.now sym self.old) }
        ensures twice { IsErrOf result AddErr.Twice ↔ IsSome (in_scope (first_scope self.old) name.now) }
        ensures err { OnErr result (self.new ≡ self.old) }
    {
        if self.has(name) {
            return Err(AddErr::Twice);
        }
        self.note(name, sym)?;
        Ok(())
    }

    // Whether the innermost scope has a name.
    fn has(&self, name: &[u8]) -> bool
        ensures { result ≡ is_some (in_scope (first_scope self.now) name.now) }
    {
        match names::find(&self.names, name) {
            Some(seen) => seen.depth == self.depth,
            None => false,
        }
    }

    // Adds a name that the innermost scope hasn't, or hides what it stands for there.
    fn note(&mut self, name: &[u8], sym: Sym) -> Result<(), NoMemory>
        requires { 1 ≤ length self.old }
        ensures ok { OnOk result (self.new ≡ with_name name.now sym self.old) }
        ensures err { OnErr result (self.new ≡ self.old) }
    {
        let depth = self.depth;
        let alloc = *self.steps.allocator();
        self.steps.reserve(1)?;
        let key = Vec::from_slice(alloc, name)?;
        let own = Vec::from_slice(alloc, name)?;
        let hidden = names::put(&mut self.names, key, Seen { sym, depth })?;
        match self.steps.push(Step::Added(own, sym, hidden)) {
            Ok(()) => Ok(()),
            Err(_) => unreachable!(),
        }
    }

    /// What a name stands for in the innermost scope that has it; None exactly where none has it.
    pub fn find(&self, name: &[u8]) -> Option<Sym>
        ensures { result ≡ innermost self.now name.now }
    {
        match names::find(&self.names, name) {
            Some(seen) => Some(seen.sym),
            None => None,
        }
    }
}
