ghost use Rattle.std.specs.Prelude.{◌≡◌, ℕ, List, None, Some, IfOk, OnErr, IsSome};
ghost use Rattle.std.specs.Map.{update};
ghost use Rattle.std.specs.Str.{bytes_eq};
ghost use Rattle.name_scope.specs.Kept.{held};

use crate::sym::Sym;
use fb_base::NoMemory;
use std::collections::BTreeMap;

/// What a name stands for, and in which scope, counted from the outermost, which is 1.
#[derive(Clone, Copy, Debug)]
pub struct Seen {
    pub sym: Sym,
    pub depth: usize,
}

/// What the name stands for.
pub fn find(names: &BTreeMap<Vec<u8>, Seen>, name: &[u8]) -> Option<Seen>
    ensures { result ≡ held names.now name.now }
{
    names.get(name).copied()
}

/// The name stands for this from now on. Gives what it stood for before.
pub fn put(
    names: &mut BTreeMap<Vec<u8>, Seen>,
    name: Vec<u8>,
    seen: Seen,
) -> Result<Option<Seen>, NoMemory>
    ensures old { IfOk result (λ old. old ≡ held names.old name.items) }
    ensures put { IfOk result (λ old. (q : List ℕ) → held names.new q ≡ update bytes_eq (held names.old) name.items (Some seen) q) }
    ensures err { OnErr result (names.new.entries ≡ names.old.entries) }
{
    Ok(names.insert(name, seen)?)
}

/// The name stands again for what it stood for before it was put there.
pub fn restore(names: &mut BTreeMap<Vec<u8>, Seen>, name: Vec<u8>, hidden: Option<Seen>)
    requires { IsSome (held names.old name.items) }
    ensures { (q : List ℕ) → held names.new q ≡ update bytes_eq (held names.old) name.items hidden q }
{
    match hidden {
        Some(seen) => match names.insert(name, seen) {
            Ok(_) => (),
            Err(_) => unreachable!(),
        },
        None => {
            let _ = names.remove(name.as_slice());
        }
    }
}
