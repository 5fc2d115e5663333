ghost use Rattle.std.specs.Prelude.{◌≡◌, List, ℕ, option_map};
ghost use Rattle.text_calls.specs.Strings.{AreKept, strings_of, is_dead, text_of};

use places::Memory;
use str_heap::Heap;

/// Whether a cell begins at an address that isn't alive.
#[tactic(auto, unfolding(crate::specs::Strings::strings_of))]
pub fn is_dead(mem: &Memory, a: u64) -> bool
    ensures { (heap : List (List ℕ)) → is_dead (strings_of mem.now heap a) ≡ result }
{
    match mem.cell(a) {
        Some(cell) => !cell.alive,
        None => false,
    }
}

/// The bytes of the alive cell that begins at an address. None where none does.
#[tactic(auto, unfolding(crate::specs::Strings::strings_of))]
pub fn text_at<'a>(mem: &Memory, heap: &'a Heap, a: u64) -> Option<&'a [u8]>
    requires { AreKept mem.now heap.now }
    ensures { text_of (strings_of mem.now heap.now a) ≡ option_map (λ bytes. bytes.now) result }
{
    match mem.cell(a) {
        Some(cell) => {
            if cell.alive {
                Some(heap.bytes(cell.desc))
            } else {
                None
            }
        }
        None => None,
    }
}
