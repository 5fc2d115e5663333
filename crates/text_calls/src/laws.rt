//! What other calls on memory leave of what the string calls ask for.

ghost use Rattle.std.specs.Prelude.{◌≡◌, ◌≤◌, ℕ, Bool, List, [], Some};
ghost use Rattle.fb_base.specs.Shapes.{IsShape};
ghost use Rattle.fb_base.specs.declared.shape.Shape.{Shape};
ghost use Rattle.places.specs.declared.kinds.Form.{Form};
ghost use Rattle.places.specs.Place.{Head};
ghost use Rattle.places.specs.Memory.{Places, no_places, cell_at};
ghost use Rattle.places.specs.Calls.{made, freed_if};
ghost use Rattle.text_calls.specs.Strings.{AreKept, AllUsed};

/// A memory without places, one with a new place, one in which a place was freed, and one with the same cells: alive
/// cells keep their descriptors.
pub fn strings_stay()
    ensures none { (heap : List (List ℕ)) → AreKept no_places heap }
    ensures made { (shape : Shape) (count a : ℕ) (form : Form) (m after : Places) (heap : List (List ℕ)) → IsShape 0 shape → 1 ≤ count → made shape count form m ≡ Some (a, after) → AreKept m heap → AreKept after heap }
    ensures freed { (test : Head → Bool) (m after : Places) (a : ℕ) (heap : List (List ℕ)) → freed_if test a m ≡ Some after → AreKept m heap → AreKept after heap }
    ensures same { (m after : Places) (heap : List (List ℕ)) → ((q : ℕ) → cell_at after q ≡ cell_at m q) → AreKept m heap → AreKept after heap }
{}

/// No string of the heap is lost in a memory without places beside a heap without strings, with a new place, or where
/// the cells are the same.
pub fn strings_are_used()
    ensures none { AllUsed no_places [] }
    ensures made { (shape : Shape) (count a : ℕ) (form : Form) (m after : Places) (heap : List (List ℕ)) → made shape count form m ≡ Some (a, after) → AllUsed m heap → AllUsed after heap }
    ensures same { (m after : Places) (heap : List (List ℕ)) → ((q : ℕ) → cell_at after q ≡ cell_at m q) → AllUsed m heap → AllUsed after heap }
{}
