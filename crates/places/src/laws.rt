//! What calls make of the bytes, cells and heads that others see, whatever memory they are made on.

ghost use Rattle.std.specs.Prelude.{◌≡◌, ◌≢◌, ◌≤◌, ◌<◌, ◌+◌, ◌*◌, ℕ, Bool, true, false, not, ◌&&◌, if◌then◌else◌, nat_lt, Option, Some, None, is_some};
ghost use Rattle.std.specs.Option.{option_map};
ghost use Rattle.thread_system.specs.Memory.{read, write};
ghost use Rattle.fb_base.specs.Shapes.{IsShape};
ghost use Rattle.places.specs.Memory.{Places, place_at, number_of, offset_of, address, next_number, byte_at, cell_at, is_live, head_at, is_among};
ghost use Rattle.places.specs.Calls.{written, puts, closed, with_cell, freed_if, begun, made, new_head, new_byte, new_cell, marked_dying};
ghost use Rattle.fb_base.specs.declared.shape.Shape.{Shape};
ghost use Rattle.places.specs.declared.kinds.Form.{Form};
ghost use Rattle.places.specs.Place.{Head, fresh};
ghost use Rattle.places.specs.Standing.{Stands};
ghost use Rattle.places.specs.declared.kinds.Cell.{Cell};

/// A write changes exactly its own bytes, and nothing else that is seen.
pub fn writes_bytes_alone()
    ensures bytes { (w a v : ℕ) (m : Places) → is_some (read (byte_at m) a w) ≡ true → write (byte_at m) a w v ≡ Some (byte_at (puts a w v m)) }
    ensures live { (m after : Places) (a w v q : ℕ) → written a w v m ≡ Some after → is_live after q ≡ is_live m q }
    ensures cells { (m after : Places) (a w v q : ℕ) → written a w v m ≡ Some after → cell_at after q ≡ cell_at m q }
    ensures heads { (m after : Places) (a w v n : ℕ) → written a w v m ≡ Some after → head_at after n ≡ head_at m n }
{}

/// Closing makes exactly its own bytes neither live nor accessible, and changes nothing else that is seen.
pub fn closes_bytes_alone()
    ensures live { (m after : Places) (a len q : ℕ) → closed a len m ≡ Some after → is_live after q ≡ (is_live m q && not (is_among a len q)) }
    ensures bytes { (m after : Places) (a len q : ℕ) → closed a len m ≡ Some after → byte_at after q ≡ (if is_among a len q then None else byte_at m q) }
    ensures cells { (m after : Places) (a len q : ℕ) → closed a len m ≡ Some after → cell_at after q ≡ cell_at m q }
    ensures heads { (m after : Places) (a len n : ℕ) → closed a len m ≡ Some after → head_at after n ≡ head_at m n }
{}

/// Setting a cell changes that cell alone.
pub fn sets_one_cell()
    ensures cell { (m after : Places) (a : ℕ) (cell : Cell) → with_cell a cell m ≡ Some after → cell_at after a ≡ Some cell }
    ensures cells { (m after : Places) (a q : ℕ) (cell : Cell) → Stands m → with_cell a cell m ≡ Some after → q ≢ a → cell_at after q ≡ cell_at m q }
    ensures bytes { (m after : Places) (a q : ℕ) (cell : Cell) → with_cell a cell m ≡ Some after → byte_at after q ≡ byte_at m q }
    ensures live { (m after : Places) (a q : ℕ) (cell : Cell) → with_cell a cell m ≡ Some after → is_live after q ≡ is_live m q }
    ensures heads { (m after : Places) (a n : ℕ) (cell : Cell) → with_cell a cell m ≡ Some after → head_at after n ≡ head_at m n }
{}

/// A place that begins to die keeps its bytes and cells, as all others do; it is dying, and the count is its own.
pub fn dying_places_stay()
    ensures bytes { (m after : Places) (a n q : ℕ) (shape : Shape) (form : Form) → begun a shape form m ≡ Some (n, after) → byte_at after q ≡ byte_at m q }
    ensures live { (m after : Places) (a n q : ℕ) (shape : Shape) (form : Form) → begun a shape form m ≡ Some (n, after) → is_live after q ≡ is_live m q }
    ensures cells { (m after : Places) (a n q : ℕ) (shape : Shape) (form : Form) → begun a shape form m ≡ Some (n, after) → cell_at after q ≡ cell_at m q }
    ensures dying { (m after : Places) (a n : ℕ) (shape : Shape) (form : Form) → begun a shape form m ≡ Some (n, after) → head_at after (number_of a) ≡ option_map marked_dying (head_at m (number_of a)) }
    ensures heads { (m after : Places) (a n k : ℕ) (shape : Shape) (form : Form) → begun a shape form m ≡ Some (n, after) → k ≢ number_of a → head_at after k ≡ head_at m k }
    ensures count { (m after : Places) (a n : ℕ) (shape : Shape) (form : Form) → begun a shape form m ≡ Some (n, after) → option_map (λ h. h.count) (head_at m (number_of a)) ≡ Some n }
    ensures next { (m after : Places) (a n : ℕ) (shape : Shape) (form : Form) → begun a shape form m ≡ Some (n, after) → next_number after ≡ next_number m }
{}

/// A place that is freed is gone, with all that was seen in it; all others stay, and its number stays given.
pub fn freed_places_are_gone()
    ensures gone { (test : Head → Bool) (m after : Places) (a : ℕ) → freed_if test a m ≡ Some after → place_at after (number_of a) ≡ None }
    ensures others { (test : Head → Bool) (m after : Places) (a k : ℕ) → freed_if test a m ≡ Some after → k ≢ number_of a → place_at after k ≡ place_at m k }
    ensures next { (test : Head → Bool) (m after : Places) (a : ℕ) → freed_if test a m ≡ Some after → next_number after ≡ next_number m }
    ensures no_bytes { (test : Head → Bool) (m after : Places) (a q : ℕ) → freed_if test a m ≡ Some after → number_of q ≡ number_of a → byte_at after q ≡ None }
    ensures none_live { (test : Head → Bool) (m after : Places) (a q : ℕ) → freed_if test a m ≡ Some after → number_of q ≡ number_of a → is_live after q ≡ false }
    ensures no_cells { (test : Head → Bool) (m after : Places) (a q : ℕ) → freed_if test a m ≡ Some after → number_of q ≡ number_of a → cell_at after q ≡ None }
    ensures bytes { (test : Head → Bool) (m after : Places) (a q : ℕ) → freed_if test a m ≡ Some after → number_of q ≢ number_of a → byte_at after q ≡ byte_at m q }
    ensures live { (test : Head → Bool) (m after : Places) (a q : ℕ) → freed_if test a m ≡ Some after → number_of q ≢ number_of a → is_live after q ≡ is_live m q }
    ensures cells { (test : Head → Bool) (m after : Places) (a q : ℕ) → freed_if test a m ≡ Some after → number_of q ≢ number_of a → cell_at after q ≡ cell_at m q }
{}

/// A new place is fresh and has a number that no place had: its bytes are live and 0, its cells are dead; all others
/// stay.
pub fn new_places_are_fresh()
    ensures address { (shape : Shape) (count addr : ℕ) (form : Form) (m after : Places) → made shape count form m ≡ Some (addr, after) → addr ≡ address (next_number m) 0 }
    ensures fresh { (shape : Shape) (count addr : ℕ) (form : Form) (m after : Places) → made shape count form m ≡ Some (addr, after) → place_at after (next_number m) ≡ Some (fresh (new_head shape count form)) }
    ensures others { (shape : Shape) (count addr k : ℕ) (form : Form) (m after : Places) → made shape count form m ≡ Some (addr, after) → k ≢ next_number m → place_at after k ≡ place_at m k }
    ensures next { (shape : Shape) (count addr : ℕ) (form : Form) (m after : Places) → made shape count form m ≡ Some (addr, after) → next_number after ≡ next_number m + 1 }
    ensures unused { (m : Places) (n : ℕ) → next_number m ≤ n → place_at m n ≡ None }
    ensures new_bytes { (shape : Shape) (count addr q : ℕ) (form : Form) (m after : Places) → made shape count form m ≡ Some (addr, after) → number_of q ≡ next_number m → byte_at after q ≡ new_byte (new_head shape count form) (offset_of q) }
    ensures new_live { (shape : Shape) (count addr q : ℕ) (form : Form) (m after : Places) → made shape count form m ≡ Some (addr, after) → number_of q ≡ next_number m → is_live after q ≡ nat_lt (offset_of q) (shape.size * count) }
    ensures new_cells { (shape : Shape) (count addr q : ℕ) (form : Form) (m after : Places) → IsShape 0 shape → 1 ≤ count → made shape count form m ≡ Some (addr, after) → number_of q ≡ next_number m → cell_at after q ≡ new_cell (new_head shape count form) (offset_of q) }
    ensures bytes { (shape : Shape) (count addr q : ℕ) (form : Form) (m after : Places) → made shape count form m ≡ Some (addr, after) → number_of q ≢ next_number m → byte_at after q ≡ byte_at m q }
    ensures live { (shape : Shape) (count addr q : ℕ) (form : Form) (m after : Places) → made shape count form m ≡ Some (addr, after) → number_of q ≢ next_number m → is_live after q ≡ is_live m q }
    ensures cells { (shape : Shape) (count addr q : ℕ) (form : Form) (m after : Places) → made shape count form m ≡ Some (addr, after) → number_of q ≢ next_number m → cell_at after q ≡ cell_at m q }
{}
