//! What follows of histories from what the calls ensure.
ghost use Rattle.std.specs.Prelude.{◌≡◌, ℕ, ◌≤◌, List, length, Some, slice_get};
ghost use mathlib.Core.List.{IsPrefix};

/// What stands at a place in a history stands there in each history that begins with it, and what is added later stands
/// behind it. So what was added in a turn stands once and at its own place in every value that is met later by that
/// seat, or by the seat that took it in, and the places of one seat rise.
pub fn places_stay()
    ensures stays { (before after : List ℕ) (place x : ℕ) → IsPrefix before after → slice_get before place ≡ Some x → slice_get after place ≡ Some x }
    ensures rises { (before after : List ℕ) → IsPrefix before after → length before ≤ length after }
{}
