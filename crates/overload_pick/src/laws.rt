//! Laws on costs and choices, each on a function with an empty body.
ghost use Rattle.std.specs.Prelude.{◌≡◌, IsTrue, ◌↔◌};
ghost use Rattle.overload_pick.specs.Types.{Plain, same_type};

/// The test for the same type is equality of types.
pub fn same_types()
    ensures { (one other : Plain) → IsTrue (same_type one other) ↔ (one ≡ other) }
{}
