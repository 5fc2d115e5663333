//! Lists that have one item, most often.
ghost use Rattle.std.specs.Prelude.{◌≡◌, [], IfOk};

use sqlite_items::Items;
use std::alloc::{AllocError, Global};

/// A list without items, with room for one: most productions of arguments and of statements have no second one. Its only error
/// is want of memory.
pub fn room_for_one<T>(alloc: Global) -> Result<Items<T>, AllocError>
    ensures { IfOk result (λ found. found ≡ []) }
{
    let room = Vec::with_capacity(alloc, 1)?;
    Ok(Items::from_vec(room))
}
