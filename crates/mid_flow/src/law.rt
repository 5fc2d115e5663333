ghost use Rattle.mid_flow.specs.Laws.{FlatLies, FlatIsLawful};

/// Code that is flattened stands in the list from the position for which it was flattened, and what follows it stands
/// behind it. Its jumps without a turn go ahead, and those back don't.
pub fn flattening()
    ensures lies { FlatLies }
    ensures lawful { FlatIsLawful }
{}
