//! What holds of every selected program.

ghost use Rattle.rv_select.specs.Laws.{ImageRules, WordsRead, FirstStates, StepsKept, SegmentsKept};
ghost use Rattle.rv_select.specs.Sizes.{SizesAreLengths};

/// Selection keeps what a program of middle code does: the accesses, turns, calls and traps, with their lines.
///
/// What a thread does on its own stack is seen by nobody else. The size of each operation is the number of its
/// instructions, wherever it stands.
pub fn selection()
    ensures image { ImageRules }
    ensures words { WordsRead }
    ensures begins { FirstStates }
    ensures steps { StepsKept }
    ensures segments { SegmentsKept }
    ensures sizes { SizesAreLengths }
{}
