ghost use Rattle.first_lowering.specs.Promise.{LoweringKeeps, LoweringStarts, LoweringIsLawful, LoweringIsSound, ProgramsAreDeclared, SegmentsKept};

/// Middle code carries out the source: at states that are related, each step of the source is matched, and the first
/// states are related. So a segment of the source is one of its middle code, with the same turns, accesses, calls and
/// lines and the same end. Jumps of the middle code without a turn go ahead, and those back don't. Where the
/// variables are declared before they are used, no register is read before it is written, and each target exists.
pub fn lowering()
    ensures steps { LoweringKeeps }
    ensures starts { LoweringStarts }
    ensures lawful { LoweringIsLawful }
    ensures sound { LoweringIsSound }
    ensures declared { ProgramsAreDeclared }
    ensures segments { SegmentsKept }
{}
