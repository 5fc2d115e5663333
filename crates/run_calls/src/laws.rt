//! What is so of the table of calls, for every program.

ghost use Rattle.std.specs.Prelude.{◌≡◌, ℕ, true};
ghost use Rattle.entry_replay.specs.Laws.{Lawful};
ghost use Rattle.run_calls.specs.Shared.{Program, Shared};
ghost use Rattle.run_calls.specs.Table.{runtime};
ghost use Rattle.run_calls.specs.Ties.{MakesAsSeen, MakesNoneAsSeen, FreesAsSeen, FreesNoneAsSeen, BeginsAsSeen, BeginsNoneAsSeen, ClosesAsSeen, ClosesNoneAsSeen, WritesAsSeen, TextAsSeen, TextRowsByNumber};
ghost use Rattle.run_calls.specs.Laws.{SomeIsReady, AnyIsReady, TableStands, EachHasAState};

/// The table keeps to what is asked of a runtime, under either rule: stores change no other byte, a call touches each
/// byte that it changes, and a thread that is created has a procedure of the program.
pub fn keeps_to()
    ensures { (program : Program) → Lawful (runtime program) }
{}

/// Some thread is ready exactly where one of the table is.
pub fn ready_threads()
    ensures some { (program : Program) (x : Shared) → SomeIsReady (runtime program) x }
    ensures any { (program : Program) (x : Shared) → AnyIsReady (runtime program) x }
{}

/// At every moment of a replay the table of threads stands, and it has as many threads as there are states.
pub fn threads_stand<S>()
    ensures stands { TableStands S }
    ensures states { EachHasAState S }
{}

/// What places make of a call is what the row makes of what is seen of them: a new place.
pub fn makes_as_seen()
    ensures made { MakesAsSeen }
    ensures none { MakesNoneAsSeen }
{}

/// A place that is freed, or begins to die.
pub fn frees_as_seen()
    ensures freed { FreesAsSeen }
    ensures none_freed { FreesNoneAsSeen }
    ensures begun { BeginsAsSeen }
    ensures none_begun { BeginsNoneAsSeen }
{}

/// Bytes that are closed.
pub fn closes_as_seen()
    ensures closed { ClosesAsSeen }
    ensures none { ClosesNoneAsSeen }
{}

/// A value that is written: its bytes are stored one by one, the lowest first.
pub fn writes_as_seen()
    ensures { WritesAsSeen }
{}

/// A string call on places and a heap.
pub fn texts_as_seen()
    ensures seen { TextAsSeen }
    ensures rows { TextRowsByNumber }
{}
