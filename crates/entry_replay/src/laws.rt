//! The laws of runs, entries and replays, for every kind of thread and every runtime.

ghost use Rattle.std.specs.Prelude.{ℕ};
ghost use Rattle.entry_replay.specs.Ahead.{BeginsThere, PastSilent, PastTurn, PastRead, PastWrite};
ghost use Rattle.entry_replay.specs.Statements.{IsCarried, IsAnswered, IsComposed, IsSerial, GivesEntry, RacesThere, ThereItRaces, IsReported, IsOneRun, IsOneReplay, AllEnd, IsSameOn, HistoryFalls, OneStamp, FirstsSuffice};

/// A kind of thread whose states are related to those of another kind, by the number of the thread.
pub trait Related<A> {
    /// whether thread t is at the same moment in both
    ghost related: { ℕ → A → Self → Type 0 };
}

/// A kind of thread of whose states some are good.
pub trait Graded {
    /// whether a state is good
    ghost good: { Self → Type 0 };
}

/// Where one kind of thread carries out another, a schedule's replay of the one is a replay of the other, both ways: the
/// same world, entry by entry, and each thread in a related state.
pub fn compilation<A, B: Related<A>, W>()
    ensures carried { IsCarried A B W B.related }
    ensures answered { IsAnswered A B W B.related }
{}

/// Two compilers, one after the other, are one.
pub fn two_compilers<A, B: Related<A>, C: Related<B>>()
    ensures { IsComposed A B C B.related C.related }
{}

/// What a worker found out on an earlier memory is what the entry does on the present one, up to the first byte that
/// was touched since the thread's start; there the entry is raced.
pub fn serial_order<S, W>()
    ensures outcome { IsSerial S W }
    ensures entry { GivesEntry S W }
{}

/// An entry is raced exactly where its own segment accesses a byte that was touched since the thread's start, at the
/// first such access; and the report has that byte, both lines, the start, and the latest entry that touched the byte.
pub fn true_races<S, W>()
    ensures races_there { RacesThere S W }
    ensures there_it_races { ThereItRaces S W }
    ensures reported { IsReported S W }
{}

/// A thread's run on a memory is determined, and so is a schedule's replay.
pub fn one_replay<S, W>()
    ensures run { IsOneRun S }
    ensures replay { IsOneReplay S W }
{}

/// Where each step without a turn lessens a size, every run comes to an end: on any memory, whatever bytes are touched.
pub fn runs_end<S: Graded>()
    ensures { AllEnd S S.good }
{}

/// What a record of a run has to keep: the answers to its accesses, each byte once; and of each byte of memory one
/// number, that of the latest entry which touched it.
pub fn records_suffice<S, W>()
    ensures answers { IsSameOn S }
    ensures firsts { FirstsSuffice }
    ensures falls { HistoryFalls S W }
    ensures stamp { OneStamp }
{}

/// How a run goes ahead, for a loop over its steps.
pub fn run_goes_ahead<S>()
    ensures begins { BeginsThere S }
    ensures silent { PastSilent S }
    ensures turn { PastTurn S }
    ensures read { PastRead S }
    ensures write { PastWrite S }
{}
