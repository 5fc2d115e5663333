//! Replays of small programs, by computation.

ghost use Rattle.std.specs.Prelude.{List, [], ◌∷◌, Some, None};
ghost use Rattle.entry_replay.specs.World.{Ended, Stopped, TurnsSpent, RaceFound, Deadlocked};
ghost use Rattle.entry_replay.specs.Example.{Comes, two_writers, two_neighbours, late_reader, woken_reader, closed_byte, early_end, all_idle, two_strings, eleven_turns, ten_turns, bad_read};

/// What races, and what doesn't. In each program thread 0 creates thread 1 in the first entry.
pub fn races()
    // Both write one byte without a call between: the second races, though neither looks at what is there.
    ensures two_writers { Comes 0 two_writers (0 ∷ 0 ∷ 1 ∷ []) (Some (RaceFound 1 7 5 1 2 3)) }
    // They write neighbouring bytes.
    ensures neighbours { Comes 0 two_neighbours (0 ∷ 0 ∷ 1 ∷ []) None }
    // A byte was touched before the thread's own last entry.
    ensures late_reader { Comes 0 late_reader (0 ∷ 0 ∷ 1 ∷ 1 ∷ []) None }
    // The same thread is at that byte before it has made its call.
    ensures early_reader { Comes 0 late_reader (0 ∷ 1 ∷ 0 ∷ 1 ∷ []) (Some (RaceFound 1 7 5 2 3 3)) }
    // A byte was touched by the entry that woke the thread.
    ensures woken_reader { Comes 0 woken_reader (0 ∷ 1 ∷ 0 ∷ 1 ∷ []) None }
    // An access that isn't allowed any more is a race where the byte was closed meanwhile.
    ensures closed_byte { Comes 0 closed_byte (0 ∷ 0 ∷ 1 ∷ []) (Some (RaceFound 1 7 5 1 2 2)) }
    // Both change a string: the second races under rule 1 alone.
    ensures strings_by_rule_1 { Comes 1 two_strings (0 ∷ 0 ∷ 1 ∷ []) (Some (RaceFound 1 7 16 1 2 2)) }
    ensures strings_by_rule_0 { Comes 0 two_strings (0 ∷ 0 ∷ 1 ∷ []) None }
{}

/// How runs are over, and when they go on.
pub fn endings()
    // The main module ends while all others are idle.
    ensures early_end { Comes 0 early_end (0 ∷ 1 ∷ 0 ∷ []) (Some (Ended 0)) }
    // All are idle.
    ensures all_idle { Comes 0 all_idle (0 ∷ 1 ∷ 0 ∷ []) (Some (Deadlocked 2)) }
    // The eleventh turn of a segment is one too many; each segment has its own ten.
    ensures eleven_turns { Comes 0 eleven_turns (0 ∷ []) (Some (TurnsSpent 0 11)) }
    ensures ten_turns { Comes 0 ten_turns (0 ∷ 0 ∷ []) None }
    // An access to a byte that there isn't is a trap, at the access's line.
    ensures bad_read { Comes 0 bad_read (0 ∷ []) (Some (Stopped 1 2 0)) }
{}
