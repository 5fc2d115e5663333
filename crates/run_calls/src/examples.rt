//! Replays of small programs, by computation.

ghost use Rattle.std.specs.Prelude.{List, [], ◌∷◌, ◌++◌, codes, replicate, Some, None};
ghost use Rattle.entry_replay.specs.World.{Ended, Stopped, RaceFound, Deadlocked};
ghost use Rattle.run_calls.specs.Example.{Comes, two_counters, two_bytes, late_reader, locked_reader, two_strings, lone_waiter, not_held, in_a_circle, ended_alone, double_delete, dangling, many_bytes, line_reader, temporaries, items, long_string};

/// What races, and what doesn't.
pub fn races()
    // Both threads add to a number and nothing is locked: the second one reads what the first one's entry wrote.
    ensures counted_at_once { Comes 0 two_counters [] (0 ∷ 0 ∷ 1 ∷ 2 ∷ []) [] (Some (RaceFound 2 3 4294967296 2 3 4)) }
    // The second thread is created when the first one has ended.
    ensures counted_in_turn { Comes 0 two_counters [] (0 ∷ 1 ∷ 0 ∷ 2 ∷ 0 ∷ 0 ∷ 0 ∷ 0 ∷ 0 ∷ []) (codes " 2" ++ 10 ∷ []) (Some (Ended 0)) }
    // Neighbouring bytes don't race, and one byte does.
    ensures neighbours { Comes 0 (two_bytes 1) [] (0 ∷ 0 ∷ 1 ∷ 2 ∷ 0 ∷ 0 ∷ 0 ∷ 0 ∷ 0 ∷ []) (codes " 3" ++ 10 ∷ []) (Some (Ended 0)) }
    ensures one_byte { Comes 0 (two_bytes 0) [] (0 ∷ 0 ∷ 1 ∷ 2 ∷ []) [] (Some (RaceFound 2 6 4294967296 2 3 4)) }
    // A byte of a place that was freed since the thread's start races; it isn't a bad pointer.
    ensures freed_place { Comes 0 late_reader [] (0 ∷ 0 ∷ 0 ∷ 1 ∷ []) [] (Some (RaceFound 1 7 8589934592 2 3 3)) }
    // Who waits for a mutex starts when it is given to him, so what was written before doesn't race.
    ensures locked { Comes 0 locked_reader [] (0 ∷ 0 ∷ 0 ∷ 1 ∷ 0 ∷ 1 ∷ []) (codes " 5") None }
    // Two threads set one String: the second one races under rule 1 alone.
    ensures strings_by_rule_1 { Comes 1 two_strings [] (0 ∷ 0 ∷ 0 ∷ 0 ∷ 1 ∷ []) [] (Some (RaceFound 1 7 8589934592 3 4 3)) }
    ensures strings_by_rule_0 { Comes 0 two_strings [] (0 ∷ 0 ∷ 0 ∷ 0 ∷ 1 ∷ []) [] None }
{}

/// How runs are over.
pub fn endings()
    // A lone thread waits at a condition.
    ensures lone_waiter { Comes 0 lone_waiter [] (0 ∷ 0 ∷ 0 ∷ 0 ∷ []) [] (Some (Deadlocked 1)) }
    // Two threads wait for one another.
    ensures in_a_circle { Comes 0 in_a_circle [] (0 ∷ 0 ∷ 0 ∷ 1 ∷ 0 ∷ []) [] (Some (Deadlocked 2)) }
    // The main thread ends while the other one waits; the status is the number's low six bits.
    ensures ended_alone { Comes 0 ended_alone [] (0 ∷ 0 ∷ 0 ∷ 1 ∷ 0 ∷ []) [] (Some (Ended 13)) }
    // A mutex is unlocked that isn't held.
    ensures not_held { Comes 0 not_held [] (0 ∷ 0 ∷ []) [] (Some (Stopped 8 1 0)) }
    // An object is deleted twice.
    ensures double_delete { Comes 0 double_delete [] (0 ∷ 0 ∷ 0 ∷ 0 ∷ []) [] (Some (Stopped 2 11 0)) }
    // A variable is read when its scope was left.
    ensures dangling { Comes 0 dangling [] (0 ∷ 0 ∷ 0 ∷ []) [] (Some (Stopped 1 6 0)) }
    // Places have at most 67,108,864 bytes together.
    ensures most_bytes { Comes 0 (many_bytes 67108856) [] (0 ∷ 0 ∷ []) [] (Some (Ended 0)) }
    ensures too_many_bytes { Comes 0 (many_bytes 67108857) [] (0 ∷ []) [] (Some (Stopped 10 1 0)) }
    // A String has at most 16,777,216 bytes.
    ensures too_long { Comes 0 (long_string 16777217) [] (0 ∷ 0 ∷ []) [] (Some (Stopped 7 1 0)) }
{}

/// What is written.
pub fn outputs()
    // A line is read, and a number is printed behind it.
    ensures line_reader { Comes 0 line_reader (97 ∷ 98 ∷ 10 ∷ 99 ∷ []) (0 ∷ 0 ∷ 0 ∷ 0 ∷ 0 ∷ 0 ∷ 0 ∷ 0 ∷ 0 ∷ []) (codes "ab 1" ++ 10 ∷ []) (Some (Ended 0)) }
    // Each part of an expression on strings is a string of its own.
    ensures temporaries { Comes 0 temporaries [] (replicate 19 0) (codes "xy" ++ 10 ∷ []) (Some (Ended 0)) }
    // Unsigned numbers have no space before them, a comma goes on to column 14, and a Boolean is a word.
    ensures items { Comes 0 items [] (replicate 6 0) (codes "200           -1true" ++ 10 ∷ []) (Some (Ended 0)) }
{}
