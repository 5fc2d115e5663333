//! What the definition of the calls comes to, whatever calls are made: the laws that users of threads rely on.

ghost use Rattle.std.specs.Prelude.{◌≡◌, ◌<◌, ◌≤◌, ℕ, true, false, length, Some, ◌⊎◌};
ghost use Rattle.rt_threads.specs.declared.kinds.Handle.{Handle};
ghost use Rattle.rt_threads.specs.declared.kinds.Handle.TheVariants.{Gone, Mutex};
ghost use Rattle.rt_threads.specs.declared.kinds.State.TheVariants.{Ready};
ghost use Rattle.rt_threads.specs.Lists.{times};
ghost use Rattle.rt_threads.specs.Table.{Table, IsReady, is_ready, state_at, handle_at, queue_at, thread_at};
ghost use Rattle.rt_threads.specs.Rows.{first_table, with_new, given, next_id, created};
ghost use Rattle.rt_threads.specs.Standing.{Stands, is_mutex};
ghost use Rattle.rt_threads.specs.Laws.{Call, Locks, Calls, MovesOn, wants, IsWoken, IsAsBefore, notes_caller};

/// A table stands at every moment of a run: a thread stands once in the queue of the id at which it waits, and in no
/// other; one that is ready stands in none.
pub fn one_place()
    ensures first { (proc : ℕ) → Stands (first_table proc) }
    ensures calls { (call : Call) (t now : ℕ) (old new : Table) → Calls call t now old new → Stands new }
{}

/// Nobody overtakes in a queue: threads leave it at its front, and come to it at its end.
pub fn first_come_first_served()
    ensures { (call : Call) (t now id : ℕ) (old new : Table) → Calls call t now old new → MovesOn (queue_at old id) (queue_at new id) }
{}

/// A thread that isn't ready stays so until a call takes it out of the queue in which it stands.
pub fn waits_until_woken()
    ensures { (call : Call) (t now n : ℕ) (old new : Table) → Calls call t now old new → n < length old.threads → is_ready (state_at old n) ≡ false → IsReady new n → (id : ℕ) × (times n (queue_at old id) ≡ 1) × (times n (queue_at new id) ≡ 0) }
{}

/// Ids are never given twice: the next one is above all that were given, and one that is given up stays so.
pub fn ids_are_new()
    ensures next { (handle : Handle) (table : Table) → given (with_new handle table) ≡ next_id table }
    ensures above { (call : Call) (t now : ℕ) (old new : Table) → Calls call t now old new → given old ≤ given new }
    ensures gone { (call : Call) (t now id : ℕ) (old new : Table) → Calls call t now old new → id < length old.handles → handle_at old id ≡ Gone → handle_at new id ≡ Gone }
{}

/// A mutex has one holder at most. Who locks it and goes on holds it, and so does who waited for it and goes on; and
/// while a thread holds it, no call of another thread makes anyone else its holder.
pub fn one_holder()
    ensures locked { (t now id : ℕ) (old new : Table) → Calls (Locks id) t now old new → IsReady new t → handle_at new id ≡ Mutex (Some t) }
    ensures woken { (call : Call) (t now n id : ℕ) (old new : Table) → Calls call t now old new → is_mutex (handle_at old id) ≡ true → wants id (state_at old n) ≡ true → IsReady new n → handle_at new id ≡ Mutex (Some n) }
    ensures held { (call : Call) (t now id holder : ℕ) (old new : Table) → Calls call t now old new → (holder ≡ t → ⊥) → handle_at old id ≡ Mutex (Some holder) → handle_at new id ≡ Mutex (Some holder) }
{}

/// A thread's start is the entry that last made it ready: where a call is another thread's, a thread is woken by it,
/// and starts with its entry, or is as ready as before and starts as before; a call that leaves its caller ready is the
/// caller's start; and a thread that is created is ready and starts with the entry that created it.
pub fn starts()
    ensures others { (call : Call) (t now n : ℕ) (old new : Table) → Calls call t now old new → (n ≡ t → ⊥) → n < length old.threads → IsWoken now old new n ⊎ IsAsBefore old new n }
    ensures caller { (call : Call) (t now : ℕ) (old new : Table) → Calls call t now old new → notes_caller call ≡ true → IsReady new t → (thread_at new t).start ≡ now }
    ensures created { (proc param now : ℕ) (table : Table) → thread_at (created proc param now table) (length table.threads) ≡ record { state = Ready; start = now; proc = proc; param = param; id = next_id table } }
{}
