ghost use Rattle.std.specs.Prelude.{◌≡◌, ◌<◌, ℕ, length, true, option_map};
ghost use Rattle.rt_threads.specs.Lists.{first_of, times};
ghost use Rattle.rt_threads.specs.Table.{IsReady, has_ended, state_at, handle_at, queue_at};
ghost use Rattle.rt_threads.specs.Standing.{Stands, is_mutex};
ghost use Rattle.rt_threads.specs.Rows.{IsRow, wait, detach, ended, lock, unlock, hand_on, holds, is_free, is_condition, destroy_mutex, destroy_condition, is_wanted, wait_at, regain, mutex_of, wake_first};

use crate::parts::Parts;
use crate::{BadHandle, Handle, State};

// The calls on a table that stands: each is its row.
impl Parts {
    /// ThreadWait: the caller goes on where that thread has ended, and waits for it else.
    pub fn wait(&mut self, t: u32, id: u64, now: u32) -> Result<(), BadHandle>
        requires ready { IsReady self.old t }
        requires stands { Stands self.old }
        ensures { IsRow (wait t id now self.old) self.old self.new result }
    {
        match self.handle(id) {
            Handle::Joinable { thread } if self.is_quiet(id) => {
                if has_ended(self.thread(thread).state) {
                    self.set_handle(id, Handle::Gone);
                    self.set_ready(t, now);
                } else {
                    self.queue(t, id, State::Waits { id });
                }
                Ok(())
            }
            _ => Err(BadHandle),
        }
    }

    /// ThreadDetach: gives the id of a thread up.
    pub fn detach(&mut self, t: u32, id: u64, now: u32) -> Result<(), BadHandle>
        requires ready { IsReady self.old t }
        ensures { IsRow (detach t id now self.old) self.old self.new result }
    {
        match self.handle(id) {
            Handle::Joinable { .. } if self.is_quiet(id) => {
                self.set_handle(id, Handle::Gone);
                self.set_ready(t, now);
                Ok(())
            }
            _ => Err(BadHandle),
        }
    }

    /// A thread ends, and the one that waits for it goes on.
    pub fn end(&mut self, t: u32, now: u32)
        requires ready { IsReady self.old t }
        requires stands { Stands self.old }
        ensures { self.new ≡ ended t now self.old }
    {
        let id = self.thread(t).id;
        self.set_state(t, State::Ended);
        if let Handle::Joinable { .. } = self.handle(id) {
            if let Some(first) = self.take_first(id) {
                self.set_ready(first, now);
                self.set_handle(id, Handle::Gone);
            }
        }
    }

    /// MutexLock: the caller takes a free mutex, and waits for another.
    pub fn lock(&mut self, t: u32, id: u64, now: u32) -> Result<(), BadHandle>
        requires ready { IsReady self.old t }
        requires stands { Stands self.old }
        ensures { IsRow (lock t id now self.old) self.old self.new result }
    {
        match self.handle(id) {
            Handle::Mutex { holder: None } => {
                self.set_handle(id, Handle::Mutex { holder: Some(t) });
                self.set_ready(t, now);
                Ok(())
            }
            Handle::Mutex { holder: Some(_) } => {
                self.queue(t, id, State::Waits { id });
                Ok(())
            }
            _ => Err(BadHandle),
        }
    }

    /// Gives a mutex to the first that waits for it, which becomes ready, or to nobody.
    pub fn hand_on(&mut self, id: u64, now: u32)
        requires mutex { is_mutex (handle_at self.old id) ≡ true }
        requires stands { Stands self.old }
        ensures { self.new ≡ hand_on id now self.old }
    {
        match self.take_first(id) {
            None => self.set_handle(id, Handle::Mutex { holder: None }),
            Some(first) => {
                self.set_ready(first, now);
                self.set_handle(
                    id,
                    Handle::Mutex {
                        holder: Some(first),
                    },
                );
            }
        }
    }

    /// MutexUnlock: the holder gives the mutex up.
    pub fn unlock(&mut self, t: u32, id: u64, now: u32) -> Result<(), BadHandle>
        requires ready { IsReady self.old t }
        requires stands { Stands self.old }
        ensures { IsRow (unlock t id now self.old) self.old self.new result }
    {
        if holds(self.handle(id), t) {
            self.hand_on(id, now);
            self.set_ready(t, now);
            Ok(())
        } else {
            Err(BadHandle)
        }
    }

    /// MutexDestroy: a mutex that is free, and that nobody wants back, is no more.
    pub fn destroy_mutex(
        &mut self,
        t: u32,
        id: u64,
        now: u32,
        wanted: bool,
    ) -> Result<(), BadHandle>
        requires ready { IsReady self.old t }
        requires wanted { is_wanted self.old id ≡ wanted }
        ensures { IsRow (destroy_mutex t id now self.old) self.old self.new result }
    {
        if is_free(self.handle(id)) && self.is_quiet(id) && !wanted {
            self.set_handle(id, Handle::Gone);
            self.set_ready(t, now);
            Ok(())
        } else {
            Err(BadHandle)
        }
    }

    /// CondWait: the caller gives its mutex up and waits at the condition.
    pub fn wait_at(&mut self, t: u32, cond: u64, mutex: u64, now: u32) -> Result<(), BadHandle>
        requires ready { IsReady self.old t }
        requires stands { Stands self.old }
        ensures { IsRow (wait_at t cond mutex now self.old) self.old self.new result }
    {
        if self.is_condition(cond) && holds(self.handle(mutex), t) {
            self.hand_on(mutex, now);
            self.queue(t, cond, State::Listens { cond, mutex });
            Ok(())
        } else {
            Err(BadHandle)
        }
    }

    /// Whether an id names a condition.
    pub fn is_condition(&self, id: u64) -> bool
        ensures { is_condition (handle_at self.now id) ≡ result }
    {
        match self.handle(id) {
            Handle::Condition => true,
            _ => false,
        }
    }

    /// A thread that was woken takes its mutex, or waits for it.
    pub fn regain(&mut self, first: u32, mutex: u64, now: u32)
        requires thread { first < length self.old.threads }
        requires handle { mutex < length self.old.handles }
        requires queue { mutex < length self.old.queues }
        requires nowhere { (k : ℕ) → times first (queue_at self.old k) ≡ 0 }
        ensures { self.new ≡ regain first mutex now self.old }
    {
        if is_free(self.handle(mutex)) {
            self.set_handle(
                mutex,
                Handle::Mutex {
                    holder: Some(first),
                },
            );
            self.set_ready(first, now);
        } else {
            self.queue(first, mutex, State::Waits { id: mutex });
        }
    }

    /// Wakes the first that waits at a condition, if one does, and gives the mutex that it had given up.
    pub fn wake_first(&mut self, cond: u64, now: u32) -> Option<u64>
        requires condition { is_condition (handle_at self.old cond) ≡ true }
        requires stands { Stands self.old }
        ensures table { self.new ≡ wake_first cond now self.old }
        ensures mutex { result ≡ option_map (λ first. mutex_of (state_at self.old first)) (first_of (queue_at self.old cond)) }
    {
        let first = self.take_first(cond)?;
        let mutex = mutex_of(self.thread(first).state);
        self.regain(first, mutex, now);
        Some(mutex)
    }

    /// CondDestroy: a condition at which nobody waits is no more.
    pub fn destroy_condition(&mut self, t: u32, cond: u64, now: u32) -> Result<(), BadHandle>
        requires ready { IsReady self.old t }
        ensures { IsRow (destroy_condition t cond now self.old) self.old self.new result }
    {
        if self.is_condition(cond) && self.is_quiet(cond) {
            self.set_handle(cond, Handle::Gone);
            self.set_ready(t, now);
            Ok(())
        } else {
            Err(BadHandle)
        }
    }
}

// Whether a thread has ended.
fn has_ended(state: State) -> bool
    ensures { has_ended state ≡ result }
{
    match state {
        State::Ended => true,
        _ => false,
    }
}

// Whether a thread holds a mutex.
fn holds(handle: Handle, t: u32) -> bool
    ensures { holds handle t ≡ result }
{
    match handle {
        Handle::Mutex {
            holder: Some(holder),
        } => holder == t,
        _ => false,
    }
}

// Whether it is a mutex that nobody holds.
fn is_free(handle: Handle) -> bool
    ensures { is_free handle ≡ result }
{
    match handle {
        Handle::Mutex { holder: None } => true,
        _ => false,
    }
}

// The mutex that a thread gave up which waits at a condition.
fn mutex_of(state: State) -> u64
    ensures { mutex_of state ≡ result }
{
    match state {
        State::Listens { mutex, .. } => mutex,
        _ => 0,
    }
}
