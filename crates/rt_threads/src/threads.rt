ghost use Rattle.std.specs.Prelude.{◌≡◌, ◌+◌, ◌<◌, ◌^◌, ℕ, true, length, drop, is_some, not, ◌==◌, filter, slice_index_or, IfOk, OnErr};
ghost use Rattle.rt_threads.specs.Lists.{first_of, IsRising};
ghost use Rattle.rt_threads.specs.Table.{IsReady, is_ready, thread_at, state_at, handle_at, queue_at, with_ready};
ghost use Rattle.rt_threads.specs.Standing.{Stands};
ghost use Rattle.rt_threads.specs.Rows.{IsRow, first_table, create, created, given, with_new, next_id, unended, wait, detach, ended, lock, unlock, destroy_mutex, is_wanted, is_condition, wake_first, signal, broadcast, destroy_condition, wait_at, ready_numbers};

use crate::parts::Parts;
use crate::{BadHandle, Handle, NoMemory, State, Thread};
use fb_base::Schedule;
use std::alloc::Global;
use std::marker::Model;

/// The threads, mutexes and conditions of a run.
///
/// Threads have numbers, 0, 1, 2 and so on in the order in which they are created; number 0 is the main thread. Threads,
/// mutexes and conditions have ids, all from one counter: 1, 2, 3 and so on, never one twice. The main thread has no id.
/// Queues are first come, first served. In the calls `now` is the number of the entry that the call belongs to, and `t`
/// is the thread that calls, which is ready.
///
/// `new` and `create` make the room for their thread's place in any queue, so no call takes memory but `new`, `create`,
/// `mutex_create`, `cond_create` and `ready_list`.
#[derive(Debug, Drop)]
pub struct Threads {
    parts: Parts,
    wanted: Vec<usize>,
    unended: Vec<u32>,
}

impl Model for Threads {
    ghost use Rattle.rt_threads.specs.Table.{Table};
    ghost use Rattle.rt_threads.specs.Kept.{IsKept};

    ghost Value = { Table };

    ghost view = { λ a. a.parts };

    ghost invariant = { λ a. IsKept a.parts a.wanted.items a.unended.items };
}

// The most threads that have not ended at one time, the main thread among them.
const MOST_THREADS: usize = 256;

impl Threads {
    /// The main thread of a run, which is ready and begins with this procedure. The error is want of memory.
    pub fn new(alloc: Global, proc: u32) -> Result<Threads, NoMemory>
        ensures { IfOk result (λ threads. threads ≡ first_table proc) }
    {
        Ok(Threads {
            parts: Parts::new(alloc, proc)?,
            wanted: Vec::from_slice(alloc, &[0])?,
            unended: Vec::from_slice(alloc, &[0])?,
        })
    }

    /// ThreadCreate: a ready thread with the next number. Gives its id, or 0 exactly where 256 threads have not ended;
    /// no id is used up then. The error is want of memory, and all is as before then.
    pub fn create(&mut self, proc: u32, param: u64, now: u32) -> Result<u64, NoMemory>
        requires { given self.old < 2 ^ 30 }
        ensures ok { IfOk result (λ id. create proc param now self.old ≡ (id, self.new)) }
        ensures err { OnErr result (self.new ≡ self.old) }
    {
        if self.unended() < MOST_THREADS {
            self.add_thread(proc, param, now)
        } else {
            Ok(0)
        }
    }

    // Creates a thread, and gives its id.
    fn add_thread(&mut self, proc: u32, param: u64, now: u32) -> Result<u64, NoMemory>
        requires { given self.old < 2 ^ 30 }
        ensures ok { IfOk result (λ id. (id ≡ next_id self.old) × (self.new ≡ created proc param now self.old)) }
        ensures err { OnErr result (self.new ≡ self.old) }
    {
        let number = self.parts.count() as u32;
        self.wanted.reserve(1)?;
        self.unended.reserve(1)?;
        let id = self.parts.add_thread(proc, param, now)?;
        match self.wanted.push(0) {
            Ok(()) => (),
            Err(_) => unreachable!(),
        }
        match self.unended.push(number) {
            Ok(()) => Ok(id),
            Err(_) => unreachable!(),
        }
    }

    /// ThreadEnd: the thread ends, and the one that waits for it goes on; with that its id is given up. It keeps its
    /// mutexes.
    pub fn end(&mut self, t: u32, now: u32)
        requires { IsReady self.old t }
        ensures { self.new ≡ ended t now self.old }
    {
        self.parts.end(t, now);
        leave(&mut self.unended, t);
    }

    /// ThreadWait: waits for the end of the thread of this id. Where that is over, the id is given up.
    pub fn wait(&mut self, t: u32, id: u64, now: u32) -> Result<(), BadHandle>
        requires { IsReady self.old t }
        ensures { IsRow (wait t id now self.old) self.old self.new result }
    {
        self.parts.wait(t, id, now)
    }

    /// ThreadDetach: gives up the id of a thread, which goes on.
    pub fn detach(&mut self, t: u32, id: u64, now: u32) -> Result<(), BadHandle>
        requires { IsReady self.old t }
        ensures { IsRow (detach t id now self.old) self.old self.new result }
    {
        self.parts.detach(t, id, now)
    }

    /// MutexCreate: a mutex that is free. Gives its id. The error is want of memory, and all is as before then.
    pub fn mutex_create(&mut self) -> Result<u64, NoMemory>
        ensures ok { IfOk result (λ id. (id ≡ next_id self.old) × (self.new ≡ with_new (Handle.Mutex None) self.old)) }
        ensures err { OnErr result (self.new ≡ self.old) }
    {
        self.wanted.reserve(1)?;
        let id = self.parts.add_handle(Handle::Mutex { holder: None })?;
        match self.wanted.push(0) {
            Ok(()) => Ok(id),
            Err(_) => unreachable!(),
        }
    }

    /// MutexLock: takes a mutex that is free; else the thread waits at the end of its queue, also where it holds the
    /// mutex itself.
    pub fn lock(&mut self, t: u32, id: u64, now: u32) -> Result<(), BadHandle>
        requires { IsReady self.old t }
        ensures { IsRow (lock t id now self.old) self.old self.new result }
    {
        self.parts.lock(t, id, now)
    }

    /// MutexUnlock: gives up a mutex that the thread holds. It goes to the first of its queue, which becomes ready.
    pub fn unlock(&mut self, t: u32, id: u64, now: u32) -> Result<(), BadHandle>
        requires { IsReady self.old t }
        ensures { IsRow (unlock t id now self.old) self.old self.new result }
    {
        self.parts.unlock(t, id, now)
    }

    /// MutexDestroy: gives up the id of a mutex that is free, and that no thread gave up to wait at a condition.
    pub fn mutex_destroy(&mut self, t: u32, id: u64, now: u32) -> Result<(), BadHandle>
        requires { IsReady self.old t }
        ensures { IsRow (destroy_mutex t id now self.old) self.old self.new result }
    {
        let wanted = self.is_wanted(id);
        self.parts.destroy_mutex(t, id, now, wanted)
    }

    // Whether a thread that waits at a condition gave this mutex up.
    fn is_wanted(&self, id: u64) -> bool
        ensures { is_wanted self.now id ≡ result }
    {
        count_at(&self.wanted, id) != 0
    }

    /// CondCreate: a condition at which nobody waits. Gives its id. The error is want of memory, and all is as before then.
    pub fn cond_create(&mut self) -> Result<u64, NoMemory>
        ensures ok { IfOk result (λ id. (id ≡ next_id self.old) × (self.new ≡ with_new Handle.Condition self.old)) }
        ensures err { OnErr result (self.new ≡ self.old) }
    {
        self.wanted.reserve(1)?;
        let id = self.parts.add_handle(Handle::Condition)?;
        match self.wanted.push(0) {
            Ok(()) => Ok(id),
            Err(_) => unreachable!(),
        }
    }

    /// CondWait: gives up the mutex, which the thread holds, and waits at the end of the condition's queue.
    pub fn cond_wait(&mut self, t: u32, cond: u64, mutex: u64, now: u32) -> Result<(), BadHandle>
        requires { IsReady self.old t }
        ensures { IsRow (wait_at t cond mutex now self.old) self.old self.new result }
    {
        self.parts.wait_at(t, cond, mutex, now)?;
        let _all = self.wanted.len();
        self.wanted[mutex as usize] += 1;
        Ok(())
    }

    /// CondSignal: wakes the first that waits at the condition. It takes its mutex where that is free, and is ready;
    /// else it joins the mutex's queue. Where nobody waits the caller goes on, and nothing else changes.
    pub fn signal(&mut self, t: u32, id: u64, now: u32) -> Result<(), BadHandle>
        requires { IsReady self.old t }
        ensures { IsRow (signal t id now self.old) self.old self.new result }
    {
        if self.parts.is_condition(id) {
            self.wake_first(id, now);
            self.note(t, now);
            Ok(())
        } else {
            Err(BadHandle)
        }
    }

    /// CondBroadcast: wakes all that wait at the condition, in order, each as CondSignal does.
    pub fn broadcast(&mut self, t: u32, id: u64, now: u32) -> Result<(), BadHandle>
        requires { IsReady self.old t }
        ensures { IsRow (broadcast t id now self.old) self.old self.new result }
    {
        if self.parts.is_condition(id) {
            while self.wake_first(id, now) {}
            self.note(t, now);
            Ok(())
        } else {
            Err(BadHandle)
        }
    }

    /// CondDestroy: gives up the id of a condition at which nobody waits.
    pub fn cond_destroy(&mut self, t: u32, id: u64, now: u32) -> Result<(), BadHandle>
        requires { IsReady self.old t }
        ensures { IsRow (destroy_condition t id now self.old) self.old self.new result }
    {
        self.parts.destroy_condition(t, id, now)
    }

    /// Whether a thread is ready. There is none of a number that was not reached yet. Whoever has asked may use the laws of
    /// `laws`: they ask that a ready thread calls, on a table that stands.
    pub fn ready(&self, t: u32) -> bool
        ensures ready { is_ready (state_at self.now t) ≡ result }
        ensures stands { Stands self.now }
    {
        match self.parts.thread(t).state {
            State::Ready => true,
            _ => false,
        }
    }

    /// The number of the last entry that left a thread ready by a call here: that created it, woke it, or was its own; 0
    /// where there was none.
    pub fn start(&self, t: u32) -> u32
        ensures { (thread_at self.now t).start ≡ result }
    {
        self.parts.thread(t).start
    }

    /// A thread: what it does, when it was last made ready, and what it began with. One that there isn't has ended.
    pub fn thread(&self, t: u32) -> Thread
        ensures { thread_at self.now t ≡ result }
    {
        self.parts.thread(t)
    }

    /// How many ids were given.
    pub fn given(&self) -> usize
        ensures { given self.now ≡ result }
    {
        self.parts.ids().saturating_sub(1)
    }

    /// How many threads have not ended. Where none is ready they all wait.
    pub fn unended(&self) -> usize
        ensures { unended self.now ≡ result }
    {
        self.unended.len()
    }

    /// The numbers of the ready threads, rising. The error is want of memory.
    pub fn ready_list(&self, alloc: Global) -> Result<Schedule, NoMemory>
        ensures { IfOk result (λ list. list.items ≡ ready_numbers self.now) }
    {
        ready_of(alloc, &self.parts, &self.unended)
    }

    // Wakes the first that waits at a condition, and says whether one did.
    fn wake_first(&mut self, cond: u64, now: u32) -> bool
        requires { is_condition (handle_at self.old cond) ≡ true }
        ensures table { self.new ≡ wake_first cond now self.old }
        ensures woken { is_some (first_of (queue_at self.old cond)) ≡ result }
        ensures condition { is_condition (handle_at self.new cond) ≡ true }
        ensures rest { queue_at self.new cond ≡ drop 1 (queue_at self.old cond) }
        ensures ready { (t : ℕ) → IsReady self.old t → IsReady self.new t }
    {
        match self.parts.wake_first(cond, now) {
            None => false,
            Some(mutex) => {
                self.wanted[mutex as usize] -= 1;
                true
            }
        }
    }

    // The entry `now` leaves a thread ready.
    fn note(&mut self, t: u32, now: u32)
        requires { IsReady self.old t }
        ensures { self.new ≡ with_ready t now self.old }
    {
        self.parts.set_ready(t, now);
    }
}

// What is counted for an id; nothing where there is no such id.
fn count_at(counts: &[usize], id: u64) -> usize
    ensures { slice_index_or counts.now id 0 ≡ result }
{
    match counts.get(id as usize) {
        Some(count) => *count,
        None => 0,
    }
}

// Takes a number out of rising ones.
fn leave(numbers: &mut Vec<u32>, t: u32)
    requires { IsRising numbers.old.items }
    ensures { numbers.new.items ≡ filter (λ number. not (number == t)) numbers.old.items }
{
    if let Ok(at) = numbers.binary_search(&t) {
        numbers.remove(at);
    }
}

// Those of these threads that are ready.
fn ready_of(alloc: Global, parts: &Parts, numbers: &[u32]) -> Result<Schedule, NoMemory>
    ensures { IfOk result (λ list. list.items ≡ filter (λ number. is_ready (state_at parts.now number)) numbers.now) }
{
    let mut list = Schedule::new(alloc);
    for number in numbers {
        if let State::Ready = parts.thread(*number).state {
            list.room()?;
            list.add(*number);
        }
    }
    Ok(list)
}
