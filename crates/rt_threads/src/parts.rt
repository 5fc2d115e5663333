ghost use Rattle.std.specs.Prelude.{◌≡◌, ◌+◌, ◌<◌, ◌≤◌, ◌^◌, ℕ, [], ◌∷◌, ◌++◌, drop, length, IfOk, IfSome, IfNone, OnOk, OnErr};
ghost use Rattle.rt_threads.specs.Lists.{first_of, times};
ghost use Rattle.rt_threads.specs.Table.{thread_at, handle_at, queue_at, with_handle, with_queue, with_ready, with_state, queued};
ghost use Rattle.rt_threads.specs.Rows.{first_table, is_quiet, with_new, created};

use crate::queues::Queues;
use crate::{Handle, NoMemory, State, Thread};
use std::alloc::Global;
use std::marker::Model;

/// The table: threads by number, what ids name, and queues by id. Each change of it is one of the definition's.
#[derive(Debug, Drop)]
pub struct Parts {
    threads: Vec<Thread>,
    handles: Vec<Handle>,
    queues: Queues,
}

impl Model for Parts {
    ghost use Rattle.std.specs.Prelude.{◌≡◌, length};
    ghost use Rattle.rt_threads.specs.Table.{Table};

    ghost Value = { Table };

    ghost view = { λ p. record { threads = p.threads.items; handles = p.handles.items; queues = p.queues.lists } };

    ghost invariant = { λ p. p.queues.members ≡ length p.threads.items };
}

impl Parts {
    /// The table at the start of a run of this procedure.
    pub fn new(alloc: Global, proc: u32) -> Result<Parts, NoMemory>
        ensures { IfOk result (λ parts. parts ≡ first_table proc) }
    {
        let main = Thread {
            state: State::Ready,
            start: 0,
            proc,
            param: 0,
            id: 0,
        };
        Ok(Parts {
            threads: Vec::from_slice(alloc, &[main])?,
            handles: Vec::from_slice(alloc, &[Handle::Gone])?,
            queues: Queues::new(alloc)?,
        })
    }

    /// The thread of a number; one that there isn't has ended.
    pub fn thread(&self, t: u32) -> Thread
        ensures { thread_at self.now t ≡ result }
    {
        match self.threads.get(t as usize) {
            Some(thread) => *thread,
            None => NOBODY,
        }
    }

    /// How many threads there are, those that have ended among them.
    pub fn count(&self) -> usize
        ensures { result ≡ length self.now.threads }
    {
        self.threads.len()
    }

    /// The id that is given next.
    pub fn ids(&self) -> usize
        ensures { result ≡ length self.now.handles }
    {
        self.handles.len()
    }

    /// What an id names.
    pub fn handle(&self, id: u64) -> Handle
        ensures { handle_at self.now id ≡ result }
    {
        match self.handles.get(id as usize) {
            Some(handle) => *handle,
            None => Handle::Gone,
        }
    }

    /// Whether nobody waits at an id.
    pub fn is_quiet(&self, id: u64) -> bool
        ensures { is_quiet self.now id ≡ result }
    {
        self.queues.is_empty(id as usize)
    }

    /// Lets an id name this.
    pub fn set_handle(&mut self, id: u64, handle: Handle)
        requires { id < length self.old.handles }
        ensures { self.new ≡ with_handle id handle self.old }
    {
        self.handles[id as usize] = handle;
    }

    /// The entry `now` leaves a thread ready.
    pub fn set_ready(&mut self, t: u32, now: u32)
        requires { t < length self.old.threads }
        ensures { self.new ≡ with_ready t now self.old }
    {
        let thread = &mut self.threads[t as usize];
        thread.state = State::Ready;
        thread.start = now;
    }

    /// What a thread does is another thing.
    pub fn set_state(&mut self, t: u32, state: State)
        requires { t < length self.old.threads }
        ensures { self.new ≡ with_state t state self.old }
    {
        let thread = &mut self.threads[t as usize];
        thread.state = state;
    }

    /// Puts a thread, which stands in no queue, at the end of the queue of an id.
    pub fn queue(&mut self, t: u32, id: u64, state: State)
        requires thread { t < length self.old.threads }
        requires id { id < length self.old.queues }
        requires nowhere { (k : ℕ) → times t (queue_at self.old k) ≡ 0 }
        ensures { self.new ≡ queued t id state self.old }
    {
        self.queues.push(id as usize, t);
        let thread = &mut self.threads[t as usize];
        thread.state = state;
    }

    /// Takes the first thread out of the queue of an id, if one waits there.
    pub fn take_first(&mut self, id: u64) -> Option<u32>
        requires { id < length self.old.queues }
        ensures first { first_of (queue_at self.old id) ≡ result }
        ensures rest { IfSome result (λ _. self.new ≡ with_queue id (drop 1 (queue_at self.old id)) self.old) }
        ensures none { IfNone result (self.new ≡ self.old) }
    {
        self.queues.pop(id as usize)
    }

    /// Gives the next id to this. The error is want of memory; all is as before then.
    pub fn add_handle(&mut self, handle: Handle) -> Result<u64, NoMemory>
        ensures ok { OnOk result (self.new ≡ with_new handle self.old) }
        ensures id { IfOk result (λ id. id ≡ length self.old.handles) }
        ensures err { OnErr result (self.new ≡ self.old) }
    {
        let id = self.handles.len() as u64;
        self.handles.reserve(1)?;
        self.queues.add_queue()?;
        match self.handles.push(handle) {
            Ok(()) => Ok(id),
            Err(_) => unreachable!(),
        }
    }

    /// Creates a thread, and gives its id. The error is want of memory; all is as before then.
    pub fn add_thread(&mut self, proc: u32, param: u64, now: u32) -> Result<u64, NoMemory>
        requires { length self.old.threads < 2 ^ 32 }
        ensures ok { OnOk result (self.new ≡ created proc param now self.old) }
        ensures id { IfOk result (λ id. id ≡ length self.old.handles) }
        ensures err { OnErr result (self.new ≡ self.old) }
    {
        let number = self.threads.len() as u32;
        let id = self.handles.len() as u64;
        self.threads.reserve(1)?;
        self.handles.reserve(1)?;
        self.queues.add_member()?;
        let thread = Thread {
            state: State::Ready,
            start: now,
            proc,
            param,
            id,
        };
        match self.threads.push(thread) {
            Ok(()) => (),
            Err(_) => unreachable!(),
        }
        match self.handles.push(Handle::Joinable { thread: number }) {
            Ok(()) => Ok(id),
            Err(_) => unreachable!(),
        }
    }
}

// The thread that stands where there is none.
const NOBODY: Thread = Thread {
    state: State::Ended,
    start: 0,
    proc: 0,
    param: 0,
    id: 0,
};
