/// What a thread does.
#[derive(Clone, Copy, Debug)]
pub enum State {
    /// It can go on.
    Ready,
    /// It waits at this id, for the end of a thread or for a mutex.
    Waits { id: u64 },
    /// It waits at this condition, for which it gave this mutex up.
    Listens { cond: u64, mutex: u64 },
    /// It has ended.
    Ended,
}

/// A thread: what it does, the number of the entry that last made it ready, the procedure and the parameter that it
/// began with, and its id, which is 0 for the main thread.
#[derive(Clone, Copy, Debug)]
pub struct Thread {
    pub state: State,
    pub start: u32,
    pub proc: u32,
    pub param: u64,
    pub id: u64,
}

/// What an id names.
#[derive(Clone, Copy, Debug)]
pub enum Handle {
    /// Nothing: it was never given, or it is given up.
    Gone,
    /// The thread of this number.
    Joinable { thread: u32 },
    /// A mutex, which is free or has a holder.
    Mutex { holder: Option<u32> },
    /// A condition.
    Condition,
}

/// The id names nothing that this call is for, or nothing that the thread may do this with now.
#[derive(Clone, Copy, Debug, PartialEq, Eq)]
pub struct BadHandle;
