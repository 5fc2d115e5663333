//! Each call on threads, mutexes and conditions, and each refusal, as one table; who is ready, and since when.
use fb_base::NoMemory;
use rt_threads::{BadHandle, Threads};
use std::alloc::Global;
use std::process::Abort;
use std::test::Fail;

// A call, with its ids.
#[derive(Clone, Copy)]
enum Act {
    Create,
    Wait(u64),
    Detach(u64),
    End,
    MutexCreate,
    Lock(u64),
    Unlock(u64),
    MutexDestroy(u64),
    CondCreate,
    CondWait(u64, u64),
    Signal(u64),
    Broadcast(u64),
    CondDestroy(u64),
}

use Act::{
    Broadcast, CondCreate, CondDestroy, CondWait, Create, Detach, End, Lock, MutexCreate,
    MutexDestroy, Signal, Unlock, Wait,
};

// A call that was done gives 0; one that was refused, nothing.
fn done(outcome: Result<(), BadHandle>) -> Option<u64> {
    match outcome {
        Ok(()) => Some(0),
        Err(BadHandle) => None,
    }
}

// Lets a thread, which must be ready, make a call.
fn make(
    rt: &impl Abort,
    threads: &mut Threads,
    t: u32,
    act: Act,
    now: u32,
) -> Result<Option<u64>, NoMemory> {
    assert!(rt; threads.ready(t), "thread {t} at {now}");
    assert!(rt; threads.given() < 1 << 30);
    match act {
        Create => Ok(Some(threads.create(7, 9, now)?)),
        Wait(id) => Ok(done(threads.wait(t, id, now))),
        Detach(id) => Ok(done(threads.detach(t, id, now))),
        End => {
            threads.end(t, now);
            Ok(Some(0))
        }
        MutexCreate => Ok(Some(threads.mutex_create()?)),
        Lock(id) => Ok(done(threads.lock(t, id, now))),
        Unlock(id) => Ok(done(threads.unlock(t, id, now))),
        MutexDestroy(id) => Ok(done(threads.mutex_destroy(t, id, now))),
        CondCreate => Ok(Some(threads.cond_create()?)),
        CondWait(cond, mutex) => Ok(done(threads.cond_wait(t, cond, mutex, now))),
        Signal(id) => Ok(done(threads.signal(t, id, now))),
        Broadcast(id) => Ok(done(threads.broadcast(t, id, now))),
        CondDestroy(id) => Ok(done(threads.cond_destroy(t, id, now))),
    }
}

// Makes calls one after another: who calls, the call, what it gives, and who is ready then.
fn play(
    rt: &impl Abort,
    alloc: Global,
    steps: &[(u32, Act, Option<u64>, &[u32])],
) -> Result<(), Fail> {
    let mut threads = Threads::new(alloc, 0)?;
    let mut now = 0u32;
    for (t, act, answer, ready) in steps {
        now = now.saturating_add(1);
        let given = make(rt, &mut threads, *t, *act, now)?;
        assert_eq!(rt; given, *answer, "call {now}");
        let list = threads.ready_list(alloc)?;
        assert_eq!(rt; list.threads(), *ready, "call {now}");
    }
    Ok(())
}

#[test]
fn calls_and_refusals(rt: HostRuntime) -> Result<(), Fail> {
    play(
        &rt,
        rt.alloc(),
        &[
            (0, MutexCreate, Some(1), &[0]),
            (0, CondCreate, Some(2), &[0]),
            (0, Create, Some(3), &[0, 1]),
            // ids that were never given, and those of other kinds
            (0, Lock(0), None, &[0, 1]),
            (0, Lock(4), None, &[0, 1]),
            (0, Lock(2), None, &[0, 1]),
            (0, Unlock(3), None, &[0, 1]),
            (0, MutexDestroy(2), None, &[0, 1]),
            (0, Wait(1), None, &[0, 1]),
            (0, Detach(2), None, &[0, 1]),
            (0, Signal(1), None, &[0, 1]),
            (0, Broadcast(3), None, &[0, 1]),
            (0, CondDestroy(1), None, &[0, 1]),
            (0, CondWait(1, 1), None, &[0, 1]),
            (0, CondWait(2, 2), None, &[0, 1]),
            // a mutex that the caller doesn't hold
            (0, Unlock(1), None, &[0, 1]),
            (0, CondWait(2, 1), None, &[0, 1]),
            (1, Lock(1), Some(0), &[0, 1]),
            (0, Unlock(1), None, &[0, 1]),
            (0, CondWait(2, 1), None, &[0, 1]),
            (0, MutexDestroy(1), None, &[0, 1]),
            // a mutex that was given up for a condition, and that condition
            (1, CondWait(2, 1), Some(0), &[0]),
            (0, MutexDestroy(1), None, &[0]),
            (0, CondDestroy(2), None, &[0]),
            (0, Signal(2), Some(0), &[0, 1]),
            // a mutex that is waited for
            (0, Lock(1), Some(0), &[1]),
            (1, Unlock(1), Some(0), &[0, 1]),
            (1, MutexDestroy(1), None, &[0, 1]),
            (0, Unlock(1), Some(0), &[0, 1]),
            (0, MutexDestroy(1), Some(0), &[0, 1]),
            (0, Lock(1), None, &[0, 1]),
            (0, CondDestroy(2), Some(0), &[0, 1]),
            (0, Broadcast(2), None, &[0, 1]),
            // a thread that is waited for, one that has ended, and one whose id is given up
            (0, Wait(3), Some(0), &[1]),
            (1, Wait(3), None, &[1]),
            (1, Detach(3), None, &[1]),
            (1, End, Some(0), &[0]),
            (0, Wait(3), None, &[0]),
            (0, Create, Some(4), &[0, 2]),
            (2, End, Some(0), &[0]),
            (0, Wait(4), Some(0), &[0]),
            (0, Wait(4), None, &[0]),
            (0, Create, Some(5), &[0, 3]),
            (0, Detach(5), Some(0), &[0, 3]),
            (0, Wait(5), None, &[0, 3]),
            (3, End, Some(0), &[0]),
            // who locks a mutex that it holds waits
            (0, MutexCreate, Some(6), &[0]),
            (0, Lock(6), Some(0), &[0]),
            (0, Lock(6), Some(0), &[]),
        ],
    )
}

#[test]
fn broadcast_with_the_mutex_held(rt: HostRuntime) -> Result<(), Fail> {
    play(
        &rt,
        rt.alloc(),
        &[
            (0, MutexCreate, Some(1), &[0]),
            (0, CondCreate, Some(2), &[0]),
            (0, Create, Some(3), &[0, 1]),
            (0, Create, Some(4), &[0, 1, 2]),
            (0, Create, Some(5), &[0, 1, 2, 3]),
            (3, Lock(1), Some(0), &[0, 1, 2, 3]),
            (3, CondWait(2, 1), Some(0), &[0, 1, 2]),
            (1, Lock(1), Some(0), &[0, 1, 2]),
            (1, CondWait(2, 1), Some(0), &[0, 2]),
            (2, Lock(1), Some(0), &[0, 2]),
            (2, CondWait(2, 1), Some(0), &[0]),
            (0, Lock(1), Some(0), &[0]),
            (0, Broadcast(2), Some(0), &[0]),
            (0, Unlock(1), Some(0), &[0, 3]),
            (3, Unlock(1), Some(0), &[0, 1, 3]),
            (1, Unlock(1), Some(0), &[0, 1, 2, 3]),
        ],
    )
}

#[test]
fn most_threads(rt: HostRuntime) -> Result<(), Fail> {
    let mut threads = Threads::new(rt.alloc(), 0)?;
    for id in 1..256 {
        assert_eq!(rt; make(&rt, &mut threads, 0, Create, 1)?, Some(id));
    }
    assert_eq!(rt; make(&rt, &mut threads, 0, Create, 2)?, Some(0));
    assert_eq!(rt; threads.unended(), 256);
    assert_eq!(rt; make(&rt, &mut threads, 5, End, 3)?, Some(0));
    assert_eq!(rt; make(&rt, &mut threads, 0, Create, 4)?, Some(256));
    Ok(())
}

#[test]
fn starts(rt: HostRuntime) -> Result<(), Fail> {
    let mut threads = Threads::new(rt.alloc(), 0)?;
    assert_eq!(rt; threads.start(0), 0);
    assert_eq!(rt; make(&rt, &mut threads, 0, MutexCreate, 1)?, Some(1));
    assert_eq!(rt; make(&rt, &mut threads, 0, Create, 2)?, Some(2));
    assert_eq!(rt; threads.start(1), 2);
    assert_eq!(rt; make(&rt, &mut threads, 0, Lock(1), 3)?, Some(0));
    assert_eq!(rt; make(&rt, &mut threads, 1, Lock(1), 4)?, Some(0));
    assert_eq!(rt; (threads.start(0), threads.start(1)), (3, 2));
    assert_eq!(rt; make(&rt, &mut threads, 0, Unlock(1), 5)?, Some(0));
    assert_eq!(rt; (threads.start(0), threads.start(1)), (5, 5));
    assert_eq!(rt; make(&rt, &mut threads, 0, Unlock(1), 6)?, None);
    assert_eq!(rt; (threads.start(0), threads.start(9)), (5, 0));
    Ok(())
}
