//! Every call of the lock, by one thread.
ghost use Rattle.std.specs.Prelude.{◌≡◌};
ghost use Rattle.commit_lock.specs.Meanings.{base_of, parts_of, IsOf};

use crate::tally::Tally;
use commit_lock::{Seat, TurnLock};
use std::alloc::Global;
use std::sync::Wait;
use std::test::Fail;

// Adds a number in a turn; where there is no memory it is left out.
fn add<R: Wait>(rt: &R, lock: &TurnLock<Tally>, seat: Seat, number: u32) -> Seat
    requires { IsOf lock.now seat }
    ensures own { IsOf lock.now result }
    ensures same { (base_of result ≡ base_of seat) × (parts_of result ≡ parts_of seat) }
{
    let mut held = lock.enter(rt, seat);
    let _ = held.value.add(number);
    lock.leave(held)
}

// A tally to which two seats of three added a number each, and to which the third added nothing.
fn shared_out<R: Wait>(rt: &R, alloc: Global, tally: Tally) -> Result<Tally, Tally> {
    let (lock, seat) = TurnLock::new(alloc, tally, 3)?;
    let (seat, one) = lock.split(seat);
    let (seat, two) = lock.split(seat);
    let one = add(rt, &lock, one, 2);
    let two = lock.idle(rt, add(rt, &lock, two, 3));
    let seat = lock.join(lock.idle(rt, seat), lock.join(one, two));
    Ok(lock.close(seat))
}

#[test]
fn every_call_by_one_thread(rt: HostRuntime) -> Result<(), Fail> {
    let mut tally = Tally::new(rt.alloc(), 7, 3)?;
    tally.add(1)?;
    match shared_out(&rt, rt.alloc(), tally) {
        Ok(tally) => {
            assert_eq!(rt; tally.name, 7);
            assert_eq!(rt; tally.numbers(), [1, 2, 3].as_slice());
            Ok(())
        }
        Err(_) => Err("want of memory".into()),
    }
}
