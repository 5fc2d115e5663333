ghost use Rattle.std.specs.Prelude.{◌≡◌, ◌+◌, ◌<◌, ℕ, [], ◌∷◌, ◌++◌, drop, slice_index_or, slice_set, OnOk, OnErr, IfOk, IfSome, IfNone, is_none, length};
ghost use Rattle.rt_threads.specs.Lists.{first_of, StandsNowhere};
ghost use Rattle.rt_threads.specs.Linked.{linked, joined, shortened, LastIsWithin};

use crate::NoMemory;
use std::alloc::Global;
use std::marker::Model;

/// The two ends of a queue that isn't empty.
#[derive(Clone, Copy, Debug)]
struct Ends {
    first: u32,
    last: u32,
}

/// Queues in which members stand, first come first, each member in one queue at most. A member brings the room for
/// its place in any queue with it, so nothing but `add_queue` and `add_member` takes memory.
///
/// Each member that stands in a queue knows who stands behind it, and a queue knows its ends.
#[derive(Debug, Drop)]
pub struct Queues {
    behind: Vec<Option<u32>>,
    ends: Vec<Option<Ends>>,
}

impl Model for Queues {
    ghost use Rattle.rt_threads.specs.Lists.{Lists};
    ghost use Rattle.rt_threads.specs.Linked.{line_of, IsLinked};
    ghost use Rattle.std.specs.Prelude.{map, length};

    ghost Value = { Lists };

    ghost view = { λ q. record { lists = map (line_of q.behind.items) q.ends.items; members = length q.behind.items } };

    ghost invariant = { λ q. IsLinked q.behind.items q.ends.items };
}

impl Queues {
    /// One member, and one queue without members.
    pub fn new(alloc: Global) -> Result<Queues, NoMemory>
        ensures lists { IfOk result (λ queues. queues.lists ≡ [] ∷ []) }
        ensures members { IfOk result (λ queues. queues.members ≡ 1) }
    {
        Ok(Queues {
            behind: Vec::from_slice(alloc, &[None])?,
            ends: Vec::from_slice(alloc, &[None])?,
        })
    }

    /// Makes one more queue, the last one, which is empty. After an error, want of memory, all is as before.
    pub fn add_queue(&mut self) -> Result<(), NoMemory>
        ensures lists { OnOk result (self.new.lists ≡ self.old.lists ++ [] ∷ []) }
        ensures members { self.new.members ≡ self.old.members }
        ensures err { OnErr result (self.new ≡ self.old) }
    {
        self.ends.push(None)?;
        Ok(())
    }

    /// Makes one more member, who stands nowhere, and one more queue, the last one, which is empty. After an error, want
    /// of memory, all is as before.
    pub fn add_member(&mut self) -> Result<(), NoMemory>
        ensures lists { OnOk result (self.new.lists ≡ self.old.lists ++ [] ∷ []) }
        ensures members { OnOk result (self.new.members ≡ self.old.members + 1) }
        ensures err { OnErr result (self.new ≡ self.old) }
    {
        self.behind.reserve(1)?;
        self.ends.push(None)?;
        match self.behind.push(None) {
            Ok(()) => Ok(()),
            Err(_) => unreachable!(),
        }
    }

    /// Whether nobody stands in a queue. Where there is no such queue, nobody does.
    pub fn is_empty(&self, queue: usize) -> bool
        ensures { is_none (first_of (slice_index_or self.now.lists queue [])) ≡ result }
    {
        match self.ends.get(queue) {
            Some(Some(_)) => false,
            _ => true,
        }
    }

    /// Puts a member, who stands nowhere, at the end of a queue.
    pub fn push(&mut self, queue: usize, member: u32)
        requires queue { queue < length self.old.lists }
        requires member { member < self.old.members }
        requires nowhere { StandsNowhere member self.old.lists }
        ensures lists { self.new.lists ≡ slice_set self.old.lists queue (slice_index_or self.old.lists queue [] ++ member ∷ []) }
        ensures members { self.new.members ≡ self.old.members }
    {
        let ends = self.ends[queue];
        let ends = link(&mut self.behind, ends, member);
        self.ends[queue] = Some(ends);
    }

    /// Takes the first member out of a queue, if one stands there.
    pub fn pop(&mut self, queue: usize) -> Option<u32>
        requires { queue < length self.old.lists }
        ensures first { first_of (slice_index_or self.old.lists queue []) ≡ result }
        ensures rest { IfSome result (λ _. self.new.lists ≡ slice_set self.old.lists queue (drop 1 (slice_index_or self.old.lists queue []))) }
        ensures none { IfNone result (self.new.lists ≡ self.old.lists) }
        ensures members { self.new.members ≡ self.old.members }
    {
        let ends = self.ends[queue]?;
        let second = self.behind[ends.first as usize];
        self.ends[queue] = shorten(second, ends);
        Some(ends.first)
    }
}

// Tells the last member of the queue with these ends that one more stands behind it, and gives the ends then.
fn link(behind: &mut Vec<Option<u32>>, ends: Option<Ends>, member: u32) -> Ends
    requires member { member < length behind.old.items }
    requires last { LastIsWithin ends (length behind.old.items) }
    ensures behind { behind.new.items ≡ linked behind.old.items ends member }
    ensures ends { result ≡ joined ends member }
{
    behind[member as usize] = None;
    match ends {
        None => Ends {
            first: member,
            last: member,
        },
        Some(ends) => {
            behind[ends.last as usize] = Some(member);
            Ends {
                first: ends.first,
                last: member,
            }
        }
    }
}

// The ends of a queue without its first member, behind whom this one stands.
fn shorten(second: Option<u32>, ends: Ends) -> Option<Ends>
    ensures { result ≡ shortened second ends }
{
    match second {
        None => None,
        Some(second) => Some(Ends {
            first: second,
            last: ends.last,
        }),
    }
}
