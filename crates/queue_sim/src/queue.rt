//! The output queue of a switch.

ghost use Rattle.std.specs.Prelude.{◌≡◌, ℕ, ◌+◌, ◌≤◌, ◌<◌, ◌^◌, [], IfOk, OnOk, List, None, Some, length, max, nat_lt, if◌then◌else◌};
ghost use Rattle.queue_sim.specs.{Generator.{still_there, with_some}, Queue.{Climbs, Holds}};

use std::alloc::{AllocError, Global};
use std::collections::VecDeque;

/// The times at which the packets leave that wait in the queue, in their order, and the last time at which a packet
/// that it accepted leaves.
#[derive(Drop)]
pub struct Queue {
    pub waiting: VecDeque<u64>,
    pub last: u64,
}

/// What a packet finds in a queue, and when it leaves; never where it is dropped.
#[derive(Clone, Copy)]
pub struct Place {
    pub qsize: usize,
    pub tout: Option<u64>,
}

impl Queue {
    /// The queue of a switch before its first packet.
    pub fn new(alloc: Global) -> Queue
        ensures { Holds result [] 0 }
    {
        Queue {
            waiting: VecDeque::new(alloc),
            last: 0,
        }
    }

    /// A packet comes at `now`, and takes a time of `length` to send. It is dropped where the queue is full.
    pub fn arrive(&mut self, now: u64, length: u64, capacity: usize) -> Result<Place, AllocError>
        requires fits { max now self.old.last + length < 2 ^ 64 }
        requires climbs { Climbs self.old.waiting.items self.old.last }
        ensures qsize { IfOk result (λ place. (before : ℕ) (touts : List ℕ) → Holds self.old touts before → before ≤ now
            → place.qsize ≡ still_there now touts) }
        ensures tout { IfOk result (λ place. place.tout
            ≡ (if nat_lt place.qsize capacity then Some (max now self.old.last + length) else None)) }
        ensures holds { IfOk result (λ place. (before : ℕ) (touts : List ℕ) → Holds self.old touts before → before ≤ now
            → Holds self.new (with_some place.tout touts) now) }
    {
        drop_left(&mut self.waiting, now);
        let qsize = self.waiting.len();
        if qsize >= capacity {
            return Ok(Place { qsize, tout: None });
        }
        let tout = now.max(self.last) + length;
        self.waiting.push_back(tout)?;
        self.last = tout;
        Ok(Place {
            qsize,
            tout: Some(tout),
        })
    }
}

// Takes off the packets that have left.
fn drop_left(waiting: &mut VecDeque<u64>, now: u64)
    ensures kept { (top : ℕ) → Climbs waiting.old.items top → Climbs waiting.new.items top }
    ensures later { (time : ℕ) → now ≤ time → still_there time waiting.new.items ≡ still_there time waiting.old.items }
    ensures all { (top : ℕ) → Climbs waiting.old.items top → still_there now waiting.new.items ≡ length waiting.new.items }
{
    for _turn in 0..waiting.len() {
        match waiting.front() {
            Some(tout) if *tout <= now => {}
            _ => return,
        }
        waiting.pop_front();
    }
}
