//! Counting to a number, over and over.

ghost use Rattle.std.specs.Prelude.{◌≡◌, ◌+◌, ℕ, suc};
ghost use Rattle.epoch_model.specs.Epochs.{is_refresh};
ghost use Rattle.trace_drive.specs.Clocks.{HasCounted};

/// Is due at each multiple of a number of packets, and never where that is 0.
#[derive(Clone, Copy)]
pub struct Clock {
    every: u32,
    since: u32,
}

impl Clock {
    /// A clock that has counted no packet.
    pub fn new(every: u32) -> Clock
        ensures every { result.every ≡ every }
        ensures counted { HasCounted 0 result }
    {
        Clock { every, since: 0 }
    }

    /// Counts a packet, and says whether its number is a multiple.
    pub fn is_due(&mut self) -> bool
        requires { (number : ℕ) × HasCounted number self.old }
        ensures is_due { (number : ℕ) → HasCounted number self.old → result ≡ is_refresh self.old.every (suc number) }
        ensures counted { (number : ℕ) → HasCounted number self.old → HasCounted (suc number) self.new }
        ensures every { self.new.every ≡ self.old.every }
    {
        if self.every == 0 {
            return false;
        }
        self.since += 1;
        if self.since < self.every {
            return false;
        }
        self.since = 0;
        true
    }
}
