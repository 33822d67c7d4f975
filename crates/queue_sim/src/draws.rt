//! Pseudo-random numbers.

ghost use Rattle.std.specs.Prelude.{◌≡◌, ℕ, ◌+◌, ◌/◌, ◌^◌, ◌<◌};
ghost use Rattle.queue_sim.specs.{Draws.IsDrawn, Generator.{drawn_after, next_state, state_after}};

/// A linear congruential generator.
#[derive(Drop)]
pub struct Draws {
    pub state: u64,
    ghost small: { state < 2 ^ 31 },
}

/// What four draws say of a packet.
#[derive(Clone, Copy)]
pub struct Drawn {
    pub gap: u64,
    pub flow: u64,
    pub payload: u64,
    pub skipped: u64,
}

impl Draws {
    /// The draws from this start on.
    pub fn new(start: u32) -> Draws
        requires { start < 2 ^ 31 }
        ensures { result.state ≡ start }
    {
        Draws {
            state: u64::from(start),
        }
    }

    // The next draw.
    fn next(&mut self) -> u64
        ensures state { self.new.state ≡ next_state self.old.state }
        ensures value { result ≡ self.new.state / 2 ^ 16 }
    {
        self.state = (self.state * 1103515245 + 12345) % 2147483648;
        self.state >> 16
    }

    /// Four draws, after `draws` others.
    #[tactic(auto, unfolding(crate::specs::Generator::state_after))]
    pub fn next_packet(&mut self) -> Drawn
        ensures drawn { (start draws : ℕ) → self.old.state ≡ state_after start draws
            → (self.new.state ≡ state_after start (draws + 4)) × IsDrawn result (drawn_after start draws) }
        ensures small { (result.gap < 50) × (result.flow < 64) × (result.payload < 1461) × (result.skipped < 2) }
    {
        let gap = self.next() % 50;
        let flow = self.next() % 64;
        let payload = self.next() % 1461;
        let skipped = u64::from(self.next() % 16 == 0);
        Drawn {
            gap,
            flow,
            payload,
            skipped,
        }
    }
}
