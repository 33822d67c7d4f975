//! What the options of a run give.

ghost use Rattle.std.specs.Prelude.{◌≡◌};
ghost use Rattle.command_line.specs.Command.{ways_number, ways_of};

use crate::number::number_within;

/// How many keys a bucket of the cache holds.
#[derive(Clone, Copy)]
pub enum Ways {
    One,
    Two,
    Four,
    Eight,
    Sixteen,
    ThirtyTwo,
}

impl Ways {
    /// How many ways these are.
    pub fn number(self) -> u32
        ensures { result ≡ ways_number self }
    {
        match self {
            Ways::One => 1,
            Ways::Two => 2,
            Ways::Four => 4,
            Ways::Eight => 8,
            Ways::Sixteen => 16,
            Ways::ThirtyTwo => 32,
        }
    }
}

/// The caches and pipes of a run, and when entries are merged and caches emptied.
#[derive(Clone, Copy)]
pub struct Setting {
    /// The buckets of each groupby's cache.
    pub buckets: u32,
    pub ways: Ways,
    /// The most records that wait in the pipe of each groupby.
    pub pipe: u32,
    /// A record of each groupby is merged after every `lag` packets.
    pub lag: u32,
    /// The caches are emptied after every `refresh` packets, or at the end alone where this is 0.
    pub refresh: u32,
}

/// The caches and pipes of each switch, where several switches share one store, and when entries are merged.
#[derive(Clone, Copy)]
pub struct NetSetting {
    /// The buckets of the cache that a switch has for each groupby.
    pub buckets: u32,
    pub ways: Ways,
    /// The most records that wait in the pipe that a switch has for each groupby.
    pub pipe: u32,
    /// A record of each pipe of a switch is merged after every `lag` packets of that switch.
    pub lag: u32,
}

/// The ways that a word gives.
pub fn ways_of(word: &[u8]) -> Option<Ways>
    ensures { result ≡ ways_of word.now }
{
    match number_within(1, 32, word)? {
        1 => Some(Ways::One),
        2 => Some(Ways::Two),
        4 => Some(Ways::Four),
        8 => Some(Ways::Eight),
        16 => Some(Ways::Sixteen),
        32 => Some(Ways::ThirtyTwo),
        _ => None,
    }
}
