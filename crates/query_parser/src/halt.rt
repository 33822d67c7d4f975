//! Why reading stops.

ghost use Rattle.std.specs.Prelude.{◌≡◌};
ghost use Rattle.query_parser.specs.declared.halt.Halt.TheVariants.{Memory};

use query_grammar::Stop;
use std::alloc::AllocError;

/// Why nothing was read: the first of the tokens that are left is a fault, or memory ran out.
#[derive(Clone, Copy)]
pub enum Halt {
    At(Stop),
    Memory,
}

impl From<AllocError> for Halt {
    ghost from_gives = { λ _ h. h ≡ Memory };

    fn from(_e: AllocError) -> Halt {
        Halt::Memory
    }
}

/// What was read.
pub type Read<T> = Result<T, Halt>;

/// What was read, or else the function returns why nothing was. It is what `?` does between functions that fail alike, without
/// the two calls that `?` stands for, each of which is more to prove at every token.
macro_rules! read {
    ($reading:expr) => {
        match $reading {
            Ok(found) => found,
            Err(halt) => return Err(halt),
        }
    };
}

pub(crate) use read;
