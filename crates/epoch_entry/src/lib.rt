//! The entries that a cache keeps for the open epochs of keys, and how they are merged into stored states.
#![tactic(auto)]

mod any;
mod bounds;
mod column;
mod identity;
mod kind;
mod laws;
mod linear;
mod log;
mod moving;
mod other;
mod purpose;
mod step;
mod triple;
mod words;

pub use any::AnyEpochs;
pub use bounds::BoundsEpochs;
pub use kind::EpochKind;
pub use laws::{entries_are_small, entries_suit_folds};
pub use linear::LinearEpochs;
pub use other::OtherEpochs;
pub use purpose::Entries;
