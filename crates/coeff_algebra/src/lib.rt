//! Coefficients of affine maps on words, and the maps: their composition and their application.
#![tactic(auto)]

mod coeff;
mod laws;
mod map;
mod max_plus;
mod wrapping;

pub use coeff::Coeff;
pub use laws::{composition_is_application, composition_keeps_words};
pub use map::{apply_into, compose_into, load_at, store_at};
pub use max_plus::MaxPlus64;
pub use wrapping::Wrapping64;
