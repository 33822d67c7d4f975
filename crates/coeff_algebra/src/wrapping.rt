//! Words modulo 2^64.

ghost use Rattle.std.specs.Prelude.{◌^◌, ◌<◌};
ghost use Rattle.coeff_algebra.specs.WrappingModel.{wrapping_elements, wrapping_words, wrapping_from_words, IsWrapping};
ghost use Rattle.coeff_algebra.specs.WrappingLaws.{wrapping_laws, wrapping_storage};

use crate::coeff::Coeff;

/// A word, with sums and products modulo 2^64.
#[derive(Clone, Copy, PartialEq, Eq)]
pub struct Wrapping64 {
    pub word: u64,
}

impl Coeff for Wrapping64 {
    const WORDS: usize = 1;

    ghost WORDS = { 1 };

    ghost is_element = { IsWrapping };

    ghost elements = { wrapping_elements };

    ghost words = { wrapping_words };

    ghost from_words = { wrapping_from_words };

    ghost algebra = { wrapping_laws };

    ghost storage = { wrapping_storage };

    fn zero() -> Wrapping64 {
        Wrapping64 { word: 0 }
    }

    fn one() -> Wrapping64 {
        Wrapping64 { word: 1 }
    }

    fn add(self, other: Wrapping64) -> Wrapping64 {
        Wrapping64 {
            word: self.word.wrapping_add(other.word),
        }
    }

    fn mul(self, other: Wrapping64) -> Wrapping64 {
        Wrapping64 {
            word: self.word.wrapping_mul(other.word),
        }
    }

    fn embed(word: u64) -> Wrapping64 {
        Wrapping64 { word }
    }

    fn to_word(self) -> u64 {
        self.word
    }

    fn load(from: &[u64]) -> Wrapping64 {
        Wrapping64 { word: from[0] }
    }

    fn store(self, to: &mut [u64]) {
        to[0] = self.word;
    }
}
