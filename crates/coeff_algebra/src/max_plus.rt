//! Words with an absent element, where the sum is the greater and the product a sum that saturates.

ghost use Rattle.std.specs.Prelude.{◌^◌, ◌<◌};
ghost use Rattle.coeff_algebra.specs.MaxPlusModel.{max_plus_elements, max_plus_words, max_plus_from_words, IsMaxPlus};
ghost use Rattle.coeff_algebra.specs.MaxPlusLaws.{max_plus_laws, max_plus_storage};

use crate::coeff::Coeff;

/// A word, or an element that is below all words.
#[derive(Clone, Copy, PartialEq, Eq)]
pub enum MaxPlus64 {
    Absent,
    Word(u64),
}

impl Coeff for MaxPlus64 {
    const WORDS: usize = 2;

    ghost WORDS = { 2 };

    ghost is_element = { IsMaxPlus };

    ghost elements = { max_plus_elements };

    ghost words = { max_plus_words };

    ghost from_words = { max_plus_from_words };

    ghost algebra = { max_plus_laws };

    ghost storage = { max_plus_storage };

    fn zero() -> MaxPlus64 {
        MaxPlus64::Absent
    }

    fn one() -> MaxPlus64 {
        MaxPlus64::Word(0)
    }

    fn add(self, other: MaxPlus64) -> MaxPlus64 {
        match self {
            MaxPlus64::Absent => other,
            MaxPlus64::Word(a) => match other {
                MaxPlus64::Absent => MaxPlus64::Word(a),
                MaxPlus64::Word(b) => MaxPlus64::Word(a.max(b)),
            },
        }
    }

    fn mul(self, other: MaxPlus64) -> MaxPlus64 {
        match self {
            MaxPlus64::Absent => MaxPlus64::Absent,
            MaxPlus64::Word(a) => match other {
                MaxPlus64::Absent => MaxPlus64::Absent,
                MaxPlus64::Word(b) => MaxPlus64::Word(a.saturating_add(b)),
            },
        }
    }

    fn embed(word: u64) -> MaxPlus64 {
        MaxPlus64::Word(word)
    }

    fn to_word(self) -> u64 {
        match self {
            MaxPlus64::Absent => 0,
            MaxPlus64::Word(a) => a,
        }
    }

    fn load(from: &[u64]) -> MaxPlus64 {
        if from[0] == 0 {
            MaxPlus64::Absent
        } else {
            MaxPlus64::Word(from[1])
        }
    }

    fn store(self, to: &mut [u64]) {
        match self {
            MaxPlus64::Absent => {
                to[0] = 0;
                to[1] = 0;
            }
            MaxPlus64::Word(a) => {
                to[0] = 1;
                to[1] = a;
            }
        }
    }
}
