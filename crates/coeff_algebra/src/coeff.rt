//! What can be a coefficient of an affine map.

ghost use Rattle.std.specs.Prelude.{◌≡◌, ℕ, List, length};
ghost use Rattle.coeff_algebra.specs.Elements.{Elements, ElementLaws, StorageLaws};

/// A semiring with words among its elements, each of which is stored in one or two words.
pub trait Coeff: Copy + Eq {
    /// The words of an element.
    const WORDS: usize;

    ghost WORDS: { ℕ };

    /// What the values of the type are.
    ghost is_element: { Self → Type 0 };

    ghost elements: { Elements Self };

    ghost words: { Self → List ℕ };

    ghost from_words: { List ℕ → Self };

    fn zero() -> Self
        ensures { result ≡ elements.zero };

    fn one() -> Self
        ensures { result ≡ elements.one };

    fn add(self, other: Self) -> Self
        ensures { result ≡ elements.add self other };

    fn mul(self, other: Self) -> Self
        ensures { result ≡ elements.mul self other };

    /// The element that a word is.
    fn embed(word: u64) -> Self
        ensures { result ≡ elements.embed word };

    /// The word that an element is read as.
    fn to_word(self) -> u64
        ensures { result ≡ elements.to_word self };

    /// The element that its words hold.
    fn load(from: &[u64]) -> Self
        requires { length from.now ≡ WORDS }
        ensures { result ≡ from_words from.now };

    fn store(self, to: &mut [u64])
        requires { length to.old ≡ WORDS }
        ensures { to.new ≡ words self };

    ghost algebra: { ElementLaws is_element elements };

    ghost storage: { StorageLaws words from_words WORDS };
}
