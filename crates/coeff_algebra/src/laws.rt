//! Laws of affine maps.

ghost use Rattle.std.specs.Prelude.{◌≡◌, ℕ, ◌<◌};
ghost use Rattle.coeff_algebra.specs.Maps.{map_apply, map_compose, HasWord};

use crate::coeff::Coeff;

/// The composition of two maps takes what it is applied to where the earlier and then the later map take it.
pub fn composition_is_application<C: Coeff>()
    ensures { (n : ℕ) (later earlier : ℕ → ℕ → C) (x : ℕ → C) (i : ℕ)
        → map_apply C.elements n (map_compose C.elements n later earlier) x i
        ≡ map_apply C.elements n later (map_apply C.elements n earlier x) i }
{}

/// Where each row of two maps has an element that is a word, each row of their composition has one.
pub fn composition_keeps_words<C: Coeff>()
    ensures { (n : ℕ) (later earlier : ℕ → ℕ → C) (i : ℕ) → HasWord C.elements n (later i)
        → ((l : ℕ) → l < n → HasWord C.elements n (earlier l)) → HasWord C.elements n (map_compose C.elements n later earlier i) }
{}
