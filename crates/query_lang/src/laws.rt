//! Laws about names, and about cutting a text into tokens.

ghost use Rattle.std.specs.Prelude.{◌≡◌, ℕ, ◌≤◌, List, [], ◌∷◌, length};
ghost use Rattle.query_lang.specs.Lexis.{cut, piece, TakesSome};

/// What comes first in a text takes at least one byte and no more than there are, and a fault is within the text.
pub fn pieces_take_bytes()
    ensures { (b : ℕ) (bytes : List ℕ) → TakesSome (piece (b ∷ bytes)) (length (b ∷ bytes)) }
{}

/// As many pieces as there are bytes are enough: a greater bound gives the same tokens.
pub fn bytes_bound_pieces()
    ensures { (bound at : ℕ) (names : List (List ℕ)) (bytes : List ℕ) → length bytes ≤ bound
        → cut bound at names bytes ≡ cut (length bytes) at names bytes }
{}
