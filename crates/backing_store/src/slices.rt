//! Rows of one width, stored one after another.

ghost use Rattle.std.specs.Prelude.{◌≡◌, ◌+◌, ◌*◌, ◌≤◌, length};
ghost use Rattle.epoch_model.specs.Keys.{key_eq};
ghost use Rattle.backing_store.specs.Prints.{row_at};

/// The row at a place.
pub fn row(words: &[u64], width: usize, at: usize) -> &[u64]
    requires { at * width + width ≤ length words.now }
    ensures { result.now ≡ row_at width words.now at }
{
    let start = at * width;
    &words[start..start + width]
}

/// Are the words the same?
#[tactic(auto, unfolding(epoch_model::specs::Keys::key_eq))]
pub fn is_same(a: &[u64], b: &[u64]) -> bool
    ensures { result ≡ key_eq a.now b.now }
{
    a == b
}
