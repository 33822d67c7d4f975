// Keys, compared word by word.

ghost use Rattle.std.specs.{Prelude.{◌≡◌}, Ordering.is_lt};
ghost use Rattle.epoch_model.specs.Keys.{key_cmp, key_eq};

#[tactic(auto, unfolding(epoch_model::specs::Keys::key_eq))]
pub fn is_same_key(a: &[u64], b: &[u64]) -> bool
    ensures { result ≡ key_eq a.now b.now }
{
    a == b
}

#[tactic(auto, unfolding(epoch_model::specs::Keys::key_cmp))]
pub fn is_smaller_key(a: &[u64], b: &[u64]) -> bool
    ensures { result ≡ is_lt (key_cmp a.now b.now) }
{
    a.cmp(b).is_lt()
}
