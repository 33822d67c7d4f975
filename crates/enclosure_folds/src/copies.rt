//! Copies of words and names.

ghost use Rattle.std.specs.Prelude.{◌≡◌, ◌++◌, IfOk, OnOk};

use marple_base::{Seq, Text};
use std::alloc::{AllocError, Global};

pub(crate) fn words_copy(alloc: Global, words: &[u64]) -> Result<Seq<u64>, AllocError>
    ensures { IfOk result (λ copy. copy ≡ words.now) }
{
    Ok(Seq::from_vec(Vec::from_slice(alloc, words)?))
}

// Appends copies of more names to these.
pub(crate) fn push_copies(
    alloc: Global,
    names: &mut Seq<Text>,
    more: &[Text],
) -> Result<(), AllocError>
    ensures { OnOk result (names.new ≡ names.old ++ more.now) }
{
    for name in more {
        names.push(Text::from_slice(alloc, name.as_slice())?)?;
    }
    Ok(())
}

pub(crate) fn names_copy(alloc: Global, names: &[Text]) -> Result<Seq<Text>, AllocError>
    ensures { IfOk result (λ copy. copy ≡ names.now) }
{
    let mut copy = Seq::new(alloc);
    push_copies(alloc, &mut copy, names)?;
    Ok(copy)
}
