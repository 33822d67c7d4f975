//! Words after others, each with a space before it.

ghost use Rattle.std.specs.Prelude.{◌≡◌, ◌++◌, ◌∷◌, [], decimal, OnOk};
ghost use Rattle.plan_writer.specs.Words.{spaced, operand_word};

use itoa::Buffer;
use marple_base::Text;
use stage_plan::Operand;
use std::alloc::AllocError;

pub(crate) fn push_word(text: &mut Text, word: &[u8]) -> Result<(), AllocError>
    ensures { OnOk result (text.new ≡ text.old ++ spaced (word.now ∷ [])) }
{
    text.push(b' ')?;
    text.push_slice(word)
}

pub(crate) fn push_number(text: &mut Text, n: u64) -> Result<(), AllocError>
    ensures { OnOk result (text.new ≡ text.old ++ spaced (decimal n ∷ [])) }
{
    let mut buffer = Buffer::new();
    push_word(text, buffer.format(n).as_bytes())
}

// A byte that says what kind of number follows, and the number.
pub(crate) fn push_marked(text: &mut Text, mark: u8, n: u64) -> Result<(), AllocError>
    ensures { OnOk result (text.new ≡ text.old ++ spaced ((mark ∷ decimal n) ∷ [])) }
{
    let mut buffer = Buffer::new();
    text.push(b' ')?;
    text.push(mark)?;
    text.push_slice(buffer.format(n).as_bytes())
}

pub(crate) fn push_operand(text: &mut Text, operand: Operand) -> Result<(), AllocError>
    ensures { OnOk result (text.new ≡ text.old ++ spaced (operand_word operand ∷ [])) }
{
    match operand {
        Operand::Register(r) => push_marked(text, b'r', u64::from(r)),
        Operand::Number(n) => push_marked(text, b'#', n),
    }
}
