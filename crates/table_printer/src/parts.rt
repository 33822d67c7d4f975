//! Lines of parts that are separated by commas.
ghost use Rattle.std.specs.Prelude.{◌≡◌, ◌++◌, ◌∷◌, [], Bool, true, OnOk, decimal, if◌then◌else◌};
ghost use Rattle.table_printer.specs.{TableText.numbers, Parts.parts_from};

use itoa::Buffer;
use marple_base::{Text, TextBuffer};
use std::alloc::AllocError;

/// Writes the decimal digits of a number.
pub fn push_number(text: &mut TextBuffer, n: u64) -> Result<(), AllocError>
    ensures { OnOk result (text.new ≡ text.old ++ decimal n) }
{
    let mut buffer = Buffer::new();
    text.push_slice(buffer.format(n).as_bytes())
}

/// Writes a part of a line, with a comma before it unless it is the line's first.
pub fn push_part(text: &mut TextBuffer, is_first: bool, part: &[u8]) -> Result<(), AllocError>
    ensures { OnOk result (text.new ≡ text.old ++ parts_from is_first (part.now ∷ [])) }
{
    if !is_first {
        text.push(b',')?;
    }
    text.push_slice(part)
}

/// Writes a number as a part of a line.
pub fn push_word(text: &mut TextBuffer, is_first: bool, word: u64) -> Result<(), AllocError>
    ensures { OnOk result (text.new ≡ text.old ++ parts_from is_first (decimal word ∷ [])) }
{
    let mut buffer = Buffer::new();
    push_part(text, is_first, buffer.format(word).as_bytes())
}

/// Writes words as parts of a line.
pub fn push_words(text: &mut TextBuffer, begins: bool, words: &[u64]) -> Result<(), AllocError>
    ensures { OnOk result (text.new ≡ text.old ++ parts_from begins (numbers words.now)) }
{
    let mut is_first = begins;
    'words: for word in words {
        push_word(text, is_first, *word)?;
        is_first = false;
    }
    Ok(())
}

/// Writes names as parts of a line.
pub fn push_names(text: &mut TextBuffer, begins: bool, names: &[Text]) -> Result<(), AllocError>
    ensures { OnOk result (text.new ≡ text.old ++ parts_from begins names.now) }
{
    let mut is_first = begins;
    'names: for name in names {
        push_part(text, is_first, name.as_slice())?;
        is_first = false;
    }
    Ok(())
}
