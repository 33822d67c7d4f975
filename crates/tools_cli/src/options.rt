//! The options of a splitting, which may stand anywhere among its operands.

ghost use Rattle.std.specs.Prelude.{◌≡◌, ◌<◌, ◌∷◌, [], IfNone, IfOk, IfSome, length, map, string_bytes};
ghost use Rattle.tools_cli.specs.{Command.has_traces, Options.{AreWithin, is_dashed, is_option, is_range, no_options, operands}};
ghost use Rattle.tools_cli.specs.Options.{options_from, with_option, with_range};

use crate::number::large_number;
use command_line::number_within;
use std::alloc::{AllocError, Global};
use trace_ranges::Range;

/// The options that were named so far.
#[derive(Clone, Copy, PartialEq, Eq)]
pub(crate) struct SplitOptions {
    pub(crate) parts: Option<u32>,
    pub(crate) salt: Option<u32>,
    pub(crate) into: bool,
    pub(crate) range: Option<Range>,
}

const NO_OPTIONS: SplitOptions = SplitOptions {
    parts: None,
    salt: None,
    into: false,
    range: None,
};

// Whether the word is the name of the option with two values.
fn is_range(word: &String) -> bool
    ensures { result ≡ is_range (string_bytes word.now) }
{
    word.as_str() == "--range"
}

// Whether the word is the name of an option with one value.
fn is_option(word: &String) -> bool
    ensures { result ≡ is_option (string_bytes word.now) }
{
    word.as_str() == "--parts" || word.as_str() == "--into" || word.as_str() == "--salt"
}

// Whether it begins as one.
fn is_dashed(word: &String) -> bool
    ensures { result ≡ is_dashed (string_bytes word.now) }
{
    word.as_bytes().starts_with(b"--")
}

impl SplitOptions {
    // The options with one more, which must not be named yet.
    fn with(self, name: &String, value: &String) -> Option<SplitOptions>
        requires within { AreWithin self }
        ensures with_option { result ≡ with_option self (string_bytes name.now) (string_bytes value.now) }
        ensures within { IfSome result AreWithin }
    {
        let mut options = self;
        if name.as_str() == "--parts" && self.parts.is_none() {
            options.parts = Some(number_within(1, 65_536, value.as_bytes())?);
        } else if name.as_str() == "--salt" && self.salt.is_none() {
            options.salt = Some(number_within(0, 4_294_967_295, value.as_bytes())?);
        } else if name.as_str() == "--into" && !self.into {
            options.into = true;
        } else {
            return None;
        }
        Some(options)
    }

    // The options with a range, which must not be named yet.
    fn with_range(self, first: &String, last: &String) -> Option<SplitOptions>
        requires within { AreWithin self }
        ensures with_range { result ≡ with_range self (string_bytes first.now) (string_bytes last.now) }
        ensures within { IfSome result AreWithin }
    {
        if self.range.is_some() {
            return None;
        }
        let from = large_number(0, first.as_bytes())?;
        let to = large_number(from, last.as_bytes())?;
        let mut options = self;
        options.range = Some(Range { from, to });
        Some(options)
    }
}

/// The options of these words.
pub(crate) fn options_of(words: &[String]) -> Option<SplitOptions>
    ensures options { result ≡ options_from no_options (map string_bytes words.now) }
    ensures within { IfSome result AreWithin }
{
    let mut options = NO_OPTIONS;
    let mut left = words;
    'words: while let Some((word, more)) = left.split_first() {
        if is_range(word) {
            let (first, after) = more.split_first()?;
            let (last, rest) = after.split_first()?;
            let ranged = options.with_range(first, last)?;
            options = ranged;
            left = rest;
        } else if is_option(word) {
            let (value, rest) = more.split_first()?;
            let named = options.with(word, value)?;
            options = named;
            left = rest;
        } else {
            if is_dashed(word) {
                return None;
            }
            left = more;
        }
    }
    Some(options)
}

// The first operand of these words, and the words after it.
fn next_operand(words: &[String]) -> Option<(&String, &[String])>
    ensures some { IfSome result (λ found. operands (map string_bytes words.now)
        ≡ string_bytes found.0.now ∷ operands (map string_bytes found.1.now)) }
    ensures none { IfNone result (operands (map string_bytes words.now) ≡ []) }
    ensures shorter { IfSome result (λ found. length found.1.now < length words.now) }
{
    let mut left = words;
    'words: while let Some((word, more)) = left.split_first() {
        if is_range(word) {
            let (_first, rest) = more.split_first()?;
            let (_last, rest) = rest.split_first()?;
            left = rest;
        } else if is_option(word) {
            let (_value, rest) = more.split_first()?;
            left = rest;
        } else {
            return Some((word, more));
        }
    }
    None
}

/// Whether there is a query among these words, and a trace, or more than one if there may be.
pub(crate) fn has_traces(only: bool, words: &[String]) -> bool
    ensures { result ≡ has_traces only (operands (map string_bytes words.now)) }
{
    let Some((_query, more)) = next_operand(words) else {
        return false;
    };
    let Some((_trace, more)) = next_operand(more) else {
        return false;
    };
    next_operand(more).is_none() || !only
}

/// The words that are neither names of options nor their values.
pub fn operands_of(alloc: Global, words: &[String]) -> Result<Vec<String>, AllocError>
    ensures { IfOk result (λ found. map string_bytes found.items ≡ operands (map string_bytes words.now)) }
{
    let mut found = Vec::new(alloc);
    let mut left = words;
    'words: while let Some((word, more)) = next_operand(left) {
        found.push(word.clone()?)?;
        left = more;
    }
    Ok(found)
}

/// The word that names the folder of the parts.
pub fn folder_word(words: &[String]) -> Option<&String> {
    let mut left = words;
    'words: while let Some((word, more)) = left.split_first() {
        left = more;
        if is_range(word) {
            let (_first, rest) = more.split_first()?;
            let (_last, rest) = rest.split_first()?;
            left = rest;
        } else if is_option(word) {
            let (value, rest) = more.split_first()?;
            if word.as_str() == "--into" {
                return Some(value);
            }
            left = rest;
        }
    }
    None
}
