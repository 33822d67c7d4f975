//! What the words of a command line ask for.

ghost use Rattle.std.specs.Prelude.{◌≡◌, IfSome, drop, map, string_bytes};
ghost use Rattle.tools_cli.specs.{Command.{IsToolCommand, IsSplitSetting, asked, asked_facts, asked_split, setting_of}, Options.AreWithin};

use crate::options::{SplitOptions, has_traces, options_of};
use trace_ranges::Range;

/// How traces are split: into how many parts, with which salt of the hash, and which range of a trace.
#[derive(Clone, Copy, PartialEq, Eq)]
pub struct SplitSetting {
    pub parts: u32,
    pub salt: u32,
    pub range: Option<Range>,
}

/// What the second program is asked for.
#[derive(Clone, Copy, PartialEq, Eq)]
pub enum ToolCommand {
    /// Splits traces into parts, by fields that each groupby of a query has as keys.
    Split(SplitSetting),
    /// Says what a query is.
    Facts,
}

// The setting of options that name the parts and their folder.
fn setting_of(options: SplitOptions) -> Option<SplitSetting>
    requires within { AreWithin options }
    ensures setting { result ≡ setting_of options }
    ensures within { IfSome result IsSplitSetting }
{
    if !options.into {
        return None;
    }
    Some(SplitSetting {
        parts: options.parts?,
        salt: options.salt.unwrap_or(1),
        range: options.range,
    })
}

fn split_of(words: &[String]) -> Option<SplitSetting>
    ensures setting { result ≡ asked_split (map string_bytes words.now) }
    ensures within { IfSome result IsSplitSetting }
{
    let options = options_of(words)?;
    if !has_traces(options.range.is_some(), words) {
        return None;
    }
    setting_of(options)
}

// The facts of a query, which is the only operand.
fn facts_of(words: &[String]) -> Option<ToolCommand>
    ensures { result ≡ asked_facts (map string_bytes words.now) }
{
    match words {
        [_query] => Some(ToolCommand::Facts),
        _ => None,
    }
}

/// The command that the words ask for.
pub fn command_of(words: &[String]) -> Option<ToolCommand>
    ensures asked { result ≡ asked (map string_bytes words.now) }
    ensures within { IfSome result IsToolCommand }
{
    let (name, operands) = words.split_first()?;
    match name.as_str() {
        "split" => Some(ToolCommand::Split(split_of(operands)?)),
        "facts" => facts_of(operands),
        _ => None,
    }
}

/// The words that name traces, where these are a command and its operands: those after the query.
pub fn trace_words(operands: &[String]) -> &[String]
    ensures { map string_bytes result.now ≡ drop 2 (map string_bytes operands.now) }
{
    if operands.len() < 2 {
        return &operands[operands.len()..];
    }
    &operands[2..]
}
