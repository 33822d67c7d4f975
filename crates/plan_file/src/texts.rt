//! The lines of a text, in sequence.

ghost use Rattle.std.specs.Prelude.{◌≡◌, ◌≤◌, ◌<◌, ◌+◌, ℕ, length, slice_get, IfSome, MatchOption, MatchResult, Some};
ghost use Rattle.plan_file.specs.{Lexis.lines, Lines.{nothing as nothing_made}, Texts.{IsAfterLines, IsLineStart, Says, IsRefused}};

use crate::lexis::cut_at;
use crate::lines::{nothing, one_more};
use crate::made::Made;
use query_lang::{FaultKind, QueryError, QueryFault, Span};
use std::alloc::Global;

/// The most bytes of the text of a plan.
pub const MAX_PLAN: usize = 2_097_152;

/// The line that begins at a byte, and the byte where the next line begins.
fn next_line(text: &[u8], at: usize) -> Option<(&[u8], usize)>
    requires within { at ≤ length text.now }
    ensures line { (i : ℕ) → IsLineStart text.now i at
        → MatchOption result (IsAfterLines text.now i at) (λ r. (slice_get (lines text.now) i ≡ Some r.0.now)
        × IsLineStart text.now (i + 1) r.1) }
    ensures later { IfSome result (λ r. (at < r.1) × (r.1 ≤ length text.now)) }
{
    let (line, _) = cut_at(b'\n', &text[at..])?;
    Some((line, at + line.len() + 1))
}

fn refused(at: usize) -> QueryError
    requires { at ≤ MAX_PLAN }
    ensures { result ≡ QueryError.Refused (record { kind = FaultKind.BadPlan; span = record { start = at; end = at } }) }
{
    let at = at as u32;
    QueryError::Refused(QueryFault {
        kind: FaultKind::BadPlan,
        span: Span { start: at, end: at },
    })
}

// The lines of a text in order, which make this of nothing.
fn read_lines(alloc: Global, text: &[u8], made: &mut Made) -> Result<(), QueryError>
    requires { made.old ≡ nothing_made }
    ensures { MatchResult result (λ _. Says text.now made.new) (IsRefused text.now) }
{
    if text.len() > MAX_PLAN {
        return Err(refused(MAX_PLAN));
    }
    let mut at = 0;
    'lines: while let Some((line, next)) = next_line(text, at) {
        if !one_more(alloc, made, line)? {
            return Err(refused(at));
        }
        at = next;
    }
    if at < text.len() || made.prints.is_empty() {
        return Err(refused(text.len()));
    }
    Ok(())
}

/// What the lines of a valid text make; a refusal gives the first line that isn't valid after the lines before it.
pub fn read_text(alloc: Global, text: &[u8]) -> Result<Made, QueryError>
    ensures { MatchResult result (λ made. Says text.now made) (IsRefused text.now) }
{
    let mut made = nothing(alloc);
    read_lines(alloc, text, &mut made)?;
    Ok(made)
}
