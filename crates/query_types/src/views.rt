//! What the names of a query stand for.

ghost use Rattle.std.specs.Prelude.{◌≡◌, ◌<◌, ◌+◌, ◌∷◌, ◌++◌, [], IfOk, OnOk, length, option_map, is_some};
ghost use Rattle.query_lang.specs.TypedStreams.{meaning_of, begun, stream_named, fold_named};
ghost use Rattle.query_lang.specs.TypedFinals.{table_at, table_named, quiet_fold};
ghost use Rattle.query_types.specs.Answers.{Finds};

use crate::answer::fault;
use query_lang::typing::{Earlier, FoldView, Known, Meaning, StreamView, TableView};
use query_lang::{FaultKind, Limit, MAX_BINDINGS, Name, QueryFault};
use std::alloc::AllocError;

// What a name stands for.
fn find_meaning(known: &[Known], id: u32) -> Option<&Meaning>
    ensures { option_map (λ x. x.now) result ≡ meaning_of known.now id }
{
    for one in known {
        if one.name == id {
            return Some(&one.meaning);
        }
    }
    None
}

/// Does the name stand for something already?
pub fn is_taken(earlier: &Earlier, id: u32) -> bool
    ensures { result ≡ is_some (meaning_of earlier.now.known id) }
{
    find_meaning(earlier.known.as_slice(), id).is_some()
}

/// A new stream or final: its name is free, and there are at most `MAX_BINDINGS` of them.
pub fn check_binding(earlier: &Earlier, name: Name) -> Result<(), QueryFault>
    ensures given { result ≡ begun earlier.now name }
    ensures room { IfOk result (λ _. length earlier.now.streams + length earlier.now.finals < MAX_BINDINGS) }
{
    if is_taken(earlier, name.id) {
        return Err(fault(FaultKind::NameTaken, name.span));
    }
    let streams = earlier.streams.len();
    let finals = earlier.finals.len();
    if streams >= MAX_BINDINGS || finals >= MAX_BINDINGS || streams + finals >= MAX_BINDINGS {
        return Err(fault(FaultKind::OverLimit(Limit::Bindings), name.span));
    }
    Ok(())
}

/// From here on the name stands for this.
pub fn learn(earlier: &mut Earlier, name: Name, meaning: Meaning) -> Result<(), AllocError>
    ensures { OnOk result (earlier.new ≡
        record earlier.old { known = earlier.old.known ++ record { name = name.id; meaning = meaning } ∷ [] }) }
{
    earlier.known.push(Known {
        name: name.id,
        meaning,
    })
}

/// The stream that a name has to stand for.
pub fn find_stream(earlier: &Earlier, name: Name) -> Result<&StreamView, QueryFault>
    ensures { Finds result (stream_named earlier.now.known name) }
{
    match find_meaning(earlier.known.as_slice(), name.id) {
        None => Err(fault(FaultKind::UnknownName, name.span)),
        Some(Meaning::Stream(stream)) => Ok(stream),
        Some(Meaning::Fold(_) | Meaning::Final(_)) => Err(fault(FaultKind::WrongKind, name.span)),
    }
}

/// The fold that a name has to stand for.
pub fn find_fold(earlier: &Earlier, name: Name) -> Result<&FoldView, QueryFault>
    ensures { Finds result (fold_named earlier.now.known name) }
{
    match find_meaning(earlier.known.as_slice(), name.id) {
        None => Err(fault(FaultKind::UnknownName, name.span)),
        Some(Meaning::Fold(f)) => Ok(f),
        Some(Meaning::Stream(_) | Meaning::Final(_)) => {
            Err(fault(FaultKind::WrongKind, name.span))
        }
    }
}

/// The fold without an `emit` that a name has to stand for.
pub fn find_quiet_fold(earlier: &Earlier, name: Name) -> Result<&FoldView, QueryFault>
    ensures { Finds result (quiet_fold earlier.now.known name) }
{
    let f = find_fold(earlier, name)?;
    if f.emits {
        return Err(fault(FaultKind::WrongKind, name.span));
    }
    Ok(f)
}

// The table of a stream, which is a groupby.
fn stream_table(stream: &StreamView, name: Name) -> Result<&TableView, QueryFault>
    ensures { Finds result (table_at stream.now.table name.span) }
{
    match &stream.table {
        None => Err(fault(FaultKind::WrongKind, name.span)),
        Some(table) => Ok(table),
    }
}

/// The table that a name has to stand for: a groupby's or a final's.
pub fn find_table(earlier: &Earlier, name: Name) -> Result<&TableView, QueryFault>
    ensures { Finds result (table_named earlier.now.known name) }
{
    match find_meaning(earlier.known.as_slice(), name.id) {
        None => Err(fault(FaultKind::UnknownName, name.span)),
        Some(Meaning::Stream(stream)) => stream_table(stream, name),
        Some(Meaning::Final(table)) => Ok(table),
        Some(Meaning::Fold(_)) => Err(fault(FaultKind::WrongKind, name.span)),
    }
}
