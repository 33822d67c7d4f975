//! Streams, and the operators that make them. A filter's expression is in one bracket, and a map's in two.

ghost use Rattle.query_grammar.specs.{Kinds.{keyword as keyword_of}, Parser.Limited, Reading.{expr_at, filter_of}};
ghost use Rattle.query_grammar.specs.Reading.{column_of, mapping as mapping_of, pairing as pairing_of, key_of, group as group_of};
ghost use Rattle.query_grammar.specs.Reading.{streaming as streaming_of, stream as stream_of};
ghost use Rattle.query_parser.specs.Reads.{Gives, Sees};

use crate::expression::expression;
use crate::halt::{Read, read};
use crate::parts::{Part, bracketed};
use crate::reader::{Reader, Role};
use crate::word::{at_name, at_word};
use marple_base::Seq;
use query_lang::{Column, Expr, Item, Key, MAX_NESTING, Mark, Name, StreamDef, StreamOp, Word};

/// How many brackets may be opened inside the one of a filter.
const WITHIN_FILTER: u32 = MAX_NESTING - 1;

/// How many brackets may be opened inside the two of a map's columns.
const WITHIN_COLUMNS: u32 = MAX_NESTING - 2;

/// `filter`, and in parentheses a name, and a condition after a comma.
pub fn filter(reader: &mut Reader<'_>) -> Read<(Name, Expr)>
    ensures { Gives result reader.old reader.new (filter_of Limited (expr_at Limited 63)) }
{
    let input = read!(reader.input(Word::Filter));
    let condition = read!(expression(reader, WITHIN_FILTER));
    reader.closed((input, condition), Mark::CloseParen)
}

impl Part for Column {
    ghost parser = { column_of Limited (expr_at Limited 62) };

    /// A new column: its name, and its value after `=`.
    fn read(reader: &mut Reader<'_>) -> Read<Column> {
        let name = read!(reader.name(Role::Plain));
        read!(reader.mark(Mark::Assign));
        let value = read!(expression(reader, WITHIN_COLUMNS));
        Ok(Column { name, value })
    }
}

/// `map`, and in parentheses a name, and columns in square brackets after a comma.
pub fn mapping(reader: &mut Reader<'_>) -> Read<(Name, Seq<Column>)>
    ensures { Gives result reader.old reader.new (mapping_of Limited (expr_at Limited 62)) }
{
    let input = read!(reader.input(Word::Map));
    let found = read!(bracketed(reader));
    reader.closed((input, found), Mark::CloseParen)
}

/// This word, and two names in parentheses.
pub fn pairing(reader: &mut Reader<'_>, word: Word) -> Read<(Name, Name)>
    ensures { Sees result reader.old reader.new (pairing_of Limited (keyword_of word)) }
{
    let left = read!(reader.input(word));
    let right = read!(reader.name(Role::Plain));
    reader.closed((left, right), Mark::CloseParen)
}

impl Part for Key {
    ghost parser = { key_of Limited };

    /// A key: a name, or `5tuple`.
    fn read(reader: &mut Reader<'_>) -> Read<Key> {
        if at_name(reader.rest) {
            let name = read!(reader.name(Role::Plain));
            return Ok(Key::Named(name));
        }
        let span = read!(reader.five_tuple());
        Ok(Key::FiveTuple(span))
    }
}

/// `groupby`, and in parentheses its input, its keys in square brackets and its fold.
pub fn group(reader: &mut Reader<'_>) -> Read<(Name, (Seq<Key>, Name))>
    ensures { Gives result reader.old reader.new (group_of Limited) }
{
    let input = read!(reader.input(Word::Groupby));
    let found = read!(bracketed(reader));
    let fold = read!(reader.comma_name());
    reader.closed((input, (found, fold)), Mark::CloseParen)
}

/// What makes a stream.
fn streaming(reader: &mut Reader<'_>) -> Read<StreamOp>
    ensures { Gives result reader.old reader.new (streaming_of Limited (expr_at Limited 63) (expr_at Limited 62)) }
{
    if at_word(Word::Filter, reader.rest) {
        let (input, condition) = read!(filter(reader));
        return Ok(StreamOp::Filter(input, condition));
    }
    if at_word(Word::Map, reader.rest) {
        let (input, columns) = read!(mapping(reader));
        return Ok(StreamOp::Map(input, columns));
    }
    if at_word(Word::Zip, reader.rest) {
        let (left, right) = read!(pairing(reader, Word::Zip));
        return Ok(StreamOp::Zip(left, right));
    }
    let (input, (keys, fold)) = read!(group(reader));
    Ok(StreamOp::Group(input, keys, fold))
}

/// A stream: its name, `=`, and what makes it.
pub fn stream(reader: &mut Reader<'_>) -> Read<Item>
    ensures { Gives result reader.old reader.new (stream_of Limited (expr_at Limited 63) (expr_at Limited 62)) }
{
    let name = read!(reader.name(Role::Opening));
    read!(reader.mark(Mark::Assign));
    let op = read!(streaming(reader));
    reader.closed(Item::Stream(StreamDef { name, op }), Mark::Semicolon)
}
