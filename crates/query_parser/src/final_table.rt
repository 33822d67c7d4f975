//! Finals, which are made of tables.

ghost use Rattle.query_grammar.specs.{Parser.Limited, Reading.{expr_at, best as best_of, finishing as finishing_of, final as final_of}};
ghost use Rattle.query_parser.specs.Reads.{Gives, Sees};

use crate::halt::{Read, read};
use crate::reader::{Reader, Role};
use crate::stream::{filter, group, mapping, pairing};
use crate::word::at_word;
use query_lang::{FinalDef, FinalOp, Item, Mark, Name, Span, Word};

/// `top`, and in parentheses its input, a column and how many rows are kept.
fn best(reader: &mut Reader<'_>) -> Read<(Name, (Name, (u64, Span)))>
    ensures { Sees result reader.old reader.new (best_of Limited) }
{
    let input = read!(reader.input(Word::Top));
    let column = read!(reader.name(Role::Plain));
    read!(reader.mark(Mark::Comma));
    let count = read!(reader.number(Role::Plain));
    reader.closed((input, (column, count)), Mark::CloseParen)
}

/// What makes a final.
fn finishing(reader: &mut Reader<'_>) -> Read<FinalOp>
    ensures { Gives result reader.old reader.new (finishing_of Limited (expr_at Limited 63) (expr_at Limited 62)) }
{
    if at_word(Word::Filter, reader.rest) {
        let (input, condition) = read!(filter(reader));
        return Ok(FinalOp::Filter(input, condition));
    }
    if at_word(Word::Map, reader.rest) {
        let (input, columns) = read!(mapping(reader));
        return Ok(FinalOp::Map(input, columns));
    }
    if at_word(Word::Groupby, reader.rest) {
        let (input, (keys, fold)) = read!(group(reader));
        return Ok(FinalOp::Group(input, keys, fold));
    }
    if at_word(Word::Join, reader.rest) {
        let (left, right) = read!(pairing(reader, Word::Join));
        return Ok(FinalOp::Join(left, right));
    }
    let (input, (column, (count, span))) = read!(best(reader));
    Ok(FinalOp::Top(input, column, count, span))
}

/// A final: `final`, its name, `=`, and what makes it.
pub fn final_table(reader: &mut Reader<'_>) -> Read<Item>
    ensures { Gives result reader.old reader.new (final_of Limited (expr_at Limited 63) (expr_at Limited 62)) }
{
    read!(reader.keyword(Role::Opening, Word::Final));
    let name = read!(reader.name(Role::Plain));
    read!(reader.mark(Mark::Assign));
    let op = read!(finishing(reader));
    reader.closed(Item::Final(FinalDef { name, op }), Mark::Semicolon)
}
