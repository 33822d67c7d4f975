//! Items, and the whole query.

ghost use Rattle.std.specs.Prelude.{◌≡◌, [], ◌∷◌};
ghost use Rattle.query_grammar.specs.Parser.{Limited, next_is, repeated};
ghost use Rattle.query_grammar.specs.Reading.{expr_at, item as item_of, item_starts, print as print_of, query as query_of, stmt_at};
ghost use Rattle.query_grammar.specs.Kinds.{among};
ghost use Rattle.query_parser.specs.Reads.{Gives, Sees};

use crate::final_table::final_table;
use crate::fold::fold;
use crate::halt::{Read, read};
use crate::reader::{Reader, Role};
use crate::stream::stream;
use crate::word::{at_name, at_word};
use marple_base::Seq;
use query_lang::{Item, Mark, Span, Token, Word};

/// `print`, and the name of a table.
fn print(reader: &mut Reader<'_>) -> Read<Item>
    ensures { Sees result reader.old reader.new (print_of Limited) }
{
    read!(reader.keyword(Role::Opening, Word::Print));
    let table = read!(reader.name(Role::Plain));
    read!(reader.mark(Mark::Semicolon));
    Ok(Item::Print(table))
}

/// An item.
fn item(reader: &mut Reader<'_>) -> Read<Item>
    ensures { Gives result reader.old reader.new (item_of Limited (stmt_at Limited 63) (expr_at Limited 63) (expr_at Limited 62)) }
{
    if at_word(Word::Def, reader.rest) {
        return fold(reader);
    }
    if at_name(reader.rest) {
        return stream(reader);
    }
    if at_word(Word::Final, reader.rest) {
        return final_table(reader);
    }
    print(reader)
}

/// Whether an item may come next.
fn at_item(rest: &[Token]) -> bool
    ensures { result ≡ next_is (among item_starts) rest.now }
{
    at_word(Word::Def, rest)
        || at_name(rest)
        || at_word(Word::Final, rest)
        || at_word(Word::Print, rest)
}

/// Any number of items.
fn items(reader: &mut Reader<'_>) -> Read<Seq<Item>>
    ensures { Gives result reader.old reader.new (repeated (among item_starts)
        (item_of Limited (stmt_at Limited 63) (expr_at Limited 63) (expr_at Limited 62))) }
{
    let mut found = Seq::new(reader.alloc);
    'items: for _ in 0..reader.rest.len() {
        if !at_item(reader.rest) {
            break;
        }
        let next = read!(item(reader));
        found.push(next)?;
    }
    Ok(found)
}

/// Items up to the end of the text, and where that is.
pub fn query(reader: &mut Reader<'_>) -> Read<(Seq<Item>, Span)>
    ensures { Gives result reader.old reader.new (query_of Limited 63 62) }
{
    let found = read!(items(reader));
    let end = read!(reader.end());
    Ok((found, end))
}
