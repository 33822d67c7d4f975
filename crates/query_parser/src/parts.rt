//! Parts with commas between them.

ghost use Rattle.std.specs.Prelude.{[], ◌∷◌};
ghost use Rattle.query_grammar.specs.{Kinds.sign, Parser.{Limited, Parser}};
ghost use Rattle.query_grammar.specs.Reading.{after, brackets, listed_by, separated as separated_by};
ghost use Rattle.query_lang.specs.declared.token.Mark.TheVariants as marks;
ghost use Rattle.query_parser.specs.Reads.{Gives};

use crate::halt::{Read, read};
use crate::reader::Reader;
use crate::word::{at_mark, at_name};
use marple_base::Seq;
use query_lang::Mark;

/// What has commas between it.
pub trait Part: Drop + Sized {
    /// How the grammar reads one of them.
    ghost parser: { Parser Self };

    fn read(reader: &mut Reader<'_>) -> Read<Self>
        ensures { Gives result reader.old reader.new parser };
}

/// A comma, and a part after it.
fn next_part<P: Part>(reader: &mut Reader<'_>) -> Read<P>
    ensures { Gives result reader.old reader.new (after Limited (sign marks.Comma) P.parser) }
{
    read!(reader.mark(Mark::Comma));
    P::read(reader)
}

/// Parts with commas between them.
pub fn separated<P: Part>(reader: &mut Reader<'_>) -> Read<Seq<P>>
    ensures { Gives result reader.old reader.new (separated_by Limited P.parser) }
{
    let mut found = Seq::new(reader.alloc);
    let first = read!(P::read(reader));
    found.push(first)?;
    'parts: for _ in 0..reader.rest.len() {
        if !at_mark(Mark::Comma, reader.rest) {
            break;
        }
        let next = read!(next_part(reader));
        found.push(next)?;
    }
    Ok(found)
}

/// Parts with commas between them, in square brackets.
pub fn bracketed<P: Part>(reader: &mut Reader<'_>) -> Read<Seq<P>>
    ensures { Gives result reader.old reader.new (brackets Limited (separated_by Limited P.parser)) }
{
    read!(reader.mark(Mark::OpenBracket));
    let found = read!(separated(reader));
    reader.closed(found, Mark::CloseBracket)
}

/// Parts that begin with a name, if there are any, in square brackets.
pub fn listed<P: Part>(reader: &mut Reader<'_>) -> Read<Seq<P>>
    ensures { Gives result reader.old reader.new (brackets Limited (listed_by Limited (0 ∷ []) P.parser)) }
{
    read!(reader.mark(Mark::OpenBracket));
    if !at_name(reader.rest) {
        let none = Seq::new(reader.alloc);
        return reader.closed(none, Mark::CloseBracket);
    }
    let found = read!(separated(reader));
    reader.closed(found, Mark::CloseBracket)
}
