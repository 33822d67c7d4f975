//! Definitions of folds.

ghost use Rattle.query_grammar.specs.{Parser.Limited, Reading.{fold_def, parameters as parameters_of, plain_name, state_variable, stmt_at}};
ghost use Rattle.query_parser.specs.Reads.{Gives};

use crate::halt::{Read, read};
use crate::parts::{Part, listed};
use crate::reader::{Reader, Role};
use crate::statement::block_within;
use crate::word::at_mark;
use marple_base::Seq;
use query_lang::{FoldDef, Item, MAX_NESTING, Mark, Name, StateVar, Word};

/// How many brackets may be opened inside the one of a fold's body.
const WITHIN_BODY: u32 = MAX_NESTING - 1;

impl Part for StateVar {
    ghost parser = { state_variable Limited };

    /// A state variable, with the number that it starts at: 0 where none is given.
    fn read(reader: &mut Reader<'_>) -> Read<StateVar> {
        let name = read!(reader.name(Role::Plain));
        if !at_mark(Mark::Assign, reader.rest) {
            return Ok(StateVar { name, initial: 0 });
        }
        read!(reader.mark(Mark::Assign));
        let (initial, _) = read!(reader.number(Role::Plain));
        Ok(StateVar { name, initial })
    }
}

impl Part for Name {
    ghost parser = { plain_name Limited };

    fn read(reader: &mut Reader<'_>) -> Read<Name> {
        reader.name(Role::Plain)
    }
}

/// State variables and arguments.
fn parameters(reader: &mut Reader<'_>) -> Read<(Seq<StateVar>, Seq<Name>)>
    ensures { Gives result reader.old reader.new (parameters_of Limited) }
{
    read!(reader.mark(Mark::OpenParen));
    let states = read!(listed(reader));
    read!(reader.mark(Mark::Comma));
    let args = read!(listed(reader));
    reader.closed((states, args), Mark::CloseParen)
}

/// A fold's definition.
pub fn fold(reader: &mut Reader<'_>) -> Read<Item>
    ensures { Gives result reader.old reader.new (fold_def Limited (stmt_at Limited 63)) }
{
    read!(reader.keyword(Role::Opening, Word::Def));
    let name = read!(reader.name(Role::Plain));
    let (states, args) = read!(parameters(reader));
    let body = read!(block_within(reader, WITHIN_BODY));
    Ok(Item::Fold(FoldDef {
        name,
        states,
        args,
        body,
    }))
}
