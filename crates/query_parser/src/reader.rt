//! Reads one token after another.

ghost use Rattle.query_grammar.specs.Kinds.{is, keyword as keyword_of, name as name_of, number as number_of, sign};
ghost use Rattle.query_grammar.specs.{Parser.{Limited, charge, mapped, word}, Reading.{after, blocked, plain_name, token_of}};
ghost use Rattle.query_lang.specs.declared.token.Mark.TheVariants as marks;
ghost use Rattle.query_lang.specs.declared.token.TokenKind.TheVariants as kinds;
ghost use Rattle.query_parser.specs.Reads.{Charges, Sees, input_of, role_of};

use crate::halt::{Halt, Read, read};
use crate::word::{is_mark, is_word};
use query_grammar::{Counts, Stop};
use query_lang::{MAX_NODES, MAX_STATEMENTS, Mark, Name, Span, Token, TokenKind, Word};
use std::alloc::Global;

/// What a token counts as: nothing, a node of an expression, the first token of a statement, or the first of an item, at
/// which the counts begin again.
#[derive(Clone, Copy)]
pub enum Role {
    Plain,
    Node,
    Statement,
    Opening,
}

/// The counts after a token of this role.
pub fn charged(role: Role, counts: Counts) -> Read<Counts>
    ensures { Charges result (charge Limited (role_of role) counts) (role_of role) }
{
    let Counts { nodes, statements } = counts;
    match role {
        Role::Plain => Ok(counts),
        Role::Node if nodes < MAX_NODES => Ok(Counts {
            nodes: nodes + 1,
            statements,
        }),
        Role::Node => Err(Halt::At(Stop::Nodes)),
        Role::Statement if statements < MAX_STATEMENTS => Ok(Counts {
            nodes,
            statements: statements + 1,
        }),
        Role::Statement => Err(Halt::At(Stop::Statements)),
        Role::Opening => Ok(Counts {
            nodes: 0,
            statements: 0,
        }),
    }
}

// The span of the next token, which has this form and counts as nothing.
macro_rules! take {
    ($reader:expr, $form:pat) => {
        match $reader.rest {
            [Token { kind: $form, span }, later @ ..] => {
                $reader.rest = later;
                Ok(*span)
            }
            _ => Err(Halt::At(Stop::Unexpected)),
        }
    };
}

/// Where reading stands: what the item has counted so far, and the tokens that are left. At a fault it stands there.
#[derive(Drop)]
pub struct Reader<'a> {
    pub alloc: Global,
    pub counts: Counts,
    pub rest: &'a [Token],
}

impl Reader<'_> {
    /// This mark.
    pub fn sign(&mut self, role: Role, wanted: Mark) -> Read<Span>
        ensures { Sees result self.old self.new (word Limited (role_of role) (is (sign wanted))) }
    {
        match self.rest {
            [first, later @ ..] if is_mark(first.kind, wanted) => {
                self.counts = read!(charged(role, self.counts));
                self.rest = later;
                Ok(first.span)
            }
            _ => Err(Halt::At(Stop::Unexpected)),
        }
    }

    /// A mark that counts as nothing.
    pub fn mark(&mut self, wanted: Mark) -> Read<Span>
        ensures { Sees result self.old self.new (token_of Limited (sign wanted)) }
    {
        self.sign(Role::Plain, wanted)
    }

    /// What was read, with this mark after it.
    pub fn closed<T: Drop>(&mut self, found: T, wanted: Mark) -> Read<T>
        ensures { Sees result self.old self.new (mapped (λ span. found) (token_of Limited (sign wanted))) }
    {
        read!(self.mark(wanted));
        Ok(found)
    }

    /// This word.
    pub fn keyword(&mut self, role: Role, wanted: Word) -> Read<Span>
        ensures { Sees result self.old self.new (word Limited (role_of role) (is (keyword_of wanted))) }
    {
        match self.rest {
            [first, later @ ..] if is_word(first.kind, wanted) => {
                self.counts = read!(charged(role, self.counts));
                self.rest = later;
                Ok(first.span)
            }
            _ => Err(Halt::At(Stop::Unexpected)),
        }
    }

    /// A name, by its number.
    pub fn name(&mut self, role: Role) -> Read<Name>
        ensures { Sees result self.old self.new (word Limited (role_of role) name_of) }
    {
        match self.rest {
            [
                Token {
                    kind: TokenKind::Name(id),
                    span,
                },
                later @ ..,
            ] => {
                self.counts = read!(charged(role, self.counts));
                self.rest = later;
                Ok(Name {
                    id: *id,
                    span: *span,
                })
            }
            _ => Err(Halt::At(Stop::Unexpected)),
        }
    }

    /// A comma, and a name after it.
    pub fn comma_name(&mut self) -> Read<Name>
        ensures { Sees result self.old self.new (after Limited (sign marks.Comma) (plain_name Limited)) }
    {
        read!(self.mark(Mark::Comma));
        self.name(Role::Plain)
    }

    /// This word, and a name after an open parenthesis, with the comma after it.
    pub fn input(&mut self, wanted: Word) -> Read<Name>
        ensures { Sees result self.old self.new (input_of (keyword_of wanted)) }
    {
        read!(self.keyword(Role::Plain, wanted));
        read!(self.mark(Mark::OpenParen));
        let name = read!(self.name(Role::Plain));
        read!(self.mark(Mark::Comma));
        Ok(name)
    }

    /// A number, and where it is.
    pub fn number(&mut self, role: Role) -> Read<(u64, Span)>
        ensures { Sees result self.old self.new (word Limited (role_of role) number_of) }
    {
        match self.rest {
            [
                Token {
                    kind: TokenKind::Number(n),
                    span,
                },
                later @ ..,
            ] => {
                self.counts = read!(charged(role, self.counts));
                self.rest = later;
                Ok((*n, *span))
            }
            _ => Err(Halt::At(Stop::Unexpected)),
        }
    }

    /// The word `5tuple`.
    pub fn five_tuple(&mut self) -> Read<Span>
        ensures { Sees result self.old self.new (token_of Limited kinds.FiveTuple) }
    {
        take!(self, TokenKind::FiveTuple)
    }

    /// The end of the text.
    pub fn end(&mut self) -> Read<Span>
        ensures { Sees result self.old self.new (token_of Limited kinds.End) }
    {
        take!(self, TokenKind::End)
    }

    /// The fault at this bracket, where no more may be opened.
    pub fn no_bracket<T>(&self, wanted: Mark) -> Read<T>
        ensures { Sees result self.now self.now (blocked (sign wanted)) }
    {
        match self.rest {
            [first, ..] if is_mark(first.kind, wanted) => Err(Halt::At(Stop::Nesting)),
            _ => Err(Halt::At(Stop::Unexpected)),
        }
    }
}
