//! Laws about the grammar: a text has one meaning at most, and the function on tokens gives it or exactly the first fault.

ghost use Rattle.std.specs.Prelude.{◌≡◌, ◌↔◌, ℕ, List, [], ◌∷◌, ◌++◌};
ghost use Rattle.query_lang.specs.declared.{fault.{QueryFault.QueryFault, Span.Span}, query.{FoldDef.FoldDef, Item.Item}};
ghost use Rattle.query_lang.specs.declared.query.Item.TheVariants as items;
ghost use Rattle.query_lang.specs.{declared.{query.Query.Query, token.Token.Token}, Limits.IsReadable};
ghost use Rattle.query_lang.specs.TypedFolds.{fold_nodes, fold_statements};
ghost use Rattle.query_grammar.specs.{declared.stop.{Counts.Counts, Stop.Stop}, FoldTokens.{nodes_among, statements_among}, Language.Leaf};
ghost use Rattle.query_grammar.specs.{Parser.{Done, Stopped}, Grammar.{Derives, Fold}, Reading.parsed};
ghost use Rattle.query_grammar.specs.{Fault.{StandsAt, IsAccepted, HasEnd, Says}, Texts.{IsFaultOf, IsQueryOf, parsed_text}};

/// Tokens are those of one query at most.
pub fn one_meaning()
    ensures { (ts : List Token) (p q : List Item × Span) → Derives ts p → Derives ts q → p ≡ q }
{}

/// What parsing gives is a query that the tokens derive within all limits, or a fault at the token that it names.
pub fn first_fault()
    ensures { (ts : List Token) → HasEnd ts → Says ts (parsed ts) }
{}

/// A fault at a token is what parsing gives, whatever follows the token.
pub fn fault_is_found()
    ensures { (k : Stop) (front : List Token) (t : Token) (more : List Token) → StandsAt k front t
        → parsed (front ++ t ∷ more) ≡ Stopped k (t ∷ more) }
{}

/// A query that tokens derive within all limits is what parsing gives.
pub fn query_is_found()
    ensures { (ts : List Token) (q : List Item × Span) → IsAccepted ts q → (c : Counts) × (parsed ts ≡ Done q c []) }
{}

/// A text gives a query exactly where that is the query that the grammar relates to it.
pub fn query_of_text()
    ensures { (text : List ℕ) (q : Query) → (parsed_text text ≡ Ok q) ↔ IsQueryOf text q }
{}

/// A text gives a fault exactly where that is the first fault of the text.
pub fn fault_of_text()
    ensures { (text : List ℕ) (fault : QueryFault) → (parsed_text text ≡ Err fault) ↔ IsFaultOf text fault }
{}

/// The query of a text keeps the limits of the grammar as they are counted on its trees, each of its groupbys has a key, and
/// each name that it gives has a number below the count of its names, which are at most 32,768.
pub fn query_is_readable()
    ensures { (text : List ℕ) (q : Query) → IsQueryOf text q → IsReadable q }
{}

/// The tokens of a fold that the limits count, those that are nodes and those that begin a statement, are the nodes and the
/// statements of its tree.
pub fn fold_tokens_are_counted()
    ensures nodes { (d : ℕ) (leaves : List Leaf) (f : FoldDef) → Fold d leaves (items.Fold f) → nodes_among leaves ≡ fold_nodes f }
    ensures statements { (d : ℕ) (leaves : List Leaf) (f : FoldDef) → Fold d leaves (items.Fold f)
        → statements_among leaves ≡ fold_statements f }
{}
