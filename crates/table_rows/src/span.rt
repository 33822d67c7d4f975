//! Where a row's words are, how many, and what is kept beside them.

ghost use Rattle.std.specs.Prelude.{◌≡◌};
ghost use Rattle.table_rows.specs.{LentRows.row_of, Spans.{row_in, EndsWithin}};

use crate::lent::RowRef;
use epoch_model::Mark;

/// A row without its words. They begin at `start`: the words of the key, and then those of the values.
#[derive(Clone, Copy)]
pub struct Span {
    pub start: usize,
    pub epoch: u64,
    pub epochs: u64,
    pub key_words: u16,
    pub value_words: u16,
    pub mark: Mark,
}

/// The row of a span, lent.
#[inline]
pub fn row_in<'a>(words: &'a [u64], span: &Span) -> RowRef<'a>
    requires { EndsWithin words.now span.now }
    ensures { row_of result ≡ row_in words.now span.now }
{
    let key_words = span.key_words as usize;
    let start = span.start;
    let columns = &words[start..start + key_words + span.value_words as usize];
    let (key, values) = columns.split_at(key_words);
    RowRef {
        key,
        mark: span.mark,
        epoch: span.epoch,
        epochs: span.epochs,
        values,
        columns,
    }
}
