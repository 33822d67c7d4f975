//! The rows of a table.

ghost use Rattle.std.specs.Prelude.{◌≡◌, ◌+◌, ◌<◌, ◌≤◌, ◌↔◌, ◌++◌, ◌∷◌, [], length, option_map, slice_get, slice_set, Some, IsTrue, OnOk};
ghost use Rattle.std.specs.Prelude.{OnErr, vec_capacity, vec_len};
ghost use Rattle.epoch_model.specs.declared.tables.Row.{Row};
ghost use Rattle.table_rows.specs.LentRows.{row_of};

use crate::lent::RowRef;
use crate::span::{Span, row_in};
use epoch_model::Mark;
use std::alloc::{AllocError, Global};
use std::marker::Model;

// The most words of a key, and the most values of a row: a span has no room for larger numbers.
const MOST_WORDS: usize = 65_535;

/// Rows in the order in which they were added, seen as a list of rows.
#[derive(Drop)]
pub struct Rows {
    words: Vec<u64>,
    spans: Vec<Span>,
}

impl Model for Rows {
    ghost use Rattle.std.specs.Prelude.{List};
    ghost use Rattle.epoch_model.specs.declared.tables.Row.{Row};

    ghost Value = { List Row };

    ghost use Rattle.table_rows.specs.RowsView.{list_of, IsSound};

    ghost view = { list_of };

    ghost invariant = { IsSound };
}

/// Adds these words, for which there is room, at the end. They are pushed one by one, since those of a row are so few that to
/// call the C library for a copy would take longer.
#[inline(always)]
pub fn push_few(words: &mut Vec<u64>, few: &[u64])
    requires { vec_len words.old + length few.now ≤ vec_capacity words.old }
    ensures items { words.new.items ≡ words.old.items ++ few.now }
    ensures len { vec_len words.new ≡ vec_len words.old + length few.now }
    ensures capacity { vec_capacity words.new ≡ vec_capacity words.old }
{
    for word in few {
        words.push_reserved(*word);
    }
}

impl Rows {
    /// No rows. They take no memory yet.
    pub fn new(alloc: Global) -> Rows
        ensures { result ≡ [] }
    {
        Rows {
            words: Vec::new(alloc),
            spans: Vec::new(alloc),
        }
    }

    /// Takes memory for `rows` more rows, of `words` words in all.
    pub fn reserve(&mut self, rows: usize, words: usize) -> Result<(), AllocError>
        ensures { self.new ≡ self.old }
    {
        self.spans.reserve(rows)?;
        self.words.reserve(words)
    }

    /// Adds a row at the end. On an error the rows are unchanged.
    #[inline(always)]
    pub fn push(
        &mut self,
        key: &[u64],
        mark: Mark,
        epoch: u64,
        epochs: u64,
        values: &[u64],
    ) -> Result<(), AllocError>
        ensures ok { OnOk result (self.new ≡ self.old ++ record {
          key = key.now;
          mark = mark;
          epoch = epoch;
          epochs = epochs;
          values = values.now;
        } ∷ []) }
        ensures err { OnErr result (self.new ≡ self.old) }
    {
        if key.len() > MOST_WORDS || values.len() > MOST_WORDS {
            return Err(AllocError);
        }
        let start = self.words.len();
        self.words.reserve(key.len() + values.len())?;
        self.spans.reserve(1)?;
        push_few(&mut self.words, key);
        push_few(&mut self.words, values);
        self.spans.push_reserved(Span {
            start,
            epoch,
            epochs,
            key_words: key.len() as u16,
            value_words: values.len() as u16,
            mark,
        });
        Ok(())
    }

    /// The number of rows.
    pub fn len(&self) -> usize
        ensures { result ≡ length self.now }
    {
        self.spans.len()
    }

    /// Are there no rows?
    pub fn is_empty(&self) -> bool
        ensures { IsTrue result ↔ (self.now ≡ []) }
    {
        self.spans.is_empty()
    }

    /// The row at a place.
    #[inline]
    pub fn get(&self, at: usize) -> RowRef<'_>
        requires { at < length self.now }
        ensures { slice_get self.now at ≡ Some (row_of result) }
    {
        let span = &self.spans[at];
        row_in(self.words.as_slice(), span)
    }

    /// The key of the row at a place.
    pub fn key(&self, at: usize) -> &[u64]
        requires { at < length self.now }
        ensures { option_map (λ row. row.key) (slice_get self.now at) ≡ Some result.now }
    {
        self.get(at).key
    }

    /// The values of the row at a place.
    pub fn values(&self, at: usize) -> &[u64]
        requires { at < length self.now }
        ensures { option_map (λ row. row.values) (slice_get self.now at) ≡ Some result.now }
    {
        self.get(at).values
    }

    /// The columns of the row at a place: its key, followed by its values.
    pub fn columns(&self, at: usize) -> &[u64]
        requires { at < length self.now }
        ensures { option_map (λ row. row.key ++ row.values) (slice_get self.now at) ≡ Some result.now }
    {
        self.get(at).columns
    }

    /// The mark of the row at a place.
    pub fn mark(&self, at: usize) -> Mark
        requires { at < length self.now }
        ensures { option_map (λ row. row.mark) (slice_get self.now at) ≡ Some result }
    {
        let span = &self.spans[at];
        span.mark
    }

    /// The epoch of the row at a place.
    pub fn epoch(&self, at: usize) -> u64
        requires { at < length self.now }
        ensures { option_map (λ row. row.epoch) (slice_get self.now at) ≡ Some result }
    {
        let span = &self.spans[at];
        span.epoch
    }

    /// The number of epochs that the row at a place gives for its key.
    pub fn epochs(&self, at: usize) -> u64
        requires { at < length self.now }
        ensures { option_map (λ row. row.epochs) (slice_get self.now at) ≡ Some result }
    {
        let span = &self.spans[at];
        span.epochs
    }

    /// Gives the row at a place another mark and another epoch.
    pub fn set_mark(&mut self, at: usize, mark: Mark, epoch: u64)
        requires { at < length self.old }
        ensures { (row : Row) → slice_get self.old at ≡ Some row → self.new ≡ slice_set self.old at (record row { mark = mark; epoch = epoch }) }
    {
        let span = self.spans[at];
        self.spans[at] = Span {
            mark,
            epoch,
            ..span
        };
    }

    /// Makes the row at a place one of a table made of tables: its mark is Plain, and it is of no epoch.
    pub fn set_plain(&mut self, at: usize)
        requires { at < length self.old }
        ensures { (row : Row) → slice_get self.old at ≡ Some row → self.new ≡ slice_set self.old at (record row { mark = Mark.Plain; epoch = 0; epochs = 0 }) }
    {
        let span = self.spans[at];
        self.spans[at] = Span {
            mark: Mark::Plain,
            epoch: 0,
            epochs: 0,
            ..span
        };
    }
}
