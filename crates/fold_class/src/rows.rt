//! The affine map of one step of a fold on its linear variables.

ghost use Rattle.std.specs.Prelude.{◌≡◌, ◌≢◌, ℕ, ◌+◌, ◌*◌, ◌<◌, ◌≤◌, length, map, slice_index, All, IfOk};
ghost use Rattle.coeff_algebra.specs.Maps.{stored_entry};
ghost use Rattle.fold_code.specs.Machine.{at, steps_of};
ghost use Rattle.fold_class.specs.{Parts.{parts, column_shares}, Step.{list_of, share_of}, Stored.part_at, Rows.{Rows, rows_dimension}};
ghost use Rattle.fold_class.specs.Rows.{rows_words, rows_scratch, steps_with, rows_steps, first_part, column_after, entry_of, fixed_word};
ghost use Rattle.fold_class.specs.Rows.{Leaves, LeavesRows, IsWithin, AreSoundRows, rows_from};

use crate::class::Algebra;
use crate::column::{lift, load_part, run_column, store_part};
use crate::origin::Origin;
use crate::part::Part;
use coeff_algebra::{Coeff, MaxPlus64, Wrapping64, store_at};
use fold_code::FoldCode;
use marple_base::{Seq, Steps};
use std::alloc::{AllocError, Global};
use std::marker::Model;
use std::sync::ledger::Ledger;

/// The rows of a linear fold: what one step does with its linear variables, once the history and the arguments are known.
pub struct AffineRows {
    code: FoldCode,
    algebra: Algebra,
    origins: Seq<Origin>,
    linear: Seq<u8>,
    history: Seq<u8>,
}

impl Drop for AffineRows {
    fn drop(self) {
        let AffineRows {
            code: _,
            algebra: _,
            origins: _,
            linear: _,
            history: _,
        } = self;
    }
}

impl Model for AffineRows {
    ghost Value = { Rows };

    ghost view = { λ r. rows_from r.code r.algebra r.origins r.linear r.history };

    ghost invariant = { λ r. AreSoundRows (rows_from r.code r.algebra r.origins r.linear r.history) };
}

// The part of a variable as a column begins.
fn first<C: Coeff>(origin: Origin, column: usize, history: &[u64]) -> Part<C>
    requires { IsWithin (length history.now) origin }
    ensures { result ≡ first_part C.elements column history.now origin }
{
    match origin {
        Origin::Remembered(i) => Part::Fixed(history[i as usize]),
        Origin::Carried(i) => {
            let is_own = column == i as usize;
            Part::Share(if is_own { C::one() } else { C::zero() })
        }
    }
}

// The parts of the variables as a column begins, one step each.
fn start_column<C: Coeff, L: Ledger>(
    origins: &[Origin],
    column: usize,
    history: &[u64],
    scratch: &mut [u64],
    steps: &mut Steps<L>,
)
    requires within { All (IsWithin (length history.now)) origins.now }
    requires room { length origins.now * 3 ≤ length scratch.old }
    ensures vars { list_of (length origins.now) (part_at C.from_words C.WORDS scratch.new)
        ≡ map (first_part C.elements column history.now) origins.now }
    ensures steps { steps.new ≡ steps.old + length origins.now }
{
    for (v, origin) in origins.iter().enumerate() {
        let part: Part<C> = first(*origin, column, history);
        store_part(scratch, v, part);
        steps.tick();
    }
}

// A part as a share of its column.
fn share<C: Coeff>(part: Part<C>, column: usize, dimension: usize) -> C
    ensures { result ≡ share_of (column_shares C.elements dimension column) part }
{
    match part {
        Part::Fixed(word) => lift(word, column, dimension),
        Part::Share(element) => element,
        Part::Lost => lift(0, column, dimension),
    }
}

// The word of a part that is fixed.
fn word<C: Coeff>(part: Part<C>) -> u64
    ensures { result ≡ fixed_word part }
{
    match part {
        Part::Fixed(word) => word,
        _ => 0,
    }
}

// The elements of one column, where the parts of the variables are in `scratch`.
fn write_column<C: Coeff, L: Ledger>(
    linear: &[u8],
    states: usize,
    column: usize,
    scratch: &[u64],
    map: &mut [u64],
    steps: &mut Steps<L>,
)
    requires places { All (λ v. v < states) linear.now }
    requires room { states * 3 ≤ length scratch.now }
    requires map { length map.old ≡ length linear.now * (length linear.now + 1) * C.WORDS }
    requires column { column ≤ length linear.now }
    ensures entries { (i : ℕ) → i < length linear.now
        → stored_entry C.WORDS (length linear.now) map.new i column
        ≡ C.words (share_of (column_shares C.elements (length linear.now) column)
        (part_at C.from_words C.WORDS scratch.now (slice_index linear.now i))) }
    ensures others { (i c : ℕ) → i < length linear.now → c ≤ length linear.now → c ≢ column
        → stored_entry C.WORDS (length linear.now) map.new i c ≡ stored_entry C.WORDS (length linear.now) map.old i c }
    ensures steps { steps.new ≡ steps.old + length linear.now * C.WORDS }
{
    let dimension = linear.len();
    for (row, v) in linear.iter().enumerate() {
        let part: Part<C> = load_part(scratch, *v as usize);
        store_at(
            map,
            row * (dimension + 1) + column,
            share(part, column, dimension),
        );
        steps.tick_many(C::WORDS as u64);
    }
}

// The words of the history, where the parts of the variables are in `scratch`.
fn write_history<C: Coeff, L: Ledger>(
    places: &[u8],
    states: usize,
    scratch: &[u64],
    history: &mut [u64],
    steps: &mut Steps<L>,
)
    requires places { All (λ v. v < states) places.now }
    requires room { states * 3 ≤ length scratch.now }
    requires history { length history.old ≡ length places.now }
    ensures words { (i : ℕ) → i < length places.now
        → slice_index history.new i ≡ fixed_word (part_at C.from_words C.WORDS scratch.now (slice_index places.now i)) }
    ensures steps { steps.new ≡ steps.old + length places.now }
{
    for (i, v) in places.iter().enumerate() {
        let part: Part<C> = load_part(scratch, *v as usize);
        history[i] = word(part);
        steps.tick();
    }
}

impl AffineRows {
    pub(crate) fn new(
        code: FoldCode,
        algebra: Algebra,
        origins: Seq<Origin>,
        linear: Seq<u8>,
        history: Seq<u8>,
    ) -> AffineRows
        requires { AreSoundRows (rows_from code algebra origins linear history) }
        ensures { result ≡ rows_from code algebra origins linear history }
    {
        AffineRows {
            code,
            algebra,
            origins,
            linear,
            history,
        }
    }

    // One column of the map.
    fn column_into<C: Coeff, L: Ledger>(
        &self,
        column: usize,
        history: &[u64],
        args: &[u64],
        map: &mut [u64],
        scratch: &mut [u64],
        steps: &mut Steps<L>,
    )
        requires history { length history.now ≡ length self.now.history }
        requires arguments { length args.now ≡ self.now.code.args }
        requires map { length map.old ≡ rows_dimension self.now * (rows_dimension self.now + 1) * C.WORDS }
        requires room { length scratch.old ≡ rows_scratch self.now }
        requires column { column ≤ rows_dimension self.now }
        ensures entries { (i : ℕ) → i < rows_dimension self.now
            → stored_entry C.WORDS (rows_dimension self.now) map.new i column
            ≡ C.words (entry_of C.elements self.now history.now args.now i column) }
        ensures others { (i c : ℕ) → i < rows_dimension self.now → c ≤ rows_dimension self.now → c ≢ column
            → stored_entry C.WORDS (rows_dimension self.now) map.new i c ≡ stored_entry C.WORDS (rows_dimension self.now) map.old i c }
        ensures vars { list_of (length self.now.origins) (part_at C.from_words C.WORDS scratch.new)
            ≡ column_after C.elements self.now column history.now args.now }
        ensures steps { steps.new ≡ steps.old
            + (length self.now.origins + steps_of self.now.code.instrs + rows_dimension self.now * C.WORDS) }
    {
        let states = self.origins.len();
        let linear = self.linear.as_slice();
        start_column::<C, L>(self.origins.as_slice(), column, history, scratch, steps);
        run_column::<C, L>(
            self.code.instrs(),
            states,
            self.algebra,
            args,
            scratch,
            column,
            linear.len(),
            steps,
        );
        write_column::<C, L>(linear, states, column, scratch, map, steps);
    }

    // All columns, and then the history, which the last one ends with.
    fn map_into<C: Coeff, L: Ledger>(
        &self,
        history: &mut [u64],
        args: &[u64],
        map: &mut [u64],
        scratch: &mut [u64],
        steps: &mut Steps<L>,
    )
        requires history { length history.old ≡ length self.now.history }
        requires arguments { length args.now ≡ self.now.code.args }
        requires map { length map.old ≡ rows_dimension self.now * (rows_dimension self.now + 1) * C.WORDS }
        requires room { length scratch.old ≡ rows_scratch self.now }
        ensures leaves { Leaves C.elements C.words C.WORDS self.now history.old args.now map.new history.new }
        ensures steps { steps.new ≡ steps.old + steps_with C.WORDS self.now }
    {
        let dimension = self.linear.len();
        for column in 0..dimension {
            self.column_into::<C, L>(column, history, args, map, scratch, steps);
        }
        self.column_into::<C, L>(dimension, history, args, map, scratch, steps);
        write_history::<C, L>(
            self.history.as_slice(),
            self.origins.len(),
            scratch,
            history,
            steps,
        );
    }

    /// The words that a run needs besides the map.
    pub fn scratch_words(&self) -> usize
        ensures words { result ≡ rows_scratch self.now }
        ensures most { result ≤ 65536 }
    {
        (self.origins.len() + self.code.instrs().len()) * 3
    }

    /// `map` becomes the affine map of one step on the linear variables, read from the history and the arguments, and
    /// `history` its words after the step. `map` and `scratch` may hold anything.
    pub fn exec<L: Ledger>(
        &self,
        history: &mut [u64],
        args: &[u64],
        map: &mut [u64],
        scratch: &mut [u64],
        steps: &mut Steps<L>,
    )
        requires history { length history.old ≡ length self.now.history }
        requires arguments { length args.now ≡ self.now.code.args }
        requires map { length map.old ≡ rows_words self.now }
        requires room { length scratch.old ≡ rows_scratch self.now }
        ensures leaves { LeavesRows self.now history.old args.now map.new history.new }
        ensures steps { steps.new ≡ steps.old + rows_steps self.now }
    {
        match self.algebra {
            Algebra::Sums => self.map_into::<Wrapping64, L>(history, args, map, scratch, steps),
            Algebra::Maxima => self.map_into::<MaxPlus64, L>(history, args, map, scratch, steps),
        }
    }

    /// Rows with the same meaning.
    pub fn copy(&self, alloc: Global) -> Result<AffineRows, AllocError>
        ensures { IfOk result (λ rows. rows ≡ self.now) }
    {
        Ok(AffineRows {
            code: self.code.copy(alloc)?,
            algebra: self.algebra,
            origins: Seq::from_vec(self.origins.as_slice().to_vec(alloc)?),
            linear: Seq::from_vec(self.linear.as_slice().to_vec(alloc)?),
            history: Seq::from_vec(self.history.as_slice().to_vec(alloc)?),
        })
    }
}
