//! The store: keys with their numbers of epochs, and rows of state.

ghost use Rattle.std.specs.Prelude.{◌≡◌, ◌<◌, ◌↔◌, ℕ, Some, option_map, slice_get, ◌++◌, ◌∷◌, [], All, IfOk, OnErr, OnOk, length, map, slice_index_or};
ghost use Rattle.std.specs.List.{zip};
ghost use Rattle.backing_store.specs.SortedRows.{IsMade, sorted_rows};
ghost use Rattle.backing_store.specs.{Store.{AreOnce, AreRowsOf, IsLastRowOf, IsStore, counted, epochs_of, number_of}, Stored.stored};
ghost use Rattle.backing_store.specs.{Ordered.{HasOneRowEach, IsPlaceOf, row_placed}, Places.{AreByKey, AreOfWidth}};
ghost use Rattle.backing_store.specs.RowOrder.{Ascends, first_word};

use crate::chains::Search;
use crate::fetching::fetch_next;
use crate::keys::Keys;
use crate::order::{Place, sorted_places};
use crate::states::States;
use epoch_model::Mark;
use std::alloc::{AllocError, Global};
use std::marker::Model;
use std::slice::from_ref;
use table_rows::Rows;

// An index of so many keys doesn't lie near.
const MANY_KEYS: usize = 65536;

// How often a key was merged, and the place of its last row.
#[derive(Clone, Copy, Drop)]
pub struct Merged {
    pub epochs: u64,
    pub last: usize,
}

/// Keys in the order of their first epochs, each with its number of epochs, and the rows in the order of their
/// making. A row's place is its number.
pub struct BackingStore {
    alloc: Global,
    keys: Keys,
    merged: Vec<Merged>,
    states: States,
}

impl Drop for BackingStore {
    fn drop(self) {
        let BackingStore {
            alloc: _,
            keys: _,
            merged: _,
            states: _,
        } = self;
    }
}

/// A row of a store, lent: its key, how many epochs of the key were counted, and the words of its state.
#[derive(Clone, Copy)]
pub struct HeldRow<'a> {
    pub key: &'a [u64],
    pub epochs: u64,
    pub state: &'a [u64],
}

// The key with a number, of which this is the first word. Where it has no other, it isn't read.
#[inline(always)]
fn key_at<'a>(keys: &'a Keys, of: usize, first: &'a [u64]) -> &'a [u64]
    requires of { of < length keys.now.keys }
    requires first { first.now ≡ first_word (slice_index_or keys.now.keys of []) ∷ [] }
    requires widths { AreOfWidth keys.now.width keys.now.keys }
    ensures { slice_get keys.now.keys of ≡ Some result.now }
{
    if keys.width() == 1 {
        first
    } else {
        keys.key(of)
    }
}

// The rows at these places, each with its number among its key's rows, which stand one after another.
fn made_rows(
    alloc: Global,
    keys: &Keys,
    merged: &Vec<Merged>,
    states: &States,
    places: &[Place],
) -> Result<Rows, AllocError>
    requires many { length merged.now.items ≡ length keys.now.keys }
    requires once { AreOnce (map stored (zip keys.now.keys merged.now.items)) }
    requires rows { AreRowsOf (length keys.now.keys) states.now.width states.now.rows }
    requires widths { AreOfWidth keys.now.width keys.now.keys }
    requires places { AreByKey keys.now.keys states.now.rows places.now }
    ensures { IfOk result (λ made. IsMade (map stored (zip keys.now.keys merged.now.items)) made states.now.rows × Ascends made) }
{
    let mut made = Rows::new(alloc);
    let width = keys.width().saturating_add(states.width());
    made.reserve(places.len(), places.len().saturating_mul(width))?;
    // At first the number of no key.
    let mut last = keys.len();
    let mut epoch = 0u64;
    for place in places {
        let next = made.len();
        fetch_next(&mut made, keys, merged.as_slice(), states, places, next)?;
        let of = place.of as usize;
        epoch = if of == last { epoch + 1 } else { 1 };
        last = of;
        let kept = merged[of];
        made.push(
            key_at(keys, of, &[place.word]),
            Mark::Plain,
            epoch,
            kept.epochs,
            states.row(place.at as usize),
        )?;
    }
    Ok(made)
}

impl Model for BackingStore {
    ghost use Rattle.backing_store.specs.Store.{Store};

    ghost Value = { Store };

    ghost use Rattle.backing_store.specs.StoreView.{store_of, IsSound};

    ghost view = { store_of };

    ghost invariant = { IsSound };
}

impl BackingStore {
    /// A store with no keys.
    pub fn new(alloc: Global, key_words: usize, state_words: usize) -> BackingStore
        ensures { result ≡ record { keys = []; rows = []; key_words = key_words; state_words = state_words } }
    {
        BackingStore {
            alloc,
            keys: Keys::new(alloc, key_words),
            merged: Vec::new(alloc),
            states: States::new(alloc, state_words),
        }
    }

    /// What holds of every store: keys and rows have their numbers of words, and no key is there twice.
    pub fn invariant(&self)
        ensures { IsStore self.now }
    {
        let _merged = &self.merged;
    }

    /// Counts an epoch of a key, and returns the place of the key's last row. A key without a row gets one, and
    /// each key does where `row_per_epoch` is set. All memory is allocated first.
    pub fn row_for(
        &mut self,
        key: &[u64],
        initial: &[u64],
        row_per_epoch: bool,
    ) -> Result<usize, AllocError>
        requires key { length key.now ≡ self.old.key_words }
        requires initial { length initial.now ≡ self.old.state_words }
        ensures ok { OnOk result (self.new ≡ counted self.old key.now initial.now row_per_epoch) }
        ensures place { IfOk result (λ place. IsLastRowOf self.new key.now place) }
        ensures err { OnErr result (self.new ≡ self.old) }
    {
        match self.keys.find(key) {
            Search::Found(at) if row_per_epoch => {
                let last = self.states.len();
                self.states.push(at, initial)?;
                let epochs = self.merged[at].epochs.saturating_add(1);
                self.merged[at] = Merged { epochs, last };
                Ok(last)
            }
            Search::Found(at) => {
                let merged = self.merged[at];
                let epochs = merged.epochs.saturating_add(1);
                self.merged[at] = Merged { epochs, ..merged };
                Ok(merged.last)
            }
            Search::Free(print) => {
                let number = self.keys.len();
                let last = self.states.len();
                self.merged.reserve(1)?;
                self.states.push(number, initial)?;
                match self.keys.add(key, print) {
                    Ok(()) => {
                        self.merged.push_reserved(Merged { epochs: 1, last });
                        Ok(last)
                    }
                    Err(error) => {
                        self.states.pop();
                        Err(error)
                    }
                }
            }
        }
    }

    /// A number that depends on the words of the index with which a search for the key begins, where there are many keys. It means
    /// nothing, but who asks for it has the words read, before they are needed.
    pub fn read_ahead(&self, key: &[u64]) -> u64 {
        if self.keys.len() < MANY_KEYS {
            return 0;
        }
        self.keys.first_found(key) as u64
    }

    /// How many epochs of a key were counted, 0 where the key isn't there.
    pub fn epochs(&self, key: &[u64]) -> u64
        ensures value { result ≡ epochs_of self.now.keys key.now }
        ensures zero { (result ≡ 0) ↔ (number_of self.now.keys key.now ≡ length self.now.keys) }
    {
        match self.keys.find(key) {
            Search::Found(at) => self.merged[at].epochs,
            Search::Free(_) => 0,
        }
    }

    ghost use Rattle.std.specs.Borrow.{sem};
    ghost use Rattle.backing_store.specs.LendingRows.{LendsRow};

    /// Lends the words of the row at a place.
    pub fn row_mut(&mut self, at: usize) -> &mut [u64]
        requires { at < length self.old.rows }
        ensures* writes_back { sem 𝓛 (LendsRow self.entry at result) }
        ensures value { option_map (λ row. row.words) (slice_get self.old.rows at) ≡ Some result.now }
        ensures length { length result.now ≡ self.old.state_words }
    {
        self.states.row_mut(at)
    }

    /// One row for each row of the store, by ascending key, compared word by word, and then by number.
    pub fn sorted(&self) -> Result<Rows, AllocError>
        ensures { IfOk result (λ rows. rows ≡ sorted_rows self.now) }
    {
        let places = sorted_places(self.alloc, &self.keys, &self.states)?;
        made_rows(self.alloc, &self.keys, &self.merged, &self.states, &places)
    }

    /// The places of all rows, by ascending key.
    pub fn order(&self) -> Result<Vec<Place>, AllocError>
        ensures within { IfOk result (λ places. All (IsPlaceOf self.now) places.items) }
        ensures rows { HasOneRowEach self.now → IfOk result (λ places. map (row_placed self.now) places.items ≡ sorted_rows self.now) }
    {
        sorted_places(self.alloc, &self.keys, &self.states)
    }

    /// The row at a place.
    #[inline(always)]
    pub fn row_at<'a>(&'a self, place: &'a Place) -> HeldRow<'a>
        requires { IsPlaceOf self.now place.now }
        ensures key { result.key.now ≡ (row_placed self.now place.now).key }
        ensures epochs { result.epochs ≡ (row_placed self.now place.now).epochs }
        ensures state { result.state.now ≡ (row_placed self.now place.now).values }
    {
        let of = place.of as usize;
        HeldRow {
            key: key_at(&self.keys, of, from_ref(&place.word)),
            epochs: self.merged[of].epochs,
            state: self.states.row(place.at as usize),
        }
    }

    /// Has the words of the row at a place of these, and of some after it, read before they are needed one by one. It changes nothing.
    #[inline(always)]
    pub fn read_rows_ahead(
        &self,
        made: &mut Rows,
        places: &[Place],
        next: usize,
    ) -> Result<(), AllocError>
        ensures { made.new ≡ made.old }
    {
        fetch_next(
            made,
            &self.keys,
            self.merged.as_slice(),
            &self.states,
            places,
            next,
        )
    }

    /// A copy of the store, in separate memory.
    pub fn copy(&self) -> Result<BackingStore, AllocError>
        ensures { IfOk result (λ copy. copy ≡ self.now) }
    {
        Ok(BackingStore {
            alloc: self.alloc,
            keys: self.keys.copy()?,
            merged: Vec::from_slice(self.alloc, self.merged.as_slice())?,
            states: self.states.copy()?,
        })
    }
}
