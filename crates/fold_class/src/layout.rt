//! The order of a fold's variables in the words of an entry.

ghost use Rattle.std.specs.Prelude.{◌≡◌, ℕ, ◌<◌, ◌≤◌, ◌++◌, ◌∷◌, [], Bool, true, false, not, length, if◌then◌else◌, IfOk, OnOk};
ghost use Rattle.query_lang.specs.Folds.{IsValidFold, fold_states, fold_args};
ghost use Rattle.fold_class.specs.{Depth.is_history, Step.{linear_places, history_places}, Program.origins_of, Rows.{Carried, Remembered}};
ghost use Rattle.fold_class.specs.Walk.{flag_in};

use crate::origin::Origin;
use marple_base::Seq;
use query_lang::{MAX_STATES, TypedFold};
use std::alloc::{AllocError, Global};

/// Which variables have a depth, and what else of a fold its entries need. The lists of variables are in the order of
/// declaration, and so are the initial words.
pub struct Layout {
    pub linear: Seq<u8>,
    pub history: Seq<u8>,
    pub initial: Seq<u64>,
    pub args: u8,
    pub nodes: u32,
    pub statements: u32,
}

impl Drop for Layout {
    fn drop(self) {
        let Layout {
            linear: _,
            history: _,
            initial: _,
            args: _,
            nodes: _,
            statements: _,
        } = self;
    }
}

/// The linear and the history variables, and for each variable its number among those of its kind.
#[derive(Drop)]
pub(crate) struct Places {
    pub(crate) linear: Seq<u8>,
    pub(crate) history: Seq<u8>,
    pub(crate) origins: Seq<Origin>,
}

impl Places {
    // Adds a variable after the others.
    fn add(&mut self, variable: u8, remembered: bool) -> Result<(), AllocError>
        requires few_linear { length self.old.linear < 256 }
        requires few_history { length self.old.history < 256 }
        ensures linear { OnOk result (self.new.linear ≡ (if remembered then self.old.linear else self.old.linear ++ variable ∷ [])) }
        ensures history { OnOk result (self.new.history
            ≡ (if remembered then self.old.history ++ variable ∷ [] else self.old.history)) }
        ensures origins { OnOk result (self.new.origins ≡ self.old.origins
            ++ (if remembered then Remembered (length self.old.history) else Carried (length self.old.linear)) ∷ []) }
    {
        if remembered {
            self.origins
                .push(Origin::Remembered(self.history.len() as u8))?;
            self.history.push(variable)
        } else {
            self.origins.push(Origin::Carried(self.linear.len() as u8))?;
            self.linear.push(variable)
        }
    }
}

/// The places of a fold's variables, by which of them have a depth.
pub(crate) fn places_of(alloc: Global, f: &TypedFold, flags: &[bool]) -> Result<Places, AllocError>
    requires valid { IsValidFold f.now }
    requires size { length flags.now ≡ MAX_STATES }
    requires history { (v : ℕ) → v < fold_states f.now → flag_in flags.now v ≡ is_history f.now v }
    ensures linear { IfOk result (λ p. p.linear ≡ linear_places f.now) }
    ensures history { IfOk result (λ p. p.history ≡ history_places f.now) }
    ensures origins { IfOk result (λ p. p.origins ≡ origins_of f.now) }
{
    let mut places = Places {
        linear: Seq::new(alloc),
        history: Seq::new(alloc),
        origins: Seq::new(alloc),
    };
    for v in 0..f.state_names.len() {
        places.add(v as u8, flags[v])?;
    }
    Ok(places)
}

impl Layout {
    /// A layout with the same parts.
    pub fn copy(&self, alloc: Global) -> Result<Layout, AllocError>
        ensures { IfOk result (λ copy. copy ≡ self.now) }
    {
        Ok(Layout {
            linear: Seq::from_vec(self.linear.as_slice().to_vec(alloc)?),
            history: Seq::from_vec(self.history.as_slice().to_vec(alloc)?),
            initial: Seq::from_vec(self.initial.as_slice().to_vec(alloc)?),
            args: self.args,
            nodes: self.nodes,
            statements: self.statements,
        })
    }
}
