//! The groupbys of a plan.

use crate::op::Operand;
use fold_class::FoldProgram;
use marple_base::{Seq, Text};

/// What a groupby takes of a packet's registers. It takes nothing where `present` is 0.
pub struct GroupWiring {
    pub present: Operand,
    pub keys: Seq<Operand>,
    pub args: Seq<Operand>,
}

impl Drop for GroupWiring {
    fn drop(self) {
        let GroupWiring {
            present: _,
            keys: _,
            args: _,
        } = self;
    }
}

/// A groupby: its name, the names of its keys and of its fold's state variables, and the program of its fold.
pub struct GroupPlan {
    pub name: Text,
    pub key_names: Seq<Text>,
    pub state_names: Seq<Text>,
    pub program: FoldProgram,
}

impl Drop for GroupPlan {
    fn drop(self) {
        let GroupPlan {
            name: _,
            key_names: _,
            state_names: _,
            program: _,
        } = self;
    }
}
