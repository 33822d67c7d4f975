//! Tests over the public contracts of splitting and of the second program, apart from these so that they aren't proved twice.
#![tactic(auto)]

#[cfg(test)]
mod calls;
#[cfg(test)]
mod compare;
#[cfg(test)]
mod facts;
#[cfg(test)]
mod memory;
#[cfg(test)]
mod ranges;
#[cfg(test)]
mod splits;
