//! Tests over the public contracts of the parts: means in memory, folds, entries, lanes and counts of steps. They stand
//! apart from the parts, so that no crate is proved twice for its tests.
#![tactic(auto)]

#[cfg(test)]
mod base;
#[cfg(test)]
mod bounds;
#[cfg(test)]
mod compare;
#[cfg(test)]
mod counter;
#[cfg(test)]
mod counts;
#[cfg(test)]
mod direct;
#[cfg(test)]
mod enclosed_rows;
#[cfg(test)]
mod entries;
#[cfg(test)]
mod fold_programs;
#[cfg(test)]
mod folds;
#[cfg(test)]
mod kind_counts;
#[cfg(test)]
mod kinds;
#[cfg(test)]
mod lanes;
#[cfg(test)]
mod one_bucket;
#[cfg(test)]
mod one_lane;
#[cfg(test)]
mod pipes;
