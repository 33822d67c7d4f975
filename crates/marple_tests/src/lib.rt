//! Tests over the public contract of the top call, apart from it so that it isn't proved twice for its tests.
#![tactic(auto)]

#[cfg(test)]
mod call;
#[cfg(test)]
mod count;
#[cfg(test)]
mod final_counts;
#[cfg(test)]
mod left;
