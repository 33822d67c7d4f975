//! The bound on the steps of one packet.

ghost use Rattle.std.specs.Prelude.{◌≡◌, ℕ, ◌+◌, ◌*◌, ◌^◌, ◌<◌, ◌≤◌, length, map, sum, slice_get, Some};
ghost use Rattle.stage_plan.specs.{declared.group.GroupPlan.GroupPlan, Shape.{element_words, entry_words, group_bound, group_shape}};

use crate::group::GroupPlan;
use fold_class::Algebra;
use query_lang::{MAX_GROUPBYS, MAX_KEYS, MAX_STATES};

// The most words of an entry with its key.
fn most_words(algebra: Algebra, keys: u64, states: u64, args: u64, depth: u64) -> u64
    requires keys { keys ≤ MAX_KEYS }
    requires states { states ≤ MAX_STATES }
    requires args { args < 256 }
    requires depth { depth < 256 }
    ensures words { result ≡ keys + element_words algebra * states * (states + 1) + states + depth * args + 2 }
    ensures most { result < 2 ^ 17 }
{
    let size = match algebra {
        Algebra::Sums => 1,
        Algebra::Maxima => 2,
    };
    keys + size * states * (states + 1) + states + depth * args + 2
}

// The most steps of one packet at a groupby of a fold with these numbers of nodes and statements.
fn most_steps(
    words: u64,
    ways: u64,
    keys: u64,
    states: u64,
    args: u64,
    nodes: u64,
    statements: u64,
) -> u64
    requires words { words < 2 ^ 17 }
    requires ways { ways < 2 ^ 32 }
    requires keys { keys ≤ MAX_KEYS }
    requires states { states ≤ MAX_STATES }
    requires args { args < 256 }
    requires nodes { nodes < 2 ^ 32 }
    requires statements { statements < 2 ^ 32 }
    ensures steps { result ≡ 2 * ways * (keys + 1) + (states + 1) * (nodes + 4 * statements + 1) + states * states * (states + 1)
        + 6 * words + 2 * (keys + args) }
    ensures most { result < 2 ^ 40 }
{
    2 * ways * (keys + 1)
        + (states + 1) * (nodes + 4 * statements + 1)
        + states * states * (states + 1)
        + 6 * words
        + 2 * (keys + args)
}

// The most steps of one packet at a groupby.
fn most_of_group(group: &GroupPlan, ways: u32) -> u64
    requires keys { length group.now.key_names ≤ MAX_KEYS }
    requires states { length group.now.state_names ≤ MAX_STATES }
    ensures steps { result ≡ group_bound ways (group_shape group.now) }
    ensures most { result < 2 ^ 40 }
{
    let keys = group.key_names.len() as u64;
    let states = group.state_names.len() as u64;
    let layout = &group.program.layout;
    let args = u64::from(layout.args);
    let words = most_words(
        group.program.algebra,
        keys,
        states,
        args,
        u64::from(group.program.depth),
    );
    most_steps(
        words,
        u64::from(ways),
        keys,
        states,
        args,
        u64::from(layout.nodes),
        u64::from(layout.statements),
    )
}

pub(crate) fn most_of_groups(groups: &[GroupPlan], ways: u32) -> u64
    requires few { length groups.now ≤ MAX_GROUPBYS }
    requires keys { (i : ℕ) (group : GroupPlan) → slice_get groups.now i ≡ Some group → length group.key_names ≤ MAX_KEYS }
    requires states { (i : ℕ) (group : GroupPlan) → slice_get groups.now i ≡ Some group → length group.state_names ≤ MAX_STATES }
    ensures steps { result ≡ sum (map (λ group. group_bound ways (group_shape group)) groups.now) }
    ensures most { result < 2 ^ 44 }
{
    let mut all = 0;
    for group in groups {
        all += most_of_group(group, ways);
    }
    all
}
