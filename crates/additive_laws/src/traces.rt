//! A trace's packets, by switch: which epochs the machines of all switches close of them, and what the store that
//! merges these has of each key. Each law is the contract of a function without a body.

ghost use Rattle.additive_laws.specs.TraceLaws.{EpochsAddUp, EpochsOfOneSwitch, MergedKeysAreUsed, OwnEpochs, RunsGiveTheTrace};
ghost use Rattle.additive_laws.specs.TraceLaws.{RunsHavePackets};

/// The merged epochs of each switch are those into which its caches cut what its packets give, wherever merges come.
pub fn own_epochs()
    ensures { OwnEpochs }
{}

/// The events of a run have the packets of its steps.
pub fn runs_have_packets()
    ensures { RunsHavePackets }
{}

/// Events with the packets of a trace give each key the rows of its uses, in the order of the trace, wherever evictions and
/// merges come.
pub fn runs_give_the_trace()
    ensures { RunsGiveTheTrace }
{}

/// The merged epochs have the keys that are used.
pub fn merged_keys_are_used()
    ensures { MergedKeysAreUsed }
{}

/// A key has as many merged epochs as all switches have of it.
pub fn epochs_add_up()
    ensures { EpochsAddUp }
{}

/// Where only one switch has epochs of a key, the store has just these of it.
pub fn epochs_of_one_switch()
    ensures { EpochsOfOneSwitch }
{}
