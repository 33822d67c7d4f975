//! What a groupby's table is: the epochs into which the uses of its keys are cut, the machine of cache, pipe and store
//! with its events, the rows of tables, and the laws between them. Each law is the contract of a function without a body.
#![tactic(auto)]

ghost use Rattle.epoch_model.specs.Laws.{MergeKeepsEpochs, NoRowIsLost, RowListsAreEpochs, ClosedAreEpochs, MachinesAreWellFormed};
ghost use Rattle.epoch_model.specs.{Laws.{EpochsCutTheRows, EpochsAreCutBetweenUses, MergesDecideNothing}, Examples.AreWorkedExamples};
ghost use Rattle.epoch_model.specs.{TableLaws.{KeysAscend, ClosedGiveTheTable, ExactRowsFoldAllPackets}, Driving.EventsKeepAlike};
ghost use Rattle.epoch_model.specs.Driving.{BucketsEmptyByEvictions, PacketsFollowTheTrace, SweepsReachTheEnd, TakenUsesAreInTrace};

mod tables;

pub use tables::{Mark, Row};

/// Two consecutive uses of a key are in one epoch exactly where few enough other keys of the bucket are
/// used between them, and no refresh lies between them. This is the meaning of epochs.
pub fn epochs_are_cut_between_uses()
    ensures { EpochsAreCutBetweenUses }
{}

/// The pieces of a key's rows, joined, are its rows, and none is empty.
pub fn epochs_cut_the_rows()
    ensures { EpochsCutTheRows }
{}

/// Merging changes no open and no closed epoch.
pub fn merge_keeps_epochs()
    ensures { MergeKeepsEpochs }
{}

/// After any events a key's closed rows, and then its open ones, are the rows of its packets.
pub fn no_row_is_lost()
    ensures { NoRowIsLost }
{}

/// With a sweep at each refresh, merges anywhere and no other eviction before the last packet, a key's
/// row lists are its epochs.
pub fn row_lists_are_epochs()
    ensures { RowListsAreEpochs }
{}

/// At the end of the trace a key's closed row lists are its epochs.
pub fn closed_are_epochs()
    ensures { ClosedAreEpochs }
{}

/// After any events each bucket has distinct keys of that bucket, and at most as many as there are ways.
pub fn machines_are_well_formed()
    ensures { MachinesAreWellFormed }
{}

/// Wherever the merges fall, the open and the closed epochs are the same.
pub fn merges_decide_nothing()
    ensures { MergesDecideNothing }
{}

/// The keys of a table are in strictly ascending order, and they are the keys that were used.
pub fn keys_ascend()
    ensures { KeysAscend }
{}

/// The closed epochs at the end of the trace give the whole table, for any way of folding.
pub fn closed_give_the_table()
    ensures { ClosedGiveTheTable }
{}

/// Where a key has one row, its state is the same wherever evictions and merges fall.
pub fn exact_rows_fold_all_packets()
    ensures { ExactRowsFoldAllPackets }
{}

/// Small traces, with their epochs and tables written out.
pub fn worked_examples()
    ensures { AreWorkedExamples }
{}

/// Machines that differ in what is merged stay alike under the same events, wherever one of them merges.
pub fn events_keep_alike()
    ensures { EventsKeepAlike }
{}

/// A sweep is made of evictions, bucket by bucket.
pub fn buckets_empty_by_evictions()
    ensures { BucketsEmptyByEvictions }
{}

/// The machine after each packet comes from the one before it by the packet's events and the sweep of a refresh.
pub fn packets_follow_the_trace()
    ensures { PacketsFollowTheTrace }
{}

/// A sweep after the last packet, and merging all, reach the machine at the end of the trace.
pub fn sweeps_reach_the_end()
    ensures { SweepsReachTheEnd }
{}

/// Uses that are taken packet by packet are in the order of the trace.
pub fn taken_uses_are_in_trace()
    ensures { TakenUsesAreInTrace }
{}
