//! Laws of additive folds. Each is the contract of a function without a body.

ghost use Rattle.additive_laws.specs.Laws.{StepAdds, StateIsASum, NeighboursMayBeExchanged, RowsComeInAnyOrder, SwitchesInterleaveAnyWay};
ghost use Rattle.additive_laws.specs.Laws.{PiecesMergeInAnyOrder, StoreFoldsAllPackets, StoreTableFoldsAllPackets};

/// A step adds to each state variable, modulo 2^64, an amount that the argument row alone gives.
pub fn additive_step_adds()
    ensures { StepAdds }
{}

/// After a list of rows each state variable is its start and the sum of the rows' amounts, modulo 2^64.
pub fn additive_state_is_a_sum()
    ensures { StateIsASum }
{}

/// Two neighbouring rows can be exchanged, and all rows put into any order: the state stays the same.
pub fn rows_come_in_any_order()
    ensures neighbours { NeighboursMayBeExchanged }
    ensures order { RowsComeInAnyOrder }
{}

/// Two traces in which each switch has the same rows in the same order lead to the same state.
pub fn switches_do_not_wait()
    ensures { SwitchesInterleaveAnyWay }
{}

/// The pieces of several switches, merged in any order, give the state after all their rows in the order of the trace.
pub fn pieces_merge_in_any_order()
    ensures { PiecesMergeInAnyOrder }
{}

/// One store merges the epochs of several switches in any order: the state of each key is the fold over the rows of all
/// its packets, in the order of the events, and so is that in the key's row of the table.
pub fn store_folds_all_packets()
    ensures state { StoreFoldsAllPackets }
    ensures table { StoreTableFoldsAllPackets }
{}
