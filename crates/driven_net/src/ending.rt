//! The end of a trace over several switches.

ghost use Rattle.std.specs.{Prelude.{◌≡◌, ◌≤◌, ℕ, All, List, None, IfErr, IfOk, OnOk, map}, Io.KnownBytes.Appends};
ghost use Rattle.query_lang.specs.{Streams.takings, TypedQueries.{IsValidQuery, group_shape}};
ghost use Rattle.stage_plan.specs.{Packets.AreWhole, Planned.IsPlanOf};
ghost use Rattle.final_queries.specs.Finals.{IsTable, table_shape, with_finals};
ghost use Rattle.query_tables.specs.Tables.{printed};
ghost use Rattle.trace_drive.specs.Answers.{BreaksOff};
ghost use Rattle.net_wide.specs.{Combining.net_fault, NetTables.{caches_of, net_tables}, NetLaws.TellsSwitches};
ghost use Rattle.driven_net.specs.Follows.{NetFollows};

use final_queries::Table;
use marple_base::{Seq, Sink, Steps, TextBuffer};
use net_wide::net_tables_are_read;
use network::{Network, runs_follow_events};
use query_lang::TypedQuery;
use query_tables::write_tables;
use std::alloc::{AllocError, Global};
use std::sync::ledger::Ledger;
use trace_drive::RunError;

/// Closes and merges all epochs: the tables of the query's groupbys. The network's memory is freed.
pub(crate) fn end_tables<const WAYS: usize, L: Ledger>(
    typed: &TypedQuery,
    network: Network<WAYS>,
    steps: &mut Steps<L>,
) -> Result<Seq<Table>, AllocError>
    requires valid { IsValidQuery typed.now }
    requires plan { IsPlanOf typed.now network.plan }
    requires combines { net_fault typed.now ≡ None }
    requires tells { TellsSwitches typed.now }
    requires follows { (known : List ℕ) × (packets : List (List ℕ)) × AreWhole packets × NetFollows WAYS known packets network }
    ensures tables { IfOk result (λ tables. (known : List ℕ) (packets : List (List ℕ)) → AreWhole packets
        → NetFollows WAYS known packets network.entry
        → tables ≡ net_tables typed.now (caches_of network.entry.buckets WAYS) packets) }
    ensures shapes { IfOk result
        (λ tables. map table_shape tables ≡ map (group_shape typed.now.folds) (takings typed.now.streams)) }
    ensures read { IfOk result (All IsTable) }
    ensures steps { steps.old ≤ steps.new }
{
    let mut network = network;
    net_tables_are_read();
    runs_follow_events();
    network.plan().invariant();
    network.drain(steps)?;
    network.close()
}

/// Writes what the query prints, where these are the tables of its groupbys: all of it, or some first bytes.
pub(crate) fn write_text<O: Sink, L: Ledger>(
    alloc: Global,
    typed: &TypedQuery,
    tables: Seq<Table>,
    out: &mut O,
    steps: &mut Steps<L>,
) -> Result<(), RunError>
    requires valid { IsValidQuery typed.now }
    requires shapes { map table_shape tables ≡ map (group_shape typed.now.folds) (takings typed.now.streams) }
    requires tables { All IsTable tables }
    ensures written { OnOk result (Appends (O.taken out.old) (O.taken out.new)
        (printed typed.now (with_finals typed.now.names typed.now.folds tables typed.now.finals))) }
    ensures breaks_off { IfErr result (BreaksOff O.taken O.faults
        (printed typed.now (with_finals typed.now.names typed.now.folds tables typed.now.finals)) None out.old out.new) }
    ensures out_later { O.faults out.old ≤ O.faults out.new }
    ensures steps { steps.old ≤ steps.new }
{
    let mut text = TextBuffer::new(alloc);
    write_tables(alloc, typed, tables, &mut text, out, steps)?;
    text.write_rest(out)?;
    Ok(())
}
