//! Laws of the sources of texts, and of what commands write of accepted ones.

ghost use Rattle.marple_laws.specs.{Bounded.AcceptedBoundsHold, Compiled.CompiledPlansRunAsQueries};
ghost use Rattle.marple_laws.specs.{Sources.{SourcesAreOne, SourcesAreThere}, Trials.TrialsAreRuns};

use crate::trials_run_over_texts;
use accepted_query::trial_is_accepted;
use enclosed_query::shown_tables_hold;
use query_laws::{accepted_are_valid, accepted_start_as_words};
use query_run::no_views_without_number;
use trace_drive::{read_packets_are_whole, read_packets_are_words};

/// Each text has a source for each command: what is said of all sources of a text isn't said of none.
pub fn sources_are_there()
    ensures { SourcesAreThere }
{}

/// All sources of a text are refused alike, refuse each trace alike, and mean the same text over it.
pub fn sources_are_one()
    ensures { SourcesAreOne }
{}

/// What `compile` writes of a query runs as the query does: `run-plan` with any setting refuses a trace for the fault for which `run`
/// without views refuses it, and writes the same text over it.
pub fn compiled_plans_run_as_queries()
    ensures { CompiledPlansRunAsQueries }
{
    no_views_without_number();
    read_packets_are_whole();
}

/// Where `enclose` accepts a query and a trace, what it writes of the groupbys holds over all packets of the trace, whatever the
/// caches evict before its end.
pub fn accepted_bounds_hold()
    ensures { AcceptedBoundsHold }
{
    shown_tables_hold();
    read_packets_are_words();
    accepted_are_valid();
    accepted_start_as_words();
}

/// A trial writes what `run` writes with the trial's query over the text that `gen` writes: the text is a trace without a fault, and
/// the tables over its packets are those over the generated ones.
pub fn trials_write_what_runs_write()
    ensures { TrialsAreRuns }
{
    trials_run_over_texts();
    no_views_without_number();
    trial_is_accepted();
}
