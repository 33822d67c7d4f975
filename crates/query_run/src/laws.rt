//! What the machines at the end of a trace are, and the tables that they give; and what is known of the packets
//! that the generator makes.

ghost use Rattle.query_run.specs.{Driven.MadePacketsAreWhole, PlanReports.EndsAreTheTexts, Runs.EndsAreTheQuerys};
ghost use Rattle.query_run.specs.Views.{NoViewsWithoutNumber};

use epoch_model::taken_uses_are_in_trace;
use final_queries::{alike_foldings_make_one_table, closed_give_the_group_table};

/// The machines of a query's plan at the end of a trace are those of its groupbys, and give their tables.
pub fn ends_are_the_querys()
    ensures { EndsAreTheQuerys }
{
    taken_uses_are_in_trace();
    closed_give_the_group_table();
    alike_foldings_make_one_table();
}

/// The tables of a plan's machines at the end of packets are those that its text means.
pub fn ends_are_the_texts()
    ensures { EndsAreTheTexts }
{
    taken_uses_are_in_trace();
    closed_give_the_group_table();
    alike_foldings_make_one_table();
}

/// The packets that the generator makes have the words of all fields.
pub fn made_packets_are_whole()
    ensures { MadePacketsAreWhole }
{}

/// A run without views writes the report of all packets alone.
pub fn no_views_without_number()
    ensures { NoViewsWithoutNumber }
{}
