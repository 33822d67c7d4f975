// Which tables finals may read, and which foldings make the same table.

ghost use Rattle.final_queries.specs.GroupTable.{ClosedGiveTheGroupTable};
ghost use Rattle.final_queries.specs.FinalLaws.{GroupTablesAreRead, FinalTablesAreRead, AlikeFoldingsMakeOneTable};

/// The epochs that are closed at the end of a trace give the groupby's table.
pub fn closed_give_the_group_table()
    ensures { ClosedGiveTheGroupTable }
{
    epoch_model::closed_give_the_table();
}

/// The table of a groupby may be read by finals: of each key at most one row is read.
pub fn group_tables_are_read()
    ensures { GroupTablesAreRead }
{
    epoch_model::keys_ascend();
}

/// The table of a valid final may be read by other finals, and has the final's shape.
pub fn final_tables_are_read()
    ensures { FinalTablesAreRead }
{
    epoch_model::keys_ascend();
}

/// Foldings that give the same states make the same tables.
pub fn alike_foldings_make_one_table()
    ensures { AlikeFoldingsMakeOneTable }
{}
