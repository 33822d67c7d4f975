//! Laws of finals over the tables of parts.

ghost use Rattle.part_laws.specs.FinalParts.{ExactTablesInOrder, FiltersAreOfParts, MapsAreOfParts, JoinsAreOfParts, FiltersStayOfParts};
ghost use Rattle.part_laws.specs.FinalParts.{MapsStayOfParts, JoinsStayOfParts, TopsAreOfTops, GroupbysAreNotOfParts, FiltersReadNoEpochs};
ghost use Rattle.part_laws.specs.FinalParts.{MapsReadNoEpochs, GroupbysReadNoEpochs, JoinsReadNoEpochs, TopsReadNoEpochs};

/// Where each key has one row, the table of the whole trace has the rows of the parts' tables in the order of their keys, but
/// for numbers of epochs; and these rows are in the parts of their keys.
pub fn exact_tables_are_in_order()
    ensures { ExactTablesInOrder }
{}

/// No final reads the number of epochs.
pub fn finals_read_no_epochs()
    ensures filters { FiltersReadNoEpochs }
    ensures maps { MapsReadNoEpochs }
    ensures groupbys { GroupbysReadNoEpochs }
    ensures joins { JoinsReadNoEpochs }
    ensures tops { TopsReadNoEpochs }
{}

/// `filter` of the rows of all parts gives the rows that it gives for each part, in the order of keys.
pub fn filters_are_of_parts()
    ensures { FiltersAreOfParts }
{}

/// So does `map`.
pub fn maps_are_of_parts()
    ensures { MapsAreOfParts }
{}

/// And so does `join` of two tables, where the rows of both are in the parts of their keys.
pub fn joins_are_of_parts()
    ensures { JoinsAreOfParts }
{}

/// What they make of rows that are those of parts is that again, so they compose.
pub fn finals_stay_of_parts()
    ensures filters { FiltersStayOfParts }
    ensures maps { MapsStayOfParts }
    ensures joins { JoinsStayOfParts }
{}

/// `top` of all rows is `top` of the rows that `top` gives for each part.
pub fn tops_are_of_tops()
    ensures { TopsAreOfTops }
{}

/// `groupby` can't be made part by part, whatever the fold: here the table of all rows has one row, and the parts'
/// tables have two.
pub fn groupbys_are_not_of_parts()
    ensures { GroupbysAreNotOfParts }
{}
