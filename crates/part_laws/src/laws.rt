//! Laws of parts. Each is the contract of a function without a body.

ghost use Rattle.part_laws.specs.PartLaws.{PartsHaveTheRows, OtherPartsHaveNone, KeysAreOfTheirParts, KeysAreOfNoOtherPart};
ghost use Rattle.part_laws.specs.PartLaws.{ExactRowsAreTheParts, ValidRowsFoldTheWhole, FieldsKeepKeys, PartsCutNoMore};
ghost use Rattle.part_laws.specs.PartLaws.{ValidRowsAreTheParts, KeysAreOfAllParts, ExactTablesJoin, FieldListsKeepKeys};
ghost use Rattle.part_laws.specs.PartLaws.{FieldListsGiveTheParts, AdditivePartsAdd, StatesFromZerosAdd, PartWordsAdd, AdditiveTablesJoin};
ghost use Rattle.part_laws.specs.Pieces.{PiecesHaveTheRows, KeysAreOfAllPieces, AdditivePiecesAdd, StatesOfPiecesAdd, PieceWordsAdd};
ghost use Rattle.part_laws.specs.Pieces.{AdditivePiecesJoin};

/// The argument rows that the whole trace gives a key are, in order, those of the key's part alone.
pub fn parts_have_the_rows()
    ensures { PartsHaveTheRows }
{}

/// Every other part gives the key no row.
pub fn other_parts_have_none()
    ensures { OtherPartsHaveNone }
{}

/// The table of the whole trace has a key exactly where the table of the key's part has it, and no other part's table has it.
pub fn keys_are_of_their_parts()
    ensures same { KeysAreOfTheirParts }
    ensures once { KeysAreOfNoOtherPart }
{}

/// The keys of the whole table are those of the parts' tables, whatever the partition.
pub fn keys_are_of_all_parts()
    ensures { KeysAreOfAllParts }
{}

/// Where a key has one row for all its packets, that is the row of its part, but for the number of epochs;
/// and the whole table is that of the parts' rows, in the order of their keys.
pub fn exact_rows_are_the_parts()
    ensures rows { ExactRowsAreTheParts }
    ensures tables { ExactTablesJoin }
{}

/// Where each epoch has a row, a key with one epoch in its part has there the valid row of all its rows in the whole trace.
pub fn valid_rows_fold_the_whole()
    ensures { ValidRowsFoldTheWhole }
{}

/// Without a refresh a key has at most as many epochs in its part as in the whole trace, and a valid row stays the same.
pub fn valid_rows_are_the_parts()
    ensures cut { PartsCutNoMore }
    ensures rows { ValidRowsAreTheParts }
{}

/// The state of an additive fold over the whole trace is the sum of what the parts add, whatever the partition;
/// and the whole table is that of these states, by the keys of all parts.
pub fn additive_parts_add()
    ensures words { AdditivePartsAdd }
    ensures states { StatesFromZerosAdd }
    ensures words_of_tables { PartWordsAdd }
    ensures tables { AdditiveTablesJoin }
{}

/// A trace that is cut by place gives a key the rows of its pieces, piece after piece, and its tables have the keys of all
/// pieces.
pub fn pieces_have_the_rows()
    ensures rows { PiecesHaveTheRows }
    ensures keys { KeysAreOfAllPieces }
{}

/// The state of an additive fold over the whole trace is the sum of what its pieces add, wherever the trace is cut;
/// and the whole table is that of these states, by the keys of all pieces.
pub fn additive_pieces_add()
    ensures words { AdditivePiecesAdd }
    ensures states { StatesOfPiecesAdd }
    ensures words_of_tables { PieceWordsAdd }
    ensures tables { AdditivePiecesJoin }
{}

/// Each partition by a field keeps the keys of a groupby that has a key of that name, where no `map` makes such a
/// column; and so does each partition by several such fields. A key's part is then that of its words of these fields.
pub fn fields_keep_keys()
    ensures one { FieldsKeepKeys }
    ensures several { FieldListsKeepKeys }
    ensures parts { FieldListsGiveTheParts }
{}
