//! Laws of the texts of parts. Each is the contract of a function without a body.

ghost use Rattle.part_texts.specs.Laws.{FieldTextsReadBack};

/// The text of packets, of which some fields are read, reads back as these packets, with 0 in the other fields.
pub fn field_texts_read_back()
    ensures { FieldTextsReadBack }
{}
