//! Laws of every text.

ghost use Rattle.marple_laws.specs.Readings.{EveryTextIsRead, TextsAreReadOnce};

/// Every text is valid, or it is refused at some place.
pub fn every_text_is_read()
    ensures { EveryTextIsRead }
{}

/// A text is valid or refused, and not both, and it says one thing, or has one fault.
pub fn texts_are_read_once()
    ensures { TextsAreReadOnce }
{}
