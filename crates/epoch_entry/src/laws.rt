// Laws of entries.

ghost use Rattle.epoch_entry.specs.Purposes.{EntriesAreSmall, EntriesSuitFolds};

/// An entry with its key of at most 8 words has at most 274 words.
pub fn entries_are_small()
    ensures { EntriesAreSmall }
{}

/// The entries of a fold, for any purpose, take its argument rows, and have at most the words and the steps of as many runs
/// of the fold as the purpose has.
pub fn entries_suit_folds()
    ensures { EntriesSuitFolds }
{}
