//! The words that the variables of folds start from.

ghost use Rattle.query_lang.specs.Words.{AreWords};
ghost use Rattle.enclosed_query.specs.Holding.{StartFromWords};

use query_lang::TypedQuery;

// A number of 64 bits is a word.
fn words_known(words: &[u64])
    ensures { AreWords words.now }
{
    let _words = words;
}

/// The variables of a query's folds start from words, since a number of 64 bits is one.
pub fn starts_known(q: &TypedQuery)
    ensures { StartFromWords q.now.folds }
{
    for f in q.folds.as_slice() {
        words_known(f.initial.as_slice());
    }
}
