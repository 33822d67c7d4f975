//! The words for classes and marks.
ghost use Rattle.std.specs.Prelude.{◌≡◌};
ghost use Rattle.table_printer.specs.TableText.{class_text, mark_text};

use final_queries::Mark;
use query_lang::Class;

/// The word for a class.
pub fn class_word(class: Class) -> &'static [u8]
    ensures { result.now ≡ class_text class }
{
    match class {
        Class::Linear => b"linear",
        Class::Other => b"other",
    }
}

/// The word for a mark.
pub fn mark_word(mark: Mark) -> &'static [u8]
    ensures { result.now ≡ mark_text mark }
{
    match mark {
        Mark::Exact => b"exact",
        Mark::Valid => b"valid",
        Mark::Invalid => b"invalid",
        Mark::Plain => b"plain",
    }
}
