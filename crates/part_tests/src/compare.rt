//! What tests compare, each under a name that a failure shows, and the room that they have for words.

ghost use Rattle.std.specs.Prelude.{◌≡◌, ◌≤◌, true};

use std::fmt::Debug;
use std::process::Abort;

/// What is seen under a name is what was expected.
pub fn same<T: PartialEq + Debug + Drop>(rt: &impl Abort, name: &str, seen: T, expected: T)
    ensures { T.eq seen expected ≡ true }
{
    assert_eq!(rt; seen, expected, "{name}");
}

/// What has a name is so.
pub fn holds(rt: &impl Abort, name: &str, is_so: bool)
    ensures { is_so ≡ true }
{
    assert!(rt; is_so, "{name}");
}

/// The room for words of a test's arrays.
pub const ROOM: usize = 256;

/// A number of words for which there is room.
pub fn fitting(rt: &impl Abort, words: usize) -> usize
    ensures number { result ≡ words }
    ensures room { result ≤ 256 }
{
    assert!(rt; words <= ROOM, "no room for {words} words");
    words
}
