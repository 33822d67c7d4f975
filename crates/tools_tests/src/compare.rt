//! Comparisons that end a test.

use std::fmt::Debug;
use std::process::Abort;

/// Ends the test unless what was found is what was wanted.
pub fn compare<T: Copy + Debug + PartialEq>(rt: &impl Abort, found: T, wanted: T, what: &str) {
    assert_eq!(rt; found, wanted, "{what}");
}

/// Ends the test unless the parts have these texts.
pub fn compare_texts(rt: &impl Abort, found: &[Vec<u8>], wanted: &[&[u8]], what: &str) {
    compare(rt, found.len(), wanted.len(), what);
    for (found, wanted) in found.iter().zip(wanted) {
        compare(rt, found.as_slice(), *wanted, what);
    }
}
