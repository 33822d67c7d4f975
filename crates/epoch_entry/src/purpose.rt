// What entries are for.

/// What the entries of a pipeline are for.
#[derive(Clone, Copy, Debug, PartialEq, Eq)]
pub enum Entries {
    /// The value of each fold.
    Folds,
    /// Bounds of the value, for each fold that isn't linear. A linear fold has its value all the same.
    Bounds,
}
