//! Where the part of a variable comes from as a column begins.

/// The number of a variable among the history variables, or among the linear ones.
#[derive(Clone, Copy)]
pub enum Origin {
    Remembered(u8),
    Carried(u8),
}
