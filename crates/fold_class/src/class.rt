//! The algebra of a fold, the kind of an expression, and the role of an operator.

/// Over which sums and products it is affine.
#[derive(Clone, Copy, Debug, PartialEq, Eq)]
pub enum Algebra {
    Sums,
    Maxima,
}

/// What a walk knows of the value of an expression, or of a variable.
#[derive(Clone, Copy)]
pub enum Kind {
    /// It depends on none of the variables that the walk follows.
    Pure,
    /// It depends on them by sums and products of the walk alone.
    Affine,
    /// Nothing is known of it.
    Other,
}

/// What an operator is to a walk: how the kind of its result follows from those of its operands.
#[derive(Clone, Copy)]
pub enum Role {
    /// The greater kind of its operands.
    Sum,
    /// The same.
    Difference,
    /// The kind of one operand where the other is Pure, else Other.
    Product,
    /// Pure if both operands are Pure, else Other.
    Outside,
}
