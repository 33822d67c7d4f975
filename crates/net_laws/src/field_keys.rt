//! Which columns of a typed query have the packet's word of a field. The law is the contract of a function without a body.

ghost use Rattle.net_laws.specs.FieldLaws.{KeysAreFields};

/// In each typed query a key of a groupby that has a field's name is the packet's word of it, where no `map` makes a column
/// of that name.
pub fn keys_are_fields()
    ensures { KeysAreFields }
{}
