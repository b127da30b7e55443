//! What holds of the bytes of carries.

ghost use Rattle.ix_parse.specs.Form.{HaveOneCarry};

/// A law about the definitions, and no code: under the same settings no carry is a proper prefix of
/// another, and no two carries have the same bytes.
pub fn one_carry()
    ensures { HaveOneCarry }
{}
