//! Types that say whether `null` is accepted.
ghost use Rattle.std.specs.Prelude.{Bool, true, false};

/// A type that says, when code is compiled, whether `null` is accepted.
pub trait Nullability {
    /// Whether `null` is accepted, for contracts.
    ghost ACCEPTS_NULL: { Bool };

    /// Whether `null` is accepted.
    const ACCEPTS_NULL: bool;
}

/// `null` is accepted.
#[derive(Clone, Copy, PartialEq, Eq, Debug, Drop)]
pub struct Nullable;

impl Nullability for Nullable {
    ghost ACCEPTS_NULL = { true };

    const ACCEPTS_NULL: bool = true;
}

/// `null` is not accepted.
#[derive(Clone, Copy, PartialEq, Eq, Debug, Drop)]
pub struct NotNullable;

impl Nullability for NotNullable {
    ghost ACCEPTS_NULL = { false };

    const ACCEPTS_NULL: bool = false;
}
