//! What is left out makes no difference.
ghost use Rattle.jskw_wanted.specs.Seen.{PrunedAlike};

/// Where all that a schema looks at is wanted, what is left of an instance is valid exactly where the
/// instance is.
pub fn pruned_alike()
    ensures { PrunedAlike }
{}
