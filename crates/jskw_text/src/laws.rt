//! Laws of reading.
ghost use Rattle.jskw_text.specs.Laws.{DecimalsAreExact, ReadsIntegersAlike};

/// States, for proofs, that the decimal of a number has its very value, that it is written as an
/// integer exactly if the number is, and that no other decimal could have been read where there is
/// none. Does nothing.
pub fn decimals_are_exact()
    ensures { DecimalsAreExact }
{}

/// States, for proofs, that the tree of a text is that of the value that `serde_json` reads, if
/// that reads each number of the text as an integer. Does nothing.
pub fn integers_are_read_alike()
    ensures { ReadsIntegersAlike }
{}
