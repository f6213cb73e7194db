//! Laws that the definitions obey. Each law is the contract of a function that does nothing.
ghost use Rattle.jskw_unchecked.specs.Covered.{EmptyListCovers};

/// If no member of a schema that compiles is unchecked, the validators cover the schema whole: every
/// member of every subschema that a keyword applies is an annotation of the draft, accepts everything
/// by the standard, or is asserted by exactly one keyword of the plain schema that is read from it.
pub fn every_member_is_covered()
    ensures { EmptyListCovers }
{}
