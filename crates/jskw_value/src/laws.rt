//! Laws of equality.
ghost use Rattle.jskw_value.specs.Equality.{equal, same};
ghost use Rattle.jskw_value.specs.Laws.{EqualHaveOneFingerprint, IsEquivalence, SameIsEqual};
ghost use Rattle.jskw_value.specs.Laws.{UniqueMeansNoTwoEqual};

/// States, for proofs, that equality of values (JSON Schema Core 4.2.2) is reflexive, symmetric and
/// transitive if they contain no float and names are distinct, and so is identity as written; that
/// identical values are equal; and that items are unique exactly if no two of them are equal. Does
/// nothing.
pub fn equality_is_equivalence()
    ensures equal { IsEquivalence equal }
    ensures same { IsEquivalence same }
    ensures finer { SameIsEqual }
    ensures unique { UniqueMeansNoTwoEqual }
{}

/// States, for proofs, that equal values have the same fingerprint, which the search for equal
/// items relies on. Does nothing.
pub fn equal_values_have_one_fingerprint()
    ensures { EqualHaveOneFingerprint }
{}
