//! `additionalItems` of `false` (JSON Schema Draft 7 Validation 6.4.2), which has no subschema to
//! apply: the array has no more items than `items` has schemas.
ghost use Rattle.std.specs.Prelude.{◌≡◌};
ghost use Rattle.jskw_leaf.specs.Meaning.{at_most_at, no_additional_items};

use jskw_report::{Assertion, KeywordLocation, ValidationErrorKind};
use jskw_value::{Json, Node};

/// The validator of `additionalItems` of `false`. It accepts an array with no more items than
/// `items` has schemas, and every non-array.
#[derive(Debug, Drop)]
pub struct AdditionalItemsBooleanValidator {
    pub(crate) items_count: usize,
    location: KeywordLocation,
}

impl AdditionalItemsBooleanValidator {
    /// Creates the validator. `items_count` is the number of schemas in `items`, and `location` is
    /// the keyword location.
    pub fn new(items_count: usize, location: KeywordLocation) -> AdditionalItemsBooleanValidator
        ensures { no_additional_items result ≡ at_most_at location items_count }
    {
        AdditionalItemsBooleanValidator {
            items_count,
            location,
        }
    }
}

impl Assertion for AdditionalItemsBooleanValidator {
    ghost asserts = { no_additional_items };

    fn holds<F: Json>(&self, instance: &F::Node) -> bool {
        instance.item_count() <= self.items_count
    }

    fn kind(&self) -> ValidationErrorKind<'_> {
        ValidationErrorKind::AdditionalItems {
            limit: self.items_count,
        }
    }

    fn location(&self) -> &KeywordLocation {
        &self.location
    }
}
