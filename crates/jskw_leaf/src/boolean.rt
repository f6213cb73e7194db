//! The schema `false` (JSON Schema Core 4.3.2).
ghost use Rattle.std.specs.Prelude.{◌≡◌};
ghost use Rattle.jskw_leaf.specs.Meaning.{false_at, false_schema};

use jskw_report::{Assertion, KeywordLocation, Location, ValidationErrorKind};
use jskw_value::Json;

/// The validator of the schema `false`. It accepts no instance.
#[derive(Debug, Drop)]
pub struct FalseValidator {
    location: KeywordLocation,
}

impl FalseValidator {
    /// Creates the validator. `location` is the keyword location of its error.
    pub fn new(location: Location) -> FalseValidator
        ensures { false_schema result ≡ false_at location }
    {
        let location = KeywordLocation::from(location);
        FalseValidator { location }
    }
}

impl Assertion for FalseValidator {
    ghost asserts = { false_schema };

    fn holds<F: Json>(&self, _instance: &F::Node) -> bool {
        false
    }

    fn kind(&self) -> ValidationErrorKind<'_> {
        ValidationErrorKind::FalseSchema
    }

    fn location(&self) -> &KeywordLocation {
        &self.location
    }
}
