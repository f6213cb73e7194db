//! `uniqueItems` (JSON Schema Validation 6.4.3): no two items of the array are equal.
ghost use Rattle.serde_json.specs.View.{view, members_view};
ghost use Rattle.jskw_report.specs.Compile.{CompilesKeyword, keyword_reading};
ghost use Rattle.jskw_report.specs.declared.keyword.KeywordName.TheVariants.{UniqueItems};
ghost use Rattle.jskw_leaf.specs.Meaning.{unique_items, leaf_keyword};

use crate::leaf::LeafValidator;
use jskw_report::{
    Assertion, CompilationResult, CompileFault, Context, KeywordLocation, KeywordName,
    ValidationErrorKind,
};
use jskw_value::{Array, Json, Node};
use serde_json::{Map, Value};
use std::alloc::Global;

/// The validator of `uniqueItems` with `true`. It accepts an array in which no two items are equal,
/// and every non-array.
#[derive(Debug, Drop)]
pub struct UniqueItemsValidator {
    location: KeywordLocation,
}

impl Assertion for UniqueItemsValidator {
    ghost asserts = { unique_items };

    #[inline(never)]
    #[tactic(auto, using(crate::proofs::Options::no_items_unique))]
    fn holds<F: Json>(&self, instance: &F::Node) -> bool {
        !instance.is_array() || instance.is_unique()
    }

    fn kind(&self) -> ValidationErrorKind<'_> {
        ValidationErrorKind::UniqueItems
    }

    fn location(&self) -> &KeywordLocation {
        &self.location
    }
}

/// Compiles `uniqueItems`. Returns `None` if the value is anything but `true`: it asserts nothing
/// then.
///
/// # Errors
///
/// Fails only if memory runs out.
#[tactic(auto, unfolding(jskw_report::specs::Read::asserted))]
pub fn compile<'a, F: Json>(
    alloc: Global,
    ctx: &Context<'_, F>,
    parent: &'a Map<String, Value>,
    schema: &'a Value,
) -> Option<CompilationResult<'a, LeafValidator<F>>>
    ensures { CompilesKeyword leaf_keyword result
        (keyword_reading UniqueItems ctx.now (members_view parent.now.entries) (view schema.now)) }
{
    if !matches!(schema, Value::Bool(true)) {
        return None;
    }
    match ctx.keyword_location(alloc, KeywordName::UniqueItems) {
        Ok(location) => Some(Ok(LeafValidator::UniqueItems(UniqueItemsValidator { location }))),
        Err(error) => Some(Err(CompileFault::Memory(error))),
    }
}
