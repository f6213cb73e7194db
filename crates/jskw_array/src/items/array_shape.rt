//! The fused shape of an array: `type` of `array`, `minItems`, `maxItems` and `items` of one schema
//! (JSON Schema Validation 6.1.1, 6.4.1, 6.4.2, Core 10.3.1.2), with no other keyword of items
//! beside them. The type and the length are tested once, and then the items.
ghost use Rattle.std.specs.Prelude.{◌≡◌, ◌-◌};
ghost use Rattle.jskw_array.specs.Words.{items, length, true, IsTrue, Keyword};
ghost use Rattle.jskw_array.specs.Words.{CompilesTo, Refusal, Result, Some, absorbed_keywords, append_keywords};
ghost use Rattle.jskw_array.specs.Words.{fused_keywords, get_member, is_fused, keyword, keyword_location, map_ok};
ghost use Rattle.jskw_array.specs.Words.{members_view, name_of, no_keywords, shape_keywords, shape_meaning};
ghost use Rattle.jskw_array.specs.Words.{validator_keyword, view, read_keywords, readings_named};

use crate::compiler::keyword::location_of;
use crate::items::{self, AbsorbedKeywords};
use crate::part::LocatedValidator;
use crate::validator::Validator;
use jskw_report::{
    CompilationResult, Context, EvaluationResult, KeywordName, LazyLocation, Report, Stop,
    Validate, ValidationContext,
};
use jskw_value::Json;
use serde_json::{Map, Value};
use std::alloc::{AllocError, Global};

/// The validator of the fused shape. Its verdict and errors are those of `type`, `minItems`,
/// `maxItems` and `items`, in this order. Its unit is that of `items` alone;
/// [`absorbed`](ArrayShapeValidator::absorbed) gives the others theirs.
#[cycle(schema)]
#[derive(Drop)]
#[derive_where(Debug)]
pub struct ArrayShapeValidator<F: Json> {
    pub(crate) absorbed: AbsorbedKeywords,
    pub(crate) items: LocatedValidator<F>,
}

impl<F: Json> ArrayShapeValidator<F> {
    /// Compiles the fused shape of `parent`, for which
    /// [`array_shape_fusion`](crate::items::array_shape_fusion) must be true. `items` must be the
    /// value of its `items`.
    ///
    /// # Errors
    ///
    /// Fails if memory runs out, or if the schema `items` has an error, as
    /// [`compile`](crate::compiler::compile) says.
    #[inline(never)]
    #[cycle(compile)]
    pub fn compile<'a>(
        alloc: Global,
        ctx: &Context<'_, F>,
        parent: &'a Map<String, Value>,
        items: &'a Value,
    ) -> CompilationResult<'a, ArrayShapeValidator<F>>
        requires fused { IsTrue (is_fused ctx.now.setting (members_view parent.now.entries)) }
        requires items { get_member (name_of KeywordName.Items) (members_view parent.now.entries)
            ≡ Some (view items.now) }
        ensures { let ms = members_view parent.now.entries in CompilesTo shape_keywords result
            (read_keywords fused_keywords ctx.now.setting ctx.now.location ms
            (λ name. readings_named name ms)) }
    {
        let absorbed = AbsorbedKeywords::compile(alloc, ctx, parent)?;
        let compiled = items::compile_schema(alloc, ctx, parent, items);
        with_items(alloc, ctx, absorbed, compiled)
    }

    /// Returns the keywords that are checked with `items`: `type`, `minItems` and `maxItems`.
    pub fn absorbed(&self) -> &AbsorbedKeywords
        ensures { result.now ≡ self.now.absorbed }
    {
        &self.absorbed
    }
}

// Returns the validator of the other keywords and of `items`, if that was compiled.
#[inline(never)]
fn with_items<'a, F: Json>(
    alloc: Global,
    ctx: &Context<'_, F>,
    absorbed: Box<AbsorbedKeywords>,
    compiled: CompilationResult<'a, Validator<F>>,
) -> CompilationResult<'a, ArrayShapeValidator<F>>
    ensures { (read : Result Keyword Refusal) → CompilesTo validator_keyword compiled.entry read
        → CompilesTo shape_keywords result (map_ok (λ k. append_keywords (absorbed_keywords absorbed.value)
        (keyword (keyword_location ctx.now.location KeywordName.Items) k no_keywords)) read) }
{
    let validator = compiled?;
    let location = location_of(alloc, ctx, KeywordName::Items, &validator)?;
    let items = LocatedValidator {
        validator,
        location,
    };
    let absorbed = Box::into_inner(absorbed);
    Ok(ArrayShapeValidator { absorbed, items })
}

impl<F: Json> Validate<F> for ArrayShapeValidator<F> {
    ghost meaning = { shape_meaning };

    #[inline(never)]
    fn is_valid(&self, instance: &F::Node, ctx: &mut ValidationContext) -> bool {
        self.absorbed.valid_count(instance).is_some()
            && self.items.validator.is_valid(instance, ctx)
    }

    fn report_errors<'i>(
        &'i self,
        instance: &'i F::Node,
        location: &mut LazyLocation,
        ctx: &mut ValidationContext,
        report: &mut Report<'i, F>,
    ) -> Result<(), Stop> {
        self.absorbed.report_errors(instance, location, report)?;
        self.items
            .validator
            .report_errors(instance, location, ctx, report)
    }

    fn evaluate(
        &self,
        alloc: Global,
        instance: &F::Node,
        location: &mut LazyLocation,
        ctx: &mut ValidationContext,
    ) -> Result<EvaluationResult, AllocError> {
        self.items
            .validator
            .evaluate(alloc, instance, location, ctx)
    }
}
