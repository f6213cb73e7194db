//! The validators of the keywords without subschemas as one type, and the compile of such a keyword
//! by its name.
ghost use Rattle.std.specs.Prelude.{◌≡◌, true};
ghost use Rattle.serde_json.specs.View.{view, members_view};
ghost use Rattle.jskw_report.specs.Compile.{CompilesKeyword, keyword_reading};
ghost use Rattle.jskw_report.specs.Meaning.{one_keyword};
ghost use Rattle.jskw_report.specs.Read.{Asserts};
ghost use Rattle.jskw_number.specs.Meaning.{number_keyword};
ghost use Rattle.jskw_number.specs.Outline.{AcceptsOutline};
ghost use Rattle.jskw_number.specs.QuickSet.{Accepts};
ghost use Rattle.jskw_leaf.specs.Meaning.{leaf_assertion, leaf_keyword};
ghost use Rattle.jskw_leaf.specs.Names.{is_leaf};

use crate::boolean::FalseValidator;
use crate::const_::ConstValueValidator;
use crate::enum_::{
    BigEnumValidator, BigStringEnumValidator, EnumValidator, IntegerEnumValidator,
    SingleValueEnumValidator, SmallStringEnumValidator,
};
use crate::in_place::AdditionalItemsBooleanValidator;
use crate::required::{Required3Validator, RequiredValidator};
use crate::type_::TypeValidator;
use crate::unique_items::UniqueItemsValidator;
use crate::{const_, enum_, required, type_, unique_items};
use jskw_number::{NumberValidator, Outline, QuickSet};
use jskw_report::{
    Assertion, CompilationResult, Context, EvaluationResult, KeywordLocation, KeywordName,
    LazyLocation, Report, Stop, Validate, ValidationContext,
};
use jskw_value::{Json, NotNullable, Nullable};
use serde_json::{Map, Value};
use std::alloc::{AllocError, Global};

/// The validator of one keyword without subschemas, over the representation `F`.
///
/// [`compile`] returns every variant but two: `False` is for the schema `false`, and `AdditionalItems`
/// for a keyword that has a subschema if its value is another one.
///
/// [`compile`]: crate::compile
#[derive_where(Debug)]
pub enum LeafValidator<F: Json> {
    /// The schema `false` (JSON Schema Core 4.3.2).
    False(FalseValidator),
    /// A limit, a divisor or a bound on a size: one of the nine keywords of `jskw_number`.
    Number(NumberValidator),
    /// `type` (JSON Schema Validation 6.1.1).
    Types(TypeValidator),
    /// `const` (JSON Schema Validation 6.1.3).
    Const(ConstValueValidator),
    /// `enum` with options that no other variant is for (JSON Schema Validation 6.1.2).
    Enum(EnumValidator),
    /// `enum` with more than 8 options of any types.
    BigEnum(BigEnumValidator),
    /// `enum` with one option.
    SingleValueEnum(SingleValueEnumValidator),
    /// `enum` with at most 10 options, all of them strings, or with none.
    SmallStringEnum(SmallStringEnumValidator<NotNullable>),
    /// `enum` with at most 10 options, strings or null, with null among them.
    NullableSmallStringEnum(SmallStringEnumValidator<Nullable>),
    /// `enum` with more than 10 options, all of them strings.
    BigStringEnum(BigStringEnumValidator<NotNullable>),
    /// `enum` with more than 10 options, strings or null, with null among them.
    NullableBigStringEnum(BigStringEnumValidator<Nullable>),
    /// `enum` with options that are all integers from -2^63 to 2^63-1.
    IntegerEnum(IntegerEnumValidator<NotNullable>),
    /// `enum` with integers from -2^63 to 2^63-1 or null, with null among them.
    NullableIntegerEnum(IntegerEnumValidator<Nullable>),
    /// `uniqueItems` with `true` (JSON Schema Validation 6.4.3).
    UniqueItems(UniqueItemsValidator),
    /// `required` with no name or more than three (JSON Schema Validation 6.5.3).
    Required(RequiredValidator<F>),
    /// `required` with one, two or three names.
    RequiredFew(Required3Validator<F>),
    /// `additionalItems` of `false` (JSON Schema Draft 7 Validation 6.4.2).
    AdditionalItems(AdditionalItemsBooleanValidator),
}

// Evaluates `$answer` with `$validator` as the validator in the variant, whichever it is.
macro_rules! dispatch {
    ($leaf:expr, $validator:ident => $answer:expr) => {
        dispatch!(@ $leaf, $validator => $answer;
            False Number Types Const Enum BigEnum SingleValueEnum SmallStringEnum
            NullableSmallStringEnum BigStringEnum NullableBigStringEnum IntegerEnum
            NullableIntegerEnum UniqueItems Required RequiredFew AdditionalItems
        )
    };
    (@ $leaf:expr, $validator:ident => $answer:expr; $($variant:ident)+) => {
        match $leaf {
            $(LeafValidator::$variant($validator) => $answer,)+
        }
    };
}

// Written out: a derived one is proved again, with those of all validators, in each crate that drops
// one.
impl<F: Json> Drop for LeafValidator<F> {
    fn drop(self) {
        dispatch!(self, _validator => {})
    }
}

impl<F: Json> LeafValidator<F> {
    /// Returns values that the keyword accepts: those that it does not concern, those of its types,
    /// the numbers within its limit, integers among its options. The keyword may accept more.
    pub fn quick_set(&self) -> QuickSet
        ensures { Accepts result (leaf_keyword self.now) }
    {
        match self {
            LeafValidator::Number(v) => v.quick_set(),
            LeafValidator::Types(v) => v.quick_set(),
            LeafValidator::UniqueItems(_) => QuickSet::but_arrays(),
            LeafValidator::AdditionalItems(_) => QuickSet::but_arrays(),
            LeafValidator::Required(_) => QuickSet::but_objects(),
            LeafValidator::RequiredFew(_) => QuickSet::but_objects(),
            LeafValidator::Const(v) => v.quick_set(),
            LeafValidator::SingleValueEnum(v) => v.quick_set(),
            LeafValidator::IntegerEnum(v) => v.quick_set(),
            LeafValidator::NullableIntegerEnum(v) => v.quick_set(),
            LeafValidator::False(_)
            | LeafValidator::Enum(_)
            | LeafValidator::BigEnum(_)
            | LeafValidator::SmallStringEnum(_)
            | LeafValidator::NullableSmallStringEnum(_)
            | LeafValidator::BigStringEnum(_)
            | LeafValidator::NullableBigStringEnum(_) => QuickSet::none(),
        }
    }

    /// Returns arrays and objects that the keyword accepts, whatever their items and members are.
    pub fn outline(&self) -> Outline
        ensures { AcceptsOutline result (leaf_keyword self.now) }
    {
        match self {
            LeafValidator::Number(v) => v.outline(),
            LeafValidator::AdditionalItems(v) => Outline::between(0, v.items_count as u64),
            _ => Outline::of(self.quick_set()),
        }
    }
}

impl<F: Json> LeafValidator<F> {
    /// Returns the keyword location of the validator's errors.
    pub fn location(&self) -> &KeywordLocation
        ensures { result.now ≡ (leaf_assertion self.now).location }
    {
        dispatch!(self, validator => validator.location())
    }
}

impl<F: Json> Validate<F> for LeafValidator<F> {
    ghost meaning = { λ v. one_keyword (leaf_keyword v) };

    #[inline(always)]
    fn is_valid(&self, instance: &F::Node, ctx: &mut ValidationContext) -> bool {
        dispatch!(self, validator => Validate::<F>::is_valid(validator, instance, ctx))
    }

    #[inline(always)]
    fn report_errors<'i>(
        &'i self,
        instance: &'i F::Node,
        location: &mut LazyLocation,
        ctx: &mut ValidationContext,
        report: &mut Report<'i, F>,
    ) -> Result<(), Stop> {
        dispatch!(self, validator => validator.report_errors(instance, location, ctx, report))
    }

    fn evaluate(
        &self,
        alloc: Global,
        instance: &F::Node,
        location: &mut LazyLocation,
        ctx: &mut ValidationContext,
    ) -> Result<EvaluationResult, AllocError> {
        dispatch!(self, validator => Validate::<F>::evaluate(
            validator, alloc, instance, location, ctx,
        ))
    }
}

/// Returns whether the keyword has no subschemas, so that [`compile`] takes it: true for all but
/// `items`, `prefixItems`, `additionalItems` and `contains` (JSON Schema Core 10.3.1).
pub fn is_leaf(keyword: KeywordName) -> bool
    ensures { result ≡ is_leaf keyword }
{
    !matches!(
        keyword,
        KeywordName::Items
            | KeywordName::PrefixItems
            | KeywordName::AdditionalItems
            | KeywordName::Contains
    )
}

/// Compiles a keyword without subschemas, by its name and the draft of `ctx`. [`is_leaf`] of
/// `keyword` must be true.
///
/// Returns `None` exactly if the keyword asserts nothing: for `uniqueItems` with any value but
/// `true`, and for a `required` that is [delegated](crate::required::is_handed_on). The
/// [crate's documentation](crate) has the other arguments and the errors.
pub fn compile<'a, F: Json>(
    alloc: Global,
    ctx: &Context<'_, F>,
    parent: &'a Map<String, Value>,
    keyword: KeywordName,
    schema: &'a Value,
) -> Option<CompilationResult<'a, LeafValidator<F>>>
    requires { is_leaf keyword ≡ true }
    ensures { CompilesKeyword leaf_keyword result
        (keyword_reading keyword ctx.now (members_view parent.now.entries) (view schema.now)) }
{
    match keyword {
        KeywordName::TypeKeyword => type_::compile(alloc, ctx, parent, schema),
        KeywordName::UniqueItems => unique_items::compile(alloc, ctx, parent, schema),
        KeywordName::Const => const_::compile(alloc, ctx, parent, schema),
        KeywordName::Enum => enum_::compile(alloc, ctx, parent, schema),
        KeywordName::Required => required::compile(alloc, ctx, parent, schema),
        _ => of_number(jskw_number::compile(alloc, ctx, parent, keyword, schema)),
    }
}

// Wraps the validator in a `LeafValidator`.
fn of_number<'a, F: Json>(
    compiled: Option<CompilationResult<'a, NumberValidator>>,
) -> Option<CompilationResult<'a, LeafValidator<F>>>
    ensures { (read : Asserts) → CompilesKeyword number_keyword compiled.entry read
        → CompilesKeyword leaf_keyword result read }
{
    match compiled? {
        Ok(validator) => Some(Ok(LeafValidator::Number(validator))),
        Err(fault) => Some(Err(fault)),
    }
}
