//! A keyword of an object: its validator, if it has no subschemas, and its part of the node.
ghost use Rattle.std.specs.Prelude.{◌≡◌, None};
ghost use Rattle.jskw_array.specs.Words.{Asserts, CompilesKeyword, CompilesTo, IfOk, Keyword};
ghost use Rattle.jskw_array.specs.Words.{Members, Ok, Refusal, Result, ShapeBegins, after, before};
ghost use Rattle.jskw_array.specs.Words.{is_handed_on, is_leaf, shape_in, keyword_location, keyword_reading};
ghost use Rattle.jskw_array.specs.Words.{keywords_of, leaf_keyword, members_view, no_keywords};
ghost use Rattle.jskw_array.specs.Words.{true, validator_keyword, view};
ghost use Rattle.jskw_array.specs.Words.{[], absorbed_keywords, append_keywords, leaf_assertion, optional};

use crate::items::AbsorbedKeywords;
use crate::part::{LocatedValidator, Part};
use crate::validator::Validator;
use jskw_leaf::{LeafValidator, required};
use jskw_report::{CompilationResult, Context, KeywordLocation, KeywordName};
use jskw_value::Json;
use serde_json::{Map, Value};
use std::alloc::{AllocError, Global};

// Appends the part of a keyword that was compiled, if it asserts something.
#[inline(never)]
#[tactic(auto, using(crate::proofs::CompiledKeywords::appends_nothing, crate::proofs::CompiledKeywords::appends_refused))]
pub(crate) fn push_part<'a, F: Json>(
    alloc: Global,
    ctx: &Context<'_, F>,
    keyword: KeywordName,
    compiled: Option<CompilationResult<'a, Validator<F>>>,
    parts: &mut Vec<Part<F>>,
) -> CompilationResult<'a, ()>
    ensures made { (read : Asserts) → CompilesKeyword validator_keyword compiled.entry read
        → CompilesTo (λ _. keywords_of parts.new.items) result (after (keywords_of parts.old.items)
        (before (keyword_location ctx.now.location keyword) read (Ok no_keywords))) }
    ensures fused { IfOk result (λ _. shape_in parts.new.items ≡ shape_in parts.old.items) }
    ensures begins { ShapeBegins parts.old.items → IfOk result (λ _. ShapeBegins parts.new.items) }
{
    match compiled {
        None => Ok(()),
        Some(Ok(validator)) => {
            let location = location_of(alloc, ctx, keyword, &validator)?;
            parts.push(Part::Keyword(LocatedValidator {
                validator,
                location,
            }))?;
            Ok(())
        }
        Some(Err(fault)) => Err(fault),
    }
}

// Returns the location of a keyword: one that the validator has, if that is the same, else one that is
// made. The errors of a limit of Draft 4 may have that of another keyword.
pub(crate) fn location_of<F: Json>(
    alloc: Global,
    ctx: &Context<'_, F>,
    keyword: KeywordName,
    validator: &Validator<F>,
) -> Result<KeywordLocation, AllocError>
    ensures { IfOk result (λ location. location ≡ keyword_location ctx.now.location keyword) }
{
    if let Some(location) = validator.location() {
        if location.is_member(ctx.location(), keyword.as_str()) {
            return location.copy();
        }
    }
    ctx.keyword_location(alloc, keyword)
}

// Compiles `required`. Returns `None` if it is delegated.
#[inline(never)]
#[tactic(auto, unfolding(jskw_report::specs::Read::asserted))]
pub(crate) fn compile_required<'a, F: Json>(
    alloc: Global,
    ctx: &Context<'_, F>,
    delegates: bool,
    schema: &'a Value,
) -> Option<CompilationResult<'a, Validator<F>>>
    ensures { (ms : Members) → delegates ≡ is_handed_on ctx.now.setting ms
        → CompilesKeyword validator_keyword result
        (keyword_reading KeywordName.Required ctx.now ms (view schema.now)) }
{
    if delegates {
        return None;
    }
    Some(of_leaf(required::compile_checked(alloc, ctx, schema)))
}

// Compiles a keyword without subschemas. Returns `None` if it asserts nothing.
#[inline(never)]
pub(crate) fn compile_leaf<'a, F: Json>(
    alloc: Global,
    ctx: &Context<'_, F>,
    parent: &'a Map<String, Value>,
    keyword: KeywordName,
    schema: &'a Value,
) -> Option<CompilationResult<'a, Validator<F>>>
    requires { is_leaf keyword ≡ true }
    ensures { CompilesKeyword validator_keyword result
        (keyword_reading keyword ctx.now (members_view parent.now.entries) (view schema.now)) }
{
    Some(of_leaf(jskw_leaf::compile(alloc, ctx, parent, keyword, schema)?))
}

// Returns the validator of a keyword without subschemas, if it was compiled.
fn of_leaf<'a, F: Json>(
    compiled: CompilationResult<'a, LeafValidator<F>>,
) -> CompilationResult<'a, Validator<F>>
    ensures { (read : Result Keyword Refusal) → CompilesTo leaf_keyword compiled.entry read
        → CompilesTo validator_keyword result read }
{
    Ok(Validator::Leaf(compiled?))
}

// Appends the parts of `type`, `minItems` and `maxItems` of a fused shape to an empty vector.
#[inline(never)]
pub(crate) fn push_absorbed<F: Json>(
    absorbed: &AbsorbedKeywords,
    parts: &mut Vec<Part<F>>,
) -> Result<(), AllocError>
    requires { parts.old.items ≡ [] }
    ensures keywords { IfOk result (λ _. keywords_of parts.new.items ≡ absorbed_keywords absorbed.now) }
    ensures fused { IfOk result (λ _. shape_in parts.new.items ≡ None) }
{
    push_leaf(Some(absorbed.type_validator()?), parts)?;
    push_leaf(absorbed.min_validator()?, parts)?;
    push_leaf(absorbed.max_validator()?, parts)?;
    Ok(())
}

// Appends the part of a keyword without subschemas, if there is one. Its errors are at its location.
fn push_leaf<F: Json>(
    leaf: Option<LeafValidator<F>>,
    parts: &mut Vec<Part<F>>,
) -> Result<(), AllocError>
    ensures keywords { IfOk result (λ _. keywords_of parts.new.items
        ≡ append_keywords (keywords_of parts.old.items) (optional leaf_assertion leaf)) }
    ensures fused { IfOk result (λ _. shape_in parts.new.items ≡ shape_in parts.old.items) }
{
    match leaf {
        None => Ok(()),
        Some(leaf) => {
            let location = leaf.location().copy()?;
            let validator = Validator::Leaf(leaf);
            let keyword = LocatedValidator {
                validator,
                location,
            };
            parts.push(Part::Keyword(keyword))?;
            Ok(())
        }
    }
}
