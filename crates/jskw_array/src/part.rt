//! The parts of a schema, its keywords in order, and the walks over them.
ghost use Rattle.std.specs.Prelude.{◌≡◌};
ghost use Rattle.jskw_array.specs.Words.{CountsUpTo, IsTrue, all_hold, all_needed, is_lawful};
ghost use Rattle.jskw_array.specs.Words.{keywords_delegate, keywords_of, option_map, own_keyword, shape_in};

use crate::items::ArrayShapeValidator;
use crate::validator::Validator;
use jskw_report::{KeywordLocation, Validate, ValidationContext};
use jskw_value::Json;

// A part of a schema: one of its keywords.
#[cycle(schema)]
#[derive(Drop)]
pub(crate) enum Part<F: Json> {
    // Any keyword.
    Keyword(LocatedValidator<F>),
    // `items`, in the fused shape that the node lends.
    Shape(Box<ArrayShapeValidator<F>>),
}

// A keyword's validator, with its keyword location.
#[cycle(schema)]
#[derive(Drop)]
#[derive_where(Debug)]
pub(crate) struct LocatedValidator<F: Json> {
    pub(crate) validator: Validator<F>,
    pub(crate) location: KeywordLocation,
}

impl<F: Json> Part<F> {
    // Returns the keyword.
    #[inline(always)]
    pub(crate) fn keyword(&self) -> &LocatedValidator<F>
        ensures { result.now ≡ own_keyword self.now }
    {
        match self {
            Part::Keyword(keyword) => keyword,
            Part::Shape(shape) => &shape.items,
        }
    }
}

// Returns whether every keyword holds of the instance.
#[inline(never)]
#[cycle(is_valid)]
pub(crate) fn parts_are_valid<F: Json>(
    parts: &[Part<F>],
    instance: &F::Node,
    ctx: &mut ValidationContext,
) -> bool
    requires { IsTrue (is_lawful (F.Node.tree instance.now)) }
    ensures answer { result ≡ all_hold (keywords_of parts.now) (F.Node.tree instance.now) }
    ensures counted { CountsUpTo ctx.old ctx.new
        (all_needed (keywords_of parts.now) (F.Node.tree instance.now)) }
{
    for part in parts {
        if !part.keyword().validator.is_valid(instance, ctx) {
            return false;
        }
    }
    true
}

// Returns whether the `required` of a subschema of some keyword is delegated.
#[tactic(auto, using(crate::proofs::KeywordsOfParts::delegates_end))]
pub(crate) fn some_part_delegates<F: Json>(parts: &[Part<F>]) -> bool
    ensures { result ≡ keywords_delegate (keywords_of parts.now) }
{
    for part in parts {
        if part.keyword().validator.hands_on_required() {
            return true;
        }
    }
    false
}

// Returns the first fused shape that a part is in, if there is one.
pub(crate) fn first_shape<F: Json>(parts: &[Part<F>]) -> Option<&ArrayShapeValidator<F>>
    ensures { option_map (λ v. v.now) result ≡ shape_in parts.now }
{
    for part in parts {
        if let Part::Shape(shape) = part {
            return Some(shape);
        }
    }
    None
}
