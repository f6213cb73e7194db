//! Compiles the keywords of this crate by their names.
ghost use Rattle.std.specs.Prelude.{◌≡◌, true};
ghost use Rattle.serde_json.specs.View.{view, members_view};
ghost use Rattle.jskw_report.specs.Compile.{CompilesKeyword, keyword_reading};
ghost use Rattle.jskw_number.specs.Meaning.{number_keyword};
ghost use Rattle.jskw_number.specs.Names.{is_of_numbers};

use crate::legacy::minmax_draft_4;
use crate::number::NumberValidator;
use crate::{minmax, multiple_of, sizes};
use jskw_report::{CompilationResult, Context, Draft, KeywordName};
use jskw_value::Json;
use serde_json::{Map, Value};
use std::alloc::Global;

/// Compiles a bound on a size, a limit or a divisor, by the keyword's name and the draft of `ctx`.
///
/// `keyword` must be one of the nine keywords of this crate. The [crate's documentation](crate) has
/// the other arguments and the errors.
pub fn compile<'a, F: Json>(
    alloc: Global,
    ctx: &Context<'_, F>,
    parent: &'a Map<String, Value>,
    keyword: KeywordName,
    schema: &'a Value,
) -> Option<CompilationResult<'a, NumberValidator>>
    requires { is_of_numbers keyword ≡ true }
    ensures { CompilesKeyword number_keyword result
        (keyword_reading keyword ctx.now (members_view parent.now.entries) (view schema.now)) }
{
    let is_draft_4 = ctx.draft() == Draft::Draft4;
    match keyword {
        KeywordName::MinItems => sizes::compile_min_items(alloc, ctx, parent, schema),
        KeywordName::MaxItems => sizes::compile_max_items(alloc, ctx, parent, schema),
        KeywordName::Minimum if is_draft_4 => minmax_draft_4::compile_minimum(
            alloc, ctx, parent, schema,
        ),
        KeywordName::Minimum => minmax::compile_minimum(alloc, ctx, parent, schema),
        KeywordName::Maximum if is_draft_4 => minmax_draft_4::compile_maximum(
            alloc, ctx, parent, schema,
        ),
        KeywordName::Maximum => minmax::compile_maximum(alloc, ctx, parent, schema),
        KeywordName::ExclusiveMinimum => {
            minmax::compile_exclusive_minimum(alloc, ctx, parent, schema)
        }
        KeywordName::ExclusiveMaximum => {
            minmax::compile_exclusive_maximum(alloc, ctx, parent, schema)
        }
        KeywordName::MultipleOf => multiple_of::compile(alloc, ctx, parent, schema),
        KeywordName::MinProperties => sizes::compile_min_properties(alloc, ctx, parent, schema),
        KeywordName::MaxProperties => sizes::compile_max_properties(alloc, ctx, parent, schema),
        _ => unreachable!(),
    }
}
