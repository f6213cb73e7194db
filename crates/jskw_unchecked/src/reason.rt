//! Why a member of a schema is not checked.
ghost use Rattle.std.specs.Prelude.{◌≡◌, Some, is_some};
ghost use Rattle.serde_json.specs.View.{view, members_view};
ghost use Rattle.jskw_report.specs.Read.{asserted, readings, read_keyword};
ghost use Rattle.jskw_report.specs.Sibling.{is_array_value, is_false, is_true, member_passes};
ghost use Rattle.jskw_unchecked.specs.Reason.{are_bounds_read, asks_for_nothing, idle_reason};
ghost use Rattle.jskw_unchecked.specs.Reason.{has_active, is_asserted, is_bound, is_part_of_limit};
ghost use Rattle.jskw_unchecked.specs.Reason.{keyword_reason, member_reason, name_reason};
ghost use Rattle.jskw_unchecked.specs.Reason.{reason_name};

use crate::names::{is_after_draft_7, is_annotation, is_not_implemented};
use jskw_leaf::in_place::fusion::is_items_schema;
use jskw_leaf::required;
use jskw_report::context::member_of;
use jskw_report::{Context, Draft, KeywordName, Vocabulary};
use jskw_value::Json;
use serde_json::{Map, Value};

/// Why a member of a schema is not checked.
#[derive(Clone, Copy, Debug, PartialEq, Eq)]
pub enum Reason {
    /// The draft has a keyword of this name that asserts or applies something, and this library
    /// does not have it: `properties`, `$ref`, `pattern`.
    NotImplemented,
    /// The draft has no keyword of this name: a misspelt `minimun`.
    Unknown,
    /// A keyword of this library that asserts nothing as it stands: the draft does not have it, its
    /// vocabulary is absent, its name is overridden, the keyword that it goes with is absent or not
    /// active (`minContains` without `contains`), or it passes over such a value (`"items": "x"`).
    Inactive,
    /// A `required` that is left to an object layer.
    Delegated,
}

impl Reason {
    /// Returns the name of the reason: `notImplemented`, `unknown`, `inactive` or `delegated`.
    pub fn as_str(self) -> &'static str
        ensures { result.now ≡ reason_name self }
    {
        match self {
            Reason::NotImplemented => "notImplemented",
            Reason::Unknown => "unknown",
            Reason::Inactive => "inactive",
            Reason::Delegated => "delegated",
        }
    }
}

// Returns why a member of `parent` is not checked, or `None` if it is checked or is an annotation.
// `keyword` is the keyword of this library that has its name.
pub(crate) fn member_reason<F: Json>(
    ctx: &Context<'_, F>,
    parent: &Map<String, Value>,
    keyword: Option<KeywordName>,
    name: &str,
    value: &Value,
) -> Option<Reason>
    ensures { let point = ctx.now in result ≡ member_reason keyword point.setting point.location
        (members_view parent.now.entries) name.now (view value.now) }
{
    let schema = Schema { ctx, parent };
    match keyword {
        Some(keyword) => schema.keyword_reason(keyword, value),
        None => schema.name_reason(name),
    }
}

// A schema: its members, and the context in which they are read.
#[derive(Drop)]
struct Schema<'s, 'c, F: Json> {
    ctx: &'s Context<'c, F>,
    parent: &'s Map<String, Value>,
}

impl<F: Json> Schema<'_, '_, F> {
    // Returns why a keyword of this library is not checked.
    fn keyword_reason(&self, keyword: KeywordName, value: &Value) -> Option<Reason>
        ensures { let point = self.now.ctx.now in result ≡ keyword_reason keyword point.setting point.location
            (members_view self.now.parent.now.entries) (view value.now) }
    {
        if self.is_asserted(keyword, value) || self.asks_for_nothing(keyword, value) {
            return None;
        }
        Some(self.idle_reason(keyword))
    }

    // Returns whether the keyword asserts something: it is read, or it makes the limit beside it
    // exclusive.
    fn is_asserted(&self, keyword: KeywordName, value: &Value) -> bool
        ensures { let point = self.now.ctx.now in result ≡ is_asserted keyword point.setting point.location
            (members_view self.now.parent.now.entries) (view value.now) }
    {
        self.is_read(keyword, value) || (self.is_part_of_limit(keyword) && is_true(value))
    }

    // Returns whether a keyword of the schema is read from this one.
    #[tactic(auto, unfolding(jskw_report::specs::Read::read_keyword))]
    fn is_read(&self, keyword: KeywordName, value: &Value) -> bool
        ensures { let point = self.now.ctx.now in result ≡ is_some (read_keyword keyword point.setting
            point.location (members_view self.now.parent.now.entries) (Some (readings (view value.now)))) }
    {
        keyword.is_active(self.ctx) && self.asserts(keyword, value)
    }

    // Returns whether an active keyword asserts something.
    #[tactic(auto, unfolding(jskw_report::specs::Read::asserted))]
    fn asserts(&self, keyword: KeywordName, value: &Value) -> bool
        ensures { let point = self.now.ctx.now in result ≡ is_some (asserted keyword point.setting
            point.location (members_view self.now.parent.now.entries) (readings (view value.now))) }
    {
        match keyword {
            KeywordName::Items => value.is_array() || is_items_schema(value),
            KeywordName::AdditionalItems => has_array(self.parent, "items") && !is_true(value),
            KeywordName::UniqueItems => is_true(value),
            KeywordName::Required => !required::is_handed_on(self.ctx, self.parent),
            _ => true,
        }
    }

    // Returns whether the keyword is the part of an active limit of Draft 4 that makes it exclusive.
    fn is_part_of_limit(&self, keyword: KeywordName) -> bool
        ensures { result
            ≡ is_part_of_limit keyword self.now.ctx.now.setting (members_view self.now.parent.now.entries) }
    {
        let limit = match keyword {
            KeywordName::ExclusiveMinimum => KeywordName::Minimum,
            KeywordName::ExclusiveMaximum => KeywordName::Maximum,
            _ => return false,
        };
        self.ctx.draft() == Draft::Draft4 && self.has_active(limit)
    }

    // Returns whether the keyword of this value accepts everything, by the standard.
    fn asks_for_nothing(&self, keyword: KeywordName, value: &Value) -> bool
        ensures { result ≡ asks_for_nothing keyword self.now.ctx.now.setting
            (members_view self.now.parent.now.entries) (view value.now) }
    {
        match keyword {
            KeywordName::UniqueItems => keyword.is_active(self.ctx) && is_false(value),
            KeywordName::Items | KeywordName::AdditionalItems => keyword.is_active(self.ctx)
                && is_true(value),
            _ => self.is_part_of_limit(keyword) && is_false(value),
        }
    }

    // Returns why a keyword that asserts nothing is not checked.
    fn idle_reason(&self, keyword: KeywordName) -> Reason
        ensures { result
            ≡ idle_reason keyword self.now.ctx.now.setting (members_view self.now.parent.now.entries) }
    {
        match keyword {
            KeywordName::Required if required::is_handed_on(self.ctx, self.parent) => {
                Reason::Delegated
            }
            _ => Reason::Inactive,
        }
    }

    // Returns why a member is not checked whose name is no keyword of this library by itself.
    fn name_reason(&self, name: &str) -> Option<Reason>
        ensures { result
            ≡ name_reason self.now.ctx.now.setting (members_view self.now.parent.now.entries) name.now }
    {
        if is_bound(name) {
            if self.are_bounds_read() {
                None
            } else {
                Some(Reason::Inactive)
            }
        } else if is_annotation(self.ctx.draft(), name) {
            None
        } else if is_not_implemented(self.ctx.draft(), name) {
            Some(Reason::NotImplemented)
        } else {
            Some(Reason::Unknown)
        }
    }

    // Returns whether an active `contains` reads the bounds beside it.
    fn are_bounds_read(&self) -> bool
        ensures { result
            ≡ are_bounds_read self.now.ctx.now.setting (members_view self.now.parent.now.entries) }
    {
        is_after_draft_7(self.ctx.draft())
            && self.ctx.has_vocabulary(Vocabulary::Validation)
            && self.has_active(KeywordName::Contains)
    }

    // Returns whether the keyword is there and active.
    fn has_active(&self, keyword: KeywordName) -> bool
        ensures { result
            ≡ has_active self.now.ctx.now.setting (members_view self.now.parent.now.entries) keyword }
    {
        member_of(self.parent, keyword.as_str()).is_some() && keyword.is_active(self.ctx)
    }
}

// Returns whether the name is `minContains` or `maxContains`.
fn is_bound(name: &str) -> bool
    ensures { result ≡ is_bound name.now }
{
    name == "minContains" || name == "maxContains"
}

// Returns whether the member `name` is an array.
fn has_array(parent: &Map<String, Value>, name: &str) -> bool
    ensures { result ≡ member_passes is_array_value name.now (members_view parent.now.entries) }
{
    matches!(member_of(parent, name), Some(Value::Array(_)))
}

// Returns whether the value is `true`.
fn is_true(value: &Value) -> bool
    ensures { result ≡ is_true (view value.now) }
{
    matches!(value, Value::Bool(true))
}

// Returns whether the value is `false`.
fn is_false(value: &Value) -> bool
    ensures { result ≡ is_false (view value.now) }
{
    matches!(value, Value::Bool(false))
}
