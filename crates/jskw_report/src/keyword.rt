//! The keywords by name, and which of them are active under given settings.
ghost use Rattle.std.specs.Prelude.{◌≡◌};
ghost use Rattle.jskw_value.specs.Pointer.{name_token};
ghost use Rattle.jskw_report.specs.Overridden.{keyword_index};
ghost use Rattle.jskw_report.specs.Found.{keyword_named};
ghost use Rattle.jskw_report.specs.Setting.{is_in_draft, name_of, is_active, vocabulary_of};

use crate::context::Context;
use crate::settings::{Draft, Vocabulary};
use jskw_value::Json;

/// A keyword of this library.
///
/// The variants are in the order in which the keywords of a schema are compiled; errors and
/// evaluation nodes are in the same order. `minContains` and `maxContains` have no variant: they
/// are part of `contains`.
#[derive(Clone, Copy, Debug, PartialEq, Eq)]
pub enum KeywordName {
    /// `type` (JSON Schema Validation 6.1.1). `Type` alone is a reserved word in contracts.
    TypeKeyword,
    /// `minItems` (JSON Schema Validation 6.4.2).
    MinItems,
    /// `maxItems` (JSON Schema Validation 6.4.1).
    MaxItems,
    /// `items`: one schema for the items (JSON Schema Core 10.3.1.2), or an array of schemas, one
    /// for each index (Draft 7 Validation 6.4.1; in 2020-12 by this library's own rule).
    Items,
    /// `prefixItems` (JSON Schema Core 10.3.1.1). In Draft 2020-12 only.
    PrefixItems,
    /// `additionalItems` (Draft 7 Validation 6.4.2). In all drafts before 2020-12.
    AdditionalItems,
    /// `contains` (JSON Schema Core 10.3.1.3). Not in Draft 4.
    Contains,
    /// `uniqueItems` (JSON Schema Validation 6.4.3).
    UniqueItems,
    /// `const` (JSON Schema Validation 6.1.3). Not in Draft 4.
    Const,
    /// `enum` (JSON Schema Validation 6.1.2).
    Enum,
    /// `minimum` (JSON Schema Validation 6.2.4).
    Minimum,
    /// `maximum` (JSON Schema Validation 6.2.2).
    Maximum,
    /// `exclusiveMinimum` (JSON Schema Validation 6.2.5). In Draft 4 it is not a keyword by itself
    /// but a part of `minimum`.
    ExclusiveMinimum,
    /// `exclusiveMaximum` (JSON Schema Validation 6.2.3). In Draft 4 it is not a keyword by itself
    /// but a part of `maximum`.
    ExclusiveMaximum,
    /// `multipleOf` (JSON Schema Validation 6.2.1).
    MultipleOf,
    /// `minProperties` (JSON Schema Validation 6.5.2).
    MinProperties,
    /// `maxProperties` (JSON Schema Validation 6.5.1).
    MaxProperties,
    /// `required` (JSON Schema Validation 6.5.3).
    Required,
}

impl KeywordName {
    /// All keywords, in the order in which the keywords of a schema are compiled.
    pub const ALL: [KeywordName; 18] = [
        KeywordName::TypeKeyword,
        KeywordName::MinItems,
        KeywordName::MaxItems,
        KeywordName::Items,
        KeywordName::PrefixItems,
        KeywordName::AdditionalItems,
        KeywordName::Contains,
        KeywordName::UniqueItems,
        KeywordName::Const,
        KeywordName::Enum,
        KeywordName::Minimum,
        KeywordName::Maximum,
        KeywordName::ExclusiveMinimum,
        KeywordName::ExclusiveMaximum,
        KeywordName::MultipleOf,
        KeywordName::MinProperties,
        KeywordName::MaxProperties,
        KeywordName::Required,
    ];

    /// The number of keywords.
    pub const COUNT: usize = KeywordName::ALL.len();

    /// Returns the name of the keyword in a schema, such as `minItems`.
    pub fn as_str(self) -> &'static str
        ensures { result.now ≡ name_of self }
    {
        &self.token()[1..]
    }

    /// Returns the keyword with this name, or `None` if it is the name of none.
    pub fn named(name: &str) -> Option<KeywordName>
        ensures { result ≡ keyword_named name.now }
    {
        for keyword in KeywordName::ALL {
            if keyword.as_str() == name {
                return Some(keyword);
            }
        }
        None
    }

    // Returns the name behind a slash: the reference token of the keyword's member (RFC 6901).
    pub(crate) fn token(self) -> &'static str
        ensures { result.now ≡ name_token (name_of self) }
    {
        match self {
            KeywordName::TypeKeyword => "/type",
            KeywordName::MinItems => "/minItems",
            KeywordName::MaxItems => "/maxItems",
            KeywordName::Items => "/items",
            KeywordName::PrefixItems => "/prefixItems",
            KeywordName::AdditionalItems => "/additionalItems",
            KeywordName::Contains => "/contains",
            KeywordName::UniqueItems => "/uniqueItems",
            KeywordName::Const => "/const",
            KeywordName::Enum => "/enum",
            KeywordName::Minimum => "/minimum",
            KeywordName::Maximum => "/maximum",
            KeywordName::ExclusiveMinimum => "/exclusiveMinimum",
            KeywordName::ExclusiveMaximum => "/exclusiveMaximum",
            KeywordName::MultipleOf => "/multipleOf",
            KeywordName::MinProperties => "/minProperties",
            KeywordName::MaxProperties => "/maxProperties",
            KeywordName::Required => "/required",
        }
    }

    /// Returns whether the keyword is active: the draft of `ctx` defines it, its vocabulary is
    /// present (JSON Schema Core 8.1.2), and its name is not overridden.
    ///
    /// A keyword that is not active asserts nothing, and its value is not checked. Keywords beside
    /// it still read its value: an overridden `minContains` still bounds `contains`. The repository's
    /// docs/USE.md lists which keyword reads what, under "Settings".
    pub fn is_active<F: Json>(self, ctx: &Context<'_, F>) -> bool
        ensures { result ≡ is_active ctx.now.setting self }
    {
        self.is_in(ctx.draft()) && ctx.has_vocabulary(self.vocabulary()) && !ctx.overrides(self)
    }

    // The index of the keyword in `ALL`, counted from 0.
    pub(crate) fn index(self) -> usize
        ensures { result ≡ keyword_index self }
    {
        self as usize
    }

    // Returns whether the draft has the keyword.
    fn is_in(self, draft: Draft) -> bool
        ensures { result ≡ is_in_draft draft self }
    {
        match self {
            KeywordName::PrefixItems => draft == Draft::Draft202012,
            KeywordName::AdditionalItems => draft != Draft::Draft202012,
            KeywordName::Contains
            | KeywordName::Const
            | KeywordName::ExclusiveMinimum
            | KeywordName::ExclusiveMaximum => draft != Draft::Draft4,
            _ => true,
        }
    }

    // Returns the vocabulary that defines the keyword: that of applicators for a keyword with
    // subschemas (Core 10.3.1), that of validation for any other (Validation 6).
    fn vocabulary(self) -> Vocabulary
        ensures { result ≡ vocabulary_of self }
    {
        match self {
            KeywordName::Items
            | KeywordName::PrefixItems
            | KeywordName::AdditionalItems
            | KeywordName::Contains => Vocabulary::Applicator,
            _ => Vocabulary::Validation,
        }
    }
}
