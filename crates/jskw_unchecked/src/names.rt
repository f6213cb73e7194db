//! The names of keywords that this library has not, by draft.
ghost use Rattle.std.specs.Prelude.{◌≡◌, map};
ghost use Rattle.jskw_report.specs.Setting.{is_after_draft_7};
ghost use Rattle.jskw_unchecked.specs.Names.{is_after_draft_6, is_one_of, is_annotation};
ghost use Rattle.jskw_unchecked.specs.Names.{is_identifier, is_in_place, is_not_implemented};
ghost use Rattle.jskw_unchecked.specs.Names.{is_of_core, is_of_members, is_of_metadata};
ghost use Rattle.jskw_unchecked.specs.Names.{is_of_strings, is_reference};

use jskw_report::Draft;

// Returns whether the draft has a keyword of this name that asserts or applies something, and that
// this library has not.
pub(crate) fn is_not_implemented(draft: Draft, name: &str) -> bool
    ensures { result ≡ is_not_implemented draft name.now }
{
    is_reference(draft, name)
        || is_in_place(draft, name)
        || is_of_members(draft, name)
        || is_of_strings(draft, name)
}

// Returns whether it is a reference.
fn is_reference(draft: Draft, name: &str) -> bool
    ensures { result ≡ is_reference draft name.now }
{
    name == "$ref"
        || (is_after_draft_7(draft) && name == "$recursiveRef")
        || (draft == Draft::Draft202012 && name == "$dynamicRef")
}

// Returns whether it applies subschemas to the instance itself.
fn is_in_place(draft: Draft, name: &str) -> bool
    ensures { result ≡ is_in_place draft name.now }
{
    is_among(name, &["allOf", "anyOf", "oneOf", "not"])
        || (is_after_draft_6(draft) && is_among(name, &["if", "then", "else"]))
}

// Returns whether it is about members, or is `unevaluatedItems`.
fn is_of_members(draft: Draft, name: &str) -> bool
    ensures { result ≡ is_of_members draft name.now }
{
    is_among(name, &OF_MEMBERS)
        || (draft != Draft::Draft4 && name == "propertyNames")
        || (is_after_draft_7(draft) && is_among(name, &OF_MEMBERS_IN_2019_09))
}

const OF_MEMBERS: [&str; 4] = [
    "properties",
    "patternProperties",
    "additionalProperties",
    "dependencies",
];

const OF_MEMBERS_IN_2019_09: [&str; 4] = [
    "dependentSchemas",
    "dependentRequired",
    "unevaluatedItems",
    "unevaluatedProperties",
];

// Returns whether it is about strings.
fn is_of_strings(draft: Draft, name: &str) -> bool
    ensures { result ≡ is_of_strings draft name.now }
{
    is_among(name, &["maxLength", "minLength", "pattern", "format"])
        || (draft == Draft::Draft7 && is_among(name, &["contentMediaType", "contentEncoding"]))
}

// Returns whether the draft has a keyword of this name that asserts nothing by itself.
pub(crate) fn is_annotation(draft: Draft, name: &str) -> bool
    ensures { result ≡ is_annotation draft name.now }
{
    is_identifier(draft, name) || is_of_core(draft, name) || is_of_metadata(draft, name)
}

// Returns whether it names a schema.
fn is_identifier(draft: Draft, name: &str) -> bool
    ensures { result ≡ is_identifier draft name.now }
{
    let id = if draft == Draft::Draft4 { "id" } else { "$id" };
    name == id
        || (is_after_draft_7(draft) && is_among(name, &["$anchor", "$recursiveAnchor"]))
        || (draft == Draft::Draft202012 && name == "$dynamicAnchor")
}

// Returns whether it is the `$schema`, a definition or a comment.
fn is_of_core(draft: Draft, name: &str) -> bool
    ensures { result ≡ is_of_core draft name.now }
{
    is_among(name, &["$schema", "definitions"])
        || (is_after_draft_6(draft) && name == "$comment")
        || (is_after_draft_7(draft) && is_among(name, &["$vocabulary", "$defs"]))
}

// Returns whether it says something of the instances without asserting it.
fn is_of_metadata(draft: Draft, name: &str) -> bool
    ensures { result ≡ is_of_metadata draft name.now }
{
    is_among(name, &["title", "description", "default"])
        || (draft != Draft::Draft4 && name == "examples")
        || (is_after_draft_6(draft) && is_among(name, &["readOnly", "writeOnly"]))
        || (is_after_draft_7(draft) && is_among(name, &METADATA_IN_2019_09))
}

const METADATA_IN_2019_09: [&str; 4] = [
    "deprecated",
    "contentMediaType",
    "contentEncoding",
    "contentSchema",
];

// Returns whether the draft is Draft 7 or a later one.
fn is_after_draft_6(draft: Draft) -> bool
    ensures { result ≡ is_after_draft_6 draft }
{
    !matches!(draft, Draft::Draft4 | Draft::Draft6)
}

// Returns whether the draft is 2019-09 or 2020-12.
pub(crate) fn is_after_draft_7(draft: Draft) -> bool
    ensures { result ≡ is_after_draft_7 draft }
{
    matches!(draft, Draft::Draft201909 | Draft::Draft202012)
}

// Returns whether the name is one of these.
fn is_among(name: &str, names: &[&str]) -> bool
    ensures { result ≡ is_one_of name.now (map (λ own. own.now) names.now) }
{
    for own in names {
        if name == *own {
            return true;
        }
    }
    false
}
