//! Requests: reads a schema, an instance and settings from a JSON value.
ghost use Rattle.std.specs.Prelude.{◌≡◌, IfOk, option_map, map, string_bytes};
ghost use Rattle.serde_json.specs.View.{view, items_view, members_view};
ghost use Rattle.jskw_service.specs.Request.{draft_of, draft_named, overridden_of, request_of, setting_of};
ghost use Rattle.jskw_service.specs.Request.{text_of, texts_of, vocabularies_of, vocabulary_named};
ghost use Rattle.jskw_service.specs.Request.{vocabulary_from, vocabulary_set};
ghost use Rattle.jskw_service.specs.RequestView.{request_view};

use jskw_report::context::member_of;
use jskw_report::{Draft, Settings, Vocabulary, VocabularySet};
use serde_json::{Map, Value};
use std::alloc::{AllocError, Global};

// A schema, an instance and the settings of the schema.
#[derive(Drop)]
pub(crate) struct Request<'v> {
    pub(crate) schema: &'v Value,
    pub(crate) instance: &'v Value,
    pub(crate) settings: Settings,
}

// Returns the request that the value is, or `None`: the value is not an object, `schema` or
// `instance` is missing, or `draft`, `vocabularies` or `overridden` has a value that it does not
// take.
pub(crate) fn request_of<'v>(
    alloc: Global,
    value: &'v Value,
) -> Result<Option<Request<'v>>, AllocError>
    ensures { IfOk result (λ r. option_map request_view r ≡ request_of (view value.now)) }
{
    let Value::Object(members) = value else {
        return Ok(None);
    };
    let Some(settings) = settings_of(alloc, members)? else {
        return Ok(None);
    };
    let Some(schema) = member_of(members, "schema") else {
        return Ok(None);
    };
    let Some(instance) = member_of(members, "instance") else {
        return Ok(None);
    };
    Ok(Some(Request {
        schema,
        instance,
        settings,
    }))
}

// Returns the settings, or `None` if the value of a member is wrong.
fn settings_of(alloc: Global, members: &Map<String, Value>) -> Result<Option<Settings>, AllocError>
    ensures { IfOk result (λ s. s ≡ setting_of (members_view members.now.entries)) }
{
    let Some(draft) = draft_of(member_of(members, "draft")) else {
        return Ok(None);
    };
    let Some(vocabularies) = vocabularies_of(member_of(members, "vocabularies")) else {
        return Ok(None);
    };
    let Some(overridden) = overridden_of(alloc, member_of(members, "overridden"))? else {
        return Ok(None);
    };
    Ok(Some(Settings::new(draft, vocabularies, overridden)))
}

// Returns the draft of the member `draft`, or 2020-12 if there is none.
fn draft_of(member: Option<&Value>) -> Option<Draft>
    ensures { result ≡ draft_of (option_map (λ x. view x.now) member.entry) }
{
    match member {
        None => Some(Draft::Draft202012),
        Some(Value::String(name)) => draft_named(name.as_str()),
        Some(_) => None,
    }
}

/// Returns the draft of this name, or `None` if there is none.
pub fn draft_named(name: &str) -> Option<Draft>
    ensures { result ≡ draft_named name.now }
{
    match name {
        "4" => Some(Draft::Draft4),
        "6" => Some(Draft::Draft6),
        "7" => Some(Draft::Draft7),
        "2019-09" => Some(Draft::Draft201909),
        "2020-12" => Some(Draft::Draft202012),
        _ => None,
    }
}

/// Returns the vocabularies that are present: those that the items of `member` name, or all if there
/// is no member. Returns `None` if the member is not an array of names of vocabularies.
pub fn vocabularies_of(member: Option<&Value>) -> Option<VocabularySet>
    ensures { result ≡ vocabularies_of (option_map (λ x. view x.now) member.entry) }
{
    match member {
        None => Some(VocabularySet::all()),
        Some(Value::Array(items)) => vocabulary_set(items.as_slice()),
        Some(_) => None,
    }
}

// Returns the set of the items, or `None` if one is not the name of a vocabulary.
fn vocabulary_set(items: &[Value]) -> Option<VocabularySet>
    ensures { result ≡ vocabulary_set (items_view items.now) }
{
    let mut vocabularies = VocabularySet::empty();
    for item in items {
        vocabularies = vocabularies.insert(vocabulary_of(item)?);
    }
    Some(vocabularies)
}

// Returns the vocabulary that the item names.
fn vocabulary_of(item: &Value) -> Option<Vocabulary>
    ensures { result ≡ vocabulary_from (view item.now) }
{
    match item {
        Value::String(name) => vocabulary_named(name.as_str()),
        _ => None,
    }
}

/// Returns the vocabulary of this name, or `None` if there is none.
pub fn vocabulary_named(name: &str) -> Option<Vocabulary>
    ensures { result ≡ vocabulary_named name.now }
{
    match name {
        "core" => Some(Vocabulary::Core),
        "applicator" => Some(Vocabulary::Applicator),
        "validation" => Some(Vocabulary::Validation),
        _ => None,
    }
}

/// Returns the names of the overridden keywords: the items of `member`, or no names if there is no
/// member. Returns `None` if the member is not an array of strings.
pub fn overridden_of(
    alloc: Global,
    member: Option<&Value>,
) -> Result<Option<Vec<String>>, AllocError>
    ensures { IfOk result (λ o. option_map (λ names. map string_bytes names.items) o
        ≡ overridden_of (option_map (λ x. view x.now) member.entry)) }
{
    match member {
        None => Ok(Some(Vec::new(alloc))),
        Some(Value::Array(items)) => texts_of(alloc, items.as_slice()),
        Some(_) => Ok(None),
    }
}

// Copies the items, or returns `None` if one is not a string.
fn texts_of(alloc: Global, items: &[Value]) -> Result<Option<Vec<String>>, AllocError>
    ensures { IfOk result (λ o. option_map (λ names. map string_bytes names.items) o
        ≡ texts_of (items_view items.now)) }
{
    let mut texts = Vec::new(alloc);
    for item in items {
        let Some(text) = text_of(item) else {
            return Ok(None);
        };
        texts.push(String::from_str(alloc, text)?)?;
    }
    Ok(Some(texts))
}

// Returns the text of a string.
fn text_of(item: &Value) -> Option<&str>
    ensures { option_map (λ s. s.now) result ≡ text_of (view item.now) }
{
    match item {
        Value::String(text) => Some(text.as_str()),
        _ => None,
    }
}
