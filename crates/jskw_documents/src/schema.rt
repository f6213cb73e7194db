//! The schema that documents are checked against.
ghost use Rattle.std.specs.Prelude.{◌≡◌, false, IfOk, Ok, option_map};
ghost use Rattle.serde_json.specs.View.{view};
ghost use Rattle.jskw_report.specs.Setting.{with_object_layer};
ghost use Rattle.jskw_documents.specs.Schemas.{IsSchemaGiven, covered_schema, draft_chosen};
ghost use Rattle.jskw_documents.specs.Schemas.{draft_of_meta_schema, draft_of_schema, draft_of_value, how_read};
ghost use Rattle.jskw_documents.specs.Schemas.{schema_given, schema_under};

use crate::compiled::CompiledSchema;
use crate::options::Output;
use crate::place::{Place, refusal};
use crate::words::push_shown_after;
use jskw_array::compiler::compile;
use jskw_report::context::member_of;
use jskw_report::{CompileFault, Context, Draft, Settings, ValidationError, VocabularySet};
use jskw_sentence::schema_sentence;
use jskw_service::{push_bytes, read_value};
use jskw_text::{ReadFault, read_bytes};
use jskw_unchecked::{UncheckedMember, unchecked};
use jskw_value::{DecimalJson, SerdeJson};
use jskw_wanted::wanted;
use serde_json::Value;
use std::alloc::{AllocError, Global};

/// How a schema is read.
#[derive(Debug, Drop)]
pub struct SchemaOptions {
    /// The draft, or `None` for the one that `$schema` names; without `$schema`, that is 2020-12.
    pub draft: Option<Draft>,
    /// The vocabularies that are present.
    pub vocabularies: VocabularySet,
    /// The names of the keywords that are not asserted.
    pub overridden: Vec<String>,
    /// Whether the schema may have members that are not checked.
    pub allow_unchecked: bool,
}

/// Compiles the schema of a text, without an object layer. If there is no schema that documents may
/// be checked against, returns the lines that say why; they name the file.
pub fn schema_of(
    alloc: Global,
    file: &str,
    text: &[u8],
    options: SchemaOptions,
) -> Result<Result<CompiledSchema, Vec<u8>>, AllocError>
    ensures { IfOk result (λ made. IsSchemaGiven made (schema_given (how_read options) text.now)) }
{
    let Some(value) = read_value(alloc, text)? else {
        return Ok(Err(not_json(alloc, file, text)?));
    };
    let Some(draft) = draft_chosen(options.draft, &value) else {
        return Ok(Err(no_draft(alloc, file, &value)?));
    };
    let settings = Settings::new(draft, options.vocabularies, options.overridden);
    schema_under(alloc, file, options.allow_unchecked, &settings, &value)
}

// Compiles a schema, or returns the lines that say why not.
fn schema_under(
    alloc: Global,
    file: &str,
    allow_unchecked: bool,
    settings: &Settings,
    value: &Value,
) -> Result<Result<CompiledSchema, Vec<u8>>, AllocError>
    ensures { IfOk result (λ made. IsSchemaGiven made (schema_under allow_unchecked
        (with_object_layer false settings.now) (view value.now))) }
{
    let ctx: Context<'_, DecimalJson> = Context::new(alloc, settings);
    let ctx = ctx.with_object_layer(false);
    let members = unchecked(alloc, &ctx, value)?;
    match compile(alloc, &ctx, value) {
        Ok(node) => {
            let schema = CompiledSchema::new(node, wanted(alloc, value)?);
            covered_schema(alloc, file, allow_unchecked, schema, members.as_slice())
        }
        Err(CompileFault::Bad(error)) => Ok(Err(bad_schema(alloc, file, &error)?)),
        Err(CompileFault::Memory(error)) => Err(error),
    }
}

// Returns a compiled schema, unless these members of it are not checked and that is not allowed.
fn covered_schema(
    alloc: Global,
    file: &str,
    allow_unchecked: bool,
    schema: CompiledSchema,
    members: &[UncheckedMember],
) -> Result<Result<CompiledSchema, Vec<u8>>, AllocError>
    ensures { IfOk result
        (λ made. IsSchemaGiven made (covered_schema allow_unchecked members.now (Ok schema))) }
{
    match members {
        [] => Ok(Ok(schema)),
        [_, ..] if allow_unchecked => Ok(Ok(schema)),
        [_, ..] => Ok(Err(unchecked_lines(alloc, file, members)?)),
    }
}

// Returns the draft that is asked for, or that the schema names.
fn draft_chosen(asked: Option<Draft>, schema: &Value) -> Option<Draft>
    ensures { result ≡ draft_chosen asked (view schema.now) }
{
    match asked {
        Some(draft) => Some(draft),
        None => draft_of_schema(schema),
    }
}

// Returns the draft that a schema names, or 2020-12 if it names none.
fn draft_of_schema(schema: &Value) -> Option<Draft>
    ensures { result ≡ draft_of_schema (view schema.now) }
{
    match schema {
        Value::Object(members) => draft_of_value(member_of(members, "$schema")),
        _ => Some(Draft::Draft202012),
    }
}

// Returns the draft of a value of `$schema`.
fn draft_of_value(value: Option<&Value>) -> Option<Draft>
    ensures { result ≡ draft_of_value (option_map (λ x. view x.now) value.entry) }
{
    match value {
        None => Some(Draft::Draft202012),
        Some(Value::String(name)) => draft_of_meta_schema(name.as_str()),
        Some(_) => None,
    }
}

// Returns the draft whose meta-schema has this name.
fn draft_of_meta_schema(name: &str) -> Option<Draft>
    ensures { result ≡ draft_of_meta_schema name.now }
{
    match name {
        "http://json-schema.org/draft-04/schema" => Some(Draft::Draft4),
        "http://json-schema.org/draft-04/schema#" => Some(Draft::Draft4),
        "http://json-schema.org/draft-06/schema" => Some(Draft::Draft6),
        "http://json-schema.org/draft-06/schema#" => Some(Draft::Draft6),
        "http://json-schema.org/draft-07/schema" => Some(Draft::Draft7),
        "http://json-schema.org/draft-07/schema#" => Some(Draft::Draft7),
        "https://json-schema.org/draft/2019-09/schema" => Some(Draft::Draft201909),
        "https://json-schema.org/draft/2019-09/schema#" => Some(Draft::Draft201909),
        "https://json-schema.org/draft/2020-12/schema" => Some(Draft::Draft202012),
        "https://json-schema.org/draft/2020-12/schema#" => Some(Draft::Draft202012),
        _ => None,
    }
}

// Returns the line that says which draft a schema names.
fn no_draft(alloc: Global, file: &str, schema: &Value) -> Result<Vec<u8>, AllocError> {
    let name = match schema {
        Value::Object(members) => member_of(members, "$schema"),
        _ => None,
    };
    let name = name.unwrap_or(schema).to_string(alloc)?;
    let why = format!(in alloc; "$schema names no known draft: {name}; --draft names one")?;
    refuse_schema(alloc, file, why.as_str())
}

// Returns the line that says where and why a text is not JSON.
fn not_json(alloc: Global, file: &str, text: &[u8]) -> Result<Vec<u8>, AllocError> {
    match read_bytes(alloc, text) {
        Err(ReadFault::NotJson(reason, position)) => {
            let place = Place {
                file,
                line: Some(position.line),
                column: Some(position.column),
            };
            let why = format!(in alloc; "the schema is {}", reason.sentence())?;
            refusal(alloc, Output::Text, &place, None, why.as_str())
        }
        Err(ReadFault::Memory(error)) => Err(error),
        Ok(_) | Err(ReadFault::Inexact(..)) => {
            refuse_schema(alloc, file, "the schema has a number that is out of range")
        }
    }
}

// Returns the line of a file, with a reason.
fn refuse_schema(alloc: Global, file: &str, why: &str) -> Result<Vec<u8>, AllocError> {
    let place = Place {
        file,
        line: None,
        column: None,
    };
    refusal(alloc, Output::Text, &place, None, why)
}

// Returns the line that says why a schema does not compile.
fn bad_schema(
    alloc: Global,
    file: &str,
    error: &ValidationError<'_, SerdeJson>,
) -> Result<Vec<u8>, AllocError> {
    let message = schema_sentence(alloc, error)?;
    let location = error.schema_path().as_str();
    let why = format!(in alloc; "the schema does not compile: {message} [{location}]")?;
    refuse_schema(alloc, file, why.as_str())
}

// Returns a line for each member that is not checked, and one that says what to do.
fn unchecked_lines(
    alloc: Global,
    file: &str,
    members: &[UncheckedMember],
) -> Result<Vec<u8>, AllocError> {
    let mut text = Vec::new(alloc);
    for member in members {
        push_shown_after(&mut text, b"", file)?;
        push_shown_after(&mut text, b": ", member.location().as_str())?;
        push_shown_after(&mut text, b": not checked (", member.reason().as_str())?;
        push_bytes(&mut text, b")\n")?;
    }
    push_bytes(
        &mut text,
        b"jskw: no document was checked; --allow-unchecked ignores these keywords\n",
    )?;
    Ok(text)
}
