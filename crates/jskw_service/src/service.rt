//! Answers requests.
ghost use Rattle.std.specs.Prelude.{◌≡◌, ◌++◌, [], ◌∷◌, IfOk, OnOk, OnErr, IsErrOf, Some, false};
ghost use Rattle.std.specs.Prelude.{true, option_map, string_bytes};
ghost use Rattle.serde_json.specs.View.{view};
ghost use Rattle.jskw_value.specs.Serde.{value_tree};
ghost use Rattle.jskw_report.specs.Compile.{refusal_of};
ghost use Rattle.jskw_report.specs.Errors.{failures_of};
ghost use Rattle.jskw_service.specs.Answer.{answer, answer_to, bad_schema, error_lines, errors, no_request, output};
ghost use Rattle.jskw_service.specs.Answer.{output_of, verdict, verdict_of};
ghost use Rattle.jskw_service.specs.Request.{value_of};
ghost use Rattle.jskw_service.specs.RequestView.{request_view};
ghost use Rattle.jskw_service.specs.Reply.{text_in, verdict_in};
ghost use Rattle.jskw_service.specs.Run.{WritesBeginning, IsOutput, Writes, status_of};

use crate::device::{DeviceFault, Sink, Source};
use crate::errors::first_errors;
use crate::io::{SourceFault, read_all, write_all};
use crate::request::{Request, request_of};
use jskw_array::SchemaNode;
use jskw_array::compiler::compile;
use jskw_report::{CompileFault, Context, ValidationError};
use jskw_value::{Node, SerdeJson};
use serde_json::Value;
use std::alloc::{AllocError, Global};

/// The verdict on a request.
#[derive(Clone, Copy, Debug, PartialEq, Eq)]
pub enum Verdict {
    /// The instance is valid.
    Valid,
    /// The instance has errors.
    Invalid,
    /// There is no verdict on the instance: the input is not a request, the schema does not
    /// compile, the instance contains a float, or memory ran out.
    Refused,
}

/// Why there is no answer: a device failed.
#[derive(Clone, Copy, Debug, PartialEq, Eq)]
pub enum RunFault {
    /// The reader failed, and nothing was written.
    Read,
    /// The writer failed, and a beginning of the answer was written, possibly nothing.
    Write,
}

/// Reads a request to its end, writes the answer and nothing else, and returns the verdict. The
/// [crate's documentation](crate) describes requests and answers. The whole answer is built before
/// the first write. Neither device may have failed before the call.
///
/// If memory runs out, the answer is `refused: memory`; the end of the request may then be unread.
///
/// # Errors
///
/// Fails if a device does.
pub fn run<R: Source, W: Sink>(
    alloc: Global,
    reader: &mut R,
    writer: &mut W,
) -> Result<Verdict, RunFault>
    requires reader_works { R.has_failed reader.old ≡ false }
    requires writer_works { W.has_failed writer.old ≡ false }

    // Everything was read and its answer is written, or memory ran out and the answer says so.
    ensures answers { IfOk result (λ said. Writes said (R.remaining reader.old)
        (R.remaining reader.new) (W.contents writer.old) (W.contents writer.new)) }
    ensures reader_still_works { OnOk result (R.has_failed reader.new ≡ false) }
    ensures writer_still_works { OnOk result (W.has_failed writer.new ≡ false) }

    // A fault comes from a device that failed.
    ensures read_failed { IsErrOf result RunFault.Read → R.has_failed reader.new ≡ true }
    ensures untouched { IsErrOf result RunFault.Read → writer.new ≡ writer.old }
    ensures write_failed { IsErrOf result RunFault.Write → W.has_failed writer.new ≡ true }
    ensures begun { IsErrOf result RunFault.Write → WritesBeginning (R.remaining reader.old)
        (R.remaining reader.new) (W.contents writer.old) (W.contents writer.new) }
{
    let Ok(reply) = reply_to_all(alloc, reader) else {
        return Err(RunFault::Read);
    };
    let Ok(()) = write_all(writer, reply.text()) else {
        return Err(RunFault::Write);
    };
    Ok(reply.verdict())
}

/// Returns the exit status of the program: 0 if the instance is valid, 1 if it has errors, 2
/// otherwise.
pub fn status(outcome: &Result<Verdict, RunFault>) -> u8
    ensures { result ≡ status_of outcome.now }
{
    match outcome {
        Ok(Verdict::Valid) => 0,
        Ok(Verdict::Invalid) => 1,
        Ok(Verdict::Refused) | Err(_) => 2,
    }
}

/// A verdict and the text of its answer.
#[derive(Debug, Drop)]
pub enum Reply {
    /// The answer to a request.
    Answer(Verdict, String),
    /// Memory ran out, so the answer could not be built.
    NoMemory,
}

impl Reply {
    /// Returns the verdict: `Refused` for `NoMemory`.
    pub fn verdict(&self) -> Verdict
        ensures { result ≡ verdict_in self.now }
    {
        match self {
            Reply::Answer(verdict, _) => *verdict,
            Reply::NoMemory => Verdict::Refused,
        }
    }

    /// Returns the text of the answer.
    pub fn text(&self) -> &[u8]
        ensures { result.now ≡ text_in self.now }
    {
        match self {
            Reply::Answer(_, text) => text.as_str().as_bytes(),
            Reply::NoMemory => b"refused: memory\n",
        }
    }
}

// Returns the reply to everything that the reader gives.
fn reply_to_all<R: Source>(alloc: Global, reader: &mut R) -> Result<Reply, DeviceFault>
    requires { R.has_failed reader.old ≡ false }
    ensures output { IfOk result (λ reply. IsOutput (verdict_in reply) (text_in reply)
        (R.remaining reader.old) (R.remaining reader.new)) }
    ensures works { OnOk result (R.has_failed reader.new ≡ false) }
    ensures failed { OnErr result (R.has_failed reader.new ≡ true) }
{
    match read_all(alloc, reader) {
        Ok(input) => match reply_to(alloc, &input) {
            Ok(reply) => Ok(reply),
            Err(AllocError) => Ok(Reply::NoMemory),
        },
        Err(SourceFault::Memory) => Ok(Reply::NoMemory),
        Err(SourceFault::Device) => Err(DeviceFault),
    }
}

/// Returns the reply to a request that is in memory.
pub fn reply_to(alloc: Global, input: &[u8]) -> Result<Reply, AllocError>
    ensures verdict { IfOk result (λ reply. verdict_in reply ≡ verdict input.now) }
    ensures text { IfOk result (λ reply. text_in reply ≡ output input.now) }
{
    let Some(value) = read_value(alloc, input)? else {
        return refuse_request(alloc);
    };
    let Some(request) = request_of(alloc, &value)? else {
        return refuse_request(alloc);
    };
    reply_to_request(alloc, &request)
}

/// Parses the bytes as JSON. Returns `None` if they are not JSON, or if `serde_json` refuses them: a
/// number is too large for a double, arrays and objects nest deeper than 127 levels, or a string has
/// the escape of a lone surrogate.
pub fn read_value(alloc: Global, bytes: &[u8]) -> Result<Option<Value>, AllocError>
    ensures { IfOk result (λ value. option_map view value ≡ value_of bytes.now) }
{
    match Value::from_slice(alloc, bytes) {
        Ok(value) => Ok(Some(value)),
        Err(e) if e.is_memory() => Err(AllocError),
        Err(_) => Ok(None),
    }
}

// Returns the reply to an input that is not a request.
fn refuse_request(alloc: Global) -> Result<Reply, AllocError>
    ensures verdict { IfOk result (λ reply. verdict_in reply ≡ verdict_of no_request) }
    ensures text { IfOk result (λ reply. text_in reply ≡ output_of no_request) }
{
    let text = String::from_str(alloc, "refused: request\n")?;
    Ok(Reply::Answer(Verdict::Refused, text))
}

// Compiles the schema, then validates the instance. There is no object layer.
fn reply_to_request(alloc: Global, request: &Request<'_>) -> Result<Reply, AllocError>
    ensures verdict { IfOk result
        (λ reply. verdict_in reply ≡ verdict_of (answer (Some (request_view request.now)))) }
    ensures text { IfOk result
        (λ reply. text_in reply ≡ output_of (answer (Some (request_view request.now)))) }
{
    let ctx: Context<'_, SerdeJson> = Context::new(alloc, &request.settings);
    let ctx = ctx.with_object_layer(false);
    match compile(alloc, &ctx, request.schema) {
        Ok(schema) => reply_to_instance(alloc, &schema, request.instance),
        Err(CompileFault::Bad(error)) => refuse_schema(alloc, &error),
        Err(CompileFault::Memory(error)) => Err(error),
    }
}

/// Returns the reply to an instance under a compiled schema: the location of its first float, if it
/// contains one, else its errors.
pub fn reply_to_instance(
    alloc: Global,
    schema: &SchemaNode<SerdeJson>,
    instance: &Value,
) -> Result<Reply, AllocError>
    ensures verdict { IfOk result
        (λ reply. verdict_in reply ≡ verdict_of (answer_to schema.now (view instance.now))) }
    ensures text { IfOk result
        (λ reply. text_in reply ≡ output_of (answer_to schema.now (view instance.now))) }
{
    if let Some(location) = instance.first_unlawful(alloc)? {
        let text = format!(in alloc; "refused: float\t{location}\n")?;
        return Ok(Reply::Answer(Verdict::Refused, text));
    }
    let errors = first_errors(alloc, 0, schema, instance)?;
    reply_of_errors(alloc, errors.as_slice())
}

// Returns the reply to a schema that does not compile.
fn refuse_schema(alloc: Global, error: &ValidationError<'_, SerdeJson>) -> Result<Reply, AllocError>
    ensures verdict { IfOk result (λ reply. verdict_in reply
        ≡ verdict_of (bad_schema (refusal_of error.now))) }
    ensures text { IfOk result (λ reply. text_in reply
        ≡ output_of (bad_schema (refusal_of error.now))) }
{
    let keyword = error.kind().keyword();
    let location = error.schema_path().as_str();
    let text = format!(in alloc; "refused: schema\t{keyword}\t{location}\n")?;
    Ok(Reply::Answer(Verdict::Refused, text))
}

// Returns the reply with a line for each error, or `valid` if there is none.
fn reply_of_errors(
    alloc: Global,
    found: &[ValidationError<'_, SerdeJson>],
) -> Result<Reply, AllocError>
    ensures verdict { IfOk result
        (λ reply. verdict_in reply ≡ verdict_of (errors (failures_of value_tree found.now))) }
    ensures text { IfOk result
        (λ reply. text_in reply ≡ output_of (errors (failures_of value_tree found.now))) }
{
    if found.is_empty() {
        let text = String::from_str(alloc, "valid\n")?;
        return Ok(Reply::Answer(Verdict::Valid, text));
    }
    let mut text = String::new(alloc);
    for error in found {
        push_line(&mut text, error)?;
    }
    Ok(Reply::Answer(Verdict::Invalid, text))
}

// Appends the line of an error: its keyword, the instance location and the keyword location.
fn push_line(text: &mut String, error: &ValidationError<'_, SerdeJson>) -> Result<(), AllocError>
    ensures { OnOk result (string_bytes text.new
        ≡ string_bytes text.old ++ error_lines (failures_of value_tree (error.now ∷ []))) }
{
    text.push_str(error.kind().keyword())?;
    text.push('\t')?;
    text.push_str(error.instance_path().as_str())?;
    text.push('\t')?;
    text.push_str(error.schema_path().as_str())?;
    text.push('\n')
}
