//! What is written of a document that memory runs out for.
ghost use Rattle.std.specs.Prelude.{◌≡◌, OnOk, false, is_err};
ghost use Rattle.std.specs.Io.KnownBytes.{Appends};
ghost use Rattle.jskw_documents.specs.Shown.{before_line, if_some, lost_text, memory_words, number_after};

use crate::options::Output;
use crate::stream::Stream;
use itoa::Buffer;
use jskw_service::{DeviceFault, Sink, write_all};

// Returns what stands between the name of the stream and the number of the line.
fn before_line(output: Output) -> &'static [u8]
    ensures { result.now ≡ before_line output }
{
    match output {
        Output::Basic => b",\"line\":",
        Output::Text | Output::Quiet => b":",
    }
}

// Returns what stands behind the number of the line.
fn memory_words(output: Output) -> &'static [u8]
    ensures { result.now ≡ memory_words output }
{
    match output {
        Output::Basic => b",\"refused\":\"memory ran out\"}\n",
        Output::Text | Output::Quiet => b": refused: memory ran out\n",
    }
}

// Writes the number of a line, if there is one.
fn write_line<W: Sink>(
    writer: &mut W,
    output: Output,
    line: Option<usize>,
) -> Result<(), DeviceFault>
    requires { W.has_failed writer.old ≡ false }
    ensures writes { OnOk result (Appends (W.contents writer.old) (W.contents writer.new)
        (if_some (number_after (before_line output)) line)) }
    ensures failed { W.has_failed writer.new ≡ is_err result }
{
    match line {
        None => Ok(()),
        Some(number) => {
            write_all(writer, before_line(output))?;
            let mut digits = Buffer::new();
            write_all(writer, digits.format(number).as_bytes())
        }
    }
}

// Writes that memory ran out for the line of this number, or for a file that is one document. It takes
// no memory.
pub(crate) fn write_lost<W: Sink>(
    stream: &Stream<'_, '_>,
    line: Option<usize>,
    writer: &mut W,
) -> Result<(), DeviceFault>
    requires { W.has_failed writer.old ≡ false }
    ensures writes { OnOk result (Appends (W.contents writer.old) (W.contents writer.new)
        (lost_text stream.now.checker.now.options.output stream.now.file.now line)) }
    ensures failed { W.has_failed writer.new ≡ is_err result }
{
    let output = stream.checker.options.output;
    write_all(writer, &stream.name)?;
    write_line(writer, output, line)?;
    write_all(writer, memory_words(output))
}
