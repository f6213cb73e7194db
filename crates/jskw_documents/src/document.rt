//! A document that is read from a device.
ghost use Rattle.std.specs.Prelude.{◌≡◌, ◌⊎◌, ℕ, List, None, false, true, IfOk, OnOk, IsErrOf};
ghost use Rattle.std.specs.Io.KnownBytes.{Consumes, IsAtEnd};
ghost use Rattle.jskw_documents.specs.Devices.{AnswersDocument, LosesDocument, is_memory_fault, is_too_long};
ghost use Rattle.jskw_documents.specs.Devices.{is_write_fault};
ghost use Rattle.jskw_documents.specs.Documents.{IsAnswer, verdict_on};

use crate::answer::{Answer, answer_to};
use crate::fault::CheckFault;
use crate::lost::write_lost;
use crate::stream::Stream;
use crate::watcher::{Counts, Watcher};
use jskw_service::{Sink, Source, SourceFault, Verdict, read_all, write_all};
use jskw_text::TreeReader;

/// Reads a document to its end, writes the answer and nothing else, shows the counts to the watcher,
/// and returns the verdict. If memory runs out for the document or for its answer, it is refused, and
/// its end may be unread. Neither device may have failed before the call.
///
/// # Errors
///
/// Fails if a device does. If the reader failed, nothing was written.
pub fn check_document<R: Source, W: Sink, V: Watcher>(
    stream: &Stream<'_, '_>,
    reader: &mut R,
    writer: &mut W,
    watcher: &mut V,
) -> Result<Verdict, CheckFault>
    requires reader_works { R.has_failed reader.old ≡ false }
    requires writer_works { W.has_failed writer.old ≡ false }
    ensures answers { IfOk result (λ said. AnswersDocument stream.now.checker.now stream.now.file.now said
        (R.remaining reader.old) (R.remaining reader.new) (W.contents writer.old) (W.contents writer.new)
        ⊎ LosesDocument stream.now.checker.now stream.now.file.now said
        (W.contents writer.old) (W.contents writer.new)) }
    ensures works { OnOk result (R.has_failed reader.new ≡ false) }
    ensures failed { W.has_failed writer.new ≡ is_write_fault result }
    ensures read_failed { IsErrOf result CheckFault.Read → R.has_failed reader.new ≡ true }
    ensures unread { IsErrOf result CheckFault.Read → W.contents writer.new ≡ W.contents writer.old }
    ensures memory { is_memory_fault result ≡ false }
    ensures short { is_too_long result ≡ false }
{
    match answer_to_all(stream, reader) {
        Ok((answer, bytes)) => {
            let Ok(()) = write_all(writer, &answer.text) else {
                return Err(CheckFault::Write);
            };
            watcher.saw(Counts {
                documents: 1,
                bytes,
                errors: answer.errors,
            });
            Ok(answer.verdict)
        }
        Err(SourceFault::Memory) => {
            let Ok(()) = write_lost(stream, None, writer) else {
                return Err(CheckFault::Write);
            };
            watcher.saw(Counts {
                documents: 1,
                bytes: 0,
                errors: 0,
            });
            Ok(Verdict::Refused)
        }
        Err(SourceFault::Device) => Err(CheckFault::Read),
    }
}

// Reads a document to its end, and returns the answer and how many bytes it has.
fn answer_to_all<R: Source>(
    stream: &Stream<'_, '_>,
    reader: &mut R,
) -> Result<(Answer, usize), SourceFault>
    requires { R.has_failed reader.old ≡ false }
    ensures answer { IfOk result (λ made. (bytes : List ℕ)
        × Consumes (R.remaining reader.old) (R.remaining reader.new) bytes × IsAtEnd (R.remaining reader.new)
        × IsAnswer stream.now.checker.now stream.now.file.now None bytes made.0.text.items
        × (made.0.verdict ≡ verdict_on stream.now.checker.now.schema bytes)) }
    ensures works { OnOk result (R.has_failed reader.new ≡ false) }
    ensures memory { IsErrOf result SourceFault.Memory → R.has_failed reader.new ≡ false }
    ensures device { IsErrOf result SourceFault.Device → R.has_failed reader.new ≡ true }
{
    let document = read_all(stream.alloc, reader)?;
    let mut trees = TreeReader::new(stream.alloc);
    let answer = answer_to(stream, None, &document, &mut trees)?;
    Ok((answer, document.len()))
}
