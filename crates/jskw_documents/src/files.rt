//! The files that are checked.
ghost use Rattle.std.specs.Prelude.{◌≡◌, ℕ, List, false, true, map, string_bytes, IfOk, IsErrOf, OnOk, is_err};
ghost use Rattle.std.specs.List.{All};
ghost use Rattle.std.specs.Io.KnownBytes.{Appends};
ghost use Rattle.jskw_documents.specs.Devices.{is_memory_fault, is_read_fault, is_too_long, is_write_fault};
ghost use Rattle.jskw_documents.specs.Files.{AnswersFile, AnswersFiles, AnswersPart, AnswersWhole, IsUnread};

use crate::answer::worse_of;
use crate::checker::Checker;
use crate::document::check_document;
use crate::fault::CheckFault;
use crate::folder::{FileSource, Folder};
use crate::lines::check_lines;
use crate::lost::write_lost;
use crate::place::{Place, refusal};
use crate::stream::Stream;
use crate::watcher::Watcher;
use jskw_service::{DeviceFault, Sink, Source, Verdict, write_all};
use std::alloc::{AllocError, Global};

/// Checks the files of these names, one behind the other, writes the answers and nothing else, and
/// returns the worst verdict. Each file is one document, or, if `lines` is set, each of its lines is.
/// A file that cannot be opened, or not be read to its end, or for which memory runs out, is refused,
/// and the others are checked all the same. The writer may not have failed before the call.
///
/// # Errors
///
/// Fails if the writer does, if memory runs out before a file is opened, or if a file of which each
/// line is a document has 2^64 blocks or lines.
pub fn check_files<F: Folder, W: Sink, V: Watcher>(
    alloc: Global,
    checker: &Checker,
    lines: bool,
    folder: &F,
    files: &[String],
    writer: &mut W,
    watcher: &mut V,
) -> Result<Verdict, CheckFault>
    requires { W.has_failed writer.old ≡ false }
    ensures answers { IfOk result (λ said. (text : List ℕ)
        × AnswersFiles checker.now lines (F.bytes_of folder.now) (map string_bytes files.now) said text
        × Appends (W.contents writer.old) (W.contents writer.new) text) }
    ensures failed { W.has_failed writer.new ≡ is_write_fault result }
    ensures no_read { is_read_fault result ≡ false }
    ensures short { lines ≡ false → is_too_long result ≡ false }
    ensures unwritten { IsErrOf result CheckFault.Memory → writer.new ≡ writer.old }
{
    let streams = streams_of(alloc, checker, files)?;
    let mut verdict = Verdict::Valid;
    for stream in &streams {
        let said = check_file(stream, lines, folder, writer, watcher)?;
        verdict = worse_of(verdict, said);
    }
    Ok(verdict)
}

// Creates the streams of the files of these names.
fn streams_of<'c, 'f>(
    alloc: Global,
    checker: &'c Checker,
    files: &'f [String],
) -> Result<Vec<Stream<'c, 'f>>, AllocError>
    ensures checker { IfOk result (λ streams. All (λ s. s.checker.now ≡ checker.now) streams.items) }
    ensures names { IfOk result
        (λ streams. map (λ s. s.file.now) streams.items ≡ map string_bytes files.now) }
{
    let mut streams = Vec::new(alloc);
    for file in files {
        streams.push(Stream::new(alloc, checker, file.as_str())?)?;
    }
    Ok(streams)
}

// Checks a file.
fn check_file<F: Folder, W: Sink, V: Watcher>(
    stream: &Stream<'_, '_>,
    lines: bool,
    folder: &F,
    writer: &mut W,
    watcher: &mut V,
) -> Result<Verdict, CheckFault>
    requires { W.has_failed writer.old ≡ false }
    ensures answers { IfOk result (λ said. (text : List ℕ) × AnswersFile stream.now.checker.now lines
        stream.now.file.now (F.bytes_of folder.now stream.now.file.now) said text
        × Appends (W.contents writer.old) (W.contents writer.new) text) }
    ensures failed { W.has_failed writer.new ≡ is_write_fault result }
    ensures no_read { is_read_fault result ≡ false }
    ensures memory { is_memory_fault result ≡ false }
    ensures short { lines ≡ false → is_too_long result ≡ false }
{
    match folder.open(stream.file) {
        Ok(file) => {
            watcher.begins(file.size);
            let mut reader = file.reader;
            check_opened(stream, lines, &mut reader, writer, watcher)
        }
        Err(why) => {
            watcher.begins(None);
            refuse(stream, why, writer)
        }
    }
}

// Checks a file that was opened. If its device fails, it is refused.
fn check_opened<R: FileSource, W: Sink, V: Watcher>(
    stream: &Stream<'_, '_>,
    lines: bool,
    reader: &mut R,
    writer: &mut W,
    watcher: &mut V,
) -> Result<Verdict, CheckFault>
    requires reader_works { R.has_failed reader.old ≡ false }
    requires writer_works { W.has_failed writer.old ≡ false }
    ensures answers { IfOk result (λ said. (text : List ℕ)
        × AnswersFile stream.now.checker.now lines stream.now.file.now (R.remaining reader.old) said text
        × Appends (W.contents writer.old) (W.contents writer.new) text) }
    ensures whole { R.has_failed reader.new ≡ false → IfOk result (λ said. (text : List ℕ)
        × AnswersWhole stream.now.checker.now lines stream.now.file.now (R.remaining reader.old) said text
        × Appends (W.contents writer.old) (W.contents writer.new) text) }
    ensures failed { W.has_failed writer.new ≡ is_write_fault result }
    ensures no_read { is_read_fault result ≡ false }
    ensures memory { is_memory_fault result ≡ false }
    ensures short { lines ≡ false → is_too_long result ≡ false }
{
    match check_reader(stream, lines, reader, writer, watcher) {
        Ok(said) => Ok(said),
        Err(CheckFault::Read) => refuse(stream, reader.why_failed(), writer),
        Err(fault) => Err(fault),
    }
}

// Checks what a reader gives to its end.
fn check_reader<R: Source, W: Sink, V: Watcher>(
    stream: &Stream<'_, '_>,
    lines: bool,
    reader: &mut R,
    writer: &mut W,
    watcher: &mut V,
) -> Result<Verdict, CheckFault>
    requires reader_works { R.has_failed reader.old ≡ false }
    requires writer_works { W.has_failed writer.old ≡ false }
    ensures whole { IfOk result (λ said. (text : List ℕ)
        × AnswersWhole stream.now.checker.now lines stream.now.file.now (R.remaining reader.old) said text
        × Appends (W.contents writer.old) (W.contents writer.new) text) }
    ensures part { IsErrOf result CheckFault.Read → (text : List ℕ)
        × AnswersPart stream.now.checker.now lines stream.now.file.now (R.remaining reader.old) text
        × Appends (W.contents writer.old) (W.contents writer.new) text }
    ensures read_failed { IsErrOf result CheckFault.Read → R.has_failed reader.new ≡ true }
    ensures failed { W.has_failed writer.new ≡ is_write_fault result }
    ensures memory { is_memory_fault result ≡ false }
    ensures short { lines ≡ false → is_too_long result ≡ false }
{
    if lines {
        check_lines(stream, reader, writer, watcher)
    } else {
        check_document(stream, reader, writer, watcher)
    }
}

// Refuses a file that was not checked, and says why.
fn refuse<W: Sink>(
    stream: &Stream<'_, '_>,
    why: &str,
    writer: &mut W,
) -> Result<Verdict, CheckFault>
    requires { W.has_failed writer.old ≡ false }
    ensures refuses { IfOk result (λ said. (text : List ℕ) × (said ≡ Verdict.Refused)
        × IsUnread stream.now.checker.now.options.output stream.now.file.now text
        × Appends (W.contents writer.old) (W.contents writer.new) text) }
    ensures failed { W.has_failed writer.new ≡ is_write_fault result }
    ensures no_read { is_read_fault result ≡ false }
    ensures memory { is_memory_fault result ≡ false }
    ensures short { is_too_long result ≡ false }
{
    match write_unread(stream, why, writer) {
        Ok(()) => Ok(Verdict::Refused),
        Err(_) => Err(CheckFault::Write),
    }
}

// Writes why a file was not checked, or that memory ran out for that.
fn write_unread<W: Sink>(
    stream: &Stream<'_, '_>,
    why: &str,
    writer: &mut W,
) -> Result<(), DeviceFault>
    requires { W.has_failed writer.old ≡ false }
    ensures writes { OnOk result ((text : List ℕ)
        × IsUnread stream.now.checker.now.options.output stream.now.file.now text
        × Appends (W.contents writer.old) (W.contents writer.new) text) }
    ensures failed { W.has_failed writer.new ≡ is_err result }
{
    let place = Place {
        file: stream.file,
        line: None,
        column: None,
    };
    match refusal(
        stream.alloc,
        stream.checker.options.output,
        &place,
        None,
        why,
    ) {
        Ok(text) => write_all(writer, &text),
        Err(_) => write_lost(stream, None, writer),
    }
}
