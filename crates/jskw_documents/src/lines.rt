//! The lines of a stream, each of which is a document.
ghost use Rattle.std.specs.Prelude.{◌≡◌, ◌<◌, ◌++◌, [], ◌∷◌, ℕ, List, false, true, IfOk, IfSome, MatchOption, OnOk};
ghost use Rattle.std.specs.Prelude.{IsErrOf, Some, length, take, ◌≤◌};
ghost use Rattle.std.specs.Io.KnownBytes.{Appends, IsAtEnd};
ghost use Rattle.jskw_documents.specs.Documents.{IsAnswer, IsAnswered, verdict_on};
ghost use Rattle.jskw_documents.specs.Devices.{is_memory_fault, is_read_fault, is_write_fault};
ghost use Rattle.jskw_documents.specs.Shown.{lost_text};
ghost use Rattle.jskw_documents.specs.Streams.{AnswersBegun, AnswersLines, AnswersNext, AreAnswers};
ghost use Rattle.jskw_documents.specs.Streams.{Ends, IsFirstLine, IsKept, Moves, Takes, Told, is_in_line};
ghost use Rattle.jskw_documents.specs.Streams.{last_line_of};

use crate::answer::{Answer, worse_of};
use crate::fault::CheckFault;
use crate::line_reader::LineReader;
use crate::lost::write_lost;
use crate::stream::Stream;
use crate::watcher::{Counts, Watcher};
use jskw_service::{Sink, Source, Verdict, write_all};
use std::mem;

// The number of bytes that one read can return at most.
const BLOCK: usize = 65536;

// The number of bytes in which a line feed is looked for at once.
const STRIDE: usize = 32;

// What is known of a stream.
#[derive(Drop)]
pub(crate) struct Lines {
    // The number of the line that is begun, from 1 on.
    pub(crate) next: usize,
    // The bytes of the line that is begun, or `None` if memory ran out for them.
    pub(crate) begun: Option<Vec<u8>>,
    // The worst verdict on the lines before it.
    pub(crate) verdict: Verdict,
    // What reads lines.
    pub(crate) reader: LineReader,
    // The counts so far.
    pub(crate) counts: Counts,
}

/// Reads a stream to its end, writes the answer to each line and nothing else, and returns the worst
/// verdict. The last line needs no line feed, and an empty line is not JSON. If memory runs out for a
/// line or for its answer, that line is refused, and the next one is read. Neither device may have
/// failed before the call.
///
/// The answers to the lines that end in a block of the reader are written before the next block is
/// read, and the counts are shown to the watcher. Memory is kept for one line, besides the block, its
/// answers, what the line takes while it is checked, and 4 MB for trees of lines that follow.
///
/// # Errors
///
/// Fails if a device does, or if the reader gave 2^64 blocks or lines. If the reader failed, the
/// answers to all lines that were read to their end are written.
pub fn check_lines<R: Source, W: Sink, V: Watcher>(
    stream: &Stream<'_, '_>,
    reader: &mut R,
    writer: &mut W,
    watcher: &mut V,
) -> Result<Verdict, CheckFault>
    requires reader_works { R.has_failed reader.old ≡ false }
    requires writer_works { W.has_failed writer.old ≡ false }
    ensures answers { IfOk result (λ said. AnswersLines stream.now.checker.now stream.now.file.now said
        (R.remaining reader.old) (R.remaining reader.new) (W.contents writer.old) (W.contents writer.new)) }
    ensures works { OnOk result (R.has_failed reader.new ≡ false) }
    ensures failed { W.has_failed writer.new ≡ is_write_fault result }
    ensures read_failed { IsErrOf result CheckFault.Read → R.has_failed reader.new ≡ true }
    ensures begun { IsErrOf result CheckFault.Read → AnswersBegun stream.now.checker.now stream.now.file.now
        (R.remaining reader.old) (R.remaining reader.new) (W.contents writer.old) (W.contents writer.new) }
    ensures memory { is_memory_fault result ≡ false }
{
    let mut lines = Lines {
        next: 1,
        begun: Some(Vec::new(stream.alloc)),
        verdict: Verdict::Valid,
        reader: LineReader::new(stream.alloc),
        counts: Counts::new(),
    };
    let mut block = [0u8; BLOCK];
    'reads: for _ in 0..u64::MAX {
        if !take_next(stream, &mut lines, &mut block, reader, writer, watcher)? {
            return take_last(stream, &mut lines, writer, watcher);
        }
    }
    Err(CheckFault::TooLong)
}

// Reads a block, writes the answers to the lines that end in it, and returns whether there was one.
fn take_next<R: Source, W: Sink, V: Watcher>(
    stream: &Stream<'_, '_>,
    lines: &mut Lines,
    block: &mut [u8],
    reader: &mut R,
    writer: &mut W,
    watcher: &mut V,
) -> Result<bool, CheckFault>
    requires room { 0 < length block.old }
    requires reader_works { R.has_failed reader.old ≡ false }
    requires writer_works { W.has_failed writer.old ≡ false }
    ensures moves { OnOk result ((line : List ℕ) → IsKept lines.old.begun line
        → Moves stream.now.checker.now stream.now.file.now line lines.old lines.new
        (R.remaining reader.old) (R.remaining reader.new) (W.contents writer.old) (W.contents writer.new)) }
    ensures end { IfOk result (λ more. more ≡ false → IsAtEnd (R.remaining reader.new)) }
    ensures works { OnOk result (R.has_failed reader.new ≡ false) }
    ensures failed { W.has_failed writer.new ≡ is_write_fault result }
    ensures read_failed { IsErrOf result CheckFault.Read → R.has_failed reader.new ≡ true }
    ensures unread { IsErrOf result CheckFault.Read → (line : List ℕ) → IsKept lines.old.begun line
        → Moves stream.now.checker.now stream.now.file.now line lines.old lines.old
        (R.remaining reader.old) (R.remaining reader.new) (W.contents writer.old) (W.contents writer.new) }
    ensures memory { is_memory_fault result ≡ false }
{
    let Ok(count) = reader.read(block) else {
        return Err(CheckFault::Read);
    };
    take_block(stream, lines, &block[..count], writer)?;
    watcher.saw(lines.counts);
    Ok(count > 0)
}

// Takes a block, and writes the answers to the lines that end in it.
fn take_block<W: Sink>(
    stream: &Stream<'_, '_>,
    lines: &mut Lines,
    block: &[u8],
    writer: &mut W,
) -> Result<(), CheckFault>
    requires { W.has_failed writer.old ≡ false }
    ensures takes { OnOk result ((line : List ℕ) → IsKept lines.old.begun line → (text : List ℕ)
        × Takes stream.now.checker.now stream.now.file.now line lines.old block.now text lines.new
        × Appends (W.contents writer.old) (W.contents writer.new) text) }
    ensures failed { W.has_failed writer.new ≡ is_write_fault result }
    ensures no_read { is_read_fault result ≡ false }
    ensures memory { is_memory_fault result ≡ false }
{
    let mut text = Vec::new(stream.alloc);
    let mut rest = block;
    'ends: while let Some((line, behind)) = first_line(rest) {
        end_line(stream, lines, line, &mut text, writer)?;
        rest = behind;
    }
    lines.begun = joined(lines.begun.take(), rest);
    let Ok(()) = write_all(writer, &text) else {
        return Err(CheckFault::Write);
    };
    Ok(())
}

// Returns the bytes before the first line feed, and those behind it.
fn first_line(bytes: &[u8]) -> Option<(&[u8], &[u8])>
    ensures { MatchOption result (is_in_line bytes.now ≡ true)
        (λ p. IsFirstLine bytes.now p.0.now p.1.now) }
{
    match line_feed_in(bytes) {
        Some(at) => Some((&bytes[..at], &bytes[at + 1..])),
        None => None,
    }
}

// Returns the offset of the first line feed.
fn line_feed_in(bytes: &[u8]) -> Option<usize>
    ensures { Ends bytes.now result }
{
    'bytes: for at in blocks_without(bytes)..bytes.len() {
        if bytes[at] == b'\n' {
            return Some(at);
        }
    }
    None
}

// Returns how many bytes there are in the first blocks without a line feed.
fn blocks_without(bytes: &[u8]) -> usize
    ensures within { result ≤ length bytes.now }
    ensures inside { is_in_line (take result bytes.now) ≡ true }
{
    let mut at = 0;
    'strides: while at < bytes.len() - bytes.len() % STRIDE {
        if has_line_feed(&bytes[at..at + STRIDE]) {
            return at;
        }
        at += STRIDE;
    }
    at
}

// Returns whether a byte is a line feed. It looks at each byte, so that the compiler can look at
// several at once.
fn has_line_feed(block: &[u8]) -> bool
    ensures { result ≡ false → is_in_line block.now ≡ true }
{
    let mut found = false;
    for &byte in block {
        if byte == b'\n' {
            found = true;
        }
    }
    found
}

// Returns whether a line has bytes of which this is kept.
fn is_begun(begun: &Option<Vec<u8>>) -> bool
    ensures some { (line : List ℕ) → IsKept begun.now line → result ≡ true → 0 < length line }
    ensures none { (line : List ℕ) → IsKept begun.now line → result ≡ false → line ≡ [] }
{
    match begun {
        Some(kept) => !kept.is_empty(),
        None => true,
    }
}

// Returns what is kept of a line behind these bytes of it, or `None` if memory runs out.
fn joined(begun: Option<Vec<u8>>, bytes: &[u8]) -> Option<Vec<u8>>
    ensures { (line : List ℕ) → IsKept begun line → IsKept result (line ++ bytes.now) }
{
    if bytes.is_empty() {
        return begun;
    }
    let mut begun = begun?;
    match begun.extend_from_slice(bytes) {
        Ok(()) => Some(begun),
        Err(_) => None,
    }
}

// Answers the line that these bytes and a line feed end, behind what is begun of it.
fn end_line<W: Sink>(
    stream: &Stream<'_, '_>,
    lines: &mut Lines,
    bytes: &[u8],
    text: &mut Vec<u8>,
    writer: &mut W,
) -> Result<(), CheckFault>
    requires inside { is_in_line bytes.now ≡ true }
    requires works { W.has_failed writer.old ≡ false }
    ensures takes { OnOk result ((line : List ℕ) → IsKept lines.old.begun line → (answer : List ℕ)
        × Takes stream.now.checker.now stream.now.file.now line lines.old (bytes.now ++ 10 ∷ []) answer lines.new
        × Told (W.contents writer.old) text.old.items (W.contents writer.new) text.new.items answer) }
    ensures failed { W.has_failed writer.new ≡ is_write_fault result }
    ensures no_read { is_read_fault result ≡ false }
    ensures memory { is_memory_fault result ≡ false }
{
    if !is_begun(&lines.begun) {
        return answer_line(stream, lines, Some(bytes), text, writer);
    }
    let begun = mem::replace(&mut lines.begun, Some(Vec::new(stream.alloc)));
    match joined(begun, bytes) {
        Some(line) => answer_line(stream, lines, Some(&line), text, writer),
        None => answer_line(stream, lines, None, text, writer),
    }
}

// Answers a line, or refuses it if memory runs out, or if it has for the line itself.
fn answer_line<W: Sink>(
    stream: &Stream<'_, '_>,
    lines: &mut Lines,
    line: Option<&[u8]>,
    text: &mut Vec<u8>,
    writer: &mut W,
) -> Result<(), CheckFault>
    requires { W.has_failed writer.old ≡ false }
    ensures answer { OnOk result ((document : List ℕ) → IfSome line.entry (λ l. l.now ≡ document) → AnswersNext
        stream.now.checker.now stream.now.file.now document lines.old lines.new
        (W.contents writer.old) text.old.items (W.contents writer.new) text.new.items) }
    ensures begun { lines.new.begun ≡ lines.old.begun }
    ensures failed { W.has_failed writer.new ≡ is_write_fault result }
    ensures no_read { is_read_fault result ≡ false }
    ensures memory { is_memory_fault result ≡ false }
{
    let Some(next) = lines.next.checked_add(1) else {
        return Err(CheckFault::TooLong);
    };
    let (said, errors) = said_of(stream, lines.next, line, &mut lines.reader, text, writer)?;
    lines.next = next;
    lines.counts = lines.counts.plus(Counts {
        documents: 1,
        bytes: line.map_or(0, <[u8]>::len),
        errors,
    });
    lines.verdict = worse_of(lines.verdict, said);
    Ok(())
}

// Appends the answer to a line, or refuses it, and returns the verdict and the number of errors.
fn said_of<W: Sink>(
    stream: &Stream<'_, '_>,
    number: usize,
    line: Option<&[u8]>,
    reader: &mut LineReader,
    text: &mut Vec<u8>,
    writer: &mut W,
) -> Result<(Verdict, usize), CheckFault>
    requires { W.has_failed writer.old ≡ false }
    ensures answer { IfOk result (λ said. (document : List ℕ) → IfSome line.entry (λ l. l.now ≡ document)
        → (answer : List ℕ) × IsAnswered stream.now.checker.now stream.now.file.now (Some number) document answer said.0
        × Told (W.contents writer.old) text.old.items (W.contents writer.new) text.new.items answer) }
    ensures failed { W.has_failed writer.new ≡ is_write_fault result }
    ensures no_read { is_read_fault result ≡ false }
    ensures memory { is_memory_fault result ≡ false }
{
    match pushed_answer(stream, number, line, reader, text) {
        Some(answer) => Ok((answer.verdict, answer.errors)),
        None => {
            *reader = LineReader::new(stream.alloc);
            refuse(stream, number, text, writer)?;
            Ok((Verdict::Refused, 0))
        }
    }
}

// Appends the answer to a line, and returns it, or `None` if memory runs out, or if there is no line.
fn pushed_answer(
    stream: &Stream<'_, '_>,
    number: usize,
    line: Option<&[u8]>,
    reader: &mut LineReader,
    text: &mut Vec<u8>,
) -> Option<Answer>
    ensures { MatchOption result (text.new.items ≡ text.old.items)
        (λ answer. (document : List ℕ) → IfSome line.entry (λ l. l.now ≡ document)
        → IsAnswer stream.now.checker.now stream.now.file.now (Some number) document answer.text.items
        × (text.new.items ≡ text.old.items ++ answer.text.items)
        × (answer.verdict ≡ verdict_on stream.now.checker.now.schema document)) }
{
    let line = line?;
    let Ok(answer) = reader.answer(stream, number, line) else {
        return None;
    };
    match text.extend_from_slice(&answer.text) {
        Ok(()) => Some(answer),
        Err(_) => None,
    }
}

// Writes what is ready, and then that memory ran out for a line. It takes no memory.
fn refuse<W: Sink>(
    stream: &Stream<'_, '_>,
    number: usize,
    text: &mut Vec<u8>,
    writer: &mut W,
) -> Result<(), CheckFault>
    requires { W.has_failed writer.old ≡ false }
    ensures told { OnOk result (Told (W.contents writer.old) text.old.items (W.contents writer.new)
        text.new.items (lost_text stream.now.checker.now.options.output stream.now.file.now (Some number))) }
    ensures failed { W.has_failed writer.new ≡ is_write_fault result }
    ensures no_read { is_read_fault result ≡ false }
    ensures memory { is_memory_fault result ≡ false }
{
    let ready = mem::replace(text, Vec::new(stream.alloc));
    let Ok(()) = write_all(writer, &ready) else {
        return Err(CheckFault::Write);
    };
    match write_lost(stream, Some(number), writer) {
        Ok(()) => Ok(()),
        Err(_) => Err(CheckFault::Write),
    }
}

// Writes the answer to a last line without a line feed, if there is one, and returns the worst
// verdict.
fn take_last<W: Sink, V: Watcher>(
    stream: &Stream<'_, '_>,
    lines: &mut Lines,
    writer: &mut W,
    watcher: &mut V,
) -> Result<Verdict, CheckFault>
    requires { W.has_failed writer.old ≡ false }
    ensures answer { IfOk result (λ said. (line : List ℕ) → IsKept lines.old.begun line → (text : List ℕ)
        × AreAnswers stream.now.checker.now stream.now.file.now lines.old.next (last_line_of line) text
        lines.old.verdict said × Appends (W.contents writer.old) (W.contents writer.new) text) }
    ensures failed { W.has_failed writer.new ≡ is_write_fault result }
    ensures no_read { is_read_fault result ≡ false }
    ensures memory { is_memory_fault result ≡ false }
{
    if !is_begun(&lines.begun) {
        return Ok(lines.verdict);
    }
    // as if a line feed ended it
    take_block(stream, lines, b"\n", writer)?;
    watcher.saw(lines.counts);
    Ok(lines.verdict)
}
