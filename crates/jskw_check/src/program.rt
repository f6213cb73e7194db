//! What the program does, over any files, outputs and watcher.
ghost use Rattle.std.specs.Prelude.{◌≡◌, ℕ, List, false, true, map, string_bytes, IfOk, IsErrOf, OnErr};
ghost use Rattle.std.specs.Io.KnownBytes.{Appends};
ghost use Rattle.jskw_service.specs.Run.{status_of_verdict};
ghost use Rattle.jskw_service.specs.declared.service.Verdict.{Verdict};
ghost use Rattle.jskw_documents.specs.Files.{AnswersFiles, HasBytes};
ghost use Rattle.jskw_check.specs.CommandView.{given_view};
ghost use Rattle.jskw_check.specs.Commands.{check, command};
ghost use Rattle.jskw_check.specs.Program.{Runs, Tells, asks_for_lines, is_length_trouble, is_output_trouble};
ghost use Rattle.jskw_check.specs.Program.{schema_unread, usage_error};

use crate::arguments::command_of;
use crate::given::{Command, Given};
use crate::trouble::Trouble;
use crate::usage::{HELP, USAGE, VERSION};
use jskw_documents::{
    CheckFault, Checker, FileSource, Folder, Output, Place, Watcher, check_files, push_shown,
    refusal, schema_of,
};
use jskw_service::{Sink, SourceFault, push_bytes, read_all, status, write_all};
use std::alloc::{AllocError, Global};

// The status if something could not be checked.
pub(crate) const NOT_CHECKED: u8 = 2;

// What shows progress, if it is asked to.
pub(crate) trait Show: Watcher {
    // Notes that progress is wanted.
    fn ask(&mut self);
}

// Does what the words ask for, and returns the exit status. Neither output may have failed before the
// call. What cannot be written to `errors` is left out. Memory runs out only before anything is written
// to `out`.
pub(crate) fn run<F: Folder, O: Sink, E: Sink, S: Show>(
    alloc: Global,
    words: &[String],
    folder: &F,
    out: &mut O,
    errors: &mut E,
    show: &mut S,
) -> Result<u8, Trouble>
    requires out_works { O.has_failed out.old ≡ false }
    requires errors_work { E.has_failed errors.old ≡ false }
    ensures runs { IfOk result (λ status. Runs (F.bytes_of folder.now) (command (map string_bytes words.now)) status
        (O.contents out.old) (O.contents out.new) (E.has_failed errors.new)
        (E.contents errors.old) (E.contents errors.new)) }
    ensures failed { O.has_failed out.new ≡ is_output_trouble result }
    ensures unwritten { IsErrOf result Trouble.Memory → out.new ≡ out.old }
    ensures short { asks_for_lines (command (map string_bytes words.now)) ≡ false → is_length_trouble result ≡ false }
{
    match command_of(alloc, words)? {
        Command::Help => print(out, HELP),
        Command::Version => print(out, VERSION),
        Command::Wrong(why) => {
            let text = usage_error(alloc, why.as_str())?;
            Ok(tell(errors, &text))
        }
        Command::Check(given) => check(alloc, given, folder, out, errors, show),
    }
}

// Returns what is said of wrong arguments.
fn usage_error(alloc: Global, why: &str) -> Result<Vec<u8>, AllocError>
    ensures { IfOk result (λ text. text.items ≡ usage_error why.now) }
{
    let mut text = Vec::new(alloc);
    push_bytes(&mut text, USAGE.as_bytes())?;
    push_bytes(&mut text, b"jskw check: error: ")?;
    push_shown(&mut text, why.as_bytes())?;
    push_bytes(&mut text, b"\n")?;
    Ok(text)
}

// Returns what is said of a schema whose file cannot be read.
fn schema_unread(alloc: Global, file: &str, why: &str) -> Result<Vec<u8>, AllocError>
    ensures { IfOk result (λ text. text.items ≡ schema_unread file.now why.now) }
{
    let place = Place {
        file,
        line: None,
        column: None,
    };
    refusal(alloc, Output::Text, &place, Some("the schema"), why)
}

// Prints a text.
fn print<O: Sink>(out: &mut O, text: &str) -> Result<u8, Trouble>
    requires { O.has_failed out.old ≡ false }
    ensures prints { IfOk result (λ status. (status ≡ 0)
        × Appends (O.contents out.old) (O.contents out.new) text.now) }
    ensures failed { O.has_failed out.new ≡ is_output_trouble result }
    ensures unwritten { IsErrOf result Trouble.Memory → out.new ≡ out.old }
    ensures short { is_length_trouble result ≡ false }
{
    match write_all(out, text.as_bytes()) {
        Ok(()) => Ok(0),
        Err(_) => Err(Trouble::Output),
    }
}

// Writes a text, if that is possible, and returns the status that something could not be checked.
fn tell<E: Sink>(errors: &mut E, text: &[u8]) -> u8
    requires { E.has_failed errors.old ≡ false }
    ensures status { result ≡ 2 }
    ensures tells { Tells (E.has_failed errors.new) (E.contents errors.old) (E.contents errors.new) text.now }
{
    let _ = write_all(errors, text);
    NOT_CHECKED
}

// Checks the files, if there is a schema.
fn check<F: Folder, O: Sink, E: Sink, S: Show>(
    alloc: Global,
    given: Given,
    folder: &F,
    out: &mut O,
    errors: &mut E,
    show: &mut S,
) -> Result<u8, Trouble>
    requires out_works { O.has_failed out.old ≡ false }
    requires errors_work { E.has_failed errors.old ≡ false }
    ensures runs { IfOk result (λ status. Runs (F.bytes_of folder.now) (check (given_view given)) status
        (O.contents out.old) (O.contents out.new) (E.has_failed errors.new)
        (E.contents errors.old) (E.contents errors.new)) }
    ensures failed { O.has_failed out.new ≡ is_output_trouble result }
    ensures unwritten { IsErrOf result Trouble.Memory → out.new ≡ out.old }
    ensures short { given.lines ≡ false → is_length_trouble result ≡ false }
{
    let Given {
        schema: name,
        schema_options,
        options,
        lines,
        progress,
        files,
    } = given;
    let text = match read_schema(alloc, folder, name.as_str())? {
        Ok(text) => text,
        Err(why) => {
            let text = schema_unread(alloc, name.as_str(), why)?;
            return Ok(tell(errors, &text));
        }
    };
    match schema_of(alloc, name.as_str(), &text, schema_options)? {
        Ok(schema) => {
            ask_if(show, progress);
            let checker = Checker { schema, options };
            check_under(alloc, &checker, lines, folder, files.as_slice(), out, show)
        }
        Err(why) => Ok(tell(errors, &why)),
    }
}

// Asks for progress, if it is wanted.
fn ask_if<S: Show>(show: &mut S, is_wanted: bool) {
    if is_wanted {
        show.ask();
    }
}

// Reads the file of the schema to its end, or returns why it cannot be read.
fn read_schema<F: Folder>(
    alloc: Global,
    folder: &F,
    name: &str,
) -> Result<Result<Vec<u8>, &'static str>, Trouble>
    ensures reads { IfOk result (λ read. IfOk read
        (λ text. HasBytes (F.bytes_of folder.now name.now) text.items)) }
    ensures no_output { is_output_trouble result ≡ false }
    ensures short { is_length_trouble result ≡ false }
{
    match folder.open(name) {
        Ok(file) => {
            let mut reader = file.reader;
            read_whole(alloc, &mut reader)
        }
        Err(why) => Ok(Err(why)),
    }
}

// Reads a reader to its end, or returns that it cannot be read.
fn read_whole<R: FileSource>(
    alloc: Global,
    reader: &mut R,
) -> Result<Result<Vec<u8>, &'static str>, Trouble>
    requires { R.has_failed reader.old ≡ false }
    ensures reads { IfOk result (λ read. IfOk read (λ text. HasBytes (R.remaining reader.old) text.items)) }
    ensures unread { IfOk result (λ read. OnErr read (R.has_failed reader.new ≡ true)) }
    ensures no_output { is_output_trouble result ≡ false }
    ensures short { is_length_trouble result ≡ false }
{
    match read_all(alloc, reader) {
        Ok(text) => Ok(Ok(text)),
        Err(SourceFault::Device) => Ok(Err(reader.why_failed())),
        Err(SourceFault::Memory) => Err(Trouble::Memory),
    }
}

// Checks the files against a schema.
fn check_under<F: Folder, O: Sink, V: Watcher>(
    alloc: Global,
    checker: &Checker,
    lines: bool,
    folder: &F,
    files: &[String],
    out: &mut O,
    watcher: &mut V,
) -> Result<u8, Trouble>
    requires { O.has_failed out.old ≡ false }
    ensures checks { IfOk result (λ status. (said : Verdict) × (text : List ℕ)
        × AnswersFiles checker.now lines (F.bytes_of folder.now) (map string_bytes files.now) said text
        × Appends (O.contents out.old) (O.contents out.new) text × (status ≡ status_of_verdict said)) }
    ensures failed { O.has_failed out.new ≡ is_output_trouble result }
    ensures unwritten { IsErrOf result Trouble.Memory → out.new ≡ out.old }
    ensures short { lines ≡ false → is_length_trouble result ≡ false }
{
    match check_files(alloc, checker, lines, folder, files, out, watcher) {
        Ok(said) => Ok(status(&Ok(said))),
        Err(CheckFault::Memory) => Err(Trouble::Memory),
        Err(CheckFault::TooLong) => Err(Trouble::TooLong),
        Err(CheckFault::Read | CheckFault::Write) => Err(Trouble::Output),
    }
}
