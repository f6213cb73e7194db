//! Reads the arguments.
ghost use Rattle.std.specs.Prelude.{◌≡◌, ◌<◌, ◌++◌, [], ◌∷◌, IfOk, MatchOption, MatchResult, Ok, Err, OnOk, length};
ghost use Rattle.std.specs.Prelude.{map, option_map, string_bytes};
ghost use Rattle.jskw_report.specs.Setting.{no_vocabulary};
ghost use Rattle.jskw_service.specs.Request.{draft_named};
ghost use Rattle.jskw_check.specs.Arguments.{Argument, alone, draft, is_value, limit_in, max_errors, name_in};
ghost use Rattle.jskw_check.specs.Arguments.{names_of, next_value, no_draft, no_limit, no_output, option_in, output};
ghost use Rattle.jskw_check.specs.Arguments.{output_named, some_or, takes_next, takes_value, value_in, valued};
ghost use Rattle.jskw_check.specs.Arguments.{vocabularies_or, with_names, wrong};
ghost use Rattle.jskw_check.specs.CommandView.{TakesWords, TakesArgument, command_view, unfinished_view};
ghost use Rattle.jskw_check.specs.Commands.{command, command_said, or_input};

use crate::given::{Command, Given, Unfinished};
use jskw_documents::Output;
use jskw_report::VocabularySet;
use jskw_service::{draft_named, vocabulary_named};
use std::alloc::{AllocError, Global};

// What was done with the first words.
#[derive(Drop)]
pub(crate) enum Step {
    // So many were taken.
    Taken(usize),
    // Nothing behind them counts.
    End(Command),
}

// The command that an argument is by itself, if it is one: nothing behind it counts.
type Ending = Result<Option<Command>, AllocError>;

// Returns what the arguments ask for.
pub(crate) fn command_of(alloc: Global, words: &[String]) -> Result<Command, AllocError>
    ensures { IfOk result (λ c. command_view c ≡ command (map string_bytes words.now)) }
{
    let mut said = Unfinished::new(alloc);
    let mut rest = words;
    'words: while !rest.is_empty() {
        match take_words(alloc, &mut said, rest)? {
            Step::Taken(count) => rest = rest.split_at(count).1,
            Step::End(command) => return Ok(command),
        }
    }
    command_from(alloc, said)
}

// Returns what arguments that were read to their end ask for. Without a file it is standard input.
fn command_from(alloc: Global, said: Unfinished) -> Result<Command, AllocError>
    ensures { IfOk result (λ c. command_view c ≡ command_said (unfinished_view said)) }
{
    let Unfinished {
        schema,
        schema_options,
        options,
        lines,
        progress,
        files,
    } = said;
    let Some(schema) = schema else {
        let why = "the following arguments are required: --schema";
        return Ok(Command::Wrong(String::from_str(alloc, why)?));
    };
    let files = or_input(alloc, files)?;
    Ok(Command::Check(Given {
        schema,
        schema_options,
        options,
        lines,
        progress,
        files,
    }))
}

// Returns the files, or standard input if there is none.
fn or_input(alloc: Global, mut files: Vec<String>) -> Result<Vec<String>, AllocError>
    ensures { IfOk result (λ all. map string_bytes all.items ≡ or_input (map string_bytes files.items)) }
{
    if files.is_empty() {
        files.push(String::from_str(alloc, "-")?)?;
    }
    Ok(files)
}

// Takes the first argument of these words, which is one of them or two. Behind `--` each is a file.
fn take_words(alloc: Global, said: &mut Unfinished, words: &[String]) -> Result<Step, AllocError>
    requires { 0 < length words.now }
    ensures { IfOk result (λ step. TakesWords words.now said.old said.new step) }
{
    let word = words[0].as_str();
    if word == "--" {
        push_all(alloc, &mut said.files, &words[1..])?;
        return Ok(Step::Taken(words.len()));
    }
    match value_behind(words) {
        Some(value) => Ok(step_of(set(alloc, said, word, value)?, 2)),
        None => Ok(step_of(take_alone(alloc, said, word)?, 1)),
    }
}

// Returns the step of an argument that has so many words.
fn step_of(taken: Option<Command>, count: usize) -> Step
    ensures { MatchOption taken (result ≡ Step.Taken count) (λ command. result ≡ Step.End command) }
{
    match taken {
        Some(command) => Step::End(command),
        None => Step::Taken(count),
    }
}

// Appends copies of the words.
fn push_all(alloc: Global, files: &mut Vec<String>, words: &[String]) -> Result<(), AllocError>
    ensures { OnOk result (map string_bytes files.new.items
        ≡ map string_bytes files.old.items ++ map string_bytes words.now) }
{
    for word in words {
        files.push(String::from_str(alloc, word.as_str())?)?;
    }
    Ok(())
}

// Returns the second word, if it is the value of the option that the first word is.
fn value_behind(words: &[String]) -> Option<&str>
    ensures { option_map (λ v. v.now) result ≡ next_value (map string_bytes words.now) }
{
    let [word, value, ..] = words else {
        return None;
    };
    value_of(word.as_str(), value.as_str())
}

// Returns the word `next`, if it is the value of the option that `word` is.
fn value_of<'w>(word: &str, next: &'w str) -> Option<&'w str>
    ensures { option_map (λ v. v.now) result ≡ next_value (word.now ∷ next.now ∷ []) }
{
    if takes_next(word) && is_value(next) {
        Some(next)
    } else {
        None
    }
}

// Returns whether a word can be a file or the value of an option.
fn is_value(word: &str) -> bool
    ensures { result ≡ is_value word.now }
{
    word == "-" || !word.starts_with('-')
}

// Returns whether the word is an option that has its value in the next word.
fn takes_next(word: &str) -> bool
    ensures { result ≡ takes_next word.now }
{
    let (name, value) = split_option(word);
    takes_value(name) && value.is_none()
}

// Splits the option NAME=VALUE.
fn split_option(word: &str) -> (&str, Option<&str>)
    ensures name { result.0.now ≡ name_in word.now }
    ensures value { option_map (λ v. v.now) result.1 ≡ value_in word.now }
{
    match word.split_once('=') {
        Some((name, value)) => (name, Some(value)),
        None => (word, None),
    }
}

// Returns whether this is an option with a value.
fn takes_value(name: &str) -> bool
    ensures { result ≡ takes_value name.now }
{
    match name {
        "--schema" | "--draft" | "--vocabularies" | "--override" | "--output" | "--max-errors" => {
            true
        }
        _ => false,
    }
}

// Takes the argument that a word is by itself.
fn take_alone(alloc: Global, said: &mut Unfinished, word: &str) -> Ending
    ensures { TakesArgument (alone word.now) said.old said.new result }
{
    if is_value(word) {
        said.files.push(String::from_str(alloc, word)?)?;
        return Ok(None);
    }
    match word {
        "-h" | "--help" => return Ok(Some(Command::Help)),
        "--version" => return Ok(Some(Command::Version)),
        "--lines" => said.lines = true,
        "--progress" => said.progress = true,
        "--verbose" => said.options.verbose = true,
        "--allow-unchecked" => said.schema_options.allow_unchecked = true,
        _ => return take_option(alloc, said, word),
    }
    Ok(None)
}

// Takes the option NAME=VALUE.
fn take_option(alloc: Global, said: &mut Unfinished, word: &str) -> Ending
    ensures { TakesArgument (option_in word.now) said.old said.new result }
{
    let (name, value) = split_option(word);
    if !takes_value(name) {
        return wrong(format!(in alloc; "unrecognized arguments: {word}")?);
    }
    match value {
        Some(value) => set(alloc, said, name, value),
        None => wrong(format!(in alloc; "argument {word}: expected one argument")?),
    }
}

// Takes an argument that is wrong, for this reason.
fn wrong(why: String) -> Ending
    ensures { (x : Argument) (said : Unfinished) → x ≡ wrong (string_bytes why) → TakesArgument x said said result }
{
    Ok(Some(Command::Wrong(why)))
}

// Sets the value of an option.
fn set(alloc: Global, said: &mut Unfinished, name: &str, value: &str) -> Ending
    ensures { TakesArgument (valued name.now value.now) said.old said.new result }
{
    match name {
        "--schema" => {
            said.schema = Some(String::from_str(alloc, value)?);
            Ok(None)
        }
        "--override" => {
            let names = &mut said.schema_options.overridden;
            names.push(String::from_str(alloc, value)?)?;
            Ok(None)
        }
        "--draft" => set_draft(alloc, said, value),
        "--vocabularies" => set_vocabularies(alloc, said, value),
        "--output" => set_output(alloc, said, value),
        _ => set_limit(alloc, said, value),
    }
}

fn set_draft(alloc: Global, said: &mut Unfinished, value: &str) -> Ending
    ensures { TakesArgument (some_or draft (no_draft value.now) (draft_named value.now)) said.old said.new
        result }
{
    let Some(draft) = draft_named(value) else {
        return wrong(format!(in alloc;
            "argument --draft: invalid choice: '{value}' (choose from '4', '6', '7', '2019-09', '2020-12')"
        )?);
    };
    said.schema_options.draft = Some(draft);
    Ok(None)
}

// Sets the vocabularies that a list names, with a comma between two.
fn set_vocabularies(alloc: Global, said: &mut Unfinished, value: &str) -> Ending
    ensures { TakesArgument (vocabularies_or (with_names no_vocabulary (names_of value.now))) said.old said.new
        result }
{
    match vocabularies_in(value) {
        Ok(vocabularies) => {
            said.schema_options.vocabularies = vocabularies;
            Ok(None)
        }
        Err(name) => wrong(format!(in alloc;
            "argument --vocabularies: '{name}' is not one of 'core', 'applicator', 'validation'"
        )?),
    }
}

// Returns the vocabularies that a list names, or the first name of it that is none.
fn vocabularies_in(list: &str) -> Result<VocabularySet, &str>
    ensures { MatchResult result
        (λ set. with_names no_vocabulary (names_of list.now) ≡ Ok set)
        (λ name. with_names no_vocabulary (names_of list.now) ≡ Err name.now) }
{
    let mut vocabularies = VocabularySet::empty();
    if list.is_empty() {
        return Ok(vocabularies);
    }
    let mut rest = list;
    'names: while let Some((name, behind)) = rest.split_once(',') {
        let Some(vocabulary) = vocabulary_named(name) else {
            return Err(name);
        };
        vocabularies = vocabularies.insert(vocabulary);
        rest = behind;
    }
    match vocabulary_named(rest) {
        Some(vocabulary) => Ok(vocabularies.insert(vocabulary)),
        None => Err(rest),
    }
}

fn set_output(alloc: Global, said: &mut Unfinished, value: &str) -> Ending
    ensures { TakesArgument (some_or output (no_output value.now) (output_named value.now)) said.old said.new
        result }
{
    let Some(output) = output_named(value) else {
        return wrong(format!(in alloc;
            "argument --output: invalid choice: '{value}' (choose from 'text', 'basic', 'quiet')"
        )?);
    };
    said.options.output = output;
    Ok(None)
}

// Returns the output of this name, or `None` if there is none.
fn output_named(name: &str) -> Option<Output>
    ensures { result ≡ output_named name.now }
{
    match name {
        "text" => Some(Output::Text),
        "basic" => Some(Output::Basic),
        "quiet" => Some(Output::Quiet),
        _ => None,
    }
}

fn set_limit(alloc: Global, said: &mut Unfinished, value: &str) -> Ending
    ensures { TakesArgument (some_or max_errors (no_limit value.now) (limit_in value.now)) said.old said.new
        result }
{
    let Some(limit) = limit_in(value) else {
        return wrong(format!(in alloc;
            "argument --max-errors: '{value}' is no number from 0 to 2^64-1"
        )?);
    };
    said.options.limit = limit;
    Ok(None)
}

// Returns the number that a text of digits is, or `None` if it is above 2^64-1.
fn limit_in(text: &str) -> Option<usize>
    ensures { result ≡ limit_in text.now }
{
    if text.starts_with('+') {
        return None;
    }
    match text.parse::<usize>() {
        Ok(limit) => Some(limit),
        Err(_) => None,
    }
}
