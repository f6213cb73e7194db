//! Checks JSON documents against a schema: files, and the lines of streams. `--help` lists the
//! options.
#![tactic(auto)]

mod arguments;
mod given;
mod host;
mod program;
mod progress;
mod trouble;
mod usage;

use host::{HostFolder, Output};
use jskw_service::StdSink;
use program::{NOT_CHECKED, run};
use progress::Progress;
use std::alloc::{AllocError, Global};
use std::env::{self, Args};
use std::io::ErrorKind;
use std::process::ExitCode;
use trouble::Trouble;

fn main(rt: HostRuntime) -> ExitCode {
    let status = match run_on(&rt) {
        Ok(status) => status,
        Err(trouble) => tell(&rt, trouble.words()),
    };
    ExitCode::from(status)
}

// Writes why nothing is checked any more, and returns the status that something could not be checked.
fn tell(rt: &HostRuntime, why: &str) -> u8 {
    let _ = rt.eprintln(why);
    NOT_CHECKED
}

// The status of a program whose output nobody reads any more, as a shell gives it: 128 and SIGPIPE.
const CLOSED: u8 = 141;

// Does what the arguments say, on the system's files and outputs, and returns the exit status.
fn run_on(rt: &HostRuntime) -> Result<u8, Trouble> {
    let Some(words) = words_of(rt)? else {
        return Ok(tell(rt, "jskw: an argument is not UTF-8"));
    };
    let folder = HostFolder { rt };
    let mut out = StdSink::new(Output {
        rt,
        is_closed: false,
    });
    let mut errors = StdSink::new(rt.stderr());
    let mut progress = Progress::new(rt);
    let status = run(
        rt.alloc(),
        words.as_slice(),
        &folder,
        &mut out,
        &mut errors,
        &mut progress,
    );
    if out.into_inner().is_closed {
        return Ok(CLOSED);
    }
    let status = status?;
    progress.end();
    Ok(status)
}

// Returns the arguments without the first, which names the program, or `None` if one is not UTF-8.
fn words_of(rt: &HostRuntime) -> Result<Option<Vec<String>>, Trouble> {
    match env::args(rt) {
        Ok(arguments) => Ok(Some(behind_first(rt.alloc(), arguments)?)),
        Err(error) if error.kind() == ErrorKind::OutOfMemory => Err(Trouble::Memory),
        Err(_) => Ok(None),
    }
}

// Returns the arguments without the first.
fn behind_first(alloc: Global, arguments: Args) -> Result<Vec<String>, AllocError> {
    let mut words = Vec::new(alloc);
    let mut is_behind = false;
    for argument in arguments {
        if is_behind {
            words.push(argument)?;
        }
        is_behind = true;
    }
    Ok(words)
}
