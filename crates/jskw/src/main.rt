//! Validates one instance against one schema, from standard input to standard output.
#![tactic(auto)]

use jskw_service::{StdSink, StdSource, run, status};
use std::io;
use std::process::ExitCode;

fn main(rt: HostRuntime) -> ExitCode {
    let mut reader = StdSource::new(rt.reader());
    let mut writer = StdSink::new(io::writer(&rt));
    let outcome = run(rt.alloc(), &mut reader, &mut writer);
    ExitCode::from(status(&outcome))
}
