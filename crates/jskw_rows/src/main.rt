//! Makes the calls of each line of standard input, and prints what they give: it reads no file and
//! compares nothing. `README.md` beside `src/` says what a line has. `tools/rows` asks for the rows of
//! `data/`, and compares.
#![tactic(auto)]

mod asked;
mod calls;
mod members;
mod printer;

use std::io;
use std::process::ExitCode;

fn main(rt: HostRuntime) -> io::Result<ExitCode> {
    let mut is_right = true;
    for line in rt.lines(rt.alloc()) {
        is_right &= calls::make(&rt, line?.as_str());
    }
    Ok(ExitCode::from(u8::from(!is_right)))
}
