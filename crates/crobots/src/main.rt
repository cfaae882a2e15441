//! The program: it lists the code of robots or plays matches of them, and names their faults.
#![tactic(auto)]

use command::{StreamSink, run_process};
use std::process::ExitCode;
use std::{env, io};

/// Does what the command line asks for, and returns the status.
fn main(rt: HostRuntime) -> ExitCode {
    let mut out = StreamSink::new(rt.stdout());
    let mut err = StreamSink::new(rt.stderr());
    ExitCode::from(run_process(&rt, words(&rt), &mut out, &mut err))
}

/// Returns the words of the process. Words that are no text are an error.
fn words(rt: &HostRuntime) -> io::Result<Vec<String>> {
    Ok(env::args(rt)?.collect(rt.alloc())?)
}
