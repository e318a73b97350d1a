// The program `screen` once more, since a program has one stored example: in this one an encoder for key cards holds the bus.
#![tactic(auto)]

use std::process::ExitCode;
use viewer::run;

// What failed was said on standard error.
fn main(rt: HostRuntime) -> ExitCode {
    match run(&rt) {
        Ok(()) => ExitCode::SUCCESS,
        Err(_) => ExitCode::FAILURE,
    }
}
