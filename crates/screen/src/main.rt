// Lists the rows of a page of screen bytes as the tube would show them. The program `held` is this one with another example.
#![tactic(auto)]

use std::process::ExitCode;
use viewer::run;

// What failed was said on standard error.
fn main(rt: HostRuntime) -> ExitCode {
    match run(&rt) {
        Ok(()) => ExitCode::SUCCESS,
        Err(_) => ExitCode::FAILURE,
    }
}
