// Lists the rows of a page of screen bytes: by its stills, or as a console shows them clock by clock over a bus.
#![tactic(auto)]

pub mod failure;
mod frames;
mod help;
mod show;
mod stills;

use crate::failure::Failure;
use crate::help::{HELP, USAGE};
use crate::show::show;
use arguments::fault::ArgumentFault;
use arguments::request::{Asked, Draft};
use std::env;

fn arguments(words: &[String]) -> Result<Asked<'_>, ArgumentFault> {
    let mut draft = Draft::new();
    for word in words {
        draft.take(word.as_str())?;
    }
    draft.finish()
}

fn answer(rt: &HostRuntime) -> Result<(), Failure> {
    let words: Vec<String> = env::args(rt)?.skip(1).collect(rt.alloc())?;
    match arguments(words.as_slice())? {
        Asked::Help => print!(rt; "{USAGE}{HELP}")?,
        Asked::Listing(request) => show(rt, request)?,
    }
    Ok(())
}

// What the arguments ask for, or on standard error why not.
pub fn run(rt: &HostRuntime) -> Result<(), Failure> {
    let done = answer(rt);
    if let Err(failure) = &done {
        eprint!(rt; "screen: {failure}")?;
    }
    done
}
