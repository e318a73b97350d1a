// Plays a script of requests and prints the answers, so that they can be compared with another program's.
#![tactic(auto)]

mod bus;
mod session;

use crate::session::Session;
use std::io::{Read, Write};

fn run(rt: &HostRuntime) -> anyhow::Result<()> {
    let mut text = String::new(rt.alloc());
    let _ = rt.stdin().read_to_string(&mut text)?;
    let mut session = Session::new(rt.alloc());
    let mut out = rt.stdout();
    for line in text.lines() {
        session.request(line)?;
        if session.answers() > 65536 {
            out.write_all(session.printed())?;
            session.clear();
        }
    }
    out.write_all(session.printed())?;
    Ok(())
}

fn main(rt: HostRuntime) -> anyhow::Result<()> {
    run(&rt)
}
