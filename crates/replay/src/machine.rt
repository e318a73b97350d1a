// What the lines play on.
ghost use Rattle.std.specs.Prelude.{◌≤◌, vec_len, vec_capacity};

use console::state::Console;
use frame::call::Answer;
use source::FreeBus;
use std::alloc::Global;

#[derive(Drop)]
pub(crate) struct Machine {
    console: Console,
    // the page bytes so far
    page: Vec<u8>,
    // hands out the page, once calls have closed it
    bus: Option<FreeBus>,
    // what the latest request was answered
    answers: Vec<Answer>,
    // for the bus
    heap: Global,
    ghost room: { 16384 ≤ vec_capacity page },
    ghost short: { vec_len page ≤ 16384 },
}

pub(crate) mod run;
