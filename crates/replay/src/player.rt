// What a player holds.
ghost use Rattle.std.specs.Prelude.{◌≡◌, ◌≤◌, replicate, vec_len, vec_capacity};
ghost use Rattle.frame.specs.declared.call.Call.TheVariants.{Clock};

use crate::machine::Machine;
use frame::call::Call;

#[derive(Drop)]
pub struct Player {
    machine: Machine,
    // the line that has not ended; of a long one no more than shows that it is too long
    held: Vec<u8>,
    // lines so far
    number: u16,
    // as many clocks as one line can ask for
    clocks: Vec<Call>,
    ghost room: { 67 ≤ vec_capacity held },
    ghost short: { vec_len held ≤ 67 },
    ghost ticks: { clocks.items ≡ replicate 65535 Clock },
}

mod feed;
