// The player: hexadecimal lines in, the answers of one console out.
#![tactic(auto)]

mod bytes;
mod digits;
mod faults;
mod machine;
mod player;
mod prints;
mod requests;

pub use player::Player;
