// The controller as a whole: its state, one clock of it, histories of calls, and the law of a frame.
#![tactic(auto)]

pub mod burst;
pub mod call;
pub mod flags;
pub mod law;
pub mod pending;
