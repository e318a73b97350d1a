// Frames that a console plays clock by clock over a bus, what comes in them, and the listing of the last.
#![tactic(auto)]

pub mod film;
pub mod log;
pub mod watched;
