// A console as its firmware programmed it, and the listing of a page by the stills of its rows.
#![tactic(auto)]

pub mod screen;
pub mod still;
pub mod stop;
pub mod tally;
