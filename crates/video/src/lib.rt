// The screen composition, and the picture bits of one clock.
#![tactic(auto)]

pub mod cell;
pub mod composition;
pub mod field;
pub mod format;
pub mod mark;
pub mod parameters;
pub mod scan;
pub mod signals;
pub mod table;
