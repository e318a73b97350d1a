// Rows of a screen: what they take from a page, and what they show.
#![tactic(auto)]

pub mod buffer;
pub mod burst;
pub mod drawing;
pub mod found;
pub mod kinds;
pub mod looks;
pub mod page;
pub mod reader;
pub mod showing;
pub mod state;
pub mod taking;
