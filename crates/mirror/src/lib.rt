// A console as plain numbers in memory that may come from anywhere.
#![tactic(auto)]

mod column;
mod fill;
mod layout;
pub mod numbers;
pub mod packing;
mod ports;
mod row;
