// The arguments of the program that lists a screen.
#![tactic(auto)]

pub mod bus;
pub mod fault;
pub mod figures;
mod hex;
mod numbers;
pub mod request;
pub mod word;
