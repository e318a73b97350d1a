// The console for C: what it holds lies in the caller's memory as plain numbers, and each call reads it and writes it back.
#![tactic(auto)]

pub mod calls;
mod offered;
