// The lines of a listing: numbers, the figures and the picture of a row, closing lines.
// A listing is bytes and no String: what the columns show is bytes, and a String would only add proofs that they are UTF-8.
#![tactic(auto)]

pub mod closing;
pub mod fate;
pub mod figures;
pub mod numbers;
pub mod picture;
