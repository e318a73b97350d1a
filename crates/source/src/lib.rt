// Where screen bytes come from: one interface, and three sources over a page in memory.
#![tactic(auto)]

mod bus;
mod clocks;
mod cycle;
mod free;
mod page;
mod paged;
mod spans;
mod stalls;
mod timing;
mod turns;

pub use bus::Source;
pub use clocks::{drain, wait};
pub use free::FreeBus;
pub use spans::SpanBus;
pub use stalls::Span;
pub use turns::TurnBus;
