// What the clock moves: the place of the beam in the frame, and the row buffers.
ghost use Rattle.std.specs.Option.{ForSome};
ghost use Rattle.rows.specs.Drawn.{Drawn};
ghost use Rattle.rows.specs.Model.{shown_of};

use frame::burst::Burst;
use rows::looks::Looks;
use rows::state::{RowBuffer, Showing};

// The clock that comes next, by its counters.
#[derive(Clone, Copy, PartialEq, Eq, Default, Debug)]
pub struct Beam {
    // row time, line of it and clock of the line
    pub row: u8,
    pub line: u8,
    pub column: u8,
    // the blink count
    pub blink: u8,
}

#[derive(Clone, Copy)]
pub struct Raster {
    pub beam: Beam,
    // video was enabled at the frame's first clock
    pub armed: bool,
    // a row of the frame was late
    pub dark: bool,
    // the bursts of the frame
    pub burst: Burst,
    // clocks before a byte is asked for again
    pub gap: u8,
    // the row that is being taken
    pub fill: RowBuffer,
    // the row that is being shown
    pub shown: Showing,
    // the looks of its columns, where they have been worked out
    pub looks: Option<Looks>,
    ghost drawn: { ForSome looks (λ x. Drawn x (shown_of shown)) },
}

pub mod counters;
pub mod idle;
pub mod steps;
