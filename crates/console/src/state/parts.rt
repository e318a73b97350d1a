// A console taken apart, and put together again from parts that may come from anywhere.
ghost use Rattle.std.specs.Prelude.{◌≡◌, true};
ghost use Rattle.video.specs.Composition.{allowed};
ghost use Rattle.console.specs.Bounds.{first, row_times, line_times, clock_times};
ghost use Rattle.console.specs.Model.{shape_in, state_in, state_of};
ghost use Rattle.console.specs.Parts.{limits, inside, settled, held};

use crate::raster::Raster;
use crate::state::Console;
use frame::burst::Burst;
use frame::flags::Flags;
use frame::pending::Pending;
use video::composition::Composition;

#[derive(Clone, Copy)]
pub struct Parts {
    pub composition: Option<Composition>,
    pub pending: Pending,
    // video enable
    pub ve: bool,
    // interrupt enable
    pub ie: bool,
    // the latest bursts asked for
    pub burst: Burst,
    // column and row, from 0
    pub cursor: Option<(u8, u8)>,
    pub raster: Raster,
    pub flags: Flags,
    // column and row of the latest light pen stroke
    pub pen: (u8, u8),
}

// A triple, since the line that asks for it takes it apart: what the row, the line and the clock of the line stay below.
fn limits(composition: Option<Composition>) -> (u8, u8, u8)
    ensures shape { result ≡ limits (shape_in composition) }
    ensures times { result ≡ (row_times composition, line_times composition, clock_times composition) }
{
    match composition {
        None => (1, 1, 1),
        Some(c) => (c.rows + c.vretrace, c.lines, c.columns + c.retrace),
    }
}

// The first Reset parameter that is kept asks for 80 characters at most.
fn columns_allowed(pending: Pending) -> bool
    ensures { result ≡ allowed (first pending) }
{
    match pending {
        Pending::Reset2(p) | Pending::Reset3(p, _) | Pending::Reset4(p, _, _) => p % 128 < 80,
        _ => true,
    }
}

impl Console {
    pub fn parts(&self) -> Parts
        ensures state { state_in result ≡ state_of self.now }
        ensures inside { inside (state_in result) ≡ true }
    {
        self.parts
    }

    // None where a counter lies outside its limit, or a kept parameter asks for too many characters; an error would say no more.
    pub fn from_parts(parts: Parts) -> Option<Console>
        ensures { held result ≡ settled (state_in parts) }
    {
        let (rows, lines, clocks) = limits(parts.composition);
        let beam = parts.raster.beam;
        if beam.row < rows
            && beam.line < lines
            && beam.column < clocks
            && beam.blink < 32
            && columns_allowed(parts.pending)
        {
            Some(Console { parts })
        } else {
            None
        }
    }
}
