// A console out of its numbers, and back into them.
ghost use Rattle.std.specs.Prelude.{◌≡◌, Some};
ghost use Rattle.console.specs.Model.{state_of};
ghost use Rattle.console.specs.Parts.{held};
ghost use Rattle.console.specs.Raster.{core_of};
ghost use Rattle.rows.specs.Model.{shown_of, buffer_of};
ghost use Rattle.mirror.specs.Stands.{core_in, stands};

use crate::numbers::{self, Bursts, Filling, Layout, Mirror, Raised, Row, Spot, Waits};
use console::raster::{Beam, Raster};
use console::state::Console;
use console::state::parts::Parts;
use frame::burst::Burst;
use frame::flags::Flags;
use frame::pending::Pending;
use rows::state::{RowBuffer, Showing};

impl From<Spot> for (u8, u8) {
    ghost from_gives = { λ s p. p ≡ (s.column, s.row) };

    fn from(spot: Spot) -> (u8, u8) {
        (spot.column, spot.row)
    }
}

impl From<(u8, u8)> for Spot {
    ghost from_gives = { λ p s. (s.column, s.row) ≡ p };

    fn from((column, row): (u8, u8)) -> Spot {
        Spot { column, row }
    }
}

fn raster(beam: numbers::Beam, fill: RowBuffer, shown: Showing) -> Raster
    ensures { core_of result ≡ core_in beam (buffer_of fill) (shown_of shown) }
{
    Raster {
        beam: Beam {
            row: beam.row,
            line: beam.line,
            column: beam.column,
            blink: beam.blink,
        },
        armed: beam.armed != 0,
        dark: beam.dark != 0,
        burst: Burst::from(beam.bursts),
        gap: beam.gap,
        fill,
        shown,
        looks: None,
    }
}

impl From<&Raster> for numbers::Beam {
    ghost from_gives = { λ r b. core_in b (buffer_of r.now.fill) (shown_of r.now.shown) ≡ core_of r.now };

    fn from(raster: &Raster) -> numbers::Beam {
        numbers::Beam {
            row: raster.beam.row,
            line: raster.beam.line,
            column: raster.beam.column,
            blink: raster.beam.blink,
            armed: u8::from(raster.armed),
            dark: u8::from(raster.dark),
            bursts: Bursts::from(raster.burst),
            gap: raster.gap,
        }
    }
}

// None where the numbers hold no console, which is all that can be said: so neither this nor its parts is a `TryFrom`.
#[tactic(auto, unfolding(crate::specs::Stands::stands))]
pub fn unpack(mirror: &Mirror) -> Option<Console>
    ensures { held result ≡ stands mirror.now }
{
    let composition = mirror.layout.composition()?;
    let fill = mirror.fill.buffer()?;
    let shown = mirror.shown.showing()?;
    Console::from_parts(Parts {
        composition,
        pending: Pending::from(mirror.waits),
        ve: mirror.ve != 0,
        ie: mirror.ie != 0,
        burst: Burst::from(mirror.bursts),
        cursor: (mirror.placed != 0).then_some(mirror.cursor.into()),
        raster: raster(mirror.beam, fill, shown),
        flags: Flags::from(mirror.flags),
        pen: mirror.pen.into(),
    })
}

pub fn pack(console: &Console) -> Mirror
    ensures { stands result ≡ Some (state_of console.now) }
{
    let parts = console.parts();
    Mirror {
        layout: Layout::from(parts.composition),
        waits: Waits::from(parts.pending),
        ve: u8::from(parts.ve),
        ie: u8::from(parts.ie),
        bursts: Bursts::from(parts.burst),
        placed: u8::from(parts.cursor.is_some()),
        cursor: Spot::from(parts.cursor.unwrap_or_default()),
        beam: numbers::Beam::from(&parts.raster),
        fill: Filling::from(&parts.raster.fill),
        shown: Row::from(&parts.raster.shown),
        flags: Raised::from(parts.flags),
        pen: Spot::from(parts.pen),
    }
}
