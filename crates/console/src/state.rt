// What a console holds.
ghost use Rattle.std.specs.Prelude.{◌≡◌, true};
ghost use Rattle.video.specs.Composition.{allowed};
ghost use Rattle.console.specs.Bounds.{first, Inside};

use crate::state::parts::Parts;

#[derive(Clone, Copy)]
pub struct Console {
    parts: Parts,
    ghost beam_inside: { Inside parts.composition parts.raster.beam },
    ghost columns_allowed: { allowed (first parts.pending) ≡ true },
}

pub mod clock;
pub mod parts;
pub mod picture;
pub mod play;
pub mod port;
