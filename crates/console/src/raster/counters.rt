// The counters of the beam.
ghost use Rattle.std.specs.Prelude.{◌≡◌, ◌&&◌, ◌==◌, Some};
ghost use Rattle.video.specs.Composition.{shape_of};
ghost use Rattle.frame.specs.Ports.{Core};
ghost use Rattle.frame.specs.Machine.{turn, moved};
ghost use Rattle.console.specs.Raster.{placed};
ghost use Rattle.console.specs.Bounds.{Inside};

use crate::raster::Beam;
use video::composition::Composition;

impl Beam {
    // A row time begins with this clock.
    pub(crate) fn begins(&self) -> bool
        ensures { result ≡ (self.now.line == 0 && self.now.column == 0) }
    {
        (self.line == 0) & (self.column == 0)
    }

    // To the first clock of a row time.
    pub(crate) fn move_to(&mut self, row: u8)
        ensures { self.new ≡ record { row = row; line = 0; column = 0; blink = self.old.blink } }
    {
        self.row = row;
        self.line = 0;
        self.column = 0;
    }

    // To the next clock.
    pub(crate) fn advance(&mut self, composition: &Composition)
        requires inside { Inside (Some composition.now) self.old }
        ensures inside { Inside (Some composition.now) self.new }
        ensures moved { (k : Core) → placed self.new k ≡ moved (turn (shape_of composition.now) self.old.row self.old.line self.old.column) (placed self.old k) }
    {
        if self.column + 1 < composition.columns + composition.retrace {
            self.column += 1;
        } else if self.line + 1 < composition.lines {
            self.column = 0;
            self.line += 1;
        } else if self.row + 1 < composition.rows + composition.vretrace {
            self.move_to(self.row + 1);
        } else {
            self.move_to(0);
            self.blink = (self.blink + 1) % 32;
        }
    }
}
