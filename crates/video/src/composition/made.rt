// A composition from the four parameters of Reset.
ghost use Rattle.std.specs.Prelude.{◌≡◌, ℕ};

use crate::composition::Composition;
use crate::format::CursorFormat;
use crate::parameters::ResetParameters;
use refusal::Refusal;

impl TryFrom<ResetParameters> for Composition {
    ghost use Rattle.video.specs.Composition.{Composes};

    type Error = Refusal;

    ghost try_from_gives = { Composes };

    // The composition that the four parameters ask for.
    fn try_from(parameters: ResetParameters) -> Result<Composition, Refusal> {
        let ResetParameters {
            first,
            second,
            third,
            fourth,
        } = parameters;
        if first % 128 > 79 {
            return Err(Refusal::TooManyColumns);
        }
        let cursor = CursorFormat::from_code(fourth / 16 % 4);
        Ok(Composition {
            columns: first % 128 + 1,
            retrace: 2 * (fourth % 16) + 2,
            lines: third % 16 + 1,
            rows: second % 64 + 1,
            vretrace: second / 64 + 1,
            underline: third / 16,
            opaque: fourth / 64 % 2 == 1,
            offset: fourth >= 128,
            spaced: first >= 128,
            cursor,
        })
    }
}

impl Composition {
    ghost use Rattle.video.specs.Composition.{shape_of, width, line_count};

    // The clocks of a line.
    pub fn width(&self) -> u8
        ensures { result ≡ width (shape_of self.now) }
    {
        self.columns + self.retrace
    }

    // The line count that a line puts out.
    pub fn line_count(&self, line: u8) -> u8
        ensures { result ≡ line_count (shape_of self.now) line }
    {
        if !self.offset {
            line
        } else if line == 0 {
            self.lines - 1
        } else {
            line - 1
        }
    }
}
