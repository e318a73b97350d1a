// Row windows and row stills of a page.
ghost use Rattle.std.specs.Prelude.{◌≡◌, ℕ, length, Some, MatchResult};
ghost use Rattle.console.specs.Model.{state_of};
ghost use Rattle.console.specs.Answers.{WindowOf, window_refused, StillOf, still_refused};

use crate::state::Console;
use refusal::Refusal;
use rows::reader::{PageReader, RowWindow};

impl Console {
    // The part of a page that a row takes, and its place.
    pub fn window<'a>(&self, page: &'a [u8], row: u8) -> Result<RowWindow<'a>, Refusal>
        ensures { MatchResult result
            (λ w. WindowOf (state_of self.now) page.now row w.place w.bytes.now)
            (λ e. window_refused (state_of self.now).shape (state_of self.now).control.bursts.n page.now row ≡ Some e) }
    {
        let composition = self.parts.composition.ok_or(Refusal::NoComposition)?;
        PageReader::new(composition, self.parts.burst.size, page).window(row)
    }

    // The page's picture of a row, into the first words of `out`.
    pub fn still(&self, page: &[u8], row: u8, out: &mut [u32]) -> Result<(), Refusal>
        ensures { MatchResult result
            (λ _. StillOf (state_of self.now) page.now row out.old out.new)
            (λ e. (still_refused (state_of self.now).shape (state_of self.now).control.bursts.n page.now row (length out.old) ≡ Some e)
            × (out.new ≡ out.old)) }
    {
        let composition = self.parts.composition.ok_or(Refusal::NoComposition)?;
        PageReader::new(composition, self.parts.burst.size, page).still(
            row,
            self.parts.cursor,
            self.parts.raster.beam.blink,
            out,
        )
    }
}
