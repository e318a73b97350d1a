// A console as its firmware programmed it.
ghost use Rattle.std.specs.Prelude.{◌≡◌, ℕ, true, false, ◌&&◌, Some, MatchResult, nat_le};
ghost use Rattle.console.specs.Model.{state_of};
ghost use Rattle.listing.specs.Firmware.{programmed, programming_refusal};
ghost use Rattle.refusal.specs.declared.Refusal.TheVariants.{TooManyColumns};
ghost use Rattle.video.specs.Composition.{allowed, composed, shape_of};
ghost use Rattle.sheet.specs.Rasters.{row_clocks};
ghost use Rattle.sheet.specs.Screens.{Composed};

use console::state::Console;
use listing::firmware::programmed;
use refusal::Refusal;
use video::composition::Composition;
use video::parameters::ResetParameters;

#[derive(Clone, Copy)]
pub struct Screen {
    pub console: Console,
    // that of the console
    pub composition: Composition,
}

impl Screen {
    // Reset, the cursor where there is one, and then the Start command.
    pub fn programmed(
        parameters: ResetParameters,
        cursor: Option<(u8, u8)>,
        start: u8,
    ) -> Result<Screen, Refusal>
        ensures { MatchResult result (λ x. Composed x × (state_of x.console ≡ programmed parameters cursor start)) (λ e. programming_refusal parameters start ≡ Some e) }
    {
        let console = programmed(parameters, cursor, start)?;
        let composition = Composition::try_from(parameters)?;
        Ok(Screen {
            console,
            composition,
        })
    }

    // Whether a row is one of the composition's, counted from 1.
    pub fn has_row(&self, row: u8) -> bool
        ensures { result ≡ (nat_le 1 row && nat_le row self.now.composition.rows) }
    {
        (1..=self.composition.rows).contains(&row)
    }

    // The clocks of a row time.
    pub fn row_clocks(&self) -> u32
        ensures { result ≡ row_clocks (shape_of self.now.composition) }
    {
        u32::from(self.composition.lines) * u32::from(self.composition.width())
    }
}
