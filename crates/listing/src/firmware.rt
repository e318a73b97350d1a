// A console programmed as its firmware would.
ghost use Rattle.std.specs.Prelude.{◌≡◌, ℕ, true, false, Some, MatchResult};
ghost use Rattle.refusal.specs.declared.Refusal.TheVariants.{TooManyColumns};
ghost use Rattle.video.specs.Composition.{allowed};
ghost use Rattle.console.specs.Model.{state_of};
ghost use Rattle.listing.specs.Firmware.{composed, pointed, programmed, programming_refusal};

use console::state::Console;
use refusal::Refusal;
use video::parameters::ResetParameters;

fn reset(parameters: ResetParameters) -> Result<Console, Refusal>
    ensures { MatchResult result (λ k. (state_of k ≡ composed parameters) × (allowed parameters.first ≡ true)) (λ e. (e ≡ TooManyColumns) × (allowed parameters.first ≡ false)) }
{
    let mut console = Console::new();
    console.command(0x00)?;
    console.parameter(parameters.first)?;
    console.parameter(parameters.second)?;
    console.parameter(parameters.third)?;
    console.parameter(parameters.fourth)?;
    Ok(console)
}

// Load Cursor with its two parameters.
fn load_cursor(console: &mut Console, column: u8, row: u8) -> Result<(), Refusal>
    ensures { MatchResult result (λ _. state_of console.new ≡ pointed (state_of console.old) column row) (λ _. ⊥) }
{
    console.command(0x80)?;
    console.parameter(column)?;
    console.parameter(row)
}

// Reset, the cursor where there is one, and then the Start command.
pub fn programmed(
    parameters: ResetParameters,
    cursor: Option<(u8, u8)>,
    start: u8,
) -> Result<Console, Refusal>
    ensures { MatchResult result (λ k. state_of k ≡ programmed parameters cursor start) (λ e. programming_refusal parameters start ≡ Some e) }
{
    let mut console = reset(parameters)?;
    if let Some((column, row)) = cursor {
        load_cursor(&mut console, column, row)?;
    }
    console.command(start)?;
    Ok(console)
}
