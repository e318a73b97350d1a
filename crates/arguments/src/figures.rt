// The figures among the arguments.
ghost use Rattle.std.specs.Prelude.{◌≡◌, ℕ};
ghost use Rattle.arguments.specs.Figures.{parameters_of, start_of, row_of, frames_of, cursor_of};

use crate::hex::byte;
use crate::numbers::{figure, pair};
use video::parameters::ResetParameters;

// Eight hexadecimal digits.
pub fn parameters(text: &[u8]) -> Option<ResetParameters>
    ensures { result ≡ parameters_of text.now }
{
    if text.len() != 8 {
        return None;
    }
    Some(ResetParameters {
        first: byte(text[0], text[1])?,
        second: byte(text[2], text[3])?,
        third: byte(text[4], text[5])?,
        fourth: byte(text[6], text[7])?,
    })
}

// Two hexadecimal digits that are a Start command.
pub fn start(text: &[u8]) -> Option<u8>
    ensures { result ≡ start_of text.now }
{
    match text {
        [high, low] => byte(*high, *low).filter(|command| matches!(command, 0x20..=0x3F)),
        _ => None,
    }
}

// A row number, 1 to 255, in one to three decimal digits.
#[tactic(auto, using(crate::proofs::Rows::row_number))]
pub fn row(text: &[u8]) -> Option<u8>
    ensures { result ≡ row_of text.now }
{
    if text.len() > 3 {
        return None;
    }
    match figure(text, 255)? {
        0 => None,
        number => Some(number as u8),
    }
}

// A number of frames, 1 to 65535.
pub fn frames(text: &[u8]) -> Option<u16>
    ensures { result ≡ frames_of text.now }
{
    match figure(text, 65535)? {
        0 => None,
        number => Some(number as u16),
    }
}

// Column and row of the cursor, 0 to 255, a comma between them.
pub fn cursor(text: &[u8]) -> Option<(u8, u8)>
    ensures { result ≡ cursor_of text.now }
{
    let (column, row) = pair(text, b',', 255)?;
    Some((column as u8, row as u8))
}
