// The graphic codes.
ghost use Rattle.std.specs.Prelude.{◌≡◌, ℕ, slice_index_or};
ghost use Rattle.video.specs.Picture.{marks, mark};
ghost use Rattle.video.specs.declared.mark.Mark.TheVariants.{Plain};

use crate::mark::Mark;
use crate::mark::Mark::{La01, La10, La11, Lten, Plain, Vsp};

// By graphic code: above the underline, on it, below it.
fn marks(code: u8) -> (Mark, Mark, Mark)
    ensures { result ≡ slice_index_or marks code (Plain, Plain, Plain) }
{
    match code {
        0 => (Vsp, La10, La01),
        1 => (Vsp, La11, La01),
        2 => (La01, La10, Vsp),
        3 => (La01, La11, Vsp),
        4 => (Vsp, Lten, La01),
        5 => (La01, La11, La01),
        6 => (La01, La10, La01),
        7 => (La01, Lten, Vsp),
        8 => (Vsp, Lten, Vsp),
        9 => (La01, La01, La01),
        10 => (La01, Lten, La01),
        _ => (Plain, Plain, Plain),
    }
}

// What a graphic code does on a line, by where the underline stands.
pub fn mark(underline: u8, line: u8, code: u8) -> Mark
    ensures { result ≡ mark underline line code }
{
    let (above, on, below) = marks(code);
    if line < underline {
        above
    } else if line == underline {
        on
    } else {
        below
    }
}
