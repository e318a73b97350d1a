// Why a listing ends early.
ghost use Rattle.std.specs.Prelude.{◌≡◌, Some};
ghost use Rattle.sheet.specs.Screens.{memory_wanting};

use refusal::Refusal;
use std::alloc::AllocError;

#[derive(Clone, Copy)]
pub struct Stop {
    // the row that is refused
    pub row: Option<u8>,
    pub refusal: Refusal,
}

impl Stop {
    pub(crate) fn at(row: u8, refusal: Refusal) -> Stop
        ensures { result ≡ record { row = Some row; refusal = refusal } }
    {
        Stop {
            row: Some(row),
            refusal,
        }
    }
}

impl From<AllocError> for Stop {
    ghost from_gives = { λ _ r. r ≡ memory_wanting };

    fn from(_e: AllocError) -> Stop {
        Stop {
            row: None,
            refusal: Refusal::OutOfMemory,
        }
    }
}
