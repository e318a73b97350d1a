// Why a call is refused.
#![tactic(auto)]

ghost use Rattle.std.specs.Prelude.{◌≡◌, Some};
ghost use Rattle.refusal.specs.Numbers.{number, words};
ghost use Rattle.refusal.specs.declared.Refusal.TheVariants.{OutOfMemory};

use std::alloc::{AllocError, AllocFailed};
use std::fmt;

// Each refusal has a number, and of two that apply the smaller wins.
#[derive(Clone, Copy, PartialEq, Eq, Debug)]
pub enum Refusal {
    NoComposition = 1,
    UnknownCommand = 2,
    TooManyColumns = 3,
    PageTooLong = 4,
    BadBus = 5,
    NoSuchRow = 6,
    BufferTooSmall = 7,
    PageEnds = 8,
    // want of memory: no refusal of the controller's, but a call that allocates can end so
    OutOfMemory = 255,
}

impl Refusal {
    pub fn number(self) -> u8
        ensures { result ≡ number self }
    {
        self as u8
    }

    fn words(self) -> &'static str
        ensures { result.now ≡ words self }
    {
        match self {
            Refusal::NoComposition => "no screen composition has been loaded",
            Refusal::UnknownCommand => "not a command of the controller",
            Refusal::TooManyColumns => "more than 80 characters to a row",
            Refusal::PageTooLong => "the page has more than 16384 bytes",
            Refusal::BadBus => "the bus figures are out of range",
            Refusal::NoSuchRow => "no such row, or one left blank by spacing",
            Refusal::BufferTooSmall => "the word buffer is too small for a row",
            Refusal::PageEnds => "the page ends before the row does",
            Refusal::OutOfMemory => "out of memory",
        }
    }
}

// By hand, since thiserror's derive promises nothing of what is printed.
impl fmt::Display for Refusal {
    ghost output = { λ x. Some (words x) };

    fn fmt<W: fmt::Write>(&self, f: &mut fmt::Formatter<W>) -> fmt::Result {
        f.write_str(self.words())
    }
}

impl From<AllocError> for Refusal {
    ghost from_gives = { λ _ r. r ≡ OutOfMemory };

    fn from(_e: AllocError) -> Refusal {
        Refusal::OutOfMemory
    }
}

impl<T: Drop> From<AllocFailed<T>> for Refusal {
    ghost from_gives = { λ _ r. r ≡ OutOfMemory };

    fn from(_e: AllocFailed<T>) -> Refusal {
        Refusal::OutOfMemory
    }
}
