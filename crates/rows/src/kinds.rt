// What a screen byte is, how far a row's taking has come, and what a column will show.
ghost use Rattle.std.specs.Prelude.{◌≡◌};

use video::cell::Cell;
use video::field::Field;

// F0 to F3.
#[derive(Clone, Copy)]
pub enum Special {
    EndRow,
    StopRow,
    EndScreen,
    StopScreen,
}

// A position of a row.
#[derive(Clone, Copy)]
pub enum Position {
    Letter(u8),
    // a field code that has a position of its own
    Attribute(Field),
    // a transparent field code, and the character behind it
    Pair(Field, u8),
    Graphic(u8),
    Control(Special),
    Unused,
}

// Where the taking of a row stands.
#[derive(Clone, Copy)]
pub enum Phase {
    Ready,
    // a transparent field code waits for its character
    Second(Field),
    // one more byte is taken and dropped
    Extra,
    Done,
}

// What a column shows, as soon as its position is filled.
#[derive(Clone, Copy)]
pub enum Column {
    Fixed(Cell),
    // a field character by its number, which a later one in its place may overwrite, and its field
    Memory(u8, Field),
}

impl Position {
    ghost use Rattle.rows.specs.Positions.{ends, ends_screen, stops_all};

    // F0 to F3.
    pub(crate) fn ends(self) -> bool
        ensures { result ≡ ends self }
    {
        matches!(self, Position::Control(_))
    }

    // F2 and F3.
    pub(crate) fn ends_screen(self) -> bool
        ensures { result ≡ ends_screen self }
    {
        matches!(
            self,
            Position::Control(Special::EndScreen | Special::StopScreen)
        )
    }

    // F3.
    pub(crate) fn stops_all(self) -> bool
        ensures { result ≡ stops_all self }
    {
        matches!(self, Position::Control(Special::StopScreen))
    }
}

impl Phase {
    ghost use Rattle.rows.specs.Buffer.{done};

    pub(crate) fn is_done(self) -> bool
        ensures { result ≡ done self }
    {
        matches!(self, Phase::Done)
    }
}
