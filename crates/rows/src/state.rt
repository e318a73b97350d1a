// What a row buffer holds.
ghost use Rattle.std.specs.Prelude.{◌≡◌, ◌+◌, ◌*◌, ◌<◌, ◌≤◌, length};
ghost use Rattle.rows.specs.Bound.{ahead};

use crate::kinds::{Column, Phase};
use video::field::Field;

// How far the taking of a row has come.
#[derive(Clone, Copy)]
pub struct Taking {
    pub phase: Phase,
    // positions still to fill
    pub room: u8,
    // bytes taken
    pub taken: u8,
    // an F3 in this row or above it
    pub over: bool,
    ghost few: { taken + 2 * room ≤ 160 + ahead phase },
}

// What a row will show.
#[derive(Clone, Copy)]
pub struct Showing {
    // with lengths beside them, since the console is copied as one value and an ArrayVec is not Copy
    pub columns: [Column; 80],
    pub len: u8,
    // the field character memory, and how many characters went into it
    pub ring: [u8; 16],
    pub pairs: u8,
    // the field in force
    pub field: Field,
    // an F0 to F3 in this row
    pub ended: bool,
    // an F2 or F3 in this row or above it
    pub below: bool,
    // an F2 or F3 above it
    pub hidden: bool,
    ghost fits: { len ≤ 80 },
    ghost size: { length columns ≡ 80 },
    ghost memory: { length ring ≡ 16 },
    ghost counted: { pairs ≤ len },
}

#[derive(Clone, Copy)]
pub struct RowBuffer {
    pub take: Taking,
    pub show: Showing,
    ghost together: { take.room + show.len ≤ 80 },
}
