// The screen composition: what the four parameters of Reset say.
ghost use Rattle.std.specs.Prelude.{ℕ, ◌+◌, ◌*◌, ◌/◌, ◌%◌, ◌<◌, ◌≤◌};

use crate::format::CursorFormat;

#[derive(Clone, Copy)]
pub struct Composition {
    // H: characters to a row
    pub columns: u8,
    // Z: clocks of horizontal retrace at the end of a line
    pub retrace: u8,
    // L: lines to a row
    pub lines: u8,
    // R: rows to a frame
    pub rows: u8,
    // V: row times of vertical retrace
    pub vretrace: u8,
    // U: the line on which underlines are drawn
    pub underline: u8,
    // F: field codes have positions of their own
    pub opaque: bool,
    // the line count runs one line behind
    pub offset: bool,
    // every second row is blank
    pub spaced: bool,
    pub cursor: CursorFormat,
    ghost columns_range: { (1 ≤ columns) × (columns ≤ 80) },
    ghost retrace_range: { (2 ≤ retrace) × (retrace ≤ 32) },
    ghost lines_range: { (1 ≤ lines) × (lines ≤ 16) },
    ghost rows_range: { (1 ≤ rows) × (rows ≤ 64) },
    ghost vretrace_range: { (1 ≤ vretrace) × (vretrace ≤ 4) },
    ghost underline_range: { underline < 16 },
}

pub mod made;
