// What a console holds, as numbers. Every number is one byte, so that there are no gaps, and any bytes can be read.
// C reads and writes these structs and any byte may come: so kinds and flags are numbers here, and a value stands beside its flag.

// A column of a row: 0 dark, 1 a character, 2 a graphic code, 3 a field character by its number; in its field.
#[repr(C)]
#[derive(Clone, Copy, Default)]
pub struct Place {
    pub kind: u8,
    pub byte: u8,
    pub field: u8,
}

// What a row shows.
#[repr(C)]
#[derive(Clone, Copy)]
pub struct Row {
    pub columns: [Place; 80],
    pub ring: [u8; 16],
    pub len: u8,
    pub pairs: u8,
    pub field: u8,
    pub ended: u8,
    pub below: u8,
    pub hidden: u8,
}

// The row that is being taken: 0 ready, 1 a field code waits for its character, 2 one more byte is dropped, 3 done.
#[repr(C)]
#[derive(Clone, Copy)]
pub struct Filling {
    pub phase: u8,
    pub field: u8,
    pub room: u8,
    pub taken: u8,
    pub over: u8,
    pub row: Row,
}

// The composition, if it is loaded.
#[repr(C)]
#[derive(Clone, Copy, Default)]
pub struct Layout {
    pub loaded: u8,
    pub columns: u8,
    pub retrace: u8,
    pub lines: u8,
    pub rows: u8,
    pub vretrace: u8,
    pub underline: u8,
    pub opaque: u8,
    pub offset: u8,
    pub spaced: u8,
    pub cursor: u8,
}

// What the ports wait for: 0 nothing, 1 to 4 a parameter of Reset, 5 and 6 one of Load Cursor, 7 and 8 a read of the light pen; and the
// parameters that have come.
#[repr(C)]
#[derive(Clone, Copy, Default)]
pub struct Waits {
    pub kind: u8,
    pub first: u8,
    pub second: u8,
    pub third: u8,
}

// Bursts of 1, 2, 4 or 8 bytes as 0 to 3, and the clocks between two.
#[repr(C)]
#[derive(Clone, Copy)]
pub struct Bursts {
    pub size: u8,
    pub space: u8,
}

#[repr(C)]
#[derive(Clone, Copy)]
pub struct Spot {
    pub column: u8,
    pub row: u8,
}

#[repr(C)]
#[derive(Clone, Copy)]
pub struct Raised {
    pub ir: u8,
    pub lp: u8,
    pub ic: u8,
    pub du: u8,
    pub fo: u8,
}

// What the clock moves, but for the rows.
#[repr(C)]
#[derive(Clone, Copy)]
pub struct Beam {
    pub row: u8,
    pub line: u8,
    pub column: u8,
    pub blink: u8,
    pub armed: u8,
    pub dark: u8,
    pub bursts: Bursts,
    pub gap: u8,
}

// A whole console.
#[repr(C)]
#[derive(Clone, Copy)]
pub struct Mirror {
    pub layout: Layout,
    pub waits: Waits,
    pub ve: u8,
    pub ie: u8,
    pub bursts: Bursts,
    pub placed: u8,
    pub cursor: Spot,
    pub beam: Beam,
    pub fill: Filling,
    pub shown: Row,
    pub flags: Raised,
    pub pen: Spot,
}
