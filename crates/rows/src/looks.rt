// The looks of a row's columns, worked out once for all lines of a kind.
ghost use Rattle.std.specs.Prelude.{◌≡◌, true, length, slice_index};

use crate::state::Showing;
use std::array;
use video::scan::{Scan, ScanLine};

#[derive(Clone, Copy)]
pub struct Looks {
    columns: [u32; 80],
    // the kind of line that they are for
    line: ScanLine,
    ghost size: { length columns ≡ 80 },
}

impl Looks {
    ghost use Rattle.video.specs.Composition.{shape_of};
    ghost use Rattle.video.specs.Picture.{scan_line};
    ghost use Rattle.rows.specs.Drawn.{AreOf, Drawn};
    ghost use Rattle.rows.specs.Model.{shown_of};

    // Those of a row on a line of it.
    pub fn of(row: &Showing, scan: Scan) -> Looks
        ensures line { AreOf (Some result) (scan_line (shape_of scan.composition) scan.line scan.blink) }
        ensures drawn { Drawn result (shown_of row.now) }
    {
        Looks {
            columns: array::from_fn(|p| row.cell(p as u8).look(scan)),
            line: scan.kind(),
        }
    }

    // They are those of such a line.
    pub fn are_of(&self, line: ScanLine) -> bool
        ensures if_so { AreOf (Some self.now) line → result ≡ true }
        ensures only_then { result ≡ true → AreOf (Some self.now) line }
    {
        self.line == line
    }

    // The look of a column; a row has no column from 80 on.
    pub fn of_column(&self, p: u8) -> u32
        ensures { result ≡ slice_index self.now.columns p }
    {
        if p < 80 { self.columns[p as usize] } else { 0 }
    }
}
