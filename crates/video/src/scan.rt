// A line of a row, scanned at a blink count, and what it is to all columns.
ghost use Rattle.std.specs.Prelude.{◌≡◌, ℕ};

use crate::composition::Composition;

#[derive(Clone, Copy)]
pub struct Scan {
    pub composition: Composition,
    pub line: u8,
    pub blink: u8,
}

#[derive(Clone, Copy, PartialEq, Eq, Debug)]
pub struct ScanLine {
    // above the underline, on it
    pub above: bool,
    pub on: bool,
    // blinking characters are off
    pub off: bool,
    // video suppression in every column
    pub blanked: bool,
}

impl Scan {
    ghost use Rattle.video.specs.Composition.{shape_of, line_count};
    ghost use Rattle.video.specs.Picture.{blanked, scan_line};

    pub fn line_count(self) -> u8
        ensures { result ≡ line_count (shape_of self.composition) self.line }
    {
        self.composition.line_count(self.line)
    }

    // An underline of 8 or more suppresses the first and the last line.
    pub(crate) fn is_blanked(self) -> bool
        ensures { result ≡ blanked self.composition.underline self.composition.lines self.line }
    {
        let is_first = self.line == 0;
        let is_last = u16::from(self.line) + 1 == u16::from(self.composition.lines);
        (self.composition.underline >= 8) & (is_first | is_last)
    }

    // The kind of the line.
    pub fn kind(self) -> ScanLine
        ensures { result ≡ scan_line (shape_of self.composition) self.line self.blink }
    {
        ScanLine {
            above: self.line < self.composition.underline,
            on: self.line == self.composition.underline,
            off: self.blink >= 16,
            blanked: self.is_blanked(),
        }
    }
}
