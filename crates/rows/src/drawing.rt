// The picture of a row that was found.
ghost use Rattle.std.specs.Prelude.{◌≡◌, ℕ, suc, ◌+◌, ◌*◌, ◌<◌, ◌≤◌, Bool, true, false, List, length, slice_index};
ghost use Rattle.video.specs.Composition.{shape_of, width};
ghost use Rattle.rows.specs.Page.{picture};
ghost use Rattle.rows.specs.Stands.{Finds};

use crate::found::Found;
use crate::page::cursor_in;
use video::cell::dark_word;
use video::composition::Composition;
use video::scan::Scan;

// A row with its cursor, at a blink count.
#[derive(Clone, Copy)]
pub(crate) struct Drawing<'a> {
    pub(crate) composition: Composition,
    pub(crate) cursor: Option<(u8, u8)>,
    pub(crate) blink: u8,
    pub(crate) found: &'a Found,
    // how many rows lie above it
    pub(crate) above: u8,
}

impl Drawing<'_> {
    // The picture bits of clock p of a line.
    fn word(&self, line: u8, p: u8) -> u32
        ensures { (n : ℕ) (page : List ℕ) → Finds (shape_of self.now.composition) n page self.now.above self.now.found.now.place self.now.found.now.row
            → result ≡ picture (shape_of self.now.composition) n page self.now.cursor self.now.blink (suc self.now.above) line p }
    {
        let scan = Scan {
            composition: self.composition,
            line,
            blink: self.blink,
        };
        if p >= self.composition.columns {
            return dark_word(scan.line_count(), true, false);
        }
        let here = cursor_in(self.cursor, u16::from(self.above) + 1, p);
        self.found.row.show.cell(p).word(scan, here)
    }

    // A line, as far as `out` reaches.
    fn line(&self, line: u8, out: &mut [u32])
        requires { length out.old < 256 }
        ensures size { length out.new ≡ length out.old }
        ensures words { (n : ℕ) (page : List ℕ) → Finds (shape_of self.now.composition) n page self.now.above self.now.found.now.place self.now.found.now.row
            → (p : ℕ) → p < length out.old → slice_index out.new p ≡ picture (shape_of self.now.composition) n page self.now.cursor self.now.blink (suc self.now.above) line p }
    {
        for (p, word) in out.iter_mut().enumerate() {
            *word = self.word(line, p as u8);
        }
    }

    // Every line, one behind another, into the first words of `out`.
    pub(crate) fn lines(&self, out: &mut [u32])
        requires { self.now.composition.lines * width (shape_of self.now.composition) ≤ length out.old }
        ensures size { length out.new ≡ length out.old }
        ensures words { (n : ℕ) (page : List ℕ) → Finds (shape_of self.now.composition) n page self.now.above self.now.found.now.place self.now.found.now.row
            → (line p : ℕ) → line < self.now.composition.lines → p < width (shape_of self.now.composition)
            → slice_index out.new (line * width (shape_of self.now.composition) + p) ≡ picture (shape_of self.now.composition) n page self.now.cursor self.now.blink (suc self.now.above) line p }
        ensures rest { (i : ℕ) → self.now.composition.lines * width (shape_of self.now.composition) ≤ i → slice_index out.new i ≡ slice_index out.old i }
    {
        let width = usize::from(self.composition.width());
        for line in 0..self.composition.lines {
            let from = usize::from(line) * width;
            self.line(line, &mut out[from..from + width]);
        }
    }
}
