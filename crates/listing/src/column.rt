// The columns of a row, by its words.
ghost use Rattle.std.specs.Prelude.{◌≡◌, ℕ, slice_index_or};
ghost use Rattle.video.specs.Composition.{shape_of};
ghost use Rattle.listing.specs.Looks.{lit_lines, column_words, glyph_at, marks_at};
ghost use Rattle.listing.specs.Summary.{summary};

use crate::glyph::Glyph;
use crate::lit::Lit;
use crate::marks::Marks;
use video::composition::Composition;

// The words of a row, line by line as a composition has them.
#[derive(Clone, Copy)]
pub struct RowWords<'a> {
    pub composition: &'a Composition,
    pub words: &'a [u32],
}

impl RowWords<'_> {
    // A word, suppressed where there are too few.
    fn word_at(&self, i: usize) -> u32
        ensures { result ≡ slice_index_or self.now.words.now i 0x10000 }
    {
        self.words.get(i).copied().unwrap_or(0x10000)
    }

    fn lit(&self, column: u8) -> Lit
        ensures { result ≡ summary (lit_lines (column_words (shape_of self.now.composition.now) self.now.words.now column)) }
    {
        let width = (self.composition.columns + self.composition.retrace) as usize;
        let mut lit = Lit::none();
        for line in (0..self.composition.lines).rev() {
            lit = lit.under(self.word_at(line as usize * width + column as usize));
        }
        lit
    }

    // What a column shows.
    pub fn glyph(&self, column: u8) -> Glyph
        ensures { result ≡ glyph_at (shape_of self.now.composition.now) self.now.words.now column }
    {
        self.lit(column).glyph()
    }

    // How a column is set off.
    pub fn marks(&self, column: u8) -> Marks
        ensures { result ≡ marks_at (shape_of self.now.composition.now) self.now.words.now column }
    {
        self.lit(column).marks()
    }
}
