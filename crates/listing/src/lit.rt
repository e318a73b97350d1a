// What the lit lines of a column say together.
ghost use Rattle.std.specs.Prelude.{◌≡◌, ℕ, ◌<◌, []};
ghost use Rattle.video.specs.Fields.{has};
ghost use Rattle.listing.specs.Looks.{figure};
ghost use Rattle.listing.specs.Summary.{summary, above, glyph_kept, marks_kept};

use crate::glyph::Glyph;
use crate::marks::Marks;

// A line is lit where its video is not suppressed.
#[derive(Clone, Copy)]
pub struct Lit {
    // the character code of the topmost, if any is lit
    pub code: Option<u8>,
    pub several: bool,
    // some line has a line attribute, light enable, reverse video, highlight
    pub attributes: bool,
    pub light: bool,
    pub reverse: bool,
    pub highlight: bool,
}

// The bit of a word that stands for `value`.
fn has(value: u32, word: u32) -> bool
    requires { 0 < value }
    ensures { result ≡ has value word }
{
    word / value % 2 == 1
}

// The line-drawing figure of a graphic code.
fn figure(code: u8) -> Glyph
    ensures { result ≡ figure code }
{
    match code {
        8 => Glyph::Level,
        9 => Glyph::Upright,
        _ => Glyph::Joint,
    }
}

impl Lit {
    // A column of no lines.
    pub fn none() -> Lit
        ensures { result ≡ summary [] }
    {
        Lit {
            code: None,
            several: false,
            attributes: false,
            light: false,
            reverse: false,
            highlight: false,
        }
    }

    // With one more line, above the others.
    pub fn under(self, word: u32) -> Lit
        ensures { result ≡ above word self }
    {
        if has(0x10000, word) {
            return self;
        }
        Lit {
            code: Some((word % 128) as u8),
            several: self.code.is_some(),
            attributes: has(0x1000, word) | has(0x2000, word) | self.attributes,
            light: has(0x4000, word) | self.light,
            reverse: has(0x8000, word) | self.reverse,
            highlight: has(0x20000, word) | self.highlight,
        }
    }

    pub fn glyph(self) -> Glyph
        ensures { result ≡ glyph_kept self }
    {
        match self.code {
            None => Glyph::Blank,
            Some(code) if self.attributes => figure(code / 4 % 16),
            // light on the only line that is lit: a line from side to side
            Some(_) if self.light & !self.several => Glyph::Level,
            Some(code) => Glyph::Character(code),
        }
    }

    pub fn marks(self) -> Marks
        ensures { result ≡ marks_kept self }
    {
        let written = matches!(self.glyph(), Glyph::Character(_));
        Marks {
            reverse: self.reverse,
            underline: written & self.light,
            highlight: self.highlight,
        }
    }
}
