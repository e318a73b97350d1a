// How a column is set off from its neighbours.
ghost use Rattle.std.specs.Prelude.{◌≡◌, ℕ};
ghost use Rattle.listing.specs.Looks.{mark_byte};

#[derive(Clone, Copy, PartialEq, Eq, Debug)]
pub struct Marks {
    pub reverse: bool,
    pub underline: bool,
    pub highlight: bool,
}

impl Marks {
    // The marks as one character, which is a byte as a glyph is: `=` reverse, `_` underline, `!` highlight, `#` more than one.
    pub fn byte(self) -> u8
        ensures { result ≡ mark_byte self }
    {
        match (self.reverse, self.underline, self.highlight) {
            (false, false, false) => b' ',
            (true, false, false) => b'=',
            (false, true, false) => b'_',
            (false, false, true) => b'!',
            _ => b'#',
        }
    }
}
