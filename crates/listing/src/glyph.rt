// What a column shows.
ghost use Rattle.std.specs.Prelude.{◌≡◌, ℕ};
ghost use Rattle.listing.specs.Looks.{glyph_byte};

#[derive(Clone, Copy, PartialEq, Eq, Debug)]
pub enum Glyph {
    // nothing is lit
    Blank,
    // a line from top to bottom, one from side to side, a corner or a crossing
    Upright,
    Level,
    Joint,
    Character(u8),
}

impl Glyph {
    // The glyph in ASCII, a full stop for a character that has no print: a byte and no `Display`, since a row's text is bytes.
    pub fn byte(self) -> u8
        ensures { result ≡ glyph_byte self }
    {
        match self {
            Glyph::Blank => b' ',
            Glyph::Upright => b'|',
            Glyph::Level => b'-',
            Glyph::Joint => b'+',
            Glyph::Character(code @ 0x20..=0x7E) => code,
            Glyph::Character(_) => b'.',
        }
    }
}
