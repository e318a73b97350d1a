// How the cursor is shown.
ghost use Rattle.std.specs.Prelude.{◌≡◌};

#[derive(Clone, Copy, PartialEq, Eq, Debug)]
pub enum CursorFormat {
    BlinkingBlock,
    BlinkingUnderline,
    Block,
    Underline,
}

impl CursorFormat {
    ghost use Rattle.video.specs.Composition.{cursor_format};
    ghost use Rattle.video.specs.Picture.{cursor_acts, is_block};

    // The format that a code of two bits asks for.
    pub fn from_code(code: u8) -> CursorFormat
        ensures { result ≡ cursor_format code }
    {
        match code {
            0 => CursorFormat::BlinkingBlock,
            1 => CursorFormat::BlinkingUnderline,
            2 => CursorFormat::Block,
            _ => CursorFormat::Underline,
        }
    }

    // A cursor in this format is to be seen at a blink count.
    pub(crate) fn acts(self, blink: u8) -> bool
        ensures { result ≡ cursor_acts self blink }
    {
        matches!(self, CursorFormat::Block | CursorFormat::Underline) | (blink % 16 < 8)
    }

    pub(crate) fn is_block(self) -> bool
        ensures { result ≡ is_block self }
    {
        matches!(self, CursorFormat::BlinkingBlock | CursorFormat::Block)
    }
}
