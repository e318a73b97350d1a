// The words of a command line.
ghost use Rattle.std.specs.Prelude.{◌≡◌, ℕ};
ghost use Rattle.arguments.specs.Words.{other_word, word_of};

#[derive(Clone, Copy, PartialEq, Eq, Debug)]
pub enum Word {
    Help,
    Words,
    // options whose values come next
    Row,
    Bus,
    Frames,
    Cursor,
    UnknownOption,
    Operand,
}

// A word that is none of the options.
fn other(text: &[u8]) -> Word
    ensures { result ≡ other_word text.now }
{
    match text {
        [b'-', ..] => Word::UnknownOption,
        _ => Word::Operand,
    }
}

impl Word {
    pub fn read(text: &str) -> Word
        ensures { result ≡ word_of text.now }
    {
        match text {
            "--help" => Word::Help,
            "--row" => Word::Row,
            "--words" => Word::Words,
            "--bus" => Word::Bus,
            "--frames" => Word::Frames,
            "--cursor" => Word::Cursor,
            _ => other(text.as_bytes()),
        }
    }
}
