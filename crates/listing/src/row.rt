// The text of a row, its mark line, and its words.
ghost use Rattle.std.specs.Prelude.{◌≡◌, ℕ, IfOk};
ghost use Rattle.video.specs.Composition.{shape_of};
ghost use Rattle.listing.specs.Looks.{row_text, row_marks, Trimmed};
ghost use Rattle.listing.specs.Words.{word_line, word_lines};

use crate::column::RowWords;
use nibble::write;
use std::alloc::{AllocError, Global};

impl RowWords<'_> {
    // What a row shows, a character to a column.
    pub fn text(&self, heap: Global) -> Result<Vec<u8>, AllocError>
        ensures { IfOk result (λ v. v.items ≡ row_text (shape_of self.now.composition.now) self.now.words.now) }
    {
        (0..self.composition.columns)
            .map(|column| self.glyph(column).byte())
            .collect(heap)
    }

    // How a row's columns are set off, a character to a column.
    pub fn mark_line(&self, heap: Global) -> Result<Vec<u8>, AllocError>
        ensures { IfOk result (λ v. v.items ≡ row_marks (shape_of self.now.composition.now) self.now.words.now) }
    {
        (0..self.composition.columns)
            .map(|column| self.marks(column).byte())
            .collect(heap)
    }
}

// Text without the spaces at its end.
pub fn trimmed(text: &[u8]) -> &[u8]
    ensures { Trimmed text.now result.now }
{
    match text.iter().rposition(|c| *c != b' ') {
        Some(last) => &text[..=last],
        None => &[],
    }
}

// A word in eight hexadecimal digits, and a line feed.
pub fn word_line(word: u32) -> [u8; 9]
    ensures { result ≡ word_line word }
{
    let [first, second, third, fourth] = word.to_be_bytes();
    [
        write(first / 16),
        write(first),
        write(second / 16),
        write(second),
        write(third / 16),
        write(third),
        write(fourth / 16),
        write(fourth),
        b'\n',
    ]
}

// Words, each on a line of its own.
pub fn word_lines(heap: Global, words: &[u32]) -> Result<Vec<u8>, AllocError>
    ensures { IfOk result (λ v. v.items ≡ word_lines words.now) }
{
    let mut lines = Vec::new(heap);
    for word in words {
        lines.extend_from_slice(&word_line(*word))?;
    }
    Ok(lines)
}
