// What the words of a row show.
ghost use Rattle.std.specs.Prelude.{◌≡◌, ℕ, ◌++◌, OnOk};
ghost use Rattle.video.specs.Composition.{shape_of};
ghost use Rattle.layout.specs.Lines.{behind, pictured};

use listing::column::RowWords;
use listing::row::trimmed;
use std::alloc::{AllocError, Global};
use video::composition::Composition;

// A text behind what leads to it, or neither where there is no text.
fn put_behind(lead: &[u8], text: &[u8], out: &mut Vec<u8>) -> Result<(), AllocError>
    ensures { OnOk result (out.new.items ≡ out.old.items ++ behind lead.now text.now) }
{
    if !text.is_empty() {
        out.extend_from_slice(lead)?;
    }
    out.extend_from_slice(text)
}

// The text of a row behind its figures, and behind a margin a line of its marks; each if there is any.
pub fn put_picture(
    heap: Global,
    composition: &Composition,
    words: &[u32],
    margin: &[u8],
    out: &mut Vec<u8>,
) -> Result<(), AllocError>
    ensures { OnOk result (out.new.items ≡ out.old.items ++ pictured margin.now (shape_of composition.now) words.now) }
{
    let row = RowWords { composition, words };
    let text = row.text(heap)?;
    let marks = row.mark_line(heap)?;
    put_behind(b"  ", trimmed(text.as_slice()), out)?;
    put_behind(margin, trimmed(marks.as_slice()), out)?;
    out.extend_from_slice(b"\n")
}
