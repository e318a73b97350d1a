// Rows of a page and the cursor, by their numbers.
ghost use Rattle.std.specs.Prelude.{◌≡◌, ℕ, ◌+◌, ◌<◌, ◌≤◌, true, false};
ghost use Rattle.video.specs.Composition.{shape_of};
ghost use Rattle.rows.specs.Page.{blank, cursor_in};

use video::composition::Composition;

pub fn blank(composition: &Composition, row: u8) -> bool
    ensures { result ≡ blank (shape_of composition.now) row }
{
    composition.spaced & (row % 2 == 0)
}

// The cursor, whose column and row count from 0, stands in column p of a row.
pub fn cursor_in(cursor: Option<(u8, u8)>, row: u16, p: u8) -> bool
    ensures { result ≡ cursor_in cursor row p }
{
    cursor.is_some_and(|(column, above)| (column == p) & (u16::from(above) + 1 == row))
}

// How many columns from `from` on, at most `most`, are ahead of the cursor or without one.
pub fn without_cursor(cursor: Option<(u8, u8)>, row: u16, from: u8, most: u8) -> u8
    ensures most { result ≤ most }
    ensures none { (p : ℕ) → from ≤ p → p < from + result → cursor_in cursor row p ≡ false }
    ensures next { result < most → cursor_in cursor row (from + result) ≡ true }
{
    match cursor {
        Some((column, above)) if (column >= from) & (u16::from(above) + 1 == row) => {
            (column - from).min(most)
        }
        _ => most,
    }
}
