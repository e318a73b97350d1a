// What stands before the picture of a row.
ghost use Rattle.std.specs.Prelude.{◌≡◌, ℕ, ◌++◌, OnOk};
ghost use Rattle.layout.specs.Lines.{under, still_heading, frame_heading, still_figures, fate_word, fate_clocks, frame_figures};

use crate::fate::Fate;
use crate::numbers::{put, put_right};
use std::alloc::AllocError;

// A heading, where there is nothing yet.
fn put_heading(heading: &[u8], out: &mut Vec<u8>) -> Result<(), AllocError>
    ensures { OnOk result (out.new.items ≡ out.old.items ++ under heading.now out.old.items) }
{
    if out.is_empty() {
        out.extend_from_slice(heading)?;
    }
    Ok(())
}

// The number, place and size of a row, under a heading where it is the first.
pub fn put_still_figures(
    row: u8,
    place: usize,
    taken: usize,
    out: &mut Vec<u8>,
) -> Result<(), AllocError>
    ensures { OnOk result (out.new.items ≡ out.old.items ++ (under still_heading out.old.items ++ still_figures row place taken)) }
{
    put_heading(b"row  place  bytes  text\n", out)?;
    put(format_args!("{row:>3}{place:>7}{taken:>7}"), out)
}

// What becomes of a row, the clock of its last byte, and the last clock that would have been in time.
fn put_fate(fate: Fate, due: usize, out: &mut Vec<u8>) -> Result<(), AllocError>
    ensures { OnOk result (out.new.items ≡ out.old.items ++ (fate_word fate ++ fate_clocks fate due)) }
{
    match fate {
        Fate::Shown(last) => put(format_args!("  shown{last:>7}{due:>7}"), out),
        Fate::Late => put(format_args!("  late       -{due:>7}"), out),
        Fate::Dark => out.extend_from_slice(b"  dark       -      -"),
        Fate::Blank => out.extend_from_slice(b"  blank      -      -"),
    }
}

// The number of a row, what becomes of it in a frame, and its clocks, under a heading where it is the first.
pub fn put_frame_figures(
    row: u8,
    fate: Fate,
    due: usize,
    out: &mut Vec<u8>,
) -> Result<(), AllocError>
    ensures { OnOk result (out.new.items ≡ out.old.items ++ (under frame_heading out.old.items ++ frame_figures row fate due)) }
{
    put_heading(b"row  state   last    due  text\n", out)?;
    put_right(row as usize, 3, out)?;
    put_fate(fate, due, out)
}
