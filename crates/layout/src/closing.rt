// The lines that close a listing.
ghost use Rattle.std.specs.Prelude.{◌≡◌, ℕ, [], ◌∷◌, ◌++◌, OnOk};
ghost use Rattle.layout.specs.Closing.{still_total, status_line, frame_total};

use crate::numbers::{put, put_hex};
use std::alloc::AllocError;

// How many of all rows are shown, and how many of a page's bytes they use.
pub fn put_still_total(
    shown: usize,
    rows: u8,
    used: usize,
    page: usize,
    out: &mut Vec<u8>,
) -> Result<(), AllocError>
    ensures { OnOk result (out.new.items ≡ out.old.items ++ still_total shown rows used page) }
{
    let left = page.saturating_sub(used);
    put(
        format_args!(
            "{shown} of {rows} rows shown, {used} of {page} bytes of the page used, {left} left\n"
        ),
        out,
    )
}

fn put_status(status: u8, behind: &[u8], out: &mut Vec<u8>) -> Result<(), AllocError>
    ensures { OnOk result (out.new.items ≡ out.old.items ++ status_line status behind.now) }
{
    out.extend_from_slice(b"status ")?;
    put_hex(status, out)?;
    out.extend_from_slice(behind)
}

// A line with the status byte.
pub fn put_status_line(status: u8, out: &mut Vec<u8>) -> Result<(), AllocError>
    ensures { OnOk result (out.new.items ≡ out.old.items ++ status_line status (10 ∷ [])) }
{
    put_status(status, b"\n", out)
}

// The status byte, the clocks of all frames, and the first late row.
pub fn put_frame_total(
    status: u8,
    played: usize,
    late: Option<u8>,
    out: &mut Vec<u8>,
) -> Result<(), AllocError>
    ensures { OnOk result (out.new.items ≡ out.old.items ++ frame_total status played late) }
{
    put_status(status, b", ", out)?;
    put(format_args!("{played} clocks played\n"), out)?;
    match late {
        Some(row) => put(format_args!("dark from row {row} on\n"), out),
        None => out.extend_from_slice(b"every row true\n"),
    }
}
