// Numbers as text.
ghost use Rattle.std.specs.Prelude.{◌≡◌, ℕ, ◌++◌, IfSome, OnOk};
ghost use Rattle.layout.specs.Numbers.{right, hex};

use nibble::write;
use std::alloc::AllocError;
use std::fmt::Display;
use std::io::Write;

// A text behind what is listed so far.
pub(crate) fn put<D: Display + Drop>(text: D, out: &mut Vec<u8>) -> Result<(), AllocError>
    ensures { OnOk result (IfSome (D.output text) (λ bs. out.new.items ≡ out.old.items ++ bs)) }
{
    // Numbers and words never fail to print, and a `Vec` refuses bytes for want of memory alone.
    out.write_fmt(text).map_err(|_| AllocError)
}

// A number in decimal digits, behind as many spaces as make it `width` characters.
pub fn put_right(number: usize, width: usize, out: &mut Vec<u8>) -> Result<(), AllocError>
    ensures { OnOk result (out.new.items ≡ out.old.items ++ right width number) }
{
    put(format_args!("{number:>width$}"), out)
}

// A byte in two hexadecimal digits.
pub fn put_hex(byte: u8, out: &mut Vec<u8>) -> Result<(), AllocError>
    ensures { OnOk result (out.new.items ≡ out.old.items ++ hex byte) }
{
    out.extend_from_slice(&[write(byte / 16), write(byte)])
}
