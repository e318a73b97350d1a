// What the program says of itself.
pub(crate) const USAGE: &str =
    "usage: screen COMPOSITION START PAGEFILE [--row J] [--words] [--cursor C,R] [--bus KIND [--frames K]]\n";

pub(crate) const HELP: &str = "
Lists the rows of a page of screen bytes as an Intel 8275 would show them.

  COMPOSITION   the four parameters of Reset, eight hexadecimal digits
  START         the Start Display command, 20 to 3F
  PAGEFILE      the screen bytes, at most 16384
  --row J       only row J
  --words       only the words of the rows, eight hexadecimal digits a line
  --cursor C,R  the cursor in column C and row R, from 0
  --bus KIND    frames, clock by clock, with the bytes fetched over a bus that is
                free             always free
                turns:A:B        free for A clocks, then busy for B, in turn
                spans:F+N,F+N,.. busy from clock F on for N clocks, and so on
  --frames K    K frames instead of one; the last of them is listed

A row has its number, the place of its first byte in the page, the number of
its bytes and its text: suppressed video is a space, line drawings are | - +,
and a character without print is a full stop. Under it stand its marks:
= reverse video, _ underline, ! highlight, # more than one of them.

With --bus a row is shown, late (its bytes did not all come), dark (below a late
row) or blank (it takes none). Last is the clock of the frame in which its last
byte came, due the last in which that was in time. The status byte follows,
and with --words it stands behind the words of all frames.
";
