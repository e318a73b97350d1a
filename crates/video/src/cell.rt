// What a column holds, and the picture bits that it puts out.
//
//    21   20   19   18   17   16  15  14   13  12   11..8      6..0
//   VRTC HRTC GPA1 GPA0 HGLT VSP RVV LTEN LA1 LA0 line count character
ghost use Rattle.std.specs.Prelude.{◌≡◌, ℕ, ◌+◌, ◌*◌, ◌/◌, ◌%◌, ◌<◌, ◌≤◌, Bool, true, false};
ghost use Rattle.video.specs.Composition.{shape_of, line_count};
ghost use Rattle.video.specs.Picture.{text_signals, graphic_signals, finished, signals_word, dark_word, cell_word, look};

use crate::field::Field;
use crate::mark::Mark;
use crate::scan::Scan;
use crate::signals::Signals;
use crate::table::mark;

#[derive(Clone, Copy)]
pub enum Cell {
    Dark,
    // a character in its field
    Text(u8, Field),
    // a graphic code, with its own blink and highlight bits, in its field
    Symbol(u8, Field),
}

fn text_signals(scan: Scan, cc: u8, field: Field) -> Signals
    ensures { result ≡ text_signals scan.composition.underline scan.line scan.blink cc field }
{
    Signals {
        cc,
        la1: false,
        la0: false,
        lten: field.underline & (scan.line == scan.composition.underline),
        rvv: field.reverse,
        vsp: field.blink & (scan.blink >= 16),
        hglt: field.highlight,
        gpa1: field.gpa1,
        gpa0: field.gpa0,
    }
}

fn graphic_signals(scan: Scan, byte: u8, field: Field) -> Signals
    ensures { result ≡ graphic_signals scan.composition.underline scan.line scan.blink byte field }
{
    let mark = mark(scan.composition.underline, scan.line, byte / 4 % 16);
    let blinks = byte / 2 % 2 == 1;
    Signals {
        cc: byte % 128,
        la1: matches!(mark, Mark::La10 | Mark::La11),
        la0: matches!(mark, Mark::La01 | Mark::La11),
        lten: matches!(mark, Mark::Lten),
        rvv: field.reverse,
        vsp: matches!(mark, Mark::Vsp) | (blinks & (scan.blink >= 16)),
        hglt: byte % 2 == 1,
        gpa1: field.gpa1,
        gpa0: field.gpa0,
    }
}

// With the suppressed lines and the cursor, which is `here` or not.
fn finished(scan: Scan, here: bool, x: Signals) -> Signals
    ensures { result ≡ finished (shape_of scan.composition) scan.line scan.blink here x }
{
    let cursor = scan.composition.cursor;
    let acts = here & cursor.acts(scan.blink);
    let block = cursor.is_block();
    Signals {
        lten: x.lten | (acts & (!block & (scan.line == scan.composition.underline))),
        rvv: x.rvv ^ (acts & block),
        vsp: x.vsp | scan.is_blanked(),
        ..x
    }
}

fn signals_word(count: u8, x: Signals) -> u32
    ensures is { result ≡ signals_word count x }
    ensures small { result < 0x400000 }
{
    u32::from(x.cc % 128)
        + 0x100 * u32::from(count)
        + 0x1000 * u32::from(x.la0)
        + 0x2000 * u32::from(x.la1)
        + 0x4000 * u32::from(x.lten)
        + 0x8000 * u32::from(x.rvv)
        + 0x10000 * u32::from(x.vsp)
        + 0x20000 * u32::from(x.hglt)
        + 0x40000 * u32::from(x.gpa0)
        + 0x80000 * u32::from(x.gpa1)
}

// A dark clock: video suppression and the line count alone, with the retrace lines.
pub fn dark_word(count: u8, hrtc: bool, vrtc: bool) -> u32
    ensures is { result ≡ dark_word count hrtc vrtc }
    ensures small { result < 0x400000 }
{
    0x100 * u32::from(count) + 0x10000 + 0x100000 * u32::from(hrtc) + 0x200000 * u32::from(vrtc)
}

impl Cell {
    // The picture bits of a column, with the cursor where it stands `here`.
    pub fn word(self, scan: Scan, here: bool) -> u32
        ensures is { result ≡ cell_word (shape_of scan.composition) scan.line scan.blink here self }
        ensures small { result < 0x400000 }
    {
        self.bits(scan, scan.line_count(), here)
    }

    // The same without line count and cursor: what a column has alike on all lines of a kind.
    pub fn look(self, scan: Scan) -> u32
        ensures { result ≡ look (shape_of scan.composition) scan.line scan.blink self }
    {
        self.bits(scan, 0, false)
    }

    // The same with a line count of its own. A part of both callers, since a call for each column would cost a quarter of the speed of play.
    #[inline(always)]
    #[tactic(auto, unfolding(crate::specs::Picture::cell_word, crate::specs::Picture::look))]
    fn bits(self, scan: Scan, count: u8, here: bool) -> u32
        ensures word { count ≡ line_count (shape_of scan.composition) scan.line → result ≡ cell_word (shape_of scan.composition) scan.line scan.blink here self }
        ensures look { count ≡ 0 → here ≡ false → result ≡ look (shape_of scan.composition) scan.line scan.blink self }
        ensures small { result < 0x400000 }
    {
        let signals = match self {
            Cell::Dark => return dark_word(count, false, false),
            Cell::Text(cc, field) => text_signals(scan, cc, field),
            Cell::Symbol(byte, field) => graphic_signals(scan, byte, field),
        };
        signals_word(count, finished(scan, here, signals))
    }
}
