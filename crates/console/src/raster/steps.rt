// One clock of the raster, by its parts.
ghost use Rattle.std.specs.Prelude.{◌≡◌, ℕ, ◌<◌, Bool, true, None};
ghost use Rattle.video.specs.Composition.{Shape, shape_of, line_count};
ghost use Rattle.video.specs.Picture.{look, cell_word, dark_word};
ghost use Rattle.rows.specs.Buffer.{full, column_cell};
ghost use Rattle.rows.specs.Model.{buffer_of, shown_of};
ghost use Rattle.frame.specs.Ports.{Bursts, bursts_of, new, disarmed};
ghost use Rattle.frame.specs.Timing.{pause};
ghost use Rattle.frame.specs.Machine.{frame_start, row_start, opening, idle, underrun, prepared, wants, hrtc, vrtc, lit, pictured, fed};
ghost use Rattle.console.specs.Raster.{core_of, AtHand};

use crate::raster::{Beam, Raster};
use frame::burst::Burst;
use rows::burst::BurstSize;
use rows::looks::Looks;
use rows::page::{blank, cursor_in};
use rows::state::RowBuffer;
use video::cell::dark_word;
use video::composition::Composition;
use video::scan::Scan;

// A row that takes nothing: a blank one, and what lies below the last.
fn idle(composition: &Composition, row: u8) -> bool
    ensures { result ≡ idle (shape_of composition.now) row }
{
    (row > composition.rows) | blank(composition, row)
}

// What passes behind byte number k of a row.
fn pause(burst: Burst, k: u8) -> u8
    ensures { result ≡ pause (bursts_of burst) k }
{
    if k % burst.size.bytes() == 0 {
        burst.space
    } else {
        0
    }
}

impl Raster {
    pub(crate) fn new() -> Raster
        ensures { core_of result ≡ new.core }
    {
        let top = RowBuffer::top();
        Raster {
            beam: Beam::default(),
            armed: false,
            dark: false,
            burst: Burst {
                size: BurstSize::One,
                space: 0,
            },
            gap: 0,
            fill: top,
            shown: top.show,
            looks: None,
        }
    }

    // The rest of the frame is dark and asks for nothing.
    pub(crate) fn disarm(&mut self)
        ensures { core_of self.new ≡ disarmed (core_of self.old) }
    {
        self.armed = false;
    }

    // The row whose time has come is late.
    pub(crate) fn underrun(&self) -> bool
        ensures { result ≡ underrun (core_of self.now) }
    {
        self.armed & (!self.dark & !self.fill.full())
    }

    // A byte is asked for.
    pub(crate) fn wants(&self) -> bool
        ensures { result ≡ wants (core_of self.now) }
    {
        self.armed & (!self.dark & (!self.fill.full() & (self.gap == 0)))
    }

    // The first clock of a frame.
    pub(crate) fn start_frame(&mut self, composition: &Composition, ve: bool, burst: Burst)
        ensures core { core_of self.new ≡ prepared (shape_of composition.now) ve (bursts_of burst) frame_start (core_of self.old) }
        ensures stays { self.new.beam ≡ self.old.beam }
    {
        let top = RowBuffer::top();
        self.armed = ve;
        self.dark = false;
        self.gap = 0;
        self.fill = RowBuffer::fresh(composition, idle(composition, 1), &top);
        if ve {
            self.burst = burst;
        }
    }

    // The first clock of a row time behind the first: the row that was filled is shown, and the next one begins.
    pub(crate) fn start_row(&mut self, composition: &Composition)
        requires { self.old.beam.row < 255 }
        ensures core { (ve : Bool) (b : Bursts) → core_of self.new ≡ prepared (shape_of composition.now) ve b row_start (core_of self.old) }
        ensures stays { self.new.beam ≡ self.old.beam }
    {
        let late = self.underrun();
        let next = RowBuffer::fresh(
            composition,
            idle(composition, self.beam.row + 1),
            &self.fill,
        );
        self.dark = self.dark | late;
        self.gap = 0;
        self.looks = None;
        self.shown = self.fill.show;
        self.fill = next;
    }

    // The retrace at the end of a line.
    fn hrtc(&self, composition: &Composition) -> bool
        ensures { result ≡ hrtc (shape_of composition.now) (core_of self.now) }
    {
        self.beam.column >= composition.columns
    }

    // The retrace at the end of a frame, and in its row time 0.
    fn vrtc(&self, composition: &Composition) -> bool
        ensures { result ≡ vrtc (shape_of composition.now) (core_of self.now) }
    {
        (self.beam.row == 0) | (self.beam.row > composition.rows)
    }

    // The clock shows a column of a row.
    pub(crate) fn lit(&self, composition: &Composition) -> bool
        ensures { result ≡ lit (shape_of composition.now) (core_of self.now) }
    {
        self.armed & (!self.dark & (!self.vrtc(composition) & !self.hrtc(composition)))
    }

    // The picture bits of a clock that shows none.
    pub(crate) fn dark_word(&self, composition: &Composition) -> u32
        ensures small { result < 0x400000 }
        ensures is { result ≡ dark_word (line_count (shape_of composition.now) self.now.beam.line)
            (hrtc (shape_of composition.now) (core_of self.now)) (vrtc (shape_of composition.now) (core_of self.now)) }
    {
        dark_word(
            composition.line_count(self.beam.line),
            self.hrtc(composition),
            self.vrtc(composition),
        )
    }

    // The line that the clock is on.
    fn scan(&self, composition: &Composition) -> Scan
        ensures { result ≡ record { composition = composition.now; line = self.now.beam.line; blink = self.now.beam.blink } }
    {
        Scan {
            composition: *composition,
            line: self.beam.line,
            blink: self.beam.blink,
        }
    }

    // The looks of the row's columns are at hand for the line.
    pub(crate) fn has_looks(&self, composition: &Composition) -> bool
        ensures { result ≡ true → AtHand (shape_of composition.now) self.now }
    {
        match &self.looks {
            Some(looks) => looks.are_of(self.scan(composition).kind()),
            None => false,
        }
    }

    // The look of a column, where the looks are at hand.
    pub(crate) fn look(&self, p: u8) -> u32
        ensures { (c : Shape) → AtHand c self.now → p < 80 → result ≡ look c self.now.beam.line self.now.beam.blink (column_cell (shown_of self.now.shown) p) }
    {
        match &self.looks {
            Some(looks) => looks.of_column(p),
            None => 0,
        }
    }

    // Where a row is shown, the looks of its columns are at hand for the line.
    pub(crate) fn draw_row(&mut self, composition: &Composition)
        ensures core { core_of self.new ≡ core_of self.old }
        ensures stays { self.new.beam ≡ self.old.beam }
    {
        if self.lit(composition) & !self.has_looks(composition) {
            self.looks = Some(Looks::of(&self.shown, self.scan(composition)));
        }
    }

    // The picture bits of the column of the clock: `here` where the cursor stands in it.
    fn column_word(&self, composition: &Composition, here: bool) -> u32
        ensures is { result ≡ cell_word (shape_of composition.now) self.now.beam.line self.now.beam.blink here (column_cell (shown_of self.now.shown) self.now.beam.column) }
        ensures small { result < 0x400000 }
    {
        if here | ((self.beam.column >= 80) | !self.has_looks(composition)) {
            let cell = self.shown.cell(self.beam.column);
            return cell.word(self.scan(composition), here);
        }
        self.look(self.beam.column) + 0x100 * composition.line_count(self.beam.line) as u32
    }

    // The picture bits of the clock.
    pub(crate) fn picture(&self, composition: &Composition, cursor: Option<(u8, u8)>) -> u32
        ensures small { result < 0x400000 }
        ensures is { result ≡ pictured (shape_of composition.now) cursor (core_of self.now) }
    {
        if self.lit(composition) {
            let here = cursor_in(cursor, self.beam.row as u16, self.beam.column);
            self.column_word(composition, here)
        } else {
            self.dark_word(composition)
        }
    }

    // What came is stored.
    pub(crate) fn feed(&mut self, composition: &Composition, came: Option<u8>)
        requires { full (buffer_of self.old.fill).take ≡ true → came ≡ None }
        ensures core { core_of self.new ≡ fed (shape_of composition.now) (core_of self.old) came }
        ensures stays { self.new.beam ≡ self.old.beam }
    {
        match came {
            None => self.gap = self.gap.saturating_sub(1),
            Some(b) => {
                self.fill.store(composition.opaque, self.burst.size, b);
                self.gap = pause(self.burst, self.fill.take.taken);
            }
        }
    }
}
