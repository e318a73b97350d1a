// A reader of one page, which hands out row windows and row stills.
ghost use Rattle.std.specs.Prelude.{◌≡◌, ℕ, ◌≤◌, length, Some, Option, MatchResult, OnOk};
ghost use Rattle.refusal.specs.declared.Refusal.{Refusal as Reason};
ghost use Rattle.video.specs.Composition.{shape_of};
ghost use Rattle.rows.specs.Takes.{burst_bytes};
ghost use Rattle.rows.specs.Refusals.{row_refusal, window_refusal, still_refusal};
ghost use Rattle.rows.specs.Laws.{Windowed, Still};

use crate::burst::BurstSize;
use crate::drawing::Drawing;
use crate::page::blank;
use refusal::Refusal;
use video::composition::Composition;

// The part of a page that a row takes, and the index of its first byte.
#[derive(Clone, Copy)]
pub struct RowWindow<'a> {
    pub bytes: &'a [u8],
    pub place: usize,
}

// A page read by one composition and burst size.
#[derive(Clone, Copy)]
pub struct PageReader<'a> {
    page: &'a [u8],
    composition: Composition,
    burst: BurstSize,
}

impl<'a> PageReader<'a> {
    pub fn new(composition: Composition, burst: BurstSize, page: &'a [u8]) -> PageReader<'a>
        ensures { (result.composition ≡ composition) × (result.burst ≡ burst) × (result.page.now ≡ page.now) }
    {
        PageReader {
            page,
            composition,
            burst,
        }
    }

    // The page is not too long, and has such a row.
    fn check(&self, row: u8) -> Result<(), Refusal>
        ensures refused { (other : Option Reason) → MatchResult result
            (λ _. row_refusal (shape_of self.now.composition) self.now.page.now row other ≡ other)
            (λ e. row_refusal (shape_of self.now.composition) self.now.page.now row other ≡ Some e) }
        ensures there { OnOk result ((1 ≤ row) × (row ≤ self.now.composition.rows)) }
    {
        if self.page.len() > 16384 {
            return Err(Refusal::PageTooLong);
        }
        if row == 0 || row > self.composition.rows || blank(&self.composition, row) {
            return Err(Refusal::NoSuchRow);
        }
        Ok(())
    }

    // The part of the page that a row takes, and its place.
    pub fn window(&self, row: u8) -> Result<RowWindow<'a>, Refusal>
        ensures { MatchResult result
            (λ w. Windowed (shape_of self.now.composition) (burst_bytes self.now.burst) self.now.page.now row w.place w.bytes.now)
            (λ e. window_refusal (shape_of self.now.composition) (burst_bytes self.now.burst) self.now.page.now row ≡ Some e) }
    {
        self.check(row)?;
        let Some(found) = self.locate(row) else {
            return Err(Refusal::PageEnds);
        };
        let place = found.place;
        let end = found.end();
        Ok(RowWindow {
            bytes: &self.page[place..end],
            place,
        })
    }

    // The page's picture of a row, into the first words of `out`.
    pub fn still(
        &self,
        row: u8,
        cursor: Option<(u8, u8)>,
        blink: u8,
        out: &mut [u32],
    ) -> Result<(), Refusal>
        ensures { MatchResult result
            (λ _. Still (shape_of self.now.composition) (burst_bytes self.now.burst) self.now.page.now cursor blink row out.old out.new)
            (λ e. (still_refusal (shape_of self.now.composition) (burst_bytes self.now.burst) self.now.page.now row (length out.old) ≡ Some e)
            × (out.new ≡ out.old)) }
    {
        self.check(row)?;
        let width = usize::from(self.composition.width());
        if out.len() < usize::from(self.composition.lines) * width {
            return Err(Refusal::BufferTooSmall);
        }
        let Some(found) = self.locate(row) else {
            return Err(Refusal::PageEnds);
        };
        let drawing = Drawing {
            composition: self.composition,
            cursor,
            blink,
            found: &found,
            above: row - 1,
        };
        drawing.lines(out);
        Ok(())
    }
}

pub mod rows;
