// The rows of a page by their stills.
ghost use Rattle.std.specs.Prelude.{◌≡◌, ◌≤◌, ◌++◌, MatchResult, IfOk, OnOk};
ghost use Rattle.video.specs.Composition.{shape_of};
ghost use Rattle.console.specs.Answers.{WindowOf};
ghost use Rattle.console.specs.Model.{state_of};
ghost use Rattle.listing.specs.Words.{word_lines};
ghost use Rattle.layout.specs.Lines.{pictured, under, still_heading};
ghost use Rattle.sheet.specs.Screens.{Composed, RefusedRow, StoppedRow, Stopped};
ghost use Rattle.sheet.specs.Stills.{still_words, row_rest, still_margin, ListedRow, blank_lines, tally, with_rows, NextRow, with_words, closed, still_listing, alone_listing};

use crate::screen::Screen;
use crate::stop::Stop;
use crate::tally::Tally;
use layout::closing::put_still_total;
use layout::figures::put_still_figures;
use layout::picture::put_picture;
use listing::row::word_lines;
use rows::page::blank;
use rows::reader::RowWindow;
use std::alloc::{AllocError, Global};

const MARGIN: &[u8; 20] = b"\n                   ";

// A row left blank by spacing.
fn put_blank(row: u8, place: usize, out: &mut Vec<u8>) -> Result<(), AllocError>
    ensures { OnOk result (out.new.items ≡ out.old.items ++ (under still_heading out.old.items ++ blank_lines row place)) }
{
    put_still_figures(row, place, 0, out)?;
    out.extend_from_slice(b"  (blank by spacing)\n")?;
    Ok(())
}

// The stills of a page on a screen.
#[derive(Clone, Copy)]
pub struct Stills<'a> {
    heap: Global,
    screen: &'a Screen,
    page: &'a [u8],
}

impl<'a> Stills<'a> {
    pub fn new(heap: Global, screen: &'a Screen, page: &'a [u8]) -> Stills<'a>
        ensures { (result.screen.now ≡ screen.now) × (result.page.now ≡ page.now) }
    {
        Stills { heap, screen, page }
    }

    // The words of a row's still.
    fn words(&self, row: u8) -> Result<Vec<u32>, Stop>
        ensures { Composed self.now.screen.now → MatchResult result
            (λ v. v.items ≡ still_words self.now.screen.now self.now.page.now row)
            (λ e. RefusedRow self.now.screen.now self.now.page.now row e) }
    {
        let composition = self.screen.composition;
        let width = usize::from(composition.width());
        let mut still = Vec::from_elem(self.heap, 0u32, usize::from(composition.lines) * width)?;
        self.screen
            .console
            .still(self.page, row, still.as_mut_slice())
            .map_err(|refusal| Stop::at(row, refusal))?;
        Ok(still)
    }

    // The part of the page that a row takes.
    fn window(&self, row: u8) -> Result<RowWindow<'a>, Stop>
        ensures { MatchResult result
            (λ w. WindowOf (state_of self.now.screen.now.console) self.now.page.now row w.place w.bytes.now)
            (λ e. RefusedRow self.now.screen.now self.now.page.now row e) }
    {
        self.screen
            .console
            .window(self.page, row)
            .map_err(|refusal| Stop::at(row, refusal))
    }

    // The lines of a row that is not left blank by spacing, under a heading where it is the first, and the number of its bytes.
    fn put_row(&self, row: u8, out: &mut Vec<u8>) -> Result<usize, Stop>
        ensures few { IfOk result (λ n. n ≤ 16384) }
        ensures listed { Composed self.now.screen.now → MatchResult result
            (λ n. ListedRow self.now.screen.now self.now.page.now row n out.old.items out.new.items)
            (λ e. StoppedRow self.now.screen.now self.now.page.now row e out.old.items out.new.items) }
    {
        let window = self.window(row)?;
        let still = self.words(row)?;
        let taken = window.bytes.len();
        put_still_figures(row, window.place, taken, out)?;
        self.put_rest(taken, still.as_slice(), out)?;
        Ok(taken)
    }

    // What stands behind the figures of a row.
    fn put_rest(&self, taken: usize, still: &[u32], out: &mut Vec<u8>) -> Result<(), AllocError>
        ensures { OnOk result (out.new.items ≡ out.old.items
            ++ row_rest taken (pictured still_margin (shape_of self.now.screen.now.composition) still.now)) }
    {
        if taken == 0 {
            out.extend_from_slice(b"  (past the end of the screen)\n")
        } else {
            put_picture(self.heap, &self.screen.composition, still, MARGIN, out)
        }
    }

    // The lines of any row, which begins at a place in the page if it is left blank, and the number of its bytes.
    fn put_any_row(&self, row: u8, place: usize, out: &mut Vec<u8>) -> Result<usize, Stop>
        ensures few { IfOk result (λ n. n ≤ 16384) }
        ensures listed { Composed self.now.screen.now → MatchResult result
            (λ n. NextRow self.now.screen.now self.now.page.now row place n out.old.items out.new.items)
            (λ e. StoppedRow self.now.screen.now self.now.page.now row e out.old.items out.new.items) }
    {
        if blank(&self.screen.composition, row) {
            put_blank(row, place, out)?;
            return Ok(0);
        }
        self.put_row(row, out)
    }

    // The lines of every row, and their tally.
    fn put_rows(&self, out: &mut Vec<u8>) -> Result<Tally, Stop>
        ensures { let x = self.now.screen.now in let page = self.now.page.now in Composed x → MatchResult result
            (λ t. (t ≡ tally x page x.composition.rows)
            × (out.new.items ≡ with_rows x page out.old.items x.composition.rows))
            (λ e. Stopped x page (with_rows x page out.old.items) e out.new.items) }
    {
        let mut tally = Tally::default();
        for row in 1..=self.screen.composition.rows {
            let taken = self.put_any_row(row, tally.used, out)?;
            tally = tally.with(taken);
        }
        Ok(tally)
    }

    // The words of a row's still, each on a line of its own.
    pub fn put_row_words(&self, row: u8, out: &mut Vec<u8>) -> Result<(), Stop>
        ensures { Composed self.now.screen.now → MatchResult result
            (λ _. out.new.items ≡ out.old.items ++ word_lines (still_words self.now.screen.now self.now.page.now row))
            (λ e. StoppedRow self.now.screen.now self.now.page.now row e out.old.items out.new.items) }
    {
        let still = self.words(row)?;
        let lines = word_lines(self.heap, still.as_slice())?;
        out.extend_from_slice(lines.as_slice())?;
        Ok(())
    }

    // The words of every row, none of a row left blank by spacing.
    pub fn put_words(&self, out: &mut Vec<u8>) -> Result<(), Stop>
        ensures { let x = self.now.screen.now in let page = self.now.page.now in Composed x → MatchResult result
            (λ _. out.new.items ≡ with_words x page out.old.items x.composition.rows)
            (λ e. Stopped x page (with_words x page out.old.items) e out.new.items) }
    {
        for row in 1..=self.screen.composition.rows {
            if !blank(&self.screen.composition, row) {
                self.put_row_words(row, out)?;
            }
        }
        Ok(())
    }

    fn put_total(&self, tally: Tally, out: &mut Vec<u8>) -> Result<(), AllocError>
        ensures { OnOk result (out.new.items ≡ closed (shape_of self.now.screen.now.composition) self.now.page.now tally out.old.items) }
    {
        let rows = self.screen.composition.rows;
        put_still_total(tally.shown, rows, tally.used, self.page.len(), out)
    }

    // The listing of every row.
    pub fn put_stills(&self, out: &mut Vec<u8>) -> Result<(), Stop>
        ensures { let x = self.now.screen.now in let page = self.now.page.now in Composed x → MatchResult result
            (λ _. out.new.items ≡ still_listing x page out.old.items)
            (λ e. Stopped x page (with_rows x page out.old.items) e out.new.items) }
    {
        let tally = self.put_rows(out)?;
        self.put_total(tally, out)?;
        Ok(())
    }

    // The listing of one row.
    pub fn put_still(&self, row: u8, out: &mut Vec<u8>) -> Result<(), Stop>
        ensures { Composed self.now.screen.now → MatchResult result
            (λ _. out.new.items ≡ alone_listing self.now.screen.now self.now.page.now row out.old.items)
            (λ e. StoppedRow self.now.screen.now self.now.page.now row e out.old.items out.new.items) }
    {
        let taken = self.put_row(row, out)?;
        self.put_total(Tally::default().with(taken), out)?;
        Ok(())
    }
}
