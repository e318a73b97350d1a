// The listing of the last frame.
ghost use Rattle.std.specs.Prelude.{◌≡◌, [], ◌∷◌, ◌++◌, take, drop, IfOk, OnOk};
ghost use Rattle.frame.specs.History.{words};
ghost use Rattle.frame.specs.Ports.{status_byte};
ghost use Rattle.console.specs.Model.{state_of};
ghost use Rattle.layout.specs.Closing.{status_line};
ghost use Rattle.listing.specs.Words.{word_lines};
ghost use Rattle.sheet.specs.Screens.{Composed};
ghost use Rattle.film.specs.FrameRows.{page_ends, row_answers, wanted_answers, word_of, late_row, first_late, fate_of, wanted, with_frame_row, frame_listing};

use crate::film::Film;
use crate::log::{Log, RowTime};
use frame::call::Answer;
use layout::closing::{put_frame_total, put_status_line};
use layout::fate::Fate;
use layout::figures::put_frame_figures;
use layout::picture::put_picture;
use listing::row::word_lines;
use refusal::Refusal;
use std::alloc::{AllocError, Global};

const MARGIN: &[u8; 27] = b"\n                          ";

// At most `count` answers from a place on.
fn part(answers: &[Answer], first: usize, count: usize) -> &[Answer]
    ensures { result.now ≡ take count (drop first answers.now) }
{
    let rest = answers.get(first..).unwrap_or(&[]);
    rest.get(..count).unwrap_or(rest)
}

fn word(answer: &Answer) -> Option<u32>
    ensures { result ≡ word_of answer.now }
{
    match answer {
        Answer::Word(word) => Some(*word),
        _ => None,
    }
}

// The words among answers.
fn words(heap: Global, answers: &[Answer]) -> Result<Vec<u32>, AllocError>
    ensures { IfOk result (λ v. v.items ≡ words answers.now) }
{
    answers.iter().filter_map(word).collect(heap)
}

// The row where the frame goes dark decides the fate of those below it.
fn fate(row: u8, late: Option<u8>, came: RowTime) -> Fate
    ensures { result ≡ fate_of row late came.bytes came.last }
{
    match late {
        Some(late) if row == late => Fate::Late,
        Some(late) if row > late => Fate::Dark,
        _ if came.bytes == 0 => Fate::Blank,
        _ => Fate::Shown(came.last),
    }
}

// Whether a row is listed: all are where none is asked for.
fn wanted(only: Option<u8>, row: u8) -> bool
    ensures { result ≡ wanted only row }
{
    only.is_none_or(|one| one == row)
}

fn is_page_end(refusal: Refusal) -> bool
    ensures { result ≡ page_ends refusal }
{
    matches!(refusal, Refusal::PageEnds)
}

impl Film {
    // What the clocks of a row's time were answered, or all.
    fn wanted_answers(&self, only: Option<u8>) -> &[Answer]
        ensures { result.now ≡ wanted_answers self.now only }
    {
        match only {
            Some(row) => self.row_answers(row),
            None => self.answers.as_slice(),
        }
    }

    fn row_answers(&self, row: u8) -> &[Answer]
        ensures { result.now ≡ row_answers self.now row }
    {
        let clocks = self.screen.row_clocks() as usize;
        part(self.answers.as_slice(), row as usize * clocks, clocks)
    }

    // The words of the frame, or of a row's time in it.
    pub fn put_words(
        &self,
        heap: Global,
        only: Option<u8>,
        out: &mut Vec<u8>,
    ) -> Result<(), AllocError>
        ensures { OnOk result (out.new.items ≡ out.old.items ++ word_lines (words (wanted_answers self.now only))) }
    {
        let words = words(heap, self.wanted_answers(only))?;
        let lines = word_lines(heap, words.as_slice())?;
        out.extend_from_slice(lines.as_slice())?;
        Ok(())
    }

    // The status byte, as reading it now would give it.
    fn status(&self) -> u8
        ensures { result ≡ status_byte (state_of self.now.console) }
    {
        let mut console = self.console;
        console.status()
    }

    // A line with the status byte.
    pub fn put_status(&self, out: &mut Vec<u8>) -> Result<(), AllocError>
        ensures { OnOk result (out.new.items ≡ out.old.items ++ status_line (status_byte (state_of self.now.console)) (10 ∷ [])) }
    {
        put_status_line(self.status(), out)?;
        Ok(())
    }

    // A row is late if fewer bytes came than it takes, or the page lacks one of them.
    fn is_late(&self, page: &[u8], log: &Log, row: u8) -> bool
        ensures { Composed self.now.screen → result ≡ late_row self.now.screen page.now log.now row }
    {
        let came = log.row(row).bytes as usize;
        match self.screen.console.window(page, row) {
            Ok(window) => came < window.bytes.len(),
            Err(refusal) => is_page_end(refusal),
        }
    }

    fn first_late(&self, page: &[u8], log: &Log) -> Option<u8>
        ensures { Composed self.now.screen → result ≡ first_late self.now.screen page.now log.now }
    {
        (1..=self.screen.composition.rows).find(|row| self.is_late(page, log, *row))
    }

    // The lines of a row, under a heading where it is the first.
    fn put_row(
        &self,
        heap: Global,
        row: u8,
        fate: Fate,
        out: &mut Vec<u8>,
    ) -> Result<(), AllocError>
        ensures { OnOk result (out.new.items ≡ with_frame_row self.now row fate out.old.items) }
    {
        let words = words(heap, self.row_answers(row))?;
        let first = row as usize * self.screen.row_clocks() as usize;
        put_frame_figures(row, fate, first.saturating_sub(1), out)?;
        put_picture(
            heap,
            &self.screen.composition,
            words.as_slice(),
            MARGIN,
            out,
        )?;
        Ok(())
    }

    // The rows of the frame, or one of them, and what became of it all.
    pub fn put_listing(
        &self,
        heap: Global,
        page: &[u8],
        log: &Log,
        only: Option<u8>,
        out: &mut Vec<u8>,
    ) -> Result<(), AllocError>
        ensures { Composed self.now.screen → OnOk result (out.new.items ≡ frame_listing self.now page.now log.now only out.old.items) }
    {
        let late = self.first_late(page, log);
        for row in 1..=self.screen.composition.rows {
            if wanted(only, row) {
                self.put_row(heap, row, fate(row, late, log.row(row)), out)?;
            }
        }
        put_frame_total(self.status(), self.played, late, out)?;
        Ok(())
    }
}
