// One clock of the console over a byte source, and the light pen.
ghost use Rattle.std.specs.Prelude.{◌≡◌, ℕ, ◌+◌, ◌*◌, ◌≤◌, true, Some, None};
ghost use Rattle.source.specs.Meaning.{begun};
ghost use Rattle.video.specs.Composition.{shape_of};
ghost use Rattle.rows.specs.Buffer.{full};
ghost use Rattle.rows.specs.Model.{buffer_of};
ghost use Rattle.frame.specs.Machine.{frame_start, begins, ready_source, word, pen_row};
ghost use Rattle.frame.specs.History.{clocked_by, source_by, stroke_by};
ghost use Rattle.console.specs.Model.{state_of};
ghost use Rattle.console.specs.Answers.{answer, clock_answer, stroke_refusal};
ghost use Rattle.console.specs.Raster.{core_of};
ghost use Rattle.console.specs.Steps.{interrupted, frame_opened, row_opened, readied, stored};

use crate::state::Console;
use refusal::Refusal;
use source::Source;
use video::composition::Composition;

fn pen_row(composition: &Composition, row: u8) -> u8
    ensures { result ≡ pen_row (shape_of composition.now) row }
{
    if row == 0 {
        composition.rows + composition.vretrace - 1
    } else {
        row - 1
    }
}

impl Console {
    // IR is set at the first clock of the last row's time.
    fn request_interrupt(&mut self, composition: &Composition)
        ensures { state_of self.new ≡ interrupted (shape_of composition.now) (state_of self.old) }
    {
        let last = (self.parts.raster.beam.row == composition.rows)
            & self.parts.raster.beam.begins();
        self.parts.flags.ir |= self.parts.ie & last;
    }

    // A frame begins: it is armed if video is enabled, and then the source begins too.
    fn open_frame<S: Source>(&mut self, composition: &Composition, source: &mut S)
        ensures state { state_of self.new ≡ frame_opened (shape_of composition.now) (state_of self.old) }
        ensures source { S.means source.new ≡ begins frame_start self.old.parts.ve (S.means source.old) }
    {
        self.parts
            .raster
            .start_frame(composition, self.parts.ve, self.parts.burst);
        if self.parts.ve {
            source.begin();
        }
    }

    // A row time begins behind the first: a row that is not full is late.
    fn open_row(&mut self, composition: &Composition)
        ensures { state_of self.new ≡ row_opened (shape_of composition.now) (state_of self.old) }
    {
        self.parts.flags.du |= self.parts.raster.underrun();
        self.parts.raster.start_row(composition);
    }

    // What begins with this clock.
    fn prepare<S: Source>(&mut self, composition: &Composition, source: &mut S)
        ensures state { state_of self.new ≡ readied (shape_of composition.now) (state_of self.old) }
        ensures source { S.means source.new ≡ ready_source (state_of self.old) (S.means source.old) }
    {
        self.request_interrupt(composition);
        if self.parts.raster.beam.begins() {
            if self.parts.raster.beam.row == 0 {
                self.open_frame(composition, source);
            } else {
                self.open_row(composition);
            }
        }
    }

    // The word of a clock that has been prepared.
    fn word(&self, composition: &Composition) -> u32
        ensures { result ≡ word (shape_of composition.now) self.now.parts.cursor self.now.parts.flags.ir (core_of self.now.parts.raster) }
    {
        self.parts.raster.picture(composition, self.parts.cursor)
            + 0x400000 * u32::from(self.parts.raster.wants())
            + 0x800000 * u32::from(self.parts.flags.ir)
    }

    // What came is stored; the seventeenth field character of a row overruns the memory.
    fn store(&mut self, composition: &Composition, came: Option<u8>)
        requires { full (buffer_of self.old.parts.raster.fill).take ≡ true → came ≡ None }
        ensures { state_of self.new ≡ stored (shape_of composition.now) (state_of self.old) came }
    {
        let before = self.parts.raster.fill.show.pairs;
        self.parts.raster.feed(composition, came);
        self.parts.flags.fo |= (before == 16) & (self.parts.raster.fill.show.pairs == 17);
    }

    // One clock over a source.
    pub fn clock<S: Source>(&mut self, source: &mut S) -> Result<u32, Refusal>
        ensures answer { result ≡ clock_answer (state_of self.old).shape (state_of self.old) }
        ensures state { state_of self.new ≡ clocked_by (state_of self.old).shape (state_of self.old) (S.means source.old) }
        ensures source { S.means source.new ≡ source_by (state_of self.old).shape (state_of self.old) (S.means source.old) }
    {
        let composition = self.parts.composition.ok_or(Refusal::NoComposition)?;
        self.prepare(&composition, source);
        self.parts.raster.draw_row(&composition);
        let word = self.word(&composition);
        let came = source.clock(self.parts.raster.wants());
        self.store(&composition, came);
        self.parts.raster.beam.advance(&composition);
        Ok(word)
    }

    // A stroke of the light pen keeps the place of the next clock.
    pub fn stroke(&mut self) -> Result<(), Refusal>
        ensures answer { result ≡ answer (stroke_refusal (state_of self.old).shape) }
        ensures state { state_of self.new ≡ stroke_by (state_of self.old).shape (state_of self.old) }
    {
        let composition = self.parts.composition.ok_or(Refusal::NoComposition)?;
        self.parts.flags.lp = true;
        self.parts.pen = (
            self.parts.raster.beam.column,
            pen_row(&composition, self.parts.raster.beam.row),
        );
        Ok(())
    }
}
