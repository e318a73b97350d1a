// Clocks in which nothing begins and no byte is asked for, several at a time.
ghost use Rattle.std.specs.Prelude.{◌≡◌, ◌+◌, ◌<◌, ◌≤◌, ◌++◌};
ghost use Rattle.video.specs.Composition.{shape_of};
ghost use Rattle.rows.specs.Model.{shown_of};
ghost use Rattle.console.specs.Raster.{core_of, AtHand};
ghost use Rattle.console.specs.Room.{HasRoom, Grown};
ghost use Rattle.console.specs.Idle.{Idle, idled, idle_words, looked, repeated, Drawable};

use crate::raster::Raster;
use frame::call::Answer;
use rows::page::without_cursor;
use video::composition::Composition;

// The same word for some clocks. Pushed one by one, since there is no `extend` into room that is reserved.
fn repeat(word: u32, n: u8, answers: &mut Vec<Answer>)
    requires { HasRoom answers.old n }
    ensures items { answers.new.items ≡ answers.old.items ++ repeated word n }
    ensures room { Grown answers.old answers.new n }
{
    for _ in 0..n {
        answers.push_reserved(Answer::Word(word));
    }
}

impl Raster {
    // Such clocks from the next one on, as far as the next column, or the next clock of retrace, is like this one.
    pub(crate) fn idle_clocks(&self, composition: &Composition) -> u8
        requires { self.now.beam.column < composition.now.columns + composition.now.retrace }
        ensures idle { Idle (shape_of composition.now) (core_of self.now) result }
        ensures side { self.now.beam.column < composition.now.columns → self.now.beam.column + result ≤ composition.now.columns }
    {
        if self.beam.begins() {
            return 0;
        }
        let end = if self.beam.column < composition.columns {
            composition.columns
        } else {
            composition.columns + composition.retrace - 1
        };
        let left = end - self.beam.column;
        if self.underrun() & (self.gap < left) {
            self.gap
        } else {
            left
        }
    }

    // How many of them can be put out at once: those of a row whose looks are at hand, ahead of the cursor.
    pub(crate) fn drawn_clocks(
        &self,
        composition: &Composition,
        cursor: Option<(u8, u8)>,
        most: u8,
    ) -> u8
        ensures most { result ≤ most }
        ensures drawn { Drawable (shape_of composition.now) cursor self.now result }
    {
        if !self.lit(composition) {
            return most;
        }
        if !self.has_looks(composition) {
            return 0;
        }
        without_cursor(cursor, self.beam.row as u16, self.beam.column, most)
    }

    // The columns of a row whose looks are at hand, from the next clock's on, with what all of them have besides; pushed as above.
    fn put_looks(&self, composition: &Composition, base: u32, n: u8, answers: &mut Vec<Answer>)
        requires looks { AtHand (shape_of composition.now) self.now }
        requires row { (self.now.beam.column + n ≤ 80) × (base < 0x1000000) }
        requires room { HasRoom answers.old n }
        ensures items { answers.new.items ≡ answers.old.items ++ looked (shape_of composition.now) self.now.beam.line self.now.beam.blink (shown_of self.now.shown) base n self.now.beam.column }
        ensures room { Grown answers.old answers.new n }
    {
        for p in self.beam.column..self.beam.column + n {
            answers.push_reserved(Answer::Word(self.look(p) + base));
        }
    }

    // The words of n such clocks.
    pub(crate) fn put_words(
        &self,
        composition: &Composition,
        cursor: Option<(u8, u8)>,
        irq: bool,
        n: u8,
        answers: &mut Vec<Answer>,
    )
        requires some { 0 < n }
        requires side { (self.now.beam.column + n < composition.now.columns + composition.now.retrace) × ((self.now.beam.column < composition.now.columns → self.now.beam.column + n ≤ composition.now.columns)) }
        requires drawn { Drawable (shape_of composition.now) cursor self.now n }
        requires room { HasRoom answers.old n }
        ensures items { answers.new.items ≡ answers.old.items ++ idle_words (shape_of composition.now) cursor irq n (core_of self.now) }
        ensures room { Grown answers.old answers.new n }
    {
        let requested = 0x800000 * u32::from(irq);
        if self.lit(composition) {
            let count = composition.line_count(self.beam.line);
            self.put_looks(composition, 0x100 * count as u32 + requested, n, answers);
        } else {
            repeat(self.dark_word(composition) + requested, n, answers);
        }
    }

    // n clocks on.
    pub(crate) fn idle(&mut self, n: u8)
        requires { self.old.beam.column + n < 256 }
        ensures core { core_of self.new ≡ idled n (core_of self.old) }
        ensures beam { self.new.beam ≡ record { row = self.old.beam.row; line = self.old.beam.line; column = self.old.beam.column + n; blink = self.old.beam.blink } }
    {
        self.beam.column += n;
        self.gap = self.gap.saturating_sub(n);
    }
}
