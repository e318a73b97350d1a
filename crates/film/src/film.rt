// Frames that a console plays over a source.
ghost use Rattle.std.specs.Prelude.{◌≡◌, ℕ, ◌*◌, IfOk, MatchResult};
ghost use Rattle.refusal.specs.declared.Refusal.TheVariants.{OutOfMemory};
ghost use Rattle.film.specs.Frames.{NewFilm, Framed, Unplayed};

use console::state::Console;
use frame::call::{Answer, Call};
use refusal::Refusal;
use sheet::screen::Screen;
use source::Source;
use std::alloc::{AllocError, Global};

#[derive(Drop)]
pub struct Film {
    // as it was before the first frame
    screen: Screen,
    console: Console,
    // the clocks of a frame, and what those of the last were answered
    clocks: Vec<Call>,
    answers: Vec<Answer>,
    // clocks of all frames so far
    played: usize,
}

impl Film {
    pub fn new(heap: Global, screen: Screen) -> Result<Film, AllocError>
        ensures { IfOk result (λ f. NewFilm screen f) }
    {
        let row_times = (screen.composition.rows + screen.composition.vretrace) as usize;
        let count = screen.row_clocks() as usize * row_times;
        let clocks = Vec::from_elem(heap, Call::Clock, count)?;
        Ok(Film {
            screen,
            console: screen.console,
            clocks,
            answers: Vec::new(heap),
            played: 0,
        })
    }

    // Plays one frame.
    pub fn frame<S: Source>(&mut self, source: &mut S) -> Result<(), Refusal>
        ensures { MatchResult result
            (λ _. Framed self.old (S.Source.means source.old) self.new (S.Source.means source.new))
            (λ e. (e ≡ OutOfMemory) × Unplayed self.old self.new × (source.new ≡ source.old)) }
    {
        self.answers.clear();
        self.console
            .play(source, self.clocks.as_slice(), &mut self.answers)?;
        self.played = self.played.saturating_add(self.clocks.len());
        Ok(())
    }
}

mod report;
