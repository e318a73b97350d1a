// A source that is watched while it is played.
ghost use Rattle.std.specs.Prelude.{◌≡◌, is_some};
ghost use Rattle.source.specs.Meaning.{begun, answer, clocked};
ghost use Rattle.source.specs.Runs.{waited};
ghost use Rattle.film.specs.Logs.{empty_log, passed, waited_log};

use crate::log::Log;
use source::Source;

#[derive(Drop)]
pub struct Watched<S: Source> {
    source: S,
    // what came in the last frame
    pub log: Log,
}

impl<S: Source> Watched<S> {
    // A source, with the clocks of a row time.
    pub fn new(source: S, span: u32) -> Watched<S>
        ensures { result ≡ record { source = source; log = empty_log span } }
    {
        Watched {
            source,
            log: Log::new(span),
        }
    }
}

impl<S: Source> Source for Watched<S> {
    ghost means = { λ w. S.Source.means w.source };

    fn begin(&mut self)
        ensures means { S.Source.means self.new.source ≡ begun (S.Source.means self.old.source) }
        ensures log { self.new.log ≡ empty_log self.old.log.span }
    {
        self.source.begin();
        self.log = self.log.cleared();
    }

    fn clock(&mut self, wanted: bool) -> Option<u8>
        ensures byte { result ≡ answer (S.Source.means self.old.source) wanted }
        ensures after { S.Source.means self.new.source ≡ clocked (S.Source.means self.old.source) wanted }
        ensures log { self.new.log ≡ passed self.old.log (is_some result) }
    {
        let came = self.source.clock(wanted);
        self.log.pass(came.is_some());
        came
    }

    fn wait(&mut self, clocks: u32)
        ensures means { S.Source.means self.new.source ≡ waited clocks (S.Source.means self.old.source) }
        ensures log { self.new.log ≡ waited_log clocks self.old.log }
    {
        self.source.wait(clocks);
        self.log.wait(clocks);
    }
}
