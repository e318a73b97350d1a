// The byte source.
ghost use Rattle.std.specs.Prelude.{◌≡◌};
ghost use Rattle.source.specs.Meaning.{Meaning, begun, answer, clocked};
ghost use Rattle.source.specs.Runs.{waited};

pub trait Source {
    // the page, the rest, and in which of the coming clocks the bus is free
    ghost means: { Self → Meaning };

    fn begin(&mut self)
        ensures { means self.new ≡ begun (means self.old) };

    // One clock passes whether a byte is wanted or not.
    fn clock(&mut self, wanted: bool) -> Option<u8>
        ensures byte { result ≡ answer (means self.old) wanted }
        ensures after { means self.new ≡ clocked (means self.old) wanted };

    // Clocks in which no byte is wanted: only time passes.
    fn wait(&mut self, clocks: u32)
        ensures { means self.new ≡ waited clocks (means self.old) }
    {
        for _ in 0..clocks {
            let _ = self.clock(false);
        }
    }
}
