// How many rows are shown, and how many bytes of the page they use.
ghost use Rattle.std.specs.Prelude.{◌≡◌, ℕ, ◌≤◌};
ghost use Rattle.sheet.specs.Stills.{counted};

#[derive(Clone, Copy, Default)]
pub struct Tally {
    pub shown: usize,
    pub used: usize,
}

impl Tally {
    // With one row more, of so many bytes. No invariant, since the limits are those of the loop that adds.
    pub(crate) fn with(self, taken: usize) -> Tally
        requires shown { self.shown ≤ 255 }
        requires used { self.used ≤ 0x100_0000 }
        requires few { taken ≤ 16384 }
        ensures { result ≡ counted self taken }
    {
        let shown = if taken == 0 { 0 } else { 1 };
        Tally {
            shown: self.shown + shown,
            used: self.used + taken,
        }
    }
}
