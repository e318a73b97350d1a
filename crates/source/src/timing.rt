// When a bus is free.
ghost use Rattle.std.specs.Prelude.{◌≡◌, ℕ, ◌+◌, Bool};
ghost use Rattle.source.specs.Buses.{always};
ghost use Rattle.source.specs.Meaning.{later};

use std::alloc::Global;

pub trait Timing: Drop {
    // in which of the coming clocks the bus is free
    ghost free: { Self → ℕ → Bool };

    fn always_free(heap: Global) -> Self
        ensures { free result ≡ always };

    // Whether the bus is free in the clock that now passes.
    fn clock(&mut self) -> bool
        ensures this { result ≡ free self.old 0 }
        ensures after { free self.new ≡ later (free self.old) };

    // Many clocks at once.
    fn wait(&mut self, clocks: u32)
        ensures { free self.new ≡ (λ (k : ℕ). free self.old (clocks + k)) };
}

#[derive(Drop)]
pub struct Always;

impl Timing for Always {
    ghost free = { λ _. always };

    fn always_free(_heap: Global) -> Always {
        Always
    }

    fn clock(&mut self) -> bool {
        true
    }

    fn wait(&mut self, _clocks: u32) {}
}
