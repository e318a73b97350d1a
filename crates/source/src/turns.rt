// A bus that is free for some clocks and then busy for some, in turn.
ghost use Rattle.std.specs.Prelude.{◌≡◌, ◌≤◌, false, length, MatchResult};
ghost use Rattle.source.specs.Held.{turn_bus};
ghost use Rattle.source.specs.Meaning.{filled};
ghost use Rattle.source.specs.Buses.{in_turn, no_turn};
ghost use Rattle.source.specs.Making.{unmade};

use crate::cycle::Cycle;
use crate::page::reading::check_length;
use crate::paged::PagedBus;
use refusal::Refusal;
use std::alloc::Global;

pub type TurnBus = PagedBus<Cycle>;

impl TurnBus {
    // With no free clocks in a turn the bus is never free.
    pub fn make(&mut self, heap: Global, page: &[u8], free: u8, busy: u8) -> Result<(), Refusal>
        ensures { MatchResult result
            (λ _. (length page.now ≤ 16384) × (no_turn free busy ≡ false) × (turn_bus self.new ≡ filled page.now (in_turn free busy 0)))
            (λ why. (why ≡ unmade (length page.now) (no_turn free busy)) × (self.new ≡ self.old)) }
    {
        check_length(page)?;
        let cycle = Cycle::new(free, busy)?;
        self.fill(heap, page, cycle)
    }
}
