// A bus that is always free.
ghost use Rattle.std.specs.Prelude.{◌≡◌, ◌≤◌, false, length, MatchResult};
ghost use Rattle.source.specs.Held.{free_bus};
ghost use Rattle.source.specs.Meaning.{filled};
ghost use Rattle.source.specs.Buses.{always};
ghost use Rattle.source.specs.Making.{unmade};

use crate::page::reading::check_length;
use crate::paged::PagedBus;
use crate::timing::Always;
use refusal::Refusal;
use std::alloc::Global;

pub type FreeBus = PagedBus<Always>;

impl FreeBus {
    pub fn make(&mut self, heap: Global, page: &[u8]) -> Result<(), Refusal>
        ensures { MatchResult result
            (λ _. (length page.now ≤ 16384) × (free_bus self.new ≡ filled page.now always))
            (λ why. (why ≡ unmade (length page.now) false) × (self.new ≡ self.old)) }
    {
        check_length(page)?;
        self.fill(heap, page, Always)
    }
}
