// A bus that is busy in spans of clocks, counted from the making of the source.
ghost use Rattle.std.specs.Prelude.{◌≡◌, ℕ, ◌≤◌, true, false, length, MatchResult};
ghost use Rattle.source.specs.Held.{span_bus};
ghost use Rattle.source.specs.Meaning.{filled};
ghost use Rattle.source.specs.Stalling.{outside, bad_spans};
ghost use Rattle.source.specs.Making.{unmade};

use crate::page::reading::check_length;
use crate::paged::PagedBus;
use crate::stalls::{Span, Stalls};
use refusal::Refusal;
use std::alloc::Global;

pub type SpanBus = PagedBus<Stalls>;

impl SpanBus {
    pub fn make(&mut self, heap: Global, page: &[u8], spans: &[Span]) -> Result<(), Refusal>
        ensures { MatchResult result
            (λ _. (length page.now ≤ 16384) × (bad_spans spans.now ≡ false) × (span_bus self.new ≡ filled page.now (outside spans.now 0)))
            (λ why. (why ≡ unmade (length page.now) (bad_spans spans.now)) × (self.new ≡ self.old)) }
    {
        check_length(page)?;
        let stalls = Stalls::new(heap, spans)?;
        self.fill(heap, page, stalls)
    }

    // The clocks since the making. Where the count has stopped, the bus stays free.
    pub fn count(&self) -> u32
        ensures value { result ≡ self.now.timing.count }
        ensures stopped { result ≡ 4294967295 → (n : ℕ) → (span_bus self.now).free n ≡ true }
    {
        self.timing.count()
    }
}
