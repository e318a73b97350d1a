// A source over a page in memory, with a timing of its own.
ghost use Rattle.std.specs.Prelude.{◌≡◌, ◌≤◌, [], length, MatchResult};
ghost use Rattle.source.specs.Held.{paged};
ghost use Rattle.source.specs.Meaning.{filled};
ghost use Rattle.source.specs.Buses.{always};
ghost use Rattle.refusal.specs.declared.Refusal.TheVariants.{OutOfMemory};

use crate::bus::Source;
use crate::page::Page;
use crate::timing::Timing;
use refusal::Refusal;
use std::alloc::Global;

#[derive(Drop)]
pub struct PagedBus<T: Timing> {
    page: Page,
    pub(crate) timing: T,
}

impl<T: Timing> PagedBus<T> {
    pub fn new(heap: Global) -> PagedBus<T>
        ensures { paged T.free result ≡ filled [] always }
    {
        PagedBus {
            page: Page::empty(heap),
            timing: T::always_free(heap),
        }
    }

    // The page and the timing anew, or none of them.
    pub(crate) fn fill(&mut self, heap: Global, page: &[u8], timing: T) -> Result<(), Refusal>
        requires { length page.now ≤ 16384 }
        ensures { MatchResult result
            (λ _. paged T.free self.new ≡ filled page.now (T.free timing))
            (λ why. (why ≡ OutOfMemory) × (self.new ≡ self.old)) }
    {
        let page = Page::copied(heap, page)?;
        *self = PagedBus { page, timing };
        Ok(())
    }
}

impl<T: Timing> Source for PagedBus<T> {
    ghost means = { paged T.free };

    fn begin(&mut self) {
        self.page.rewind();
    }

    fn clock(&mut self, wanted: bool) -> Option<u8> {
        let free = self.timing.clock();
        self.page.clock(wanted, free)
    }

    fn wait(&mut self, clocks: u32) {
        self.timing.wait(clocks);
    }
}
