// The spans of clocks in which a bus is busy.
ghost use Rattle.std.specs.Prelude.{◌≡◌, ℕ, ◌+◌, ◌<◌, ◌≤◌, min, true, false, not, if◌then◌else◌, MatchResult};
ghost use Rattle.source.specs.Stalling.{small, all_small, covers, busy_in, outside, bad_spans};
ghost use Rattle.refusal.specs.declared.Refusal.TheVariants.{BadBus, OutOfMemory};

use crate::timing::Timing;
use refusal::Refusal;
use std::alloc::Global;

const MOST_SPANS: usize = 256;

const FIGURE_LIMIT: u32 = 2_147_483_648;

// Busy from clock `first` on for `length` clocks.
#[derive(Clone, Copy)]
pub struct Span {
    pub first: u32,
    pub length: u32,
}

// Up to the clock `until` the bus is free, or it is busy.
#[derive(Clone, Copy)]
struct Stretch {
    free: bool,
    until: u32,
}

#[derive(Drop)]
pub struct Stalls {
    spans: Vec<Span>,
    // clocks since the source was made
    count: u32,
    // the stretch that the present clock lies in, or one that is over
    stretch: Stretch,
    ghost fit: { bad_spans spans.items ≡ false },
    ghost steady: { (t : ℕ) → count ≤ t → t < stretch.until → busy_in spans.items t ≡ not stretch.free },
}

impl Span {
    fn is_small(self) -> bool
        ensures { result ≡ small self }
    {
        self.first < FIGURE_LIMIT && self.length < FIGURE_LIMIT
    }

    // By the difference, which fits whatever the figures are.
    fn covers(self, clock: u32) -> bool
        ensures { result ≡ covers self clock }
    {
        self.first <= clock && clock - self.first < self.length
    }
}

fn all_small(spans: &[Span]) -> bool
    ensures { result ≡ all_small spans.now }
{
    for span in spans {
        if !span.is_small() {
            return false;
        }
    }
    true
}

fn check_spans(spans: &[Span]) -> Result<(), Refusal>
    ensures { MatchResult result (λ _. bad_spans spans.now ≡ false) (λ why. (why ≡ BadBus) × (bad_spans spans.now ≡ true)) }
{
    if spans.len() > MOST_SPANS || !all_small(spans) {
        return Err(Refusal::BadBus);
    }
    Ok(())
}

// Whether the bus is free in a clock, and one up to which it stays as it is.
fn stretch_from(spans: &[Span], clock: u32) -> Stretch
    requires { all_small spans.now ≡ true }
    ensures now { busy_in spans.now clock ≡ not result.free }
    ensures steady { (t : ℕ) → clock ≤ t → t < result.until → busy_in spans.now t ≡ not result.free }
    ensures ahead { result.free ≡ false → clock < result.until }
{
    match spans.iter().find(|span| span.covers(clock)) {
        Some(span) => Stretch {
            free: false,
            until: span.first + span.length,
        },
        None => {
            let ahead = spans
                .iter()
                .map(|span| span.first)
                .filter(|first| *first > clock);
            Stretch {
                free: true,
                until: ahead.min().unwrap_or(u32::MAX),
            }
        }
    }
}

impl Stalls {
    ghost use Rattle.source.specs.Held.{gaps_of};

    pub(crate) fn new(heap: Global, spans: &[Span]) -> Result<Stalls, Refusal>
        ensures { MatchResult result
            (λ s. (bad_spans spans.now ≡ false) × ((s.spans.items ≡ spans.now) × (s.count ≡ 0)))
            (λ why. why ≡ (if bad_spans spans.now then BadBus else OutOfMemory)) }
    {
        check_spans(spans)?;
        Ok(Stalls::counted(Vec::from_slice(heap, spans)?))
    }

    fn counted(spans: Vec<Span>) -> Stalls
        requires { bad_spans spans.items ≡ false }
        ensures { (result.spans.items ≡ spans.items) × (result.count ≡ 0) }
    {
        Stalls {
            spans,
            count: 0,
            stretch: Stretch {
                free: true,
                until: 0,
            },
        }
    }

    fn pass(&mut self)
        ensures same { (self.new.spans.items ≡ self.old.spans.items) × (self.new.stretch ≡ self.old.stretch) }
        ensures count { self.new.count ≡ min (self.old.count + 1) 4294967295 }
    {
        self.count = self.count.saturating_add(1);
    }

    #[tactic(auto, using(crate::proofs::Scan::free_at_stop))]
    pub(crate) fn count(&self) -> u32
        ensures value { result ≡ self.now.count }
        ensures stopped { result ≡ 4294967295 → (n : ℕ) → gaps_of self.now n ≡ true }
    {
        self.count
    }
}

impl Timing for Stalls {
    ghost use Rattle.source.specs.Held.{gaps_of};

    ghost free = { gaps_of };

    fn always_free(heap: Global) -> Stalls {
        Stalls::counted(Vec::new(heap))
    }

    fn clock(&mut self) -> bool {
        if self.count >= self.stretch.until {
            self.stretch = stretch_from(&self.spans, self.count);
        }
        let free = self.stretch.free;
        self.pass();
        free
    }

    fn wait(&mut self, clocks: u32) {
        self.count = self.count.saturating_add(clocks);
    }
}
