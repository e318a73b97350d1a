// One of the three byte sources: an enum and no box, since there are three, each made from figures of its own.
use console::state::Console;
use frame::call::{Answer, Call};
use refusal::Refusal;
use source::{FreeBus, Span, SpanBus, TurnBus};
use std::alloc::Global;

#[derive(Drop)]
pub enum Bus {
    Free(FreeBus),
    Turns(TurnBus),
    Spans(SpanBus),
}

impl Bus {
    pub fn free(heap: Global, page: &[u8]) -> Result<Bus, Refusal> {
        let mut bus = FreeBus::new(heap);
        bus.make(heap, page)?;
        Ok(Bus::Free(bus))
    }

    pub fn turns(heap: Global, page: &[u8], free: u8, busy: u8) -> Result<Bus, Refusal> {
        let mut bus = TurnBus::new(heap);
        bus.make(heap, page, free, busy)?;
        Ok(Bus::Turns(bus))
    }

    pub fn spans(heap: Global, page: &[u8], spans: &[Span]) -> Result<Bus, Refusal> {
        let mut bus = SpanBus::new(heap);
        bus.make(heap, page, spans)?;
        Ok(Bus::Spans(bus))
    }

    pub fn play(
        &mut self,
        console: &mut Console,
        calls: &[Call],
        answers: &mut Vec<Answer>,
    ) -> Result<(), Refusal> {
        match self {
            Bus::Free(bus) => console.play(bus, calls, answers),
            Bus::Turns(bus) => console.play(bus, calls, answers),
            Bus::Spans(bus) => console.play(bus, calls, answers),
        }
    }
}
