// A page, listed as frames over a bus show it.
use crate::failure::Failure;
use crate::show::Viewing;
use arguments::bus::{Bus, read_spans};
use arguments::fault::ArgumentFault;
use arguments::request::Playing;
use film::film::Film;
use film::watched::Watched;
use refusal::Refusal;
use source::{FreeBus, Source, SpanBus, TurnBus};
use std::io::Write;

impl Viewing<'_> {
    pub(crate) fn frames(&self, rt: &HostRuntime, playing: Playing) -> Result<(), Failure> {
        if let Some(row) = self.request.row
            && !self.screen.has_row(row)
        {
            return Err(Failure::RowRefused(row, Refusal::NoSuchRow));
        }
        let heap = rt.alloc();
        // an arm for each bus, since each takes figures of its own
        match playing.bus {
            Bus::Free => {
                let mut source = FreeBus::new(heap);
                source.make(heap, self.page)?;
                self.play(rt, playing.frames, source)
            }
            Bus::Turns(free, busy) => {
                let mut source = TurnBus::new(heap);
                source.make(heap, self.page, free, busy)?;
                self.play(rt, playing.frames, source)
            }
            Bus::Spans(text) => {
                let spans = read_spans(heap, text)?.ok_or(ArgumentFault::BadBus)?;
                let mut source = SpanBus::new(heap);
                source.make(heap, self.page, spans.as_slice())?;
                self.play(rt, playing.frames, source)
            }
        }
    }

    // So many frames over a source, of which the last is listed.
    fn play<S: Source + Drop>(
        &self,
        rt: &HostRuntime,
        frames: u16,
        source: S,
    ) -> Result<(), Failure> {
        let heap = rt.alloc();
        let mut film = Film::new(heap, self.screen)?;
        let mut source = Watched::new(source, self.screen.row_clocks());
        let mut out = Vec::new(heap);
        for _ in 0..frames {
            film.frame(&mut source)?;
            if self.request.words {
                film.put_words(heap, self.request.row, &mut out)?;
                rt.stdout().write_all(out.as_slice())?;
                out.clear();
            }
        }
        if self.request.words {
            film.put_status(&mut out)?;
        } else {
            film.put_listing(heap, self.page, &source.log, self.request.row, &mut out)?;
        }
        rt.stdout().write_all(out.as_slice())?;
        Ok(())
    }
}
