// What came in a frame, by row times.
ghost use Rattle.std.specs.Prelude.{◌≡◌, ◌-◌};
ghost use Rattle.film.specs.Logs.{empty_log, with_byte, time_of, came_in, passed, waited_log};

const MOST_ROWS: usize = 64;

// The bytes that came in a row time, and the clock of the last of them.
#[derive(Clone, Copy, Default)]
pub struct RowTime {
    pub bytes: u32,
    pub last: u32,
}

impl RowTime {
    // With one byte more, which came in this clock.
    fn with(self, clock: u32) -> RowTime
        ensures { result ≡ with_byte self clock }
    {
        RowTime {
            bytes: self.bytes.saturating_add(1),
            last: clock,
        }
    }
}

#[derive(Clone, Copy)]
pub struct Log {
    // the clocks of a row time
    span: u32,
    // the number of the coming clock in its frame
    clock: u32,
    times: [RowTime; MOST_ROWS],
}

impl Log {
    pub(crate) fn new(span: u32) -> Log
        ensures { result ≡ empty_log span }
    {
        Log {
            span,
            clock: 0,
            times: [RowTime::default(); MOST_ROWS],
        }
    }

    // The log with nothing in it, at the first clock of a frame.
    pub(crate) fn cleared(&self) -> Log
        ensures { result ≡ empty_log self.now.span }
    {
        Log::new(self.span)
    }

    // The row time of the coming clock.
    fn time(&self) -> u32
        ensures { result ≡ time_of self.now }
    {
        self.clock.checked_div(self.span).unwrap_or(0)
    }

    // A clock passes, with a byte or without.
    pub(crate) fn pass(&mut self, came: bool)
        ensures { self.new ≡ passed self.old came }
    {
        let time = self.time() as usize;
        let clock = self.clock;
        self.clock = clock.saturating_add(1);
        if came && time < MOST_ROWS {
            self.times[time] = self.times[time].with(clock);
        }
    }

    // Clocks pass without a byte.
    pub(crate) fn wait(&mut self, clocks: u32)
        ensures { self.new ≡ waited_log clocks self.old }
    {
        self.clock = self.clock.saturating_add(clocks);
    }

    // What came for a row, in the row time before its own.
    pub(crate) fn row(&self, row: u8) -> RowTime
        ensures { result ≡ came_in self.now (row - 1) }
    {
        let time = row.saturating_sub(1) as usize;
        self.times.get(time).copied().unwrap_or_default()
    }
}
