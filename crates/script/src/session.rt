// A console, a page and a source, and what the requests put to them printed.
use crate::bus::Bus;
use anyhow::{Context, anyhow};
use console::state::Console;
use frame::call::{Answer, Call};
use listing::row::word_line;
use refusal::Refusal;
use source::{FreeBus, Span};
use std::alloc::Global;
use std::io::Write;

// Clocks played by one call.
const PART: usize = 4096;

#[derive(Drop)]
pub struct Session {
    heap: Global,
    console: Console,
    page: Vec<u8>,
    bus: Bus,
    out: Vec<u8>,
}

fn joined(high: u8, low: u8) -> anyhow::Result<u8> {
    nibble::byte(high, low).context("not a hexadecimal digit")
}

fn bytes(heap: Global, text: &[u8]) -> anyhow::Result<Vec<u8>> {
    let mut bytes = Vec::new(heap);
    for pair in text.chunks(2) {
        match pair {
            [high, low] => bytes.push(joined(*high, *low)?)?,
            _ => return Err(anyhow!("an odd number of digits")),
        }
    }
    Ok(bytes)
}

fn byte(text: &str) -> anyhow::Result<u8> {
    match text.as_bytes() {
        [high, low] => joined(*high, *low),
        _ => Err(anyhow!("not a byte")),
    }
}

// By `split`, since `split_once` would refuse what stands behind a second `+`.
fn span(text: &str) -> anyhow::Result<Span> {
    let mut figures = text.split('+');
    let first = figures.next().context("a span without figures")?;
    let length = figures.next().context("a span without a length")?;
    Ok(Span {
        first: first.parse::<u32>()?,
        length: length.parse::<u32>()?,
    })
}

impl Session {
    pub fn new(heap: Global) -> Session {
        Session {
            heap,
            console: Console::new(),
            page: Vec::new(heap),
            bus: Bus::Free(FreeBus::new(heap)),
            out: Vec::new(heap),
        }
    }

    pub fn answers(&self) -> usize {
        self.out.len()
    }

    pub fn printed(&self) -> &[u8] {
        self.out.as_slice()
    }

    pub fn clear(&mut self) {
        self.out.clear();
    }

    pub fn request(&mut self, line: &str) -> anyhow::Result<()> {
        let mut words = line.split(' ');
        let name = words.next().unwrap_or("");
        let first = words.next().unwrap_or("");
        let second = words.next().unwrap_or("");
        match name {
            "new" => self.anew(),
            "page" => self.load(first),
            "free" => self.free(),
            "turns" => self.turns(first.parse::<u8>()?, second.parse::<u8>()?),
            "spans" => self.spans(line),
            "command" => self.call(Call::Command(byte(first)?)),
            "parameter" => self.call(Call::Parameter(byte(first)?)),
            "status" => self.call(Call::Status),
            "read" => self.call(Call::Read),
            "stroke" => self.call(Call::Stroke),
            "clocks" => self.clocks(first.parse::<u32>()?),
            "window" => self.window(first.parse::<u8>()?),
            "still" => self.still(first.parse::<u8>()?, second.parse::<usize>()?),
            _ => Err(anyhow!("an unknown request")),
        }
    }

    fn ok(&mut self) -> anyhow::Result<()> {
        self.out.extend_from_slice(b"ok\n")?;
        Ok(())
    }

    fn refused(&mut self, refusal: Refusal) -> anyhow::Result<()> {
        let number = refusal.number();
        writeln!(self.out, "refused {number}")?;
        Ok(())
    }

    fn anew(&mut self) -> anyhow::Result<()> {
        self.console = Console::new();
        self.page.clear();
        self.bus = Bus::Free(FreeBus::new(self.heap));
        self.ok()
    }

    fn load(&mut self, text: &str) -> anyhow::Result<()> {
        if text == "-" {
            self.page.clear();
        } else {
            self.page = bytes(self.heap, text.as_bytes())?;
        }
        self.ok()
    }

    // The bus in place of the one that stood, if it was made.
    fn put(&mut self, made: Result<Bus, Refusal>) -> anyhow::Result<()> {
        match made {
            Ok(bus) => {
                self.bus = bus;
                self.ok()
            }
            Err(refusal) => self.refused(refusal),
        }
    }

    fn free(&mut self) -> anyhow::Result<()> {
        let made = Bus::free(self.heap, self.page.as_slice());
        self.put(made)
    }

    fn turns(&mut self, free: u8, busy: u8) -> anyhow::Result<()> {
        let made = Bus::turns(self.heap, self.page.as_slice(), free, busy);
        self.put(made)
    }

    fn spans(&mut self, line: &str) -> anyhow::Result<()> {
        let spans: Vec<Span> = line.split(' ').skip(1).map(span).try_collect(self.heap)?;
        let made = Bus::spans(self.heap, self.page.as_slice(), &spans);
        self.put(made)
    }

    fn print(&mut self, answer: Answer) -> anyhow::Result<()> {
        match answer {
            Answer::Done => self.ok(),
            Answer::Byte(byte) => {
                writeln!(self.out, "byte {byte:02X}")?;
                Ok(())
            }
            Answer::Word(word) => {
                self.out.extend_from_slice(&word_line(word))?;
                Ok(())
            }
            Answer::Refused(refusal) => self.refused(refusal),
        }
    }

    // Whether an answer was a refusal; what was answered behind it is not told.
    fn play(&mut self, calls: &[Call]) -> anyhow::Result<bool> {
        let mut answers = Vec::new(self.heap);
        if let Err(refusal) = self.bus.play(&mut self.console, calls, &mut answers) {
            self.refused(refusal)?;
            return Ok(true);
        }
        for answer in answers.iter() {
            self.print(*answer)?;
            if matches!(answer, Answer::Refused(_)) {
                return Ok(true);
            }
        }
        Ok(false)
    }

    fn call(&mut self, call: Call) -> anyhow::Result<()> {
        let _ = self.play(&[call])?;
        Ok(())
    }

    // A refused clock ends the request.
    fn clocks(&mut self, count: u32) -> anyhow::Result<()> {
        let clocks = Vec::from_elem(self.heap, Call::Clock, PART)?;
        let count = count as usize;
        for _ in 0..count / PART {
            if self.play(&clocks)? {
                return Ok(());
            }
        }
        let _ = self.play(&clocks[..count % PART])?;
        Ok(())
    }

    fn window(&mut self, row: u8) -> anyhow::Result<()> {
        match self.console.window(self.page.as_slice(), row) {
            Ok(window) => {
                let place = window.place;
                let count = window.bytes.len();
                writeln!(self.out, "window {place} {count}")?;
                Ok(())
            }
            Err(refusal) => self.refused(refusal),
        }
    }

    fn still(&mut self, row: u8, size: usize) -> anyhow::Result<()> {
        let mut words = Vec::from_elem(self.heap, u32::MAX, size)?;
        if let Err(refusal) = self
            .console
            .still(self.page.as_slice(), row, words.as_mut_slice())
        {
            self.refused(refusal)?;
        }
        for word in words.iter() {
            self.out.extend_from_slice(&word_line(*word))?;
        }
        Ok(())
    }
}
