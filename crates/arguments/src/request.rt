// What the arguments ask for.
ghost use Rattle.std.specs.Prelude.{◌≡◌, ℕ, Ok, Err, MatchResult};
ghost use Rattle.arguments.specs.Drafts.{drafted, blank_draft, taken, by_word, operand, playing_of, played, asked, finished};
ghost use Rattle.arguments.specs.Words.{word_of};

use crate::bus::{Bus, read_bus};
use crate::fault::ArgumentFault;
use crate::figures::{cursor, frames, parameters, row, start};
use crate::word::Word;
use video::parameters::ResetParameters;

#[derive(Clone, Copy)]
pub struct Request<'a> {
    pub parameters: ResetParameters,
    // the Start command
    pub start: u8,
    // the name of the page's file
    pub page: &'a str,
    // this row alone
    pub row: Option<u8>,
    // the words in place of the listing
    pub words: bool,
    // column and row of the cursor, from 0
    pub cursor: Option<(u8, u8)>,
    // frames to be played; the stills where there are none
    pub playing: Option<Playing<'a>>,
}

// Frames over a bus.
#[derive(Clone, Copy)]
pub struct Playing<'a> {
    pub bus: Bus<'a>,
    pub frames: u16,
}

#[derive(Clone, Copy)]
pub enum Asked<'a> {
    Help,
    Listing(Request<'a>),
}

// The option whose value comes next.
#[derive(Clone, Copy)]
enum Awaited {
    RowNumber,
    BusKind,
    FrameCount,
    CursorPlace,
}

// What has been read of the arguments so far.
#[derive(Clone, Copy)]
pub struct Draft<'a> {
    parameters: Option<ResetParameters>,
    start: Option<u8>,
    page: Option<&'a str>,
    row: Option<u8>,
    words: bool,
    cursor: Option<(u8, u8)>,
    bus: Option<Bus<'a>>,
    frames: Option<u16>,
    help: bool,
    awaited: Option<Awaited>,
}

impl<'a> Draft<'a> {
    pub fn new() -> Draft<'a>
        ensures { drafted result ≡ blank_draft }
    {
        Draft {
            parameters: None,
            start: None,
            page: None,
            row: None,
            words: false,
            cursor: None,
            bus: None,
            frames: None,
            help: false,
            awaited: None,
        }
    }

    // One argument more.
    pub fn take(&mut self, text: &'a str) -> Result<(), ArgumentFault>
        ensures { MatchResult result
            (λ _. taken (drafted self.old) text.now ≡ Ok (drafted self.new))
            (λ e. taken (drafted self.old) text.now ≡ Err e) }
    {
        match self.awaited {
            None => return self.word(text),
            Some(Awaited::RowNumber) => {
                self.row = Some(row(text.as_bytes()).ok_or(ArgumentFault::BadRow)?);
            }
            Some(Awaited::BusKind) => {
                self.bus = Some(read_bus(text.as_bytes()).ok_or(ArgumentFault::BadBus)?);
            }
            Some(Awaited::FrameCount) => {
                self.frames = Some(frames(text.as_bytes()).ok_or(ArgumentFault::BadFrames)?);
            }
            Some(Awaited::CursorPlace) => {
                self.cursor = Some(cursor(text.as_bytes()).ok_or(ArgumentFault::BadCursor)?);
            }
        }
        self.awaited = None;
        Ok(())
    }

    // An argument that is no option's value.
    fn word(&mut self, text: &'a str) -> Result<(), ArgumentFault>
        ensures { MatchResult result
            (λ _. by_word (word_of text.now) (drafted self.old) text.now ≡ Ok (drafted self.new))
            (λ e. by_word (word_of text.now) (drafted self.old) text.now ≡ Err e) }
    {
        match Word::read(text) {
            Word::Help => self.help = true,
            Word::Words => self.words = true,
            Word::Row => self.awaited = Some(Awaited::RowNumber),
            Word::Bus => self.awaited = Some(Awaited::BusKind),
            Word::Frames => self.awaited = Some(Awaited::FrameCount),
            Word::Cursor => self.awaited = Some(Awaited::CursorPlace),
            Word::UnknownOption => return Err(ArgumentFault::UnknownOption),
            Word::Operand => return self.operand(text),
        }
        Ok(())
    }

    // COMPOSITION, START and PAGEFILE come in this order.
    fn operand(&mut self, text: &'a str) -> Result<(), ArgumentFault>
        ensures { MatchResult result
            (λ _. operand (drafted self.old) text.now ≡ Ok (drafted self.new))
            (λ e. operand (drafted self.old) text.now ≡ Err e) }
    {
        match (self.parameters, self.start, self.page) {
            (None, _, _) => {
                let parameters = parameters(text.as_bytes()).ok_or(ArgumentFault::BadComposition)?;
                self.parameters = Some(parameters);
            }
            (Some(_), None, _) => {
                self.start = Some(start(text.as_bytes()).ok_or(ArgumentFault::BadStart)?);
            }
            (Some(_), Some(_), None) => self.page = Some(text),
            (Some(_), Some(_), Some(_)) => return Err(ArgumentFault::TooMany),
        }
        Ok(())
    }

    // What is asked for, where nothing is missing.
    pub fn finish(self) -> Result<Asked<'a>, ArgumentFault>
        ensures { MatchResult result
            (λ a. finished (drafted self.entry) ≡ Ok (asked a))
            (λ e. finished (drafted self.entry) ≡ Err e) }
    {
        if self.help {
            return Ok(Asked::Help);
        }
        match self.awaited {
            Some(Awaited::RowNumber) => return Err(ArgumentFault::NoRow),
            Some(Awaited::BusKind) => return Err(ArgumentFault::NoBus),
            Some(Awaited::FrameCount) => return Err(ArgumentFault::NoFrames),
            Some(Awaited::CursorPlace) => return Err(ArgumentFault::NoCursor),
            None => {}
        }
        Ok(Asked::Listing(Request {
            parameters: self.parameters.ok_or(ArgumentFault::NoArguments)?,
            start: self.start.ok_or(ArgumentFault::NoStart)?,
            page: self.page.ok_or(ArgumentFault::NoPage)?,
            row: self.row,
            words: self.words,
            cursor: self.cursor,
            playing: self.playing()?,
        }))
    }

    // One frame where a bus stands alone.
    fn playing(self) -> Result<Option<Playing<'a>>, ArgumentFault>
        ensures { MatchResult result
            (λ p. played (drafted self.entry) ≡ Ok (playing_of p))
            (λ e. played (drafted self.entry) ≡ Err e) }
    {
        match (self.bus, self.frames) {
            (None, None) => Ok(None),
            (None, Some(_)) => Err(ArgumentFault::FramesWithoutBus),
            (Some(bus), None) => Ok(Some(Playing { bus, frames: 1 })),
            (Some(bus), Some(frames)) => Ok(Some(Playing { bus, frames })),
        }
    }
}
