// The ports: commands and parameters written, status and parameters read.
ghost use Rattle.std.specs.Prelude.{◌≡◌, ℕ, true};
ghost use Rattle.frame.specs.Ports.{new, is_command, command_refusal, awaits_write, preset, obeyed, commanded, parameter_refusal, parameter_written, status_byte, status_read, parameter_byte, parameter_read};
ghost use Rattle.console.specs.Model.{state_of};
ghost use Rattle.console.specs.Answers.{answer};

use crate::raster::{Beam, Raster};
use crate::state::Console;
use crate::state::parts::Parts;
use frame::burst::Burst;
use frame::flags::Flags;
use frame::pending::Pending;
use refusal::Refusal;
use std::mem;
use video::composition::Composition;
use video::parameters::ResetParameters;

fn is_command(byte: u8) -> bool
    ensures { result ≡ is_command byte }
{
    matches!(byte, 0x00 | 0x20..=0x40 | 0x60 | 0x80 | 0xA0 | 0xC0 | 0xE0)
}

// A written parameter is outstanding.
fn awaits_write(pending: Pending) -> bool
    ensures { result ≡ awaits_write pending }
{
    !matches!(
        pending,
        Pending::Nothing | Pending::PenColumn | Pending::PenRow
    )
}

impl Console {
    // A console as it is switched on.
    pub fn new() -> Console
        ensures { state_of result ≡ new }
    {
        let raster = Raster::new();
        Console {
            parts: Parts {
                composition: None,
                pending: Pending::Nothing,
                ve: false,
                ie: false,
                burst: raster.burst,
                cursor: None,
                raster,
                flags: Flags::default(),
                pen: (0, 0),
            },
        }
    }

    // A byte written to the command port.
    pub fn command(&mut self, byte: u8) -> Result<(), Refusal>
        ensures answer { result ≡ answer (command_refusal byte) }
        ensures state { state_of self.new ≡ commanded (state_of self.old) byte }
    {
        match (self.parts.pending, byte) {
            (_, byte) if !is_command(byte) => return Err(Refusal::UnknownCommand),
            (pending, _) => self.parts.flags.ic |= awaits_write(pending),
        }
        self.parts.pending = Pending::Nothing;
        self.obey(byte);
        Ok(())
    }

    // A command that was accepted.
    fn obey(&mut self, byte: u8)
        requires { is_command byte ≡ true }
        ensures { state_of self.new ≡ obeyed (state_of self.old) byte }
    {
        match byte {
            0x00 => {
                self.parts.pending = Pending::Reset1;
                self.parts.ve = false;
                self.parts.ie = false;
                self.parts.flags.ir = false;
                self.parts.raster.disarm();
            }
            0x20..=0x3F => {
                self.parts.ve = true;
                self.parts.ie = true;
                self.parts.burst = Burst::from_command(byte);
            }
            0x40 => {
                self.parts.ve = false;
                self.parts.raster.disarm();
            }
            0x60 => self.parts.pending = Pending::PenColumn,
            0x80 => self.parts.pending = Pending::CursorColumn,
            0xA0 => self.parts.ie = true,
            0xC0 => self.parts.ie = false,
            _ => self.preset(),
        }
    }

    // To the first clock of row time 1, in a frame that is not armed.
    fn preset(&mut self)
        ensures { state_of self.new ≡ preset (state_of self.old) }
    {
        self.parts.raster.disarm();
        if self.parts.composition.is_some() {
            self.parts.raster.beam.move_to(1);
        }
    }

    // A byte written to the parameter port.
    pub fn parameter(&mut self, byte: u8) -> Result<(), Refusal>
        ensures answer { result ≡ answer (parameter_refusal (state_of self.old) byte) }
        ensures state { state_of self.new ≡ parameter_written (state_of self.old) byte }
    {
        match (self.parts.pending, byte) {
            (Pending::Reset1, first) if first % 128 > 79 => return Err(Refusal::TooManyColumns),
            (Pending::Reset1, first) => self.parts.pending = Pending::Reset2(first),
            (Pending::Reset2(first), second) => self.parts.pending = Pending::Reset3(first, second),
            (Pending::Reset3(first, second), third) => self.parts.pending = Pending::Reset4(
                first, second, third,
            ),
            (Pending::Reset4(first, second, third), fourth) => {
                let composition = Composition::try_from(ResetParameters {
                    first,
                    second,
                    third,
                    fourth,
                })?;
                self.parts.pending = Pending::Nothing;
                self.parts.composition = Some(composition);
                self.parts.raster.beam = Beam::default();
            }
            (Pending::CursorColumn, column) => self.parts.pending = Pending::CursorRow(column),
            (Pending::CursorRow(column), row) => {
                self.parts.pending = Pending::Nothing;
                self.parts.cursor = Some((column, row));
            }
            (Pending::Nothing | Pending::PenColumn | Pending::PenRow, _) => self.parts.flags.ic =
                true,
        }
        Ok(())
    }

    // The status byte, and the flags that reading it clears.
    pub fn status(&mut self) -> u8
        ensures byte { result ≡ status_byte (state_of self.old) }
        ensures state { state_of self.new ≡ status_read (state_of self.old) }
    {
        let flags = mem::take(&mut self.parts.flags);
        0x40 * u8::from(self.parts.ie)
            + 0x20 * u8::from(flags.ir)
            + 0x10 * u8::from(flags.lp)
            + 0x08 * u8::from(flags.ic)
            + 0x04 * u8::from(self.parts.ve)
            + 0x02 * u8::from(flags.du)
            + u8::from(flags.fo)
    }

    // A byte read from the parameter port.
    pub fn read_parameter(&mut self) -> u8
        ensures byte { result ≡ parameter_byte (state_of self.old) }
        ensures state { state_of self.new ≡ parameter_read (state_of self.old) }
    {
        match self.parts.pending {
            Pending::PenColumn => {
                self.parts.pending = Pending::PenRow;
                self.parts.pen.0
            }
            Pending::PenRow => {
                self.parts.pending = Pending::Nothing;
                self.parts.pen.1
            }
            _ => {
                self.parts.flags.ic = true;
                0
            }
        }
    }
}
