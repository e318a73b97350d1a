// What a row takes, byte by byte.
ghost use Rattle.std.specs.Prelude.{◌≡◌, ℕ, ◌+◌, ◌≤◌, true, false, length};
ghost use Rattle.rows.specs.Positions.{read};
ghost use Rattle.rows.specs.Buffer.{full, phase_after, fills, took, nothing, fresh};
ghost use Rattle.rows.specs.Takes.{burst_bytes};
ghost use Rattle.rows.specs.Model.{taken_of, listed};

use crate::burst::BurstSize;
use crate::kinds::{Phase, Position, Special};
use crate::state::Taking;
use video::composition::Composition;
use video::field::Field;

// A byte that fills a position alone; no `From`, since a transparent field code does not.
fn read(b: u8) -> Position
    ensures { result ≡ read b }
{
    match b {
        0..=0x7F => Position::Letter(b),
        0x80..=0xBF => Position::Attribute(Field::from_code(b)),
        0xC0..=0xEF => Position::Graphic(b),
        0xF0 => Position::Control(Special::EndRow),
        0xF1 => Position::Control(Special::StopRow),
        0xF2 => Position::Control(Special::EndScreen),
        0xF3 => Position::Control(Special::StopScreen),
        _ => Position::Unused,
    }
}

// Where the taking stands behind the byte b, which may be its burst's last and may fill the row's last position.
fn next_phase(opaque: bool, last: bool, fills_row: bool, phase: Phase, b: u8) -> Phase
    ensures { result ≡ phase_after opaque last fills_row phase b }
{
    match (phase, b) {
        (Phase::Ready, 0x80..=0xBF) if !opaque => Phase::Second(Field::from_code(b)),
        (Phase::Ready, 0xF1 | 0xF3) if last => Phase::Done,
        (Phase::Ready, 0xF1 | 0xF3) if fills_row => Phase::Done,
        (Phase::Ready, 0xF1 | 0xF3) => Phase::Extra,
        (Phase::Ready | Phase::Second(_), _) => Phase::Ready,
        (Phase::Extra | Phase::Done, _) => Phase::Done,
    }
}

// The position that the byte b fills, if it does.
fn filled(opaque: bool, phase: Phase, b: u8) -> Option<Position>
    ensures { listed result ≡ fills opaque phase b }
{
    match (phase, b) {
        (Phase::Ready, 0x80..=0xBF) if !opaque => None,
        (Phase::Ready, _) => Some(read(b)),
        (Phase::Second(field), _) => Some(Position::Pair(field, b % 128)),
        (Phase::Extra | Phase::Done, _) => None,
    }
}

impl Taking {
    // A row that took nothing yet, below an F3 or not; an idle row takes nothing.
    #[tactic(auto, unfolding(crate::specs::Buffer::fresh))]
    pub(crate) fn new(composition: &Composition, idle: bool, over: bool) -> Taking
        ensures { taken_of result ≡ (fresh composition.now.columns idle over nothing).take }
    {
        let phase = if idle | over {
            Phase::Done
        } else {
            Phase::Ready
        };
        Taking {
            phase,
            room: composition.columns,
            taken: 0,
            over,
        }
    }

    #[tactic(auto, unfolding(crate::specs::Buffer::full))]
    pub fn full(&self) -> bool
        ensures { result ≡ full (taken_of self.now) }
    {
        self.phase.is_done() | (self.room == 0)
    }

    // One byte more: the position that it fills, if it does.
    pub(crate) fn eat(&mut self, opaque: bool, burst: BurstSize, b: u8) -> Option<Position>
        requires { full (taken_of self.old) ≡ false }
        ensures state { taken_of self.new ≡ took opaque (burst_bytes burst) (taken_of self.old) b }
        ensures fills { listed result ≡ fills opaque self.old.phase b }
        ensures room { self.new.room + length (listed result) ≡ self.old.room }
    {
        let taken = self.taken + 1;
        let last = taken % burst.bytes() == 0;
        let came = filled(opaque, self.phase, b);
        *self = Taking {
            phase: next_phase(opaque, last, self.room <= 1, self.phase, b),
            room: self.room - u8::from(came.is_some()),
            taken,
            over: self.over | came.is_some_and(Position::stops_all),
        };
        came
    }
}
