// The row that is being taken, as numbers.
ghost use Rattle.std.specs.Prelude.{◌≡◌, true, false, Some, None};
ghost use Rattle.rows.specs.Bound.{ahead};
ghost use Rattle.rows.specs.Model.{buffer_of};
ghost use Rattle.mirror.specs.Codes.{phase_in, buffer_in, fill_sound};

use crate::column::field_code;
use crate::numbers::{Filling, Row};
use rows::kinds::Phase;
use rows::state::{RowBuffer, Taking};
use video::field::Field;

// The bytes more than two to a position that may have come.
fn ahead(phase: Phase) -> u16
    ensures { result ≡ ahead phase }
{
    match phase {
        Phase::Ready | Phase::Extra => 0,
        Phase::Second(_) | Phase::Done => 1,
    }
}

// A phase's number, and the code of the field that waits in it: two bytes of a filling, with no type of their own.
fn phase_code(phase: Phase) -> (u8, u8)
    ensures { phase_in result.0 result.1 ≡ phase }
{
    match phase {
        Phase::Ready => (0, 0),
        Phase::Second(field) => (1, field_code(field)),
        Phase::Extra => (2, 0),
        Phase::Done => (3, 0),
    }
}

impl Filling {
    fn phase(&self) -> Phase
        ensures { result ≡ phase_in self.now.phase self.now.field }
    {
        match self.phase {
            0 => Phase::Ready,
            1 => Phase::Second(Field::from_code(self.field)),
            2 => Phase::Extra,
            _ => Phase::Done,
        }
    }

    // None where the ranges do not hold.
    pub(crate) fn buffer(&self) -> Option<RowBuffer>
        ensures { elim result [
          | None ↦ fill_sound self.now ≡ false
          | Some b ↦ (fill_sound self.now ≡ true) × (buffer_of b ≡ buffer_in self.now)
        ] }
    {
        let show = self.row.showing()?;
        let phase = self.phase();
        let room = u16::from(self.room);
        if room + u16::from(self.row.len) > 80
            || u16::from(self.taken) + 2 * room > 160 + ahead(phase)
        {
            return None;
        }
        let take = Taking {
            phase,
            room: self.room,
            taken: self.taken,
            over: self.over != 0,
        };
        Some(RowBuffer { take, show })
    }
}

impl From<&RowBuffer> for Filling {
    ghost from_gives = { λ b f. (fill_sound f ≡ true) × (buffer_in f ≡ buffer_of b.now) };

    fn from(buffer: &RowBuffer) -> Filling {
        let (phase, field) = phase_code(buffer.take.phase);
        Filling {
            phase,
            field,
            room: buffer.take.room,
            taken: buffer.take.taken,
            over: u8::from(buffer.take.over),
            row: Row::from(&buffer.show),
        }
    }
}
