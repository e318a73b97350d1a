// What a row shows, as numbers. Columns are made by their number: an array's `map` takes each through an iterator and an `Option`, and a
// call from C would cost half as much again.
ghost use Rattle.std.specs.Prelude.{◌≡◌, true, false, Some, None};
ghost use Rattle.rows.specs.Model.{shown_of};
ghost use Rattle.mirror.specs.Codes.{shown_in, row_sound};

use crate::column::field_code;
use crate::numbers::{Place, Row};
use rows::kinds::Column;
use rows::state::Showing;
use std::array;
use video::field::Field;

impl Row {
    // None where the ranges do not hold.
    pub(crate) fn showing(&self) -> Option<Showing>
        ensures { elim result [
          | None ↦ row_sound self.now ≡ false
          | Some s ↦ (row_sound self.now ≡ true) × (shown_of s ≡ shown_in self.now) × (s.len ≡ self.now.len)
        ] }
    {
        if self.len > 80 || self.pairs > self.len {
            return None;
        }
        Some(Showing {
            columns: array::from_fn(|k| Column::from(self.columns[k])),
            len: self.len,
            ring: self.ring,
            pairs: self.pairs,
            field: Field::from_code(self.field),
            ended: self.ended != 0,
            below: self.below != 0,
            hidden: self.hidden != 0,
        })
    }
}

impl From<&Showing> for Row {
    ghost from_gives = { λ s r. (row_sound r ≡ true) × (shown_in r ≡ shown_of s.now) × (r.len ≡ s.now.len) };

    fn from(showing: &Showing) -> Row {
        Row {
            columns: array::from_fn(|k| Place::from(showing.columns[k])),
            ring: showing.ring,
            len: showing.len,
            pairs: showing.pairs,
            field: field_code(showing.field),
            ended: u8::from(showing.ended),
            below: u8::from(showing.below),
            hidden: u8::from(showing.hidden),
        }
    }
}
