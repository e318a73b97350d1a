// Columns and fields as numbers.
ghost use Rattle.std.specs.Prelude.{◌≡◌};
ghost use Rattle.video.specs.Fields.{field_of};
ghost use Rattle.mirror.specs.Codes.{column_in};

use crate::numbers::Place;
use rows::kinds::Column;
use video::cell::Cell;
use video::field::Field;

// The low six bits of the code that asks for a field. No `From`: neither Field nor u8 is a type of this crate.
#[tactic(auto, using(crate::proofs::Fields::code_back))]
pub(crate) fn field_code(field: Field) -> u8
    ensures { field_of result ≡ field }
{
    32 * u8::from(field.underline)
        + 16 * u8::from(field.reverse)
        + 8 * u8::from(field.gpa1)
        + 4 * u8::from(field.gpa0)
        + 2 * u8::from(field.blink)
        + u8::from(field.highlight)
}

impl From<Place> for Column {
    ghost from_gives = { λ p c. c ≡ column_in p };

    fn from(place: Place) -> Column {
        let field = Field::from_code(place.field);
        match place.kind {
            0 => Column::Fixed(Cell::Dark),
            1 => Column::Fixed(Cell::Text(place.byte, field)),
            2 => Column::Fixed(Cell::Symbol(place.byte, field)),
            _ => Column::Memory(place.byte, field),
        }
    }
}

impl From<Column> for Place {
    ghost from_gives = { λ c p. column_in p ≡ c };

    fn from(column: Column) -> Place {
        match column {
            Column::Fixed(Cell::Dark) => Place::default(),
            Column::Fixed(Cell::Text(byte, field)) => Place {
                kind: 1,
                byte,
                field: field_code(field),
            },
            Column::Fixed(Cell::Symbol(byte, field)) => Place {
                kind: 2,
                byte,
                field: field_code(field),
            },
            Column::Memory(byte, field) => Place {
                kind: 3,
                byte,
                field: field_code(field),
            },
        }
    }
}
