// What a field code asks for.
ghost use Rattle.std.specs.Prelude.{◌≡◌};
ghost use Rattle.video.specs.Fields.{field_of, no_field};

#[derive(Clone, Copy, PartialEq, Eq, Debug)]
pub struct Field {
    pub underline: bool,
    pub reverse: bool,
    pub gpa1: bool,
    pub gpa0: bool,
    pub blink: bool,
    pub highlight: bool,
}

impl Field {
    // The field before any field code.
    pub fn none() -> Field
        ensures { result ≡ no_field }
    {
        Field {
            underline: false,
            reverse: false,
            gpa1: false,
            gpa0: false,
            blink: false,
            highlight: false,
        }
    }

    // The field that a code's low six bits ask for; by name and no `From`, since a byte is read as more than a field code.
    pub fn from_code(code: u8) -> Field
        ensures { result ≡ field_of code }
    {
        Field {
            underline: code / 32 % 2 == 1,
            reverse: code / 16 % 2 == 1,
            gpa1: code / 8 % 2 == 1,
            gpa0: code / 4 % 2 == 1,
            blink: code / 2 % 2 == 1,
            highlight: code % 2 == 1,
        }
    }
}
