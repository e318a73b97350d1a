// The calls of a console, and what they answer.
ghost use Rattle.std.specs.Prelude.{◌≡◌};
ghost use Rattle.frame.specs.History.{told, worded};

use refusal::Refusal;

#[derive(Clone, Copy, PartialEq, Eq, Debug)]
pub enum Call {
    // a byte to the command port, and to the parameter port
    Command(u8),
    Parameter(u8),
    Status,
    // a byte from the parameter port
    Read,
    // a stroke of the light pen
    Stroke,
    Clock,
}

#[derive(Clone, Copy, PartialEq, Eq, Debug)]
pub enum Answer {
    Done,
    Byte(u8),
    Word(u32),
    Refused(Refusal),
}

// A call that gives nothing but its effect.
impl From<Result<(), Refusal>> for Answer {
    ghost from_gives = { λ x y. y ≡ told x };

    fn from(outcome: Result<(), Refusal>) -> Answer {
        match outcome {
            Ok(()) => Answer::Done,
            Err(refusal) => Answer::Refused(refusal),
        }
    }
}

// A clock.
impl From<Result<u32, Refusal>> for Answer {
    ghost from_gives = { λ x y. y ≡ worded x };

    fn from(outcome: Result<u32, Refusal>) -> Answer {
        match outcome {
            Ok(word) => Answer::Word(word),
            Err(refusal) => Answer::Refused(refusal),
        }
    }
}
