// What a line, an event and the port say no to. Each layer has its own fault, and they pass up as one.
ghost use Rattle.std.specs.Prelude.{◌≡◌};
ghost use Rattle.replay.specs.declared.faults.Fault.TheVariants.{Line, Event, Port};
ghost use Rattle.replay.specs.Faults.{layer, number_of, column_of};

use refusal::Refusal;

// The line isn't a text of bytes. Its first wrong digit, if it has one, stands in this column, counted from 1.
#[derive(Clone, Copy)]
pub struct LineFault {
    pub column: Option<u8>,
}

#[derive(Clone, Copy)]
pub enum EventFault {
    PageTooLong,
    // unknown kind, wrong length, or page bytes too late
    Malformed,
}

#[derive(Clone, Copy)]
pub struct PortFault {
    pub refusal: Refusal,
}

#[derive(Clone, Copy)]
pub enum Fault {
    Line(LineFault),
    Event(EventFault),
    Port(PortFault),
}

impl From<LineFault> for Fault {
    ghost from_gives = { λ f r. r ≡ Line f };

    fn from(fault: LineFault) -> Fault {
        Fault::Line(fault)
    }
}

impl From<EventFault> for Fault {
    ghost from_gives = { λ f r. r ≡ Event f };

    fn from(fault: EventFault) -> Fault {
        Fault::Event(fault)
    }
}

impl From<PortFault> for Fault {
    ghost from_gives = { λ f r. r ≡ Port f };

    fn from(fault: PortFault) -> Fault {
        Fault::Port(fault)
    }
}

impl Fault {
    // The numbers of the line that is printed.
    pub(crate) fn layer(self) -> u8
        ensures { result ≡ layer self }
    {
        match self {
            Fault::Line(_) => 1,
            Fault::Event(_) => 2,
            Fault::Port(_) => 3,
        }
    }

    pub(crate) fn number(self) -> u8
        ensures { result ≡ number_of self }
    {
        match self {
            Fault::Line(_) => 9,
            Fault::Event(EventFault::PageTooLong) => 4,
            Fault::Event(EventFault::Malformed) => 10,
            Fault::Port(fault) => fault.refusal.number(),
        }
    }

    pub(crate) fn column(self) -> Option<u8>
        ensures { result ≡ column_of self }
    {
        match self {
            Fault::Line(fault) => fault.column,
            Fault::Event(_) | Fault::Port(_) => None,
        }
    }
}
