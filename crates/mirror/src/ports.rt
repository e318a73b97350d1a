// What the ports hold, as numbers.
ghost use Rattle.std.specs.Prelude.{◌≡◌};
ghost use Rattle.frame.specs.Ports.{bursts_of};
ghost use Rattle.mirror.specs.Codes.{pending_in, bursts_in, flags_in};

use crate::numbers::{Bursts, Raised, Waits};
use frame::burst::{Burst, burst_size};
use frame::flags::Flags;
use frame::pending::Pending;

impl From<Waits> for Pending {
    ghost from_gives = { λ w p. p ≡ pending_in w };

    fn from(waits: Waits) -> Pending {
        match waits.kind {
            0 => Pending::Nothing,
            1 => Pending::Reset1,
            2 => Pending::Reset2(waits.first),
            3 => Pending::Reset3(waits.first, waits.second),
            4 => Pending::Reset4(waits.first, waits.second, waits.third),
            5 => Pending::CursorColumn,
            6 => Pending::CursorRow(waits.first),
            7 => Pending::PenColumn,
            _ => Pending::PenRow,
        }
    }
}

impl From<Pending> for Waits {
    ghost from_gives = { λ p w. pending_in w ≡ p };

    fn from(pending: Pending) -> Waits {
        let none = Waits::default();
        match pending {
            Pending::Nothing => none,
            Pending::Reset1 => Waits { kind: 1, ..none },
            Pending::Reset2(first) => Waits {
                kind: 2,
                first,
                ..none
            },
            Pending::Reset3(first, second) => Waits {
                kind: 3,
                first,
                second,
                ..none
            },
            Pending::Reset4(first, second, third) => Waits {
                kind: 4,
                first,
                second,
                third,
            },
            Pending::CursorColumn => Waits { kind: 5, ..none },
            Pending::CursorRow(first) => Waits {
                kind: 6,
                first,
                ..none
            },
            Pending::PenColumn => Waits { kind: 7, ..none },
            Pending::PenRow => Waits { kind: 8, ..none },
        }
    }
}

impl From<Bursts> for Burst {
    ghost from_gives = { λ b r. bursts_of r ≡ bursts_in b };

    fn from(bursts: Bursts) -> Burst {
        Burst {
            size: burst_size(bursts.size),
            space: bursts.space,
        }
    }
}

impl From<Burst> for Bursts {
    ghost from_gives = { λ b r. bursts_in r ≡ bursts_of b };

    fn from(burst: Burst) -> Bursts {
        Bursts {
            size: burst.size as u8,
            space: burst.space,
        }
    }
}

impl From<Raised> for Flags {
    ghost from_gives = { λ r f. f ≡ flags_in r };

    fn from(raised: Raised) -> Flags {
        Flags {
            ir: raised.ir != 0,
            lp: raised.lp != 0,
            ic: raised.ic != 0,
            du: raised.du != 0,
            fo: raised.fo != 0,
        }
    }
}

impl From<Flags> for Raised {
    ghost from_gives = { λ f r. flags_in r ≡ f };

    fn from(flags: Flags) -> Raised {
        Raised {
            ir: u8::from(flags.ir),
            lp: u8::from(flags.lp),
            ic: u8::from(flags.ic),
            du: u8::from(flags.du),
            fo: u8::from(flags.fo),
        }
    }
}
