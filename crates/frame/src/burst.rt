// How screen bytes are asked for: the size of a burst, and the clocks between two bursts.
ghost use Rattle.std.specs.Prelude.{◌≡◌, ℕ, ◌/◌, ◌%◌, ◌<◌};
ghost use Rattle.rows.specs.Takes.{burst_bytes};
ghost use Rattle.frame.specs.Ports.{Bursts, bursts_of, burst_size, burst_space, spaces};

use rows::burst::BurstSize;

#[derive(Clone, Copy, PartialEq, Eq, Debug)]
pub struct Burst {
    pub size: BurstSize,
    pub space: u8,
}

// The burst spaces by their code.
const SPACES: [u8; 8] = [0, 7, 15, 23, 31, 39, 47, 55];

// The burst size of a code.
pub fn burst_size(code: u8) -> BurstSize
    ensures { burst_bytes result ≡ burst_size code }
{
    match code {
        0 => BurstSize::One,
        1 => BurstSize::Two,
        2 => BurstSize::Four,
        _ => BurstSize::Eight,
    }
}

fn space(code: u8) -> u8
    ensures { result ≡ burst_space (code % 8) }
{
    SPACES[(code % 8) as usize]
}

impl Burst {
    // The bursts that a Start command asks for; by name and no `From`, since other bytes ask for none.
    pub fn from_command(byte: u8) -> Burst
        ensures { bursts_of result ≡ record { n = burst_size (byte % 4); d = burst_space (byte / 4 % 8) } }
    {
        let size = burst_size(byte % 4);
        let space = space(byte / 4 % 8);
        Burst { size, space }
    }
}
