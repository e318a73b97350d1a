// How many bytes one burst of requests brings.
ghost use Rattle.std.specs.Prelude.{◌≡◌, ◌≤◌};
ghost use Rattle.rows.specs.Takes.{burst_bytes};

#[derive(Clone, Copy, PartialEq, Eq, Debug)]
pub enum BurstSize {
    One,
    Two,
    Four,
    Eight,
}

impl BurstSize {
    // By name and no `From`, since a size has a code beside its count.
    pub fn bytes(self) -> u8
        ensures is { result ≡ burst_bytes self }
        ensures some { 1 ≤ result }
    {
        match self {
            BurstSize::One => 1,
            BurstSize::Two => 2,
            BurstSize::Four => 4,
            BurstSize::Eight => 8,
        }
    }
}
