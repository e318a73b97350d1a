// The bytes of a line behind its first, two digits to a byte.
ghost use Rattle.std.specs.Prelude.{◌≡◌, ℕ, ◌≤◌, List, length, position, None};
ghost use Rattle.replay.specs.Digits.{bad, bytes_of};

use arrayvec::ArrayVec;
use std::marker::Model;

#[derive(Drop)]
pub struct Bytes {
    bytes: ArrayVec<u8, 32>,
}

impl Model for Bytes {
    ghost Value = { List ℕ };

    ghost view = { λ b. b.bytes.items };
}

impl Bytes {
    pub(crate) fn read(digits: &[u8]) -> Bytes
        requires short { length digits.now ≤ 64 }
        requires good { position bad digits.now ≡ None }
        ensures { result ≡ bytes_of digits.now }
    {
        let mut bytes = ArrayVec::new();
        let mut rest = digits;
        while let [high, low, after @ ..] = rest {
            bytes.push(nibble::byte(*high, *low).unwrap());
            rest = after;
        }
        Bytes { bytes }
    }

    pub(crate) fn as_slice(&self) -> &[u8]
        ensures value { result.now ≡ self.now }
        ensures short { length result.now ≤ 32 }
    {
        self.bytes.as_slice()
    }
}
