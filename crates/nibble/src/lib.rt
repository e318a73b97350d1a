// Hexadecimal digits, in upper case.
#![tactic(auto)]

ghost use Rattle.std.specs.Prelude.{◌≡◌, ℕ, ◌%◌, ◌<◌, IfSome};
ghost use Rattle.nibble.specs.Digits.{value, upper, byte_of};

// The value of a digit, 0 to 9 and A to F.
#[inline]
pub fn read(c: u8) -> Option<u8>
    ensures value { result ≡ value c }
    ensures small { IfSome result (λ v. v < 16) }
{
    match c as char {
        '0'..='9' => Some(c - b'0'),
        'A'..='F' => Some(c - b'A' + 10),
        _ => None,
    }
}

// The digit of the low four bits.
#[inline]
pub fn write(value: u8) -> u8
    ensures { result ≡ upper (value % 16) }
{
    match value % 16 {
        low @ 0..=9 => b'0' + low,
        low => b'A' - 10 + low,
    }
}

// The byte of two digits.
#[inline]
pub fn byte(high: u8, low: u8) -> Option<u8>
    ensures { result ≡ byte_of high low }
{
    Some(read(high)? * 16 + read(low)?)
}
