// Hexadecimal digits in either case.
ghost use Rattle.std.specs.Prelude.{◌≡◌, ℕ};
ghost use Rattle.arguments.specs.Hex.{byte_of};

// The byte that two digits write.
pub fn byte(high: u8, low: u8) -> Option<u8>
    ensures { result ≡ byte_of high low }
{
    nibble::byte(high.to_ascii_uppercase(), low.to_ascii_uppercase())
}
