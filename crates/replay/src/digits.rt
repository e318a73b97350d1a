// Hexadecimal text, read and written.
ghost use Rattle.std.specs.Prelude.{◌≡◌, ℕ, ◌*◌, ◌+◌, ◌<◌, [], ◌∷◌, ◌++◌, length, position, IfSome};
ghost use Rattle.std.specs.List.{flat_map};
ghost use Rattle.replay.specs.Digits.{bad, two, wrong, HasRoom, Takes};

pub(crate) const LONGEST_LINE: usize = 66;

fn first_wrong(line: &[u8]) -> Option<usize>
    ensures value { result ≡ position bad line.now }
    ensures within { IfSome result (λ i. i < length line.now) }
{
    line.iter().position(|c| nibble::read(*c).is_none())
}

// The column, from 1, of the first wrong digit among a line's first 66 characters.
pub(crate) fn wrong_column(line: &[u8]) -> Option<u8>
    ensures { result ≡ wrong line.now }
{
    let before = first_wrong(&line[..LONGEST_LINE.min(line.len())])?;
    Some(before as u8 + 1)
}

// Bytes and a line feed.
pub(crate) fn put_line(bytes: &[u8], out: &mut Vec<u8>)
    requires room { HasRoom out.old (2 * length bytes.now + 1) }
    ensures items { out.new.items ≡ out.old.items ++ (flat_map two bytes.now ++ 10 ∷ []) }
    ensures takes { Takes out.old out.new (2 * length bytes.now + 1) }
{
    for byte in bytes {
        out.push_reserved(nibble::write(*byte / 16));
        out.push_reserved(nibble::write(*byte));
    }
    out.push_reserved(b'\n');
}
