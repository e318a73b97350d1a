// Decimal numbers, alone and in pairs.
ghost use Rattle.std.specs.Prelude.{◌≡◌, ℕ, ◌<◌, ◌≤◌, length, IfSome, MatchOption};
ghost use Rattle.arguments.specs.Numbers.{decimal, grown, figure_of, before, front, behind, pair_of};

fn decimal(c: u8) -> Option<u32>
    ensures value { result ≡ decimal c }
    ensures small { IfSome result (λ v. v < 10) }
{
    (c as char).to_digit(10)
}

// The number with one digit more, if it is not above `most`.
fn grown(most: u32, number: u32, c: u8) -> Option<u32>
    ensures value { result ≡ grown most number c }
    ensures small { IfSome result (λ v. v ≤ most) }
{
    let number = 10 * number as u64 + decimal(c)? as u64;
    if number > most as u64 {
        return None;
    }
    Some(number as u32)
}

// A number from 0 to `most` in any number of digits.
#[tactic(auto, using(crate::proofs::Numerals::figure_more, crate::proofs::Numerals::figure_done))]
pub(crate) fn figure(text: &[u8], most: u32) -> Option<u32>
    ensures value { result ≡ figure_of most text.now }
    ensures small { IfSome result (λ v. v ≤ most) }
{
    if text.is_empty() {
        return None;
    }
    let mut number = 0;
    for c in text {
        number = grown(most, number, *c)?;
    }
    Some(number)
}

// What stands before the first mark, and what stands behind it.
pub(crate) fn parted(text: &[u8], mark: u8) -> Option<(&[u8], &[u8])>
    ensures { MatchOption result (before mark text.now ≡ length text.now) (λ p. (before mark text.now < length text.now) × ((p.0.now ≡ front mark text.now) × (p.1.now ≡ behind mark text.now))) }
{
    let place = text.iter().position(|c| *c == mark)?;
    Some((&text[..place], &text[place + 1..]))
}

// Two numbers from 0 to `most` with a mark between them.
pub(crate) fn pair(text: &[u8], mark: u8, most: u32) -> Option<(u32, u32)>
    ensures value { result ≡ pair_of mark most text.now }
    ensures small { IfSome result (λ v. (v.0 ≤ most) × (v.1 ≤ most)) }
{
    let (first, second) = parted(text, mark)?;
    Some((figure(first, most)?, figure(second, most)?))
}
