// What a line asks for, as the line layer and the event layer read it.
ghost use Rattle.std.specs.Prelude.{◌≡◌, ◌≤◌, IfOk};
ghost use Rattle.replay.specs.Requests.{sound, asked, requested, FitsRequest};

use crate::bytes::Bytes;
use crate::digits::{LONGEST_LINE, wrong_column};
use crate::faults::{EventFault, Fault, LineFault};
use frame::call::Call;

pub(crate) const LONGEST_PAGE: usize = 16_384;

#[derive(Drop)]
pub enum Request {
    Single(Call),
    Clocks(u16),
    // these page bytes
    Page(Bytes),
}

fn check(line: &[u8]) -> Result<(), LineFault>
    ensures { result ≡ sound line.now }
{
    let column = wrong_column(line);
    let fits = !line.is_empty() && line.len() <= LONGEST_LINE && line.len() % 2 == 0;
    if column.is_some() || !fits {
        return Err(LineFault { column });
    }
    Ok(())
}

fn event(closed: bool, full: usize, kind: u8, rest: Bytes) -> Result<Request, EventFault>
    requires page { full ≤ 16384 }
    ensures fits { IfOk result (λ q. FitsRequest q full closed) }
    ensures is { result ≡ asked closed full kind rest }
{
    match (kind, rest.as_slice()) {
        (6, page) if full + page.len() > LONGEST_PAGE => Err(EventFault::PageTooLong),
        (0, [command]) => Ok(Request::Single(Call::Command(*command))),
        (1, [parameter]) => Ok(Request::Single(Call::Parameter(*parameter))),
        (2, []) => Ok(Request::Single(Call::Status)),
        (3, []) => Ok(Request::Single(Call::Read)),
        (4, []) => Ok(Request::Single(Call::Stroke)),
        (5, [high, low]) => Ok(Request::Clocks(u16::from_be_bytes([*high, *low]))),
        (6, [_, ..]) if !closed => Ok(Request::Page(rest)),
        _ => Err(EventFault::Malformed),
    }
}

// The line layer, and behind it the event layer.
#[tactic(auto, using(crate::proofs::Joins::sound_good))]
pub(crate) fn read_line(closed: bool, full: usize, line: &[u8]) -> Result<Request, Fault>
    requires page { full ≤ 16384 }
    ensures fits { IfOk result (λ q. FitsRequest q full closed) }
    ensures is { result ≡ requested closed full line.now }
{
    check(line)?;
    let (first, others) = line.split_at(2);
    let kind = nibble::byte(first[0], first[1]).unwrap();
    Ok(event(closed, full, kind, Bytes::read(others))?)
}
