// The bus between the page and the console.
ghost use Rattle.std.specs.Prelude.{◌≡◌, ℕ, IfOk, Some, None, MatchOption};
ghost use Rattle.arguments.specs.Buses.{lined, turns_of, bus_of, span_of, spans_of};

use crate::numbers::{pair, parted};
use source::Span;
use std::alloc::{AllocError, Global};

#[derive(Clone, Copy)]
pub enum Bus<'a> {
    Free,
    // free clocks and busy clocks of a turn
    Turns(u8, u8),
    // the spans as they are written
    Spans(&'a [u8]),
}

fn turns(figures: &[u8]) -> Option<Bus<'_>>
    ensures { lined result ≡ turns_of figures.now }
{
    let (free, busy) = pair(figures, b':', 255)?;
    Some(Bus::Turns(free as u8, busy as u8))
}

// The kind of a bus, and behind a colon its figures.
pub fn read_bus(text: &[u8]) -> Option<Bus<'_>>
    ensures { lined result ≡ bus_of text.now }
{
    if matches!(text, b"free") {
        return Some(Bus::Free);
    }
    match parted(text, b':')? {
        (b"turns", figures) => turns(figures),
        (b"spans", figures) => Some(Bus::Spans(figures)),
        _ => None,
    }
}

// The first clock of a span, a plus and its length.
fn span(text: &[u8]) -> Option<Span>
    ensures { result ≡ span_of text.now }
{
    let (first, length) = pair(text, b'+', 4_294_967_295)?;
    Some(Span { first, length })
}

// Spans of clocks, a comma between two of them.
pub fn read_spans(heap: Global, text: &[u8]) -> Result<Option<Vec<Span>>, AllocError>
    ensures { IfOk result (λ o. MatchOption o (spans_of text.now ≡ None) (λ v. spans_of text.now ≡ Some v.items)) }
{
    let mut spans = Vec::new(heap);
    for part in text.split(|c| *c == b',') {
        let Some(span) = span(part) else {
            return Ok(None);
        };
        spans.push(span)?;
    }
    Ok(Some(spans))
}
