// Plays each source for thousands of clocks and prints which bytes came when,
// against the free clocks worked out in another way.
#![tactic(auto)]

use refusal::Refusal;
use source::{FreeBus, Source, Span, SpanBus, TurnBus, drain, wait};
use std::alloc::{AllocError, Global};
use std::io;

const CLOCKS: u32 = 4096;

fn some_page(heap: Global, length: u32) -> Result<Vec<u8>, AllocError> {
    (0..length).map(|i| (i % 251) as u8).collect(heap)
}

// The clocks from `from` on in which a bus free for `free` clocks and busy for `busy` is free.
fn turn_clocks(heap: Global, free: u32, busy: u32, from: u32) -> Result<Vec<bool>, AllocError> {
    let turn = free.saturating_add(busy);
    (from..from.saturating_add(CLOCKS))
        .map(|clock| turn > 0 && clock % turn < free)
        .collect(heap)
}

fn busy(first: u32, length: u32) -> Span {
    Span { first, length }
}

// The first clocks, each of them free unless a span paints it busy.
fn span_clocks(heap: Global, spans: &[Span]) -> Result<Vec<bool>, AllocError> {
    let mut clocks = Vec::from_elem(heap, true, CLOCKS as usize)?;
    for span in spans {
        let end = span.first.saturating_add(span.length);
        for clock in clocks
            .iter_mut()
            .take(end as usize)
            .skip(span.first as usize)
        {
            *clock = false;
        }
    }
    Ok(clocks)
}

// In how many clocks another answer came than the page's next byte if free, none if busy.
fn differences(page: &[u8], free: &[bool], came: &[Option<u8>]) -> usize {
    let mut bytes = page.iter();
    let due = free.iter().map(|is_free| {
        if *is_free {
            bytes.next().copied()
        } else {
            None
        }
    });
    due.zip(came.iter())
        .filter(|(due, answer)| *due != **answer)
        .count()
}

fn print_first(rt: &HostRuntime, came: &[Option<u8>]) -> io::Result<()> {
    for answer in came.iter().take(24) {
        match answer {
            Some(byte) => print!(rt; " {byte:02X}")?,
            None => print!(rt; " --")?,
        }
    }
    println!(rt; "")
}

// Plays as many clocks as `free` has, on the source as it stands with `page` still to come.
fn report<S: Source>(
    rt: &HostRuntime,
    name: &str,
    source: &mut S,
    page: &[u8],
    free: &[bool],
) -> anyhow::Result<()> {
    let mut came = Vec::from_elem(rt.alloc(), None, free.len())?;
    drain(source, came.as_mut_slice());
    // one loop, since three figures run along in it
    let mut bytes = 0u32;
    let mut sum = 0u32;
    let mut last = 0usize;
    for (clock, answer) in came.iter().enumerate() {
        if let Some(byte) = answer {
            bytes = bytes.saturating_add(1);
            sum = sum
                .wrapping_mul(31)
                .wrapping_add(u32::from(*byte))
                .wrapping_add((clock % 65536) as u32);
            last = clock;
        }
    }
    let clocks = came.len();
    let wrong = differences(page, free, came.as_slice());
    println!(rt;
        "{name}: {bytes} bytes in {clocks} clocks, the last in clock {last}, sum {sum:08X}, {wrong} differences"
    )?;
    print_first(rt, came.as_slice())?;
    Ok(())
}

fn print_made(rt: &HostRuntime, name: &str, made: Result<(), Refusal>) -> io::Result<()> {
    match made {
        Ok(()) => println!(rt; "{name}: made"),
        Err(why) => {
            let number = why.number();
            println!(rt; "{name}: refused, {number}: {why}")
        }
    }
}

fn play_free(rt: &HostRuntime, page: &[u8]) -> anyhow::Result<()> {
    let heap = rt.alloc();
    let mut bus = FreeBus::new(heap);
    let free = turn_clocks(heap, 1, 0, 0)?;
    report(rt, "new free bus", &mut bus, &[], free.as_slice())?;
    print_made(rt, "free bus", bus.make(heap, page))?;
    report(rt, "free bus", &mut bus, page, free.as_slice())?;
    bus.begin();
    wait(&mut bus, 5000);
    report(
        rt,
        "begun, 5000 clocks later",
        &mut bus,
        page,
        free.as_slice(),
    )
}

fn play_turns(rt: &HostRuntime, page: &[u8], free: u8, busy: u8) -> anyhow::Result<()> {
    let heap = rt.alloc();
    let mut bus = TurnBus::new(heap);
    println!(rt; "{free} free, {busy} busy")?;
    print_made(rt, "turn bus", bus.make(heap, page, free, busy))?;
    let (a, b) = (u32::from(free), u32::from(busy));
    report(
        rt,
        "turn bus",
        &mut bus,
        page,
        turn_clocks(heap, a, b, 0)?.as_slice(),
    )?;
    bus.begin();
    wait(&mut bus, 3001);
    bus.begin();
    let after = turn_clocks(heap, a, b, 7097)?;
    report(
        rt,
        "begun, 3001 clocks later",
        &mut bus,
        page,
        after.as_slice(),
    )
}

fn play_spans(rt: &HostRuntime, page: &[u8], spans: &[Span]) -> anyhow::Result<()> {
    let heap = rt.alloc();
    let mut bus = SpanBus::new(heap);
    print_made(rt, "span bus", bus.make(heap, page, spans))?;
    report(
        rt,
        "span bus",
        &mut bus,
        page,
        span_clocks(heap, spans)?.as_slice(),
    )?;
    let count = bus.count();
    println!(rt; "count {count}")?;
    Ok(())
}

// A making anew begins page, rest and count again; one that is refused leaves them as they stood.
fn play_on(rt: &HostRuntime, page: &[u8]) -> anyhow::Result<()> {
    let heap = rt.alloc();
    let spans = [busy(2, 2)];
    let free = turn_clocks(heap, 1, 0, 0)?;
    let mut bus = SpanBus::new(heap);
    print_made(rt, "span bus", bus.make(heap, page, &spans))?;
    wait(&mut bus, 3000);
    report(rt, "3000 clocks later", &mut bus, page, free.as_slice())?;
    print_made(rt, "made anew", bus.make(heap, page, &spans))?;
    report(
        rt,
        "made anew",
        &mut bus,
        page,
        span_clocks(heap, &spans)?.as_slice(),
    )?;
    bus.begin();
    print_made(
        rt,
        "refused",
        bus.make(heap, &[1, 2, 3], &[busy(2_147_483_648, 1)]),
    )?;
    report(rt, "as it stood", &mut bus, page, free.as_slice())?;
    wait(&mut bus, u32::MAX);
    let count = bus.count();
    println!(rt; "count {count}")?;
    bus.begin();
    report(rt, "the count stopped", &mut bus, page, free.as_slice())
}

// The page's limit, and that a page too long is told before a bad bus.
fn try_pages(rt: &HostRuntime, page: &[u8], over: &[u8]) -> anyhow::Result<()> {
    let heap = rt.alloc();
    let mut free = FreeBus::new(heap);
    print_made(rt, "16384 bytes", free.make(heap, page))?;
    print_made(rt, "16385 bytes", free.make(heap, over))?;
    let mut turns = TurnBus::new(heap);
    print_made(rt, "0 free, 0 busy", turns.make(heap, page, 0, 0))?;
    print_made(
        rt,
        "16385 bytes, 0 free, 0 busy",
        turns.make(heap, over, 0, 0),
    )?;
    Ok(())
}

// The limits of a list of spans.
fn try_spans(rt: &HostRuntime, page: &[u8], over: &[u8]) -> anyhow::Result<()> {
    let heap = rt.alloc();
    let mut bus = SpanBus::new(heap);
    let mut spans = Vec::from_elem(heap, busy(9, 1), 256)?;
    print_made(rt, "256 spans", bus.make(heap, page, spans.as_slice()))?;
    spans.push(busy(9, 1))?;
    print_made(rt, "257 spans", bus.make(heap, page, spans.as_slice()))?;
    print_made(
        rt,
        "16385 bytes, 257 spans",
        bus.make(heap, over, spans.as_slice()),
    )?;
    for (first, length) in [
        (2_147_483_647, 2_147_483_647),
        (2_147_483_648, 0),
        (0, 2_147_483_648),
    ] {
        println!(rt; "from clock {first} for {length} clocks")?;
        print_made(
            rt,
            "that span",
            bus.make(heap, page, &[busy(first, length)]),
        )?;
    }
    Ok(())
}

fn run(rt: &HostRuntime) -> anyhow::Result<()> {
    let page = some_page(rt.alloc(), 3000)?;
    play_free(rt, page.as_slice())?;
    for (free, busy) in [(3, 2), (1, 254), (5, 0), (0, 5), (255, 255)] {
        play_turns(rt, page.as_slice(), free, busy)?;
    }
    play_spans(rt, page.as_slice(), &[])?;
    play_spans(rt, page.as_slice(), &[busy(0, 2), busy(5, 3)])?;
    // overlapping, nested and empty spans
    play_spans(
        rt,
        page.as_slice(),
        &[busy(7, 4), busy(5, 3), busy(6, 1), busy(15, 0)],
    )?;
    play_spans(rt, page.as_slice(), &[busy(2000, 2_147_483_647)])?;
    play_on(rt, page.as_slice())?;
    let longest = some_page(rt.alloc(), 16_384)?;
    let too_long = some_page(rt.alloc(), 16_385)?;
    try_pages(rt, longest.as_slice(), too_long.as_slice())?;
    try_spans(rt, longest.as_slice(), too_long.as_slice())
}

fn main(rt: HostRuntime) -> anyhow::Result<()> {
    run(&rt)
}
