// Plays hexadecimal lines from standard input on one console, and prints the answers.
#![tactic(auto)]

use anyhow::Error;
use replay::Player;
use std::io;
use std::io::{Read, Write};

const PART: usize = 65_536;

// So few bytes end at most three lines of clocks, whose answers fit in little memory.
const FEW: usize = 16;

fn next_part<'a, R: Read>(input: &mut R, buffer: &'a mut [u8]) -> io::Result<&'a [u8]> {
    let n = input.read(buffer)?;
    Ok(&buffer[..n])
}

fn play_part<W: Write>(
    player: &mut Player,
    part: &[u8],
    out: &mut Vec<u8>,
    output: &mut W,
) -> anyhow::Result<()> {
    for bytes in part.chunks(FEW) {
        player.feed(bytes, out).map_err(Error::msg)?;
        if out.len() >= PART {
            output.write_all(out.as_slice())?;
            out.clear();
        }
    }
    Ok(())
}

fn run(rt: &HostRuntime) -> anyhow::Result<()> {
    let heap = rt.alloc();
    let mut player = Player::new(heap).map_err(Error::msg)?;
    let mut input = rt.stdin();
    let mut output = rt.stdout();
    let mut buffer = vec![in heap; 0u8; PART]?;
    let mut out = Vec::new(heap);
    // counted, since each loop must have an end
    for _ in 0..u64::MAX {
        let part = next_part(&mut input, buffer.as_mut_slice())?;
        if part.is_empty() {
            break;
        }
        play_part(&mut player, part, &mut out, &mut output)?;
    }
    player.finish(&mut out).map_err(Error::msg)?;
    output.write_all(out.as_slice())?;
    output.flush()?;
    Ok(())
}

fn main(rt: HostRuntime) -> anyhow::Result<()> {
    run(&rt)
}
