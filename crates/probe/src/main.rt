// Answers requests, one a line (docs/REQUESTS.md). Proved safe, no more.
#![tactic(auto)]

use probe_answers::numbers::arg;
use std::io::{self, Read, Write};

// What a hexadecimal digit stands for.
fn digit_of(byte: u8) -> u32 {
    match byte {
        b'0'..=b'9' => (byte - b'0') as u32,
        b'a'..=b'f' => (byte - b'a' + 10) as u32,
        _ => 0,
    }
}

// The number at a place, one digit longer.
fn extend(args: &mut [u32], at: usize, digit: u32) {
    if at < args.len() {
        args[at] = args[at] % 0x10000000 * 16 + digit % 16;
    }
}

// The number at a place begins; past the end of the array, nothing does.
fn begin(args: &mut [u32], at: usize) -> usize {
    if at < args.len() {
        args[at] = 0;
    }
    at
}

// Answers the request whose numbers these are: by the crate that its number names, or by an empty line.
fn answer<W: Write>(to: &mut W, args: &[u32]) -> io::Result<()> {
    match arg(args, 0) {
        0x10..=0x43 => probe_words::answer(to, args)?,
        0x50..=0x62 => probe_rows::answer(to, args)?,
        0x70..=0x73 => probe_sessions::answer(to, args)?,
        0x81..=0x83 => probe_desks::answer(to, args)?,
        _ => {}
    }
    writeln!(to)
}

// A byte of a line whose number at a place is being read; answers the place where the next byte goes on.
fn take<W: Write>(to: &mut W, at: usize, byte: u8, args: &mut [u32]) -> io::Result<usize> {
    if byte == b'\n' {
        answer(to, args)?;
        return Ok(begin(args, 0));
    }
    if byte == b' ' {
        return Ok(begin(args, at % 65536 + 1));
    }
    extend(args, at, digit_of(byte));
    Ok(at)
}

fn take_all<W: Write>(
    to: &mut W,
    from: usize,
    bytes: &[u8],
    args: &mut [u32],
) -> io::Result<usize> {
    let mut at = from;
    for byte in bytes {
        at = take(to, at, *byte, args)?;
    }
    Ok(at)
}

// Answers the lines that each read brought, and writes the answers out: none waits while the program waits for input. A proved loop has to end, so it
// counts its turns to a number that no run uses up.
fn run<R: Read, W: Write>(
    from: &mut R,
    to: &mut W,
    input: &mut [u8],
    args: &mut [u32],
) -> io::Result<()> {
    let mut at = 0;
    for _ in 0..u64::MAX {
        let n = from.read(input)?;
        if n == 0 {
            return Ok(());
        }
        at = take_all(to, at, &input[..n], args)?;
        to.flush()?;
    }
    Ok(())
}

fn main(rt: HostRuntime) -> io::Result<()> {
    let mut input = [0u8; 65536];
    let mut args = [0u32; 20000];
    let mut to = rt.stdout();
    run(&mut rt.stdin(), &mut to, &mut input, &mut args)
}
