// Answers to requests of bench files (docs/REQUESTS.md), 81 to 83. Proved safe, no more.
#![tactic(auto)]

mod bytes;
mod outcomes;
mod takes;

use crate::bytes::{take_bytes, then_bytes};
use probe_answers::numbers::arg;
use probe_answers::runs::{take_runs, then_rows};
use std::io::{self, Write};

// Answers the request whose numbers these are.
pub fn answer<W: Write>(to: &mut W, args: &[u32]) -> io::Result<()> {
    match arg(args, 0) {
        0x81 | 0x82 => with_bytes(to, args, arg(args, 1) as usize % 65536 + 2),
        0x83 => label(to, args),
        _ => Ok(()),
    }
}

// Requests of a desk, whose bytes stand at this place.
fn with_bytes<W: Write>(to: &mut W, args: &[u32], at: usize) -> io::Result<()> {
    let mut bytes = [0u8; 20000];
    let bytes = take_bytes(args, at, &mut bytes);
    with_rows(to, args, at % 65536 + 1 + bytes.len() % 65536, bytes)
}

// Where the rows stand: after the session, which 82 has at this place.
fn rows_at(args: &[u32], at: usize) -> usize {
    if arg(args, 0) == 0x82 {
        return at % 65536 + 15;
    }
    at
}

fn with_rows<W: Write>(to: &mut W, args: &[u32], at: usize, bytes: &[u8]) -> io::Result<()> {
    let mut y = [0u16; 20000];
    let mut c = [0u16; 20000];
    let (y, next) = take_runs(args, rows_at(args, at), &mut y);
    let (c, _) = take_runs(args, next, &mut c);
    if arg(args, 0) == 0x81 {
        takes::file(to, args, bytes, y, c)?;
    } else {
        takes::with_session(to, args, at, bytes, y, c)?;
    }
    then_rows(to, y, c)
}

fn label<W: Write>(to: &mut W, args: &[u32]) -> io::Result<()> {
    let line = sdi::label_of(outcomes::outcome_of(args));
    write!(to, "{:x}", line.size)?;
    then_bytes(to, &line.bytes, line.size)
}
