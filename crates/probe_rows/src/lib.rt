// Answers to requests of packets and rows (docs/REQUESTS.md), 50 to 62. Proved safe, no more.
#![tactic(auto)]

mod building;
pub mod carries;
mod checking;
mod packets;

use crate::carries::carry_at;
use probe_answers::numbers::{arg, byte};
use probe_answers::runs::take_runs;
use std::io::{self, Write};

// Answers the request whose numbers these are.
pub fn answer<W: Write>(to: &mut W, args: &[u32]) -> io::Result<()> {
    match arg(args, 0) {
        0x50 => packets::build(to, args),
        0x51 => with_rows(to, args, 5),
        0x52 => with_rows(to, args, 4),
        0x60 => with_rows(to, args, 6),
        0x61 => with_rows(to, args, 7),
        0x62 => building::build(to, args),
        _ => Ok(()),
    }
}

// Requests of two rows, which stand at this place.
fn with_rows<W: Write>(to: &mut W, args: &[u32], at: usize) -> io::Result<()> {
    let mut y = [0u16; 20000];
    let mut c = [0u16; 20000];
    let (y, at) = take_runs(args, at, &mut y);
    let (c, at) = take_runs(args, at, &mut c);
    of_rows(to, args, at, y, c)
}

// Requests of these rows, which go on at this place.
fn of_rows<W: Write>(
    to: &mut W,
    args: &[u32],
    at: usize,
    y: &mut [u16],
    c: &mut [u16],
) -> io::Result<()> {
    let raster = arg(args, 1);
    let line = arg(args, 2);
    match arg(args, 0) {
        0x51 => packets::find(
            to,
            raster,
            line,
            byte(arg(args, 3)),
            byte(arg(args, 4)),
            y,
            c,
        ),
        0x52 => packets::extract(to, args, at, y, c),
        0x60 => checking::check(to, raster, line, carry_at(args, 3), y, c),
        _ => checking::correct(to, raster, line, carry_at(args, 3), arg(args, 6) == 1, y, c),
    }
}
