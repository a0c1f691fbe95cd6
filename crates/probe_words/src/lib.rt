// Answers to requests of words (docs/REQUESTS.md), 10 to 43. Proved safe, no more.
#![tactic(auto)]

mod cables;
mod lists;
mod rasters;
mod registers;
mod timings;

use probe_answers::numbers::{arg, word};
use std::io::{self, Write};

// Answers the request whose numbers these are.
pub fn answer<W: Write>(to: &mut W, args: &[u32]) -> io::Result<()> {
    let a = arg(args, 1);
    let b = arg(args, 2);
    let c = arg(args, 3);
    match arg(args, 0) {
        0x10 => rasters::raster_of(to, a),
        0x11 => rasters::name(to, a, b, c, arg(args, 4)),
        0x12 => rasters::line_facts(to, a, b),
        0x21 => registers::run(to, args),
        0x22 => registers::words_of(to, a),
        0x30 | 0x31 => cables::coded(to, args),
        0x32 => cables::find_sync(to, args),
        0x40 => timings::xyz(to, a == 1, b == 1, c == 1),
        0x41 => timings::read_xyz(to, word(a)),
        0x42 => timings::line_words(to, a, b),
        0x43 => timings::read_line(to, a, word(b), word(c)),
        _ => Ok(()),
    }
}
