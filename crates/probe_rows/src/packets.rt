// Packets, 50 to 52.
use probe_answers::numbers::{arg, byte, number_of};
use probe_answers::runs::{take_runs, then_runs};
use sdi::Channel;
use std::io::{self, Write};

pub fn build<W: Write>(to: &mut W, args: &[u32]) -> io::Result<()> {
    let mut user = [0u16; 20000];
    let mut out = [0u16; 20000];
    let (user, at) = take_runs(args, 3, &mut user);
    let (out, _) = take_runs(args, at, &mut out);
    let built = sdi::build_packet(byte(arg(args, 1)), byte(arg(args, 2)), user, out);
    write!(to, "{:x} {:x}", number_of(&built), built.unwrap_or(0))?;
    then_runs(to, out)
}

pub fn find<W: Write>(
    to: &mut W,
    raster: u32,
    line: u32,
    did: u8,
    sdid: u8,
    y: &[u16],
    c: &[u16],
) -> io::Result<()> {
    let refusal = sdi::find_refusal(raster, line, did, sdid, y, c);
    write!(to, "{:x}", number_of(&refusal))?;
    then_runs(to, sdi::find_packet(raster, line, did, sdid, y, c))
}

fn channel_of(n: u32) -> Channel {
    match n {
        0 => Channel::Y,
        _ => Channel::C,
    }
}

// The output stands at this place.
pub fn extract<W: Write>(
    to: &mut W,
    args: &[u32],
    at: usize,
    y: &[u16],
    c: &[u16],
) -> io::Result<()> {
    let mut out = [0u16; 20000];
    let (out, _) = take_runs(args, at, &mut out);
    let channel = channel_of(arg(args, 3));
    let extracted = sdi::extract_packets(arg(args, 1), arg(args, 2), channel, y, c, out);
    write!(
        to,
        "{:x} {:x}",
        number_of(&extracted),
        extracted.unwrap_or(0)
    )?;
    then_runs(to, out)
}
