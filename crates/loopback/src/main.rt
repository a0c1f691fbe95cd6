// A frame built, sent and judged, through the face of the library alone: rows with a packet in each are built, scrambled as a cable
// carries them, and fed to a session; then the same with one bit of the cable struck. Proved safe, no more; what it prints is stored.
#![tactic(auto)]

use sdi::{Carry, Ended, Refusal, Session, Verdict};
use std::io::{self, Write};

// Raster 1: its T, A and N.
const RASTER: u32 = 1;

const TOTAL: usize = 1650;

const ACTIVE: usize = 1280;

const LINES: u32 = 750;

// The first row opens the count and the last is not whole, so a frame takes two rows more.
const ROWS: u32 = LINES + 2;

// The pairs of a row, C word first.
fn paired(y: &[u16; TOTAL], c: &[u16; TOTAL]) -> [u16; 2 * TOTAL] {
    let mut pairs = [0; 2 * TOTAL];
    for (i, (c, y)) in c.iter().zip(y).enumerate() {
        pairs[2 * i] = *c;
        pairs[2 * i + 1] = *y;
    }
    pairs
}

// What the last row left for the next where rows are built and scrambled.
#[derive(Clone, Copy)]
struct Sender {
    carry: Carry,
    history: u16,
}

impl Sender {
    // A row built with a packet in its blanking, and scrambled into a cable.
    fn send(&mut self, line: u32, cable: &mut [u16; 2 * TOTAL]) -> Result<(), Refusal> {
        let mut packet = [0; 9];
        sdi::build_packet(0x61, 0x01, &[0x196, 0x269], &mut packet)?;
        let mut y = [0; TOTAL];
        let mut c = [0; TOTAL];
        self.carry = sdi::build_row(
            RASTER,
            line,
            self.carry,
            &[0x1f0; ACTIVE],
            &[0x200; ACTIVE],
            &packet,
            &[],
            &mut y,
            &mut c,
        )?;
        self.history = sdi::scramble(self.history, &paired(&y, &c), cable)?;
        Ok(())
    }
}

// What a session says of the rows of a frame where one bit of this row, if any, is struck.
fn judged(struck: Option<u32>) -> Result<Ended, Refusal> {
    let mut sender = Sender {
        carry: None,
        history: 0,
    };
    let mut y = [0; TOTAL];
    let mut c = [0; TOTAL];
    let mut cable = [0; 2 * TOTAL];
    let mut session = Session::fresh().begin(RASTER)?;
    for row in 0..ROWS {
        sender.send(row % LINES + 1, &mut cable)?;
        cable[2000] ^= u16::from(struck == Some(row));
        session = session.feed(&cable, &mut y, &mut c)?;
    }
    session.end()
}

fn verdict_text(verdict: Verdict) -> &'static str {
    match verdict {
        Verdict::Refused => "refused",
        Verdict::NoSignal => "NO SIGNAL",
        Verdict::Fail => "FAIL",
        Verdict::Short => "SHORT",
        Verdict::Pass => "PASS",
    }
}

// What is judged is written before it is computed: a write that fails ends the run first.
fn judge<W: Write>(to: &mut W, what: &str, struck: Option<u32>) -> io::Result<()> {
    write!(to, "{what}")?;
    match judged(struck) {
        Ok(ended) => writeln!(
            to,
            ": raster {} rows {} faults {} {}",
            ended.raster,
            ended.counts.rows,
            ended.counts.faults,
            verdict_text(ended.verdict)
        ),
        Err(refusal) => writeln!(to, ": refused {}", u8::from(refusal)),
    }
}

fn main(rt: HostRuntime) -> io::Result<()> {
    let mut to = rt.stdout();
    judge(&mut to, "as it was sent", None)?;
    judge(&mut to, "one bit struck", Some(400))
}
