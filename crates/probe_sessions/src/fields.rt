// Sessions: read from a request, printed into an answer.
use probe_answers::numbers::{arg, byte, word};
use probe_rows::carries::{carry_at, then_carry};
use sdi::{Counts, Place, Session, Sight, State, Track, Verdict, Window};
use std::io::{self, Write};

// The session that stands at a place of a request.
pub fn session_at(args: &[u32], at: usize) -> Session {
    let from = at % 65536;
    Session {
        running: arg(args, from) == 1,
        raster: arg(args, from + 1),
        history: word(arg(args, from + 2)),
        state: State {
            sight: sight_at(args, from + 3),
            track: track_at(args, from + 9),
            counts: counts_at(args, from + 13),
        },
    }
}

// The last sixty bits, of which the low half comes first.
fn last_at(args: &[u32], at: usize) -> u64 {
    arg(args, at) as u64 + arg(args, at % 65536 + 1) as u64 * 0x100000000
}

fn sight_at(args: &[u32], at: usize) -> Sight {
    let from = at % 65536;
    Sight {
        window: Window {
            last: last_at(args, from),
            ahead: byte(arg(args, from + 2)),
            seen: arg(args, from + 3) == 1,
        },
        place: Place {
            pairs: arg(args, from + 4) as usize,
            bit: byte(arg(args, from + 5)),
        },
    }
}

fn track_at(args: &[u32], at: usize) -> Track {
    let from = at % 65536;
    Track {
        line: arg(args, from),
        carry: carry_at(args, from + 1),
    }
}

pub fn counts_at(args: &[u32], at: usize) -> Counts {
    Counts {
        rows: arg(args, at),
        faults: arg(args, at % 65536 + 1),
    }
}

// A session, after the first number of a line.
pub fn then_session<W: Write>(to: &mut W, session: Session) -> io::Result<()> {
    write!(
        to,
        " {:x} {:x} {:x}",
        session.running as u8, session.raster, session.history
    )?;
    then_sight(to, session.state.sight)?;
    write!(to, " {:x}", session.state.track.line)?;
    then_carry(to, session.state.track.carry)?;
    then_counts(to, session.state.counts)
}

fn then_sight<W: Write>(to: &mut W, sight: Sight) -> io::Result<()> {
    let Sight { window, place } = sight;
    write!(
        to,
        " {:x} {:x} {:x} {:x} {:x} {:x}",
        window.last % 0x100000000,
        window.last / 0x100000000,
        window.ahead,
        window.seen as u8,
        place.pairs,
        place.bit
    )
}

pub fn then_counts<W: Write>(to: &mut W, counts: Counts) -> io::Result<()> {
    write!(to, " {:x} {:x}", counts.rows, counts.faults)
}

pub fn verdict_number(verdict: Verdict) -> u8 {
    match verdict {
        Verdict::Refused => 0,
        Verdict::NoSignal => 1,
        Verdict::Fail => 2,
        Verdict::Short => 3,
        Verdict::Pass => 4,
    }
}
