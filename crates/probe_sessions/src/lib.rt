// Answers to requests of sessions (docs/REQUESTS.md), 70 to 73. Proved safe, no more.
#![tactic(auto)]

pub mod fields;
mod signals;

use crate::fields::{session_at, then_counts, then_session, verdict_number};
use crate::signals::take_signal;
use probe_answers::numbers::{arg, number_of, word};
use probe_answers::runs::{take_runs, then_rows};
use sdi::Session;
use std::io::{self, Write};

// Answers the request whose numbers these are.
pub fn answer<W: Write>(to: &mut W, args: &[u32]) -> io::Result<()> {
    match arg(args, 0) {
        0x70 => begin(to, session_at(args, 1), arg(args, 16)),
        0x71 => with_signal(to, args, 16, word(arg(args, 3))),
        0x72 => end(to, session_at(args, 1)),
        0x73 => with_signal(to, args, arg(args, 2) as usize % 65536 + 3, 0),
        _ => Ok(()),
    }
}

// A call that is refused leaves the session as it was.
fn begin<W: Write>(to: &mut W, session: Session, raster: u32) -> io::Result<()> {
    let begun = session.begin(raster);
    write!(to, "{:x}", number_of(&begun))?;
    then_session(to, begun.unwrap_or(session))
}

fn end<W: Write>(to: &mut W, session: Session) -> io::Result<()> {
    match session.end() {
        Ok(ended) => {
            write!(to, "0 {:x}", ended.raster)?;
            then_counts(to, ended.counts)?;
            write!(to, " {:x}", verdict_number(ended.verdict))?;
            then_session(to, ended.session)
        }
        Err(refusal) => {
            write!(to, "{:x} 0 0 0 0", u8::from(refusal))?;
            then_session(to, session)
        }
    }
}

// Requests of a signal, which stands at this place; where it is to be scrambled, from this history.
fn with_signal<W: Write>(to: &mut W, args: &[u32], at: usize, history: u16) -> io::Result<()> {
    let mut words = [0u16; 40000];
    let (words, next) = take_signal(args, at, history, &mut words);
    with_rows(to, args, next, words)
}

// A feed, or a module, whose row buffers stand at this place of the request.
fn with_rows<W: Write>(to: &mut W, args: &[u32], at: usize, words: &[u16]) -> io::Result<()> {
    let mut y = [0u16; 20000];
    let mut c = [0u16; 20000];
    let (y, at) = take_runs(args, at, &mut y);
    let (c, _) = take_runs(args, at, &mut c);
    if arg(args, 0) == 0x71 {
        feed(to, session_at(args, 1), words, y, c)?;
    } else {
        module(to, args, words, y, c)?;
    }
    then_rows(to, y, c)
}

fn feed<W: Write>(
    to: &mut W,
    session: Session,
    words: &[u16],
    y: &mut [u16],
    c: &mut [u16],
) -> io::Result<()> {
    let fed = session.feed(words, y, c);
    write!(to, "{:x}", number_of(&fed))?;
    then_session(to, fed.unwrap_or(session))
}

// A module begun on a fresh session.
fn module<W: Write>(
    to: &mut W,
    args: &[u32],
    words: &[u16],
    y: &mut [u16],
    c: &mut [u16],
) -> io::Result<()> {
    let fresh = Session::fresh();
    let begun = fresh.begin(arg(args, 1));
    write!(to, "{:x}", number_of(&begun))?;
    let fed = feeds(to, begun.unwrap_or(fresh), args, words, y, c)?;
    write!(to, " ")?;
    end(to, fed)
}

// The feeds of a module: so many words each as the request says, the last takes those that are left.
fn feeds<W: Write>(
    to: &mut W,
    mut session: Session,
    args: &[u32],
    words: &[u16],
    y: &mut [u16],
    c: &mut [u16],
) -> io::Result<Session> {
    let count = arg(args, 2) as usize % 65536;
    write!(to, " {:x}", count + 1)?;
    let mut at = 0usize;
    for k in 0..count {
        let n = arg(args, k + 3) as usize % 65536;
        session = feed_part(to, session, parts::part(words, at, n), y, c)?;
        at = at % 65536 + n;
    }
    feed_part(to, session, parts::part(words, at, words.len()), y, c)
}

fn feed_part<W: Write>(
    to: &mut W,
    session: Session,
    words: &[u16],
    y: &mut [u16],
    c: &mut [u16],
) -> io::Result<Session> {
    let fed = session.feed(words, y, c);
    write!(to, " {:x}", number_of(&fed))?;
    Ok(fed.unwrap_or(session))
}
