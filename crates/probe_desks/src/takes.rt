// Desks that take, 81 and 82: a fresh desk takes as many bytes as each length of the request lends it, and last all that are left.
use crate::bytes::bytes_from;
use crate::outcomes::then_outcome;
use probe_answers::numbers::{arg, number_of};
use probe_sessions::fields::{session_at, then_session};
use sdi::{Desk, Outcome, Taken};
use std::io::{self, Write};

// A desk that has taken the bytes before a place.
#[derive(Clone, Copy)]
struct Stand {
    desk: Desk,
    at: usize,
}

// The number of the last take: how many there are before it.
fn last_take(args: &[u32]) -> usize {
    arg(args, 1) as usize % 65536
}

// How many bytes a take is lent at most.
fn lent(args: &[u32], number: usize, bytes: &[u8]) -> usize {
    if number < last_take(args) {
        return arg(args, number % 65536 + 2) as usize;
    }
    bytes.len()
}

// The number of the first take that is told: of 82 the last alone is.
fn first_told(args: &[u32]) -> usize {
    if arg(args, 0) == 0x82 {
        return last_take(args);
    }
    0
}

fn tell<W: Write>(
    to: &mut W,
    args: &[u32],
    number: usize,
    refusal: u8,
    taken: Taken,
) -> io::Result<()> {
    let start = first_told(args);
    if number < start {
        return Ok(());
    }
    if start < number {
        write!(to, " ")?;
    }
    write!(to, "{refusal:x} {:x}", taken.taken)?;
    then_outcome(to, taken.outcome)
}

// The take of this number; one that is refused takes nothing.
fn take<W: Write>(
    to: &mut W,
    args: &[u32],
    number: usize,
    stand: Stand,
    bytes: &[u8],
    y: &mut [u16],
    c: &mut [u16],
) -> io::Result<Stand> {
    let lent = bytes_from(bytes, stand.at, lent(args, number, bytes));
    let answer = stand.desk.take(lent, y, c);
    let refusal = number_of(&answer);
    let taken = answer.unwrap_or(Taken {
        desk: stand.desk,
        taken: 0,
        outcome: Outcome::Nothing,
    });
    tell(to, args, number, refusal, taken)?;
    Ok(Stand {
        desk: taken.desk,
        at: stand.at % 65536 + taken.taken % 65536,
    })
}

// The takes before the last.
fn takes<W: Write>(
    to: &mut W,
    args: &[u32],
    bytes: &[u8],
    y: &mut [u16],
    c: &mut [u16],
) -> io::Result<Stand> {
    let mut stand = Stand {
        desk: Desk::fresh(),
        at: 0,
    };
    for number in 0..last_take(args) {
        stand = take(to, args, number, stand, bytes, y, c)?;
    }
    Ok(stand)
}

// All takes, and the end of the input, 81.
pub fn file<W: Write>(
    to: &mut W,
    args: &[u32],
    bytes: &[u8],
    y: &mut [u16],
    c: &mut [u16],
) -> io::Result<()> {
    let stand = takes(to, args, bytes, y, c)?;
    let last = take(to, args, last_take(args), stand, bytes, y, c)?;
    then_outcome(to, last.desk.finish())
}

// The takes before the last, lent rows of their own: so a desk comes to its words also where the rows of the last are too short.
fn takes_apart<W: Write>(to: &mut W, args: &[u32], bytes: &[u8]) -> io::Result<Stand> {
    let mut y = [0u16; Desk::LONGEST];
    let mut c = [0u16; Desk::LONGEST];
    takes(to, args, bytes, &mut y, &mut c)
}

// The last take of a desk that is given the session at this place of the request, 82.
pub fn with_session<W: Write>(
    to: &mut W,
    args: &[u32],
    at: usize,
    bytes: &[u8],
    y: &mut [u16],
    c: &mut [u16],
) -> io::Result<()> {
    let before = takes_apart(to, args, bytes)?;
    let session = session_at(args, at);
    let stand = Stand {
        desk: Desk {
            session,
            ..before.desk
        },
        at: before.at,
    };
    let last = take(to, args, last_take(args), stand, bytes, y, c)?;
    then_session(to, last.desk.session)
}
