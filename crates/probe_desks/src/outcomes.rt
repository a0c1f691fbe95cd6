// Outcomes: told, 81 and 82, and made from a request, 83.
use crate::bytes::{take_bytes, then_bytes};
use probe_answers::numbers::{arg, byte};
use probe_sessions::fields::{counts_at, then_counts, verdict_number};
use sdi::{Job, Outcome, Tag, Verdict};
use std::io::{self, Write};

// An outcome, after the first number of a line.
pub fn then_outcome<W: Write>(to: &mut W, outcome: Outcome) -> io::Result<()> {
    match outcome {
        Outcome::Nothing => write!(to, " 0 0 0 0 0 0 0 0"),
        Outcome::Done(job) => then_job(to, job),
        Outcome::BadFile(number) => write!(to, " 2 {number:x} 0 0 0 0 0 0"),
    }
}

fn then_job<W: Write>(to: &mut W, job: Job) -> io::Result<()> {
    write!(to, " 1 0 {:x}", job.tag.size)?;
    then_bytes(to, &job.tag.bytes, job.tag.size as usize)?;
    write!(to, " {:x} {:x}", job.raster, job.wipe as u8)?;
    then_counts(to, job.counts)?;
    write!(to, " {:x}", verdict_number(job.verdict))
}

// The outcome that a request has.
pub fn outcome_of(args: &[u32]) -> Outcome {
    match arg(args, 1) {
        0 => Outcome::Nothing,
        1 => Outcome::Done(job_of(args)),
        _ => Outcome::BadFile(byte(arg(args, 2))),
    }
}

// The job that a request has: its tag is a list, and the other numbers stand after it.
fn job_of(args: &[u32]) -> Job {
    let from = arg(args, 3) as usize % 65536 + 4;
    Job {
        tag: tag_of(args),
        raster: arg(args, from),
        wipe: arg(args, from + 1) == 1,
        counts: counts_at(args, from + 2),
        verdict: verdict_of(arg(args, from + 4)),
    }
}

fn tag_of(args: &[u32]) -> Tag {
    let mut bytes = [0u8; 32];
    let size = take_bytes(args, 3, &mut bytes).len();
    Tag {
        bytes,
        size: (size % 256) as u8,
    }
}

fn verdict_of(n: u32) -> Verdict {
    match n {
        0 => Verdict::Refused,
        1 => Verdict::NoSignal,
        2 => Verdict::Fail,
        3 => Verdict::Short,
        _ => Verdict::Pass,
    }
}
