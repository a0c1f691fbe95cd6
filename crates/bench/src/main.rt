// Reads a bench file on standard input and prints a line per job. Proved safe, no more: what it prints is the library's.
#![tactic(auto)]

ghost use Rattle.std.specs.Prelude.{◌+◌, ◌≤◌, ◌<◌, length, IfSome};
ghost use Rattle.label.specs.Label.{room};

use sdi::{Desk, Label, Outcome, Taken};
use std::io::{self, Read, Write};

// How many bytes of lines wait to be written out together.
const WAITING: usize = 4096;

// Lines that wait. There is room for one more.
#[derive(Drop)]
struct Lines {
    bytes: [u8; WAITING],
    size: usize,
    ghost room_left: { size + room ≤ 4096 },
}

impl Lines {
    // Lays the line of an outcome after those before it, and writes all out where there is no room for another.
    #[tactic(auto, using(label::proofs::Boxing::size_of_boxed))]
    fn lay<W: Write>(&mut self, outcome: Outcome, to: &mut W) -> io::Result<()> {
        let line = sdi::label_of(outcome);
        let end = self.size + line.size;
        self.bytes[self.size..end].copy_from_slice(&line.bytes[..line.size]);
        if end <= WAITING - Label::ROOM {
            self.size = end;
            return Ok(());
        }
        self.size = 0;
        to.write_all(&self.bytes[..end])
    }

    fn write_out<W: Write>(&mut self, to: &mut W) -> io::Result<()> {
        let size = self.size;
        self.size = 0;
        to.write_all(&self.bytes[..size])
    }
}

// A desk with its row buffers, and the lines of what it told.
#[derive(Drop)]
struct Bench {
    desk: Desk,
    y: [u16; Desk::LONGEST],
    c: [u16; Desk::LONGEST],
    lines: Lines,
}

impl Bench {
    // Before the first byte.
    fn fresh() -> Bench {
        Bench {
            desk: Desk::fresh(),
            y: [0; Desk::LONGEST],
            c: [0; Desk::LONGEST],
            lines: Lines {
                bytes: [0; WAITING],
                size: 0,
            },
        }
    }

    // Serves bytes up to the end of a job. Answers how many, or none where no more are to be served: the file is refused, or the output is closed.
    #[tactic(auto, using(desk::proofs::Walking::taken_within))]
    fn serve_job<W: Write>(&mut self, bytes: &[u8], to: &mut W) -> Option<usize>
        requires { 0 < length bytes.now }
        ensures { IfSome result (λ taken. (0 < taken) × (taken ≤ length bytes.now)) }
    {
        let Taken {
            desk,
            taken,
            outcome,
        } = self.desk.take(bytes, &mut self.y, &mut self.c).ok()?;
        self.desk = desk;
        self.lines.lay(outcome, to).ok()?;
        match outcome {
            Outcome::BadFile(_) => None,
            _ => Some(taken),
        }
    }

    // Serves job after job; none where no more bytes are to be served.
    fn serve_jobs<W: Write>(&mut self, mut bytes: &[u8], to: &mut W) -> Option<()> {
        while !bytes.is_empty() {
            let taken = self.serve_job(bytes, to)?;
            bytes = &bytes[taken..];
        }
        Some(())
    }

    // Serves the bytes that one read brought, and writes out their lines: none waits while the program waits for input.
    fn serve<W: Write>(&mut self, bytes: &[u8], to: &mut W) -> Option<()> {
        let served = self.serve_jobs(bytes, to);
        self.lines.write_out(to).ok()?;
        served
    }

    // Serves to the end of the input; a read that fails is the end. A proved loop has to end, so it counts its turns to a number that no run uses up.
    fn run<R: Read, W: Write>(&mut self, from: &mut R, to: &mut W) {
        let mut input = [0; 65536];
        for _ in 0..u64::MAX {
            let size = from.read(&mut input).unwrap_or(0);
            if size == 0 || self.serve(&input[..size], to).is_none() {
                return;
            }
        }
    }

    // Prints the line of the last outcome.
    fn finish<W: Write>(&mut self, to: &mut W) -> io::Result<()> {
        self.lines.lay(self.desk.finish(), to)?;
        self.lines.write_out(to)
    }
}

// Nothing is said of an output that is closed.
fn main(rt: HostRuntime) {
    let mut bench = Bench::fresh();
    let mut to = rt.stdout();
    bench.run(&mut rt.stdin(), &mut to);
    bench.finish(&mut to).ok();
}
