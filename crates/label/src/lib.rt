// The line that is printed of an outcome.
#![tactic(auto)]

ghost use Rattle.std.specs.Prelude.{◌≡◌, [], ◌∷◌};
ghost use Rattle.tally.specs.Tally.{label};
ghost use Rattle.label.specs.Label.{bad_file_label, boxed, decimal, job_label, label_of, tag_text};
ghost use Rattle.label.specs.Writing.{Writes};

use desk::{Job, Outcome};
use itoa::Buffer;
use reader::Tag;
use tally::Verdict;

// The first `size` bytes are the line. Nothing is allocated: so the room is of one size.
#[derive(Clone, Copy)]
pub struct Label {
    pub bytes: [u8; Label::ROOM],
    pub size: usize,
}

// Text after text and not by `write!`: no contract says that it succeeds, and where it fails nothing is known of the line.
impl Label {
    // The room of a line: no job's line is longer.
    pub const ROOM: usize = 96;

    #[tactic(auto, unfolding(crate::specs::Label::boxed))]
    fn empty() -> Label
        ensures { result ≡ boxed [] }
    {
        Label {
            bytes: [0; Label::ROOM],
            size: 0,
        }
    }

    // A full line takes no byte.
    #[tactic(auto, using(crate::proofs::Boxing::byte_written, crate::proofs::Boxing::byte_left))]
    fn push(&mut self, byte: u8)
        ensures { Writes self.old (byte ∷ []) self.new }
    {
        if self.size < Label::ROOM {
            self.bytes[self.size] = byte;
            self.size += 1;
        }
    }

    #[tactic(auto, using(crate::proofs::Boxing::nothing_written, crate::proofs::Boxing::one_more_written))]
    fn write(&mut self, text: &[u8])
        ensures { Writes self.old text.now self.new }
    {
        for byte in text {
            self.push(*byte);
        }
    }

    #[tactic(auto, using(crate::proofs::Digits::decimal_printed))]
    fn write_decimal(&mut self, n: u32)
        ensures { Writes self.old (decimal n) self.new }
    {
        let mut buffer = Buffer::new();
        self.write(buffer.format(n).as_bytes());
    }
}

// A size past the room is of all of it.
fn tag_text(tag: &Tag) -> &[u8]
    ensures { result.now ≡ tag_text tag.now }
{
    let size = usize::from(tag.size).min(tag.bytes.len());
    &tag.bytes[..size]
}

fn verdict_text(verdict: Verdict) -> &'static str
    ensures { result.now ≡ label verdict }
{
    match verdict {
        Verdict::Refused => "",
        Verdict::NoSignal => "NO SIGNAL",
        Verdict::Fail => "FAIL",
        Verdict::Short => "SHORT",
        Verdict::Pass => "PASS",
    }
}

fn label_of_job(job: Job) -> Label
    ensures { result ≡ boxed (job_label job) }
{
    let mut line = Label::empty();
    line.write(tag_text(&job.tag));
    line.write(b" raster ");
    line.write_decimal(job.raster);
    line.write(b" rows ");
    line.write_decimal(job.counts.rows);
    line.write(b" faults ");
    line.write_decimal(job.counts.faults);
    line.write(b" ");
    line.write(verdict_text(job.verdict).as_bytes());
    line.push(b'\n');
    line
}

#[tactic(auto, unfolding(crate::specs::Label::bad_file_label))]
fn label_of_bad_file(number: u8) -> Label
    ensures { result ≡ boxed (bad_file_label number) }
{
    let mut line = Label::empty();
    line.write(b"bad file ");
    line.write_decimal(u32::from(number));
    line.push(b'\n');
    line
}

// The line of an outcome; an empty one of nothing.
pub fn label_of(outcome: Outcome) -> Label
    ensures { result ≡ boxed (label_of outcome) }
{
    match outcome {
        Outcome::Nothing => Label::empty(),
        Outcome::Done(job) => label_of_job(job),
        Outcome::BadFile(number) => label_of_bad_file(number),
    }
}
