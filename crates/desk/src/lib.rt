// A desk: takes the bytes of a bench file as they arrive, in pieces of any size, and runs a session per job.
#![tactic(auto)]

ghost use Rattle.std.specs.Prelude.{◌≡◌, true, ◌≤◌, ◌<◌, eqb, length};
ghost use Rattle.bits.specs.Choice.{if};
ghost use Rattle.refusal.specs.Refusal.{result_of};
ghost use Rattle.session.specs.Session.{end_refusal};
ghost use Rattle.desk.specs.Desk.{Ahead, AheadAlone, c_after, end_of, finished, fresh_desk, is_nothing, job_of, session_after, standing, taken, taken_c, taken_y, take_refusal, turned, turned_c, turned_y, walk, walk_of, words_at, y_after};

use reader::{Piece, Read, Reader, Stage, Tag};
use refusal::Refusal;
use session::{Ended, Session};
use tally::{Counts, Verdict};

#[derive(Clone, Copy)]
pub struct Job {
    pub tag: Tag,
    pub raster: u32,
    pub wipe: bool,
    pub counts: Counts,
    pub verdict: Verdict,
}

// Of bytes: no job's end is among them; a job is done; the file is refused. Its number and no `Refusal`: a line is printed of any number.
#[derive(Clone, Copy)]
pub enum Outcome {
    Nothing,
    Done(Job),
    BadFile(u8),
}

// The session is open while a job's words are read, and counts for nothing else.
#[derive(Clone, Copy)]
pub struct Desk {
    pub reader: Reader,
    pub session: Session,
}

// How many words are fed at once. Room for them is cleared each time, so where few are ahead it is room for few, and it stands in the function that
// fills it: a function clears all its room when it begins.
const FEW: usize = 256;

const MANY: usize = 1024;

// The desk after a byte, and what it brought.
#[derive(Clone, Copy)]
struct Turn {
    desk: Desk,
    outcome: Outcome,
}

// How many bytes were taken: up to the one that ends a job or is refused, or all.
#[derive(Clone, Copy)]
pub struct Taken {
    pub desk: Desk,
    pub taken: usize,
    pub outcome: Outcome,
}

// The session after what a byte completed.
fn session_after(piece: Piece, session: Session, y: &mut [u16], c: &mut [u16]) -> Session
    ensures answer { result ≡ session_after piece session y.old c.old }
    ensures yrow { y.new ≡ y_after piece session y.old c.old }
    ensures crow { c.new ≡ c_after piece session y.old c.old }
{
    match piece {
        Piece::More => session,
        Piece::Chosen(raster) => {
            let closed = Session::fresh();
            closed.begin(u32::from(raster)).unwrap_or(closed)
        }
        Piece::Word(word) => session.feed(&[word], y, c).unwrap_or(session),
    }
}

// What a session's end tells; nothing, and the session as it is, where it is refused. No call of `take` comes to that.
fn end_of(session: Session) -> Ended
    ensures { result ≡ end_of session }
{
    session.end().unwrap_or(Ended {
        raster: 0,
        counts: Counts::none(),
        verdict: Verdict::Refused,
        session,
    })
}

// The job whose head this reader has.
fn job_of(reader: Reader, ended: Ended) -> Job
    ensures { result ≡ job_of reader ended }
{
    Job {
        tag: reader.tag,
        raster: ended.raster,
        wipe: reader.options.wipe,
        counts: ended.counts,
        verdict: ended.verdict,
    }
}

// Whether words are read, so that a session must be open.
fn words_at(stage: Stage) -> bool
    ensures { result ≡ words_at stage }
{
    matches!(stage, Stage::WordCount | Stage::LowByte | Stage::HighByte)
}

// Whether the next byte is of a job's head. It spares time: no answer goes by it.
fn is_head(stage: Stage) -> bool {
    !matches!(stage, Stage::LowByte | Stage::HighByte | Stage::Stopped)
}

// How many words to make room for, of so many bytes: no more than all that are left but the last, which ends a job.
// It spares time: how many are taken is for the reader to say.
fn words_ahead(reader: Reader, bytes: usize) -> usize {
    if is_head(reader.stage) {
        return 0;
    }
    (reader.count.left.saturating_sub(1) as usize).min(bytes / 2)
}

// Reads bytes of a job's head that complete nothing, with the reader alone, and leaves a byte or more. Answers the reader and where it stands.
#[tactic(auto, using(crate::proofs::Skimming::ahead_none, crate::proofs::Skimming::ahead_then, crate::proofs::Skimming::ahead_more))]
fn skim(mut reader: Reader, bytes: &[u8], at: usize) -> (Reader, usize)
    requires { at < length bytes.now }
    ensures within { result.1 < length bytes.now }
    ensures ahead { AheadAlone bytes.now reader at result.0 result.1 }
{
    let last = bytes.len() - 1;
    for i in at..last {
        if !is_head(reader.stage) {
            return (reader, i);
        }
        let mut next = reader;
        match next.read(bytes[i]) {
            Ok(
                Read {
                    piece: Piece::More,
                    ends: false,
                    ..
                },
            ) => reader = next,
            _ => return (reader, i),
        }
    }
    (reader, last)
}

impl Outcome {
    fn is_nothing(self) -> bool
        ensures { result ≡ is_nothing self }
    {
        matches!(self, Outcome::Nothing)
    }
}

impl Desk {
    // T of the longest row in the table.
    pub const LONGEST: usize = 4125;

    // Before the first job.
    pub fn fresh() -> Desk
        ensures { result ≡ fresh_desk }
    {
        Desk {
            reader: Reader::fresh(),
            session: Session::fresh(),
        }
    }

    // Takes a byte.
    #[tactic(auto, unfolding(crate::specs::Desk::turned, crate::specs::Desk::turned_y, crate::specs::Desk::turned_c))]
    fn turn(self, byte: u8, y: &mut [u16], c: &mut [u16]) -> Turn
        ensures answer { result ≡ turned self byte y.old c.old }
        ensures yrow { y.new ≡ turned_y self byte y.old c.old }
        ensures crow { c.new ≡ turned_c self byte y.old c.old }
    {
        let mut reader = self.reader;
        let read = match reader.read(byte) {
            Ok(read) => read,
            Err(refusal) => {
                return Turn {
                    desk: Desk {
                        reader,
                        ..Desk::fresh()
                    },
                    outcome: Outcome::BadFile(u8::from(refusal)),
                };
            }
        };
        let desk = Desk {
            reader,
            session: session_after(read.piece, self.session, y, c),
        };
        if !read.ends {
            return Turn {
                desk,
                outcome: Outcome::Nothing,
            };
        }
        let ended = end_of(desk.session);
        Turn {
            desk: Desk {
                session: ended.session,
                ..desk
            },
            outcome: Outcome::Done(job_of(self.reader, ended)),
        }
    }

    // Takes words at once, and leaves a byte or more. Words that `feed` refuses are left too, for the byte that is at fault to be met.
    // Answers the desk and where it stands.
    #[tactic(auto, using(crate::proofs::Rushing::run_within, crate::proofs::Rushing::rushed_ahead, crate::proofs::Rushing::unrushed))]
    fn rush<const ROOM: usize>(
        self,
        bytes: &[u8],
        at: usize,
        y: &mut [u16],
        c: &mut [u16],
    ) -> (Desk, usize)
        requires room { ROOM ≤ 1024 }
        requires bytes { at < length bytes.now }
        ensures { Ahead bytes.now (standing self y.old c.old) at (standing result.0 y.new c.new) result.1 }
    {
        let last = bytes.len() - 1;
        let mut room = [0; ROOM];
        let run = section::read_words(self.reader, &bytes[at..last], &mut room);
        match self.session.feed(&room[..run.words], y, c) {
            Ok(session) => (
                Desk {
                    reader: run.reader,
                    session,
                },
                at + 2 * run.words,
            ),
            Err(_) => (self, at),
        }
    }

    // Takes what need not go through a turn: of a job's head, and then words. Leaves a byte or more. Answers the desk and where it stands.
    #[tactic(auto, using(crate::proofs::Skimming::ahead_then))]
    fn hasten(self, bytes: &[u8], at: usize, y: &mut [u16], c: &mut [u16]) -> (Desk, usize)
        requires { at < length bytes.now }
        ensures { Ahead bytes.now (standing self y.old c.old) at (standing result.0 y.new c.new) result.1 }
    {
        let (reader, from) = skim(self.reader, bytes, at);
        let desk = Desk { reader, ..self };
        match words_ahead(reader, bytes.len() - 1 - from) {
            0 => (desk, from),
            1..=FEW => desk.rush::<FEW>(bytes, from, y, c),
            _ => desk.rush::<MANY>(bytes, from, y, c),
        }
    }

    // Whether a session is open where words are read.
    #[tactic(auto, using(crate::proofs::Taking::end_is_ok))]
    fn is_ready(self) -> bool
        ensures { result ≡ if (words_at self.reader.stage) (eqb (end_refusal self.session) 0) true }
    {
        !words_at(self.reader.stage) || self.session.end().is_ok()
    }

    // The refusal of taking; 7, 1.
    #[tactic(auto, unfolding(crate::specs::Desk::take_refusal, refusal::specs::Refusal::refusal_numbered))]
    fn take_refusal(self, y: &[u16], c: &[u16]) -> Result<(), Refusal>
        ensures { result ≡ result_of (take_refusal self y.now c.now) tt }
    {
        if !self.is_ready() {
            return Err(Refusal::OutOfTurn);
        }
        if y.len() < Desk::LONGEST || c.len() < Desk::LONGEST {
            return Err(Refusal::NoRoom);
        }
        Ok(())
    }

    // Takes bytes up to the one that ends a job or is refused; the row buffers are lent; 7, 1.
    pub fn take(self, bytes: &[u8], y: &mut [u16], c: &mut [u16]) -> Result<Taken, Refusal>
        ensures answer { result ≡ taken self bytes.now y.old c.old }
        ensures yrow { y.new ≡ taken_y self bytes.now y.old c.old }
        ensures crow { c.new ≡ taken_c self bytes.now y.old c.old }
    {
        self.take_refusal(y, c)?;
        Ok(self.walk(bytes, y, c))
    }

    // Takes bytes where nothing is refused. No `for`: each round takes as many at once as it may, and one more.
    #[tactic(auto, using(crate::proofs::Walking::walked_end, crate::proofs::Walking::walked_stopped))]
    fn walk(self, bytes: &[u8], y: &mut [u16], c: &mut [u16]) -> Taken
        ensures { walk_of self bytes.now y.old c.old ≡ walk (standing result.desk y.new c.new) result.taken result.outcome }
    {
        let mut walk = Taken {
            desk: self,
            taken: 0,
            outcome: Outcome::Nothing,
        };
        while walk.taken < bytes.len() && walk.outcome.is_nothing() {
            let (desk, at) = walk.desk.hasten(bytes, walk.taken, y, c);
            let Turn { desk, outcome } = desk.turn(bytes[at], y, c);
            walk = Taken {
                desk,
                taken: at + 1,
                outcome,
            };
        }
        walk
    }

    // The end of the input.
    #[tactic(auto, unfolding(crate::specs::Desk::finished))]
    pub fn finish(self) -> Outcome
        ensures { result ≡ finished self }
    {
        if self.reader.is_cut() {
            return Outcome::BadFile(u8::from(Refusal::BadFile));
        }
        Outcome::Nothing
    }
}
