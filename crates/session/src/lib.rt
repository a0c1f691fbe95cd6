// A module session: begin (raster), feed (words), end (verdict).
#![tactic(auto)]

ghost use Rattle.std.specs.Prelude.{◌≡◌, ◌&&◌, not, true, ◌≤◌, leb};
ghost use Rattle.bits.specs.Words.{words10};
ghost use Rattle.raster.specs.Table.{raster_given};
ghost use Rattle.cable.specs.Words.{unscramble_next};
ghost use Rattle.refusal.specs.Refusal.{result_of};
ghost use Rattle.session.specs.Session.{ahead_in, begun, closed, end_label, ended, fed, fed_c, feed_refusal, fed_y, in_range, opened, place_in, raster_in, said, sight_in, start_state, track_in};

use judging::Track;
use raster::Raster;
use recogniser::{Place, Sight, Window};
use refusal::Refusal;
use stepper::State;
use tally::{Counts, Verdict};

// docs/SESSION.md has the range of every number.
#[derive(Clone, Copy)]
pub struct Session {
    pub running: bool,
    pub raster: u32,
    pub history: u16,
    pub state: State,
}

// What is told of a module, and the session in which nothing of it is left.
#[derive(Clone, Copy)]
pub struct Ended {
    pub raster: u32,
    pub counts: Counts,
    pub verdict: Verdict,
    pub session: Session,
}

// Where every module starts.
fn start() -> State
    ensures { result ≡ start_state }
{
    let window = Window {
        last: 0,
        ahead: 0,
        seen: false,
    };
    let place = Place::NOWHERE;
    State {
        sight: Sight { window, place },
        track: Track::NONE,
        counts: Counts::none(),
    }
}

// Whether raster, pairs and bit, ahead, what is seen, line and carry are in range.
fn raster_in(running: bool, raster: u32) -> bool
    ensures { result ≡ raster_in running raster }
{
    if running {
        (1..=raster::HIGHEST).contains(&raster)
    } else {
        raster == 0
    }
}

fn place_in(total: usize, place: Place) -> bool
    ensures { result ≡ place_in total place }
{
    if place.pairs == 0 {
        return place.bit == 0;
    }
    4 <= place.pairs && place.pairs - 3 <= total && place.bit <= 19
}

fn ahead_in(ahead: u8, place: Place) -> bool
    ensures { result ≡ ahead_in ahead place }
{
    if ahead == 0 {
        return true;
    }
    if place.pairs == 0 {
        return ahead <= 20;
    }
    ahead as u32 + place.bit as u32 == 20
}

fn sight_in(total: usize, sight: Sight) -> bool
    ensures { result ≡ sight_in total sight }
{
    sight.window.last <= 0xfffffffffffffff
        && place_in(total, sight.place)
        && ahead_in(sight.window.ahead, sight.place)
}

fn track_in(lines: u32, track: Track) -> bool
    ensures { result ≡ track_in lines track }
{
    if track.line == 0 {
        return track.carry.is_none();
    }
    track.line <= lines && row::carry_ok(track.carry)
}

// The history after cable words: the last of them, or, where there are none, the one before.
fn history_after(history: u16, words: &[u16]) -> u16
    requires { (history ≤ 0x3ff) × (words10 words.now ≡ true) }
    ensures { result ≡ unscramble_next history words.now }
{
    match words.len() {
        0 => history,
        n => words[n - 1],
    }
}

impl Session {
    pub const START: u16 = 0;

    // A session with no module begun.
    pub fn fresh() -> Session
        ensures { result ≡ closed }
    {
        Session {
            running: false,
            raster: 0,
            history: Session::START,
            state: start(),
        }
    }

    // Whether every number is in range under this raster.
    fn is_in(self, raster: Raster) -> bool
        ensures { result ≡ raster_in self.running self.raster && (leb self.history 0x3ff && (sight_in raster.layout.total self.state.sight && track_in raster.rows self.state.track)) }
    {
        raster_in(self.running, self.raster)
            && self.history <= 0x3ff
            && sight_in(raster.layout.total, self.state.sight)
            && track_in(raster.rows, self.state.track)
    }

    // Whether every number is in range; the raster of a session that is not open is 0.
    fn is_in_range(self) -> bool
        ensures { result ≡ in_range self }
    {
        match raster::raster_of(self.raster) {
            Ok(found) => self.is_in(found),
            Err(_) => false,
        }
    }

    fn is_idle(self) -> bool
        ensures { result ≡ (not self.running && in_range self) }
    {
        !self.running && self.is_in_range()
    }

    // A module's start under a raster; 7, 4.
    pub fn begin(self, raster: u32) -> Result<Session, Refusal>
        ensures { result ≡ begun self raster }
    {
        if !self.is_idle() {
            return Err(Refusal::OutOfTurn);
        }
        let raster = raster::raster_of(raster)?.code;
        Ok(Session {
            running: true,
            raster,
            history: Session::START,
            state: start(),
        })
    }

    // The raster of an open session; 7.
    fn open(self) -> Result<Raster, Refusal>
        ensures { result ≡ opened self }
    {
        match raster::raster_of(self.raster) {
            Ok(found) if self.running && self.is_in(found) => Ok(found),
            _ => Err(Refusal::OutOfTurn),
        }
    }

    // The raster under which words are fed; 7, 3, 1.
    fn ready(self, words: &[u16], y: &[u16], c: &[u16]) -> Result<Raster, Refusal>
        ensures { result ≡ result_of (feed_refusal self words.now y.now c.now) (raster_given self.raster) }
    {
        let raster = self.open()?;
        if !bits::all_words(words) {
            return Err(Refusal::TooHigh);
        }
        let total = raster.layout.total;
        if y.len() < total || c.len() < total {
            return Err(Refusal::NoRoom);
        }
        Ok(raster)
    }

    // Feeds cable words; the row buffers are lent; 7, 3, 1.
    pub fn feed(self, words: &[u16], y: &mut [u16], c: &mut [u16]) -> Result<Session, Refusal>
        ensures answer { result ≡ fed self words.now y.old c.old }
        ensures yrow { y.new ≡ fed_y self words.now y.old c.old }
        ensures crow { c.new ≡ fed_c self words.now y.old c.old }
    {
        let total = self.ready(words, y, c)?.layout.total as u32;
        let raster = self.raster;
        let state = taking::take_words(self.state, raster, total, self.history, words, y, c);
        Ok(Session {
            history: history_after(self.history, words),
            state,
            ..self
        })
    }

    // The verdict; 7. Nothing of the module is left in the session that is answered.
    pub fn end(self) -> Result<Ended, Refusal>
        ensures answer { result ≡ ended self }
        ensures means { end_label result ≡ said self }
    {
        let rows = self.open()?.rows;
        let counts = self.state.counts;
        let seen = self.state.sight.window.seen;
        Ok(Ended {
            raster: self.raster,
            counts,
            verdict: tally::verdict_of(seen, rows, counts),
            session: Session::fresh(),
        })
    }
}
