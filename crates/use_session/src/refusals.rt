// "Each call does its work or returns one number of the refusal table": each call of a session that can refuse, called once with whatever
// it is given. A clause for each condition, where none stands before it in the order of the table; `done` where there is none; and what
// becomes of each lent buffer.
ghost use Rattle.std.specs.Prelude.{◌≡◌, true, false, ◌&&◌, ◌≤◌, ◌<◌, drop, length};
ghost use Rattle.bits.specs.Words.{words10};
ghost use Rattle.refusal.specs.Refusal.{refusal_of};
ghost use Rattle.raster.specs.Table.{raster_ok, total_of};
ghost use Rattle.session.specs.Session.{in_range};

use refusal::Refusal;
use session::{Ended, Session};

// 7, 4.
#[tactic(auto, unfolding(session::specs::Session::begun, session::specs::Session::begin_refusal, refusal::specs::Refusal::refusal_numbered))]
pub fn begin(session: Session, raster: u32) -> Result<Session, Refusal>
    ensures running { session.running ≡ true → refusal_of result ≡ 7 }
    ensures outside { in_range session ≡ false → refusal_of result ≡ 7 }
    ensures four { session.running ≡ false → in_range session ≡ true → raster_ok raster ≡ false → refusal_of result ≡ 4 }
    ensures done { session.running ≡ false → in_range session ≡ true → raster_ok raster ≡ true → refusal_of result ≡ 0 }
{
    session.begin(raster)
}

// 7, 3, 1. Beyond the raster's T nothing is written.
#[tactic(auto, using(crate::proofs::Beyond::y_beyond, crate::proofs::Beyond::c_beyond), unfolding(session::specs::Session::fed, session::specs::Session::fed_y, session::specs::Session::fed_c, session::specs::Session::feed_refusal, refusal::specs::Refusal::refusal_numbered))]
pub fn feed(
    session: Session,
    words: &[u16],
    y: &mut [u16],
    c: &mut [u16],
) -> Result<Session, Refusal>
    ensures shut { session.running ≡ false → refusal_of result ≡ 7 }
    ensures outside { in_range session ≡ false → refusal_of result ≡ 7 }
    ensures three { (session.running && in_range session) ≡ true → words10 words.now ≡ false → refusal_of result ≡ 3 }
    ensures yshort { (session.running && in_range session) ≡ true → words10 words.now ≡ true → length y.old < total_of session.raster → refusal_of result ≡ 1 }
    ensures cshort { (session.running && in_range session) ≡ true → words10 words.now ≡ true → length c.old < total_of session.raster → refusal_of result ≡ 1 }
    ensures done { (session.running && in_range session) ≡ true → words10 words.now ≡ true → total_of session.raster ≤ length y.old → total_of session.raster ≤ length c.old → refusal_of result ≡ 0 }
    ensures ykept { 0 < refusal_of result → y.new ≡ y.old }
    ensures ckept { 0 < refusal_of result → c.new ≡ c.old }
    ensures ybeyond { drop (total_of session.raster) y.new ≡ drop (total_of session.raster) y.old }
    ensures cbeyond { drop (total_of session.raster) c.new ≡ drop (total_of session.raster) c.old }
{
    session.feed(words, y, c)
}

// 7.
#[tactic(auto, unfolding(session::specs::Session::ended, session::specs::Session::end_refusal, refusal::specs::Refusal::refusal_numbered))]
pub fn end(session: Session) -> Result<Ended, Refusal>
    ensures shut { session.running ≡ false → refusal_of result ≡ 7 }
    ensures outside { in_range session ≡ false → refusal_of result ≡ 7 }
    ensures done { (session.running && in_range session) ≡ true → refusal_of result ≡ 0 }
{
    session.end()
}
