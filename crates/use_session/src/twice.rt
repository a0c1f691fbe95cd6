// Any two answers that a contract allows are equal, of the calls of a module session: each is called twice on equal arguments, and
// equal answers and equal buffers follow from its contract alone.
ghost use Rattle.std.specs.Prelude.{◌≡◌};

use refusal::Refusal;
use session::{Ended, Session};

// The answers of two calls.
type Twice<A> = (A, A);

pub fn fresh() -> Twice<Session>
    ensures { result.0 ≡ result.1 }
{
    (Session::fresh(), Session::fresh())
}

pub fn begin(session: Session, raster: u32) -> Twice<Result<Session, Refusal>>
    ensures { result.0 ≡ result.1 }
{
    (session.begin(raster), session.begin(raster))
}

// One feed, with its row buffers in two pairs of slices.
pub fn feed(
    session: Session,
    words: &[u16],
    y: &mut [u16],
    c: &mut [u16],
    u: &mut [u16],
    d: &mut [u16],
) -> Twice<Result<Session, Refusal>>
    ensures { y.old ≡ u.old → c.old ≡ d.old → (result.0 ≡ result.1) × ((y.new ≡ u.new) × (c.new ≡ d.new)) }
{
    (session.feed(words, y, c), session.feed(words, u, d))
}

pub fn end(session: Session) -> Twice<Result<Ended, Refusal>>
    ensures { result.0 ≡ result.1 }
{
    (session.end(), session.end())
}
