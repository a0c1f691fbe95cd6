// What users of a module session can conclude: each function here calls others one after the other, and its own contract is proved from
// theirs. Where a call is refused, the next one is made on the session as it was.
ghost use Rattle.std.specs.Prelude.{◌≡◌, true, [], ◌∷◌, ◌++◌, IsOkAnd};
ghost use Rattle.bits.specs.Words.{words10};
ghost use Rattle.raster.specs.Table.{raster_ok};
ghost use Rattle.session.specs.Session.{in_range};
ghost use Rattle.law_module.specs.Runs.{Fits, answered, bench, left, nothing_in, open_row, run_of};

use refusal::Refusal;
use session::{Ended, Session};

// ---- Demand 1: "A module's verdict depends only on its own words and its chosen raster".

// A module in one feed: what end answers, and the session afterwards.
fn module_in(
    session: Session,
    raster: u32,
    words: &[u16],
    y: &mut [u16],
    c: &mut [u16],
) -> (Result<Ended, Refusal>, Session)
    ensures answer { result.0 ≡ answered raster (words.now ∷ []) (bench session y.old c.old) }
    ensures after { bench result.1 y.new c.new ≡ left raster (words.now ∷ []) (bench session y.old c.old) }
{
    let begun = session.begin(raster).unwrap_or(session);
    let fed = begun.feed(words, y, c).unwrap_or(begun);
    let answer = fed.end();
    (answer, answer.map_or(fed, |ended| ended.session))
}

// "Cutting the words anywhere into feeds changes nothing": fed as a and then b, or as both in one, in buffers that start alike.
pub fn fed_in_two(
    session: Session,
    raster: u32,
    a: &[u16],
    b: &[u16],
    both: &[u16],
    y: &mut [u16],
    c: &mut [u16],
    u: &mut [u16],
    d: &mut [u16],
) -> (Result<Ended, Refusal>, Result<Ended, Refusal>)
    ensures { both.now ≡ a.now ++ b.now → words10 a.now ≡ true → words10 b.now ≡ true → y.old ≡ u.old → c.old ≡ d.old → (result.0 ≡ result.1) × ((y.new ≡ u.new) × (c.new ≡ d.new)) }
{
    let begun = session.begin(raster).unwrap_or(session);
    let one = begun.feed(a, y, c).unwrap_or(begun);
    let two = one.feed(b, y, c).unwrap_or(one);
    let (whole, _) = module_in(session, raster, both, u, d);
    (two.end(), whole)
}

// "A module's verdict depends only on its own words and its chosen raster": after another module, in the session and the buffers that this
// one leaves, also where calls of it were refused, or alone in a fresh session and other buffers.
pub fn second_in_used_buffers(
    session: Session,
    before: u32,
    earlier: &[u16],
    raster: u32,
    words: &[u16],
    y: &mut [u16],
    c: &mut [u16],
    u: &mut [u16],
    d: &mut [u16],
) -> (Result<Ended, Refusal>, Result<Ended, Refusal>)
    ensures { in_range session ≡ true → raster_ok raster ≡ true → Fits raster y.old c.old → Fits raster u.old d.old → result.0 ≡ result.1 }
{
    let (_, used) = module_in(session, before, earlier, y, c);
    let (second, _) = module_in(used, raster, words, y, c);
    let (alone, _) = module_in(Session::fresh(), raster, words, u, d);
    (second, alone)
}

// "Clearing the verdict at end and leaving carry or lines for the next begin" was seen elsewhere: a module without words, after any other,
// has no sync, no row and no fault.
pub fn nothing_after_a_module(
    session: Session,
    before: u32,
    earlier: &[u16],
    raster: u32,
    y: &mut [u16],
    c: &mut [u16],
) -> Result<Ended, Refusal>
    ensures { in_range session ≡ true → raster_ok raster ≡ true → result ≡ nothing_in raster }
{
    let (_, used) = module_in(session, before, earlier, y, c);
    used.begin(raster).unwrap_or(used).end()
}

// ---- The row buffers, each by itself: "They hold an open row's pairs at their places as each pair ends".

// Y holds the Y words of the module's open row.
pub fn open_row_in_y(
    raster: u32,
    words: &[u16],
    y: &mut [u16],
    c: &mut [u16],
) -> Result<Session, Refusal>
    ensures { raster_ok raster ≡ true → words10 words.now ≡ true → Fits raster y.old c.old → IsOkAnd result (λ s. open_row raster s y.new ≡ (run_of raster words.now).y) }
{
    let closed = Session::fresh();
    closed.begin(raster).unwrap_or(closed).feed(words, y, c)
}

// C holds its C words.
pub fn open_row_in_c(
    raster: u32,
    words: &[u16],
    y: &mut [u16],
    c: &mut [u16],
) -> Result<Session, Refusal>
    ensures { raster_ok raster ≡ true → words10 words.now ≡ true → Fits raster y.old c.old → IsOkAnd result (λ s. open_row raster s c.new ≡ (run_of raster words.now).c) }
{
    let closed = Session::fresh();
    closed.begin(raster).unwrap_or(closed).feed(words, y, c)
}
