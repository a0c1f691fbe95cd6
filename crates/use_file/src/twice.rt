// Any two answers that a contract allows are equal, of the calls that read a bench file: each is called twice on equal arguments, and
// equal answers and equal buffers follow from its contract alone.
ghost use Rattle.std.specs.Prelude.{◌≡◌};

use desk::{Desk, Outcome, Taken};
use label::Label;
use refusal::Refusal;

// The answers of two calls.
type Twice<A> = (A, A);

pub fn fresh() -> Twice<Desk>
    ensures { result.0 ≡ result.1 }
{
    (Desk::fresh(), Desk::fresh())
}

// The same bytes, with their row buffers in two pairs of slices.
pub fn take(
    desk: Desk,
    bytes: &[u8],
    y: &mut [u16],
    c: &mut [u16],
    u: &mut [u16],
    d: &mut [u16],
) -> Twice<Result<Taken, Refusal>>
    ensures { y.old ≡ u.old → c.old ≡ d.old → (result.0 ≡ result.1) × ((y.new ≡ u.new) × (c.new ≡ d.new)) }
{
    (desk.take(bytes, y, c), desk.take(bytes, u, d))
}

pub fn finish(desk: Desk) -> Twice<Outcome>
    ensures { result.0 ≡ result.1 }
{
    (desk.finish(), desk.finish())
}

pub fn label_of(outcome: Outcome) -> Twice<Label>
    ensures { result.0 ≡ result.1 }
{
    (label::label_of(outcome), label::label_of(outcome))
}
