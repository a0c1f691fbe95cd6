// Any two answers that a contract allows are equal, of the calls on packets and rows: each is called twice on equal arguments, and equal
// answers and equal buffers follow from its contract alone.
ghost use Rattle.std.specs.Prelude.{◌≡◌, true};

use finding::Channel;
use refusal::Refusal;
use row::{Carry, Judged};

// The answers of two calls.
type Twice<A> = (A, A);

pub fn build_packet(
    did: u8,
    sdid: u8,
    user: &[u16],
    a: &mut [u16],
    b: &mut [u16],
) -> Twice<Result<usize, Refusal>>
    ensures { a.old ≡ b.old → (result.0 ≡ result.1) × (a.new ≡ b.new) }
{
    (
        packet::build(did, sdid, user, a),
        packet::build(did, sdid, user, b),
    )
}

#[tactic(auto, using(parts::proofs::Comparing::same_refl))]
pub fn find<'a>(raster: u32, line: u32, did: u8, sdid: u8, y: &'a [u16], c: &'a [u16]) -> bool
    ensures { result ≡ true }
{
    let first = finding::find(raster, line, did, sdid, y, c);
    let second = finding::find(raster, line, did, sdid, y, c);
    parts::same(first, second)
}

pub fn find_refusal(
    raster: u32,
    line: u32,
    did: u8,
    sdid: u8,
    y: &[u16],
    c: &[u16],
) -> Twice<Result<(), Refusal>>
    ensures { result.0 ≡ result.1 }
{
    (
        finding::find_refusal(raster, line, did, sdid, y, c),
        finding::find_refusal(raster, line, did, sdid, y, c),
    )
}

pub fn extract(
    raster: u32,
    line: u32,
    channel: Channel,
    y: &[u16],
    c: &[u16],
    a: &mut [u16],
    b: &mut [u16],
) -> Twice<Result<usize, Refusal>>
    ensures { a.old ≡ b.old → (result.0 ≡ result.1) × (a.new ≡ b.new) }
{
    (
        finding::extract(raster, line, channel, y, c, a),
        finding::extract(raster, line, channel, y, c, b),
    )
}

pub fn check(
    raster: u32,
    line: u32,
    carry: Carry,
    y: &[u16],
    c: &[u16],
) -> Twice<Result<Judged, Refusal>>
    ensures { result.0 ≡ result.1 }
{
    (
        row::check(raster, line, carry, y, c),
        row::check(raster, line, carry, y, c),
    )
}

// One row in two pairs of slices.
pub fn correct(
    raster: u32,
    line: u32,
    carry: Carry,
    wiping: bool,
    y: &mut [u16],
    c: &mut [u16],
    u: &mut [u16],
    d: &mut [u16],
) -> Twice<Result<Carry, Refusal>>
    ensures { y.old ≡ u.old → c.old ≡ d.old → (result.0 ≡ result.1) × ((y.new ≡ u.new) × (c.new ≡ d.new)) }
{
    (
        repair::correct(raster, line, carry, wiping, y, c),
        repair::correct(raster, line, carry, wiping, u, d),
    )
}

pub fn build_row(
    raster: u32,
    line: u32,
    carry: Carry,
    yactive: &[u16],
    cactive: &[u16],
    ylaid: &[u16],
    claid: &[u16],
    y: &mut [u16],
    c: &mut [u16],
    u: &mut [u16],
    d: &mut [u16],
) -> Twice<Result<Carry, Refusal>>
    ensures { y.old ≡ u.old → c.old ≡ d.old → (result.0 ≡ result.1) × ((y.new ≡ u.new) × (c.new ≡ d.new)) }
{
    (
        compose::build(raster, line, carry, yactive, cactive, ylaid, claid, y, c),
        compose::build(raster, line, carry, yactive, cactive, ylaid, claid, u, d),
    )
}
