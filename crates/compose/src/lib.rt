// Building a row.
#![tactic(auto)]

ghost use Rattle.std.specs.Prelude.{◌≡◌, ◌&&◌, [], ◌∷◌, ◌++◌, ◌≤◌, length, take, is_some, unwrap_or};
ghost use Rattle.bits.specs.Words.{words10};
ghost use Rattle.parts.specs.Parts.{laid, laid_unless};
ghost use Rattle.refusal.specs.Refusal.{result_of};
ghost use Rattle.row.specs.Before.{carry_ok};
ghost use Rattle.plan.specs.Fits.{Fits};
ghost use Rattle.plan.specs.Plan.{plan_of};
ghost use Rattle.stream.specs.Words.{head_words};
ghost use Rattle.compose.specs.Compose.{build_refusal, built_for, c_stream, crc_for, lengths_ok, refusal_under, room_ok, stream_of, y_stream};

use crc::CrcWords;
use plan::Plan;
use refusal::Refusal;
use row::{Carry, Registers};
use stream::{C_BLANK, Y_BLANK};

// Whether a channel's active words and the words for its blanking are as many as a row takes.
fn lengths_ok(plan: Plan, active: &[u16], blanking: &[u16]) -> bool
    ensures { result ≡ lengths_ok plan active.now blanking.now }
{
    active.len() == plan.places.count && blanking.len() <= plan.places.blanks
}

// Whether those of both channels are.
fn both_lengths_ok(
    plan: Plan,
    yactive: &[u16],
    cactive: &[u16],
    ylaid: &[u16],
    claid: &[u16],
) -> bool
    ensures { result ≡ lengths_ok plan yactive.now ylaid.now && lengths_ok plan cactive.now claid.now }
{
    lengths_ok(plan, yactive, ylaid) && lengths_ok(plan, cactive, claid)
}

// Whether all words are at most 3FF, and the registers of the carry at most 3FFFF.
fn numbers_ok(carry: Carry, yactive: &[u16], cactive: &[u16], ylaid: &[u16], claid: &[u16]) -> bool
    ensures { result ≡ words10 yactive.now && (words10 ylaid.now && (words10 cactive.now && (words10 claid.now && carry_ok carry))) }
{
    bits::all_words(yactive)
        && bits::all_words(ylaid)
        && bits::all_words(cactive)
        && bits::all_words(claid)
        && row::carry_ok(carry)
}

// Lays two words, or the first alone, or none.
fn lay_pair(out: &mut [u16], at: usize, count: usize, first: u16, second: u16)
    ensures { out.new ≡ laid at (take count (first ∷ second ∷ [])) out.old }
{
    parts::lay(out, at, parts::part(&[first, second], 0, count));
}

// The CRC words of a row's head; 200 200 where no register was carried.
fn crc_for(plan: Plan, carried: Option<u32>) -> CrcWords
    ensures { take plan.places.checks (result.cr0 ∷ result.cr1 ∷ []) ≡ crc_for plan (is_some carried) (unwrap_or carried 0) }
{
    match carried {
        None => CrcWords {
            cr0: 0x200,
            cr1: 0x200,
        },
        Some(register) => {
            crc::words_of(stream::head_register(plan, register)).unwrap_or_default()
        }
    }
}

// EAV, line number and CRC at the start of a slice.
fn lay_head(plan: Plan, carried: Option<u32>, out: &mut [u16])
    requires { Fits plan.places }
    ensures { out.new ≡ laid 0 (head_words plan ++ crc_for plan (is_some carried) (unwrap_or carried 0)) out.old }
{
    let codes = plan.codes;
    let made = crc_for(plan, carried);
    parts::lay(out, 0, &stream::trs(codes.eav));
    lay_pair(out, 4, plan.places.lines, codes.ln0, codes.ln1);
    lay_pair(out, plan.places.crc, plan.places.checks, made.cr0, made.cr1);
}

// A whole stream at the start of a slice: EAV, line number and CRC, blanking, SAV, active words.
fn lay_stream(
    plan: Plan,
    carried: Option<u32>,
    blank: u16,
    active: &[u16],
    blanking: &[u16],
    out: &mut [u16],
)
    requires places { Fits plan.places }
    requires room { length blanking.now ≤ plan.places.blanks }
    ensures { out.new ≡ laid 0 (stream_of plan (is_some carried) (unwrap_or carried 0) blank active.now blanking.now) out.old }
{
    lay_head(plan, carried, out);
    parts::lay(out, plan.places.blank, blanking);
    parts::fill(
        out,
        plan.places.blank + blanking.len(),
        plan.places.blanks - blanking.len(),
        blank,
    );
    parts::lay(out, plan.places.sav, &stream::trs(plan.codes.sav));
    parts::lay(out, plan.places.active, active);
}

// Whether two buffers have room for a row.
fn room_ok(plan: Plan, yroom: usize, croom: usize) -> bool
    ensures { result ≡ room_ok plan yroom croom }
{
    plan.places.total <= yroom && plan.places.total <= croom
}

// The refusal of a row to be built under a plan; 2, 3, 1.
fn refusal_under(
    plan: Plan,
    carry: Carry,
    yactive: &[u16],
    cactive: &[u16],
    ylaid: &[u16],
    claid: &[u16],
    yroom: usize,
    croom: usize,
) -> Result<(), Refusal>
    ensures { result ≡ result_of (refusal_under plan carry yactive.now cactive.now ylaid.now claid.now yroom croom) tt }
{
    if !both_lengths_ok(plan, yactive, cactive, ylaid, claid) {
        return Err(Refusal::WrongLength);
    }
    if !numbers_ok(carry, yactive, cactive, ylaid, claid) {
        return Err(Refusal::TooHigh);
    }
    if !room_ok(plan, yroom, croom) {
        return Err(Refusal::NoRoom);
    }
    Ok(())
}

// Builds a row at the start of two slices and answers the carry that it leaves; 4, 5, 2, 3, 1.
pub fn build(
    raster: u32,
    line: u32,
    carry: Carry,
    yactive: &[u16],
    cactive: &[u16],
    ylaid: &[u16],
    claid: &[u16],
    y: &mut [u16],
    c: &mut [u16],
) -> Result<Carry, Refusal>
    ensures answer { result ≡ built_for (build_refusal raster line carry yactive.now cactive.now ylaid.now claid.now (length y.old) (length c.old)) yactive.now cactive.now }
    ensures luma { y.new ≡ laid_unless (build_refusal raster line carry yactive.now cactive.now ylaid.now claid.now (length y.old) (length c.old)) (y_stream (plan_of raster line) carry yactive.now ylaid.now) y.old }
    ensures chroma { c.new ≡ laid_unless (build_refusal raster line carry yactive.now cactive.now ylaid.now claid.now (length y.old) (length c.old)) (c_stream (plan_of raster line) carry cactive.now claid.now) c.old }
{
    let plan = plan::plan_of(raster, line)?;
    let (yroom, croom) = (y.len(), c.len());
    refusal_under(plan, carry, yactive, cactive, ylaid, claid, yroom, croom)?;
    let before = row::carried(carry);
    lay_stream(plan, before.y, Y_BLANK, yactive, ylaid, y);
    lay_stream(plan, before.c, C_BLANK, cactive, claid, c);
    Ok(Some(Registers {
        y: crc::step_words(0, yactive),
        c: crc::step_words(0, cactive),
    }))
}
