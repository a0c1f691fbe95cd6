// Correction of a row in place.
#![tactic(auto)]

ghost use Rattle.std.specs.Prelude.{◌≡◌, is_some, unwrap_or};
ghost use Rattle.plan.specs.Plan.{plan_of};
ghost use Rattle.row.specs.Row.{carry_after, check_refusal};
ghost use Rattle.repair.specs.Repair.{with_crc, put_right, with_sums, with_codes, wiped_if};
ghost use Rattle.parts.specs.Parts.{unless_refused};
ghost use Rattle.repair.specs.Answer.{corrected, corrected_c, corrected_y};

use plan::Plan;
use refusal::Refusal;
use row::{Carry, Registers};
use stream::{C_BLANK, Y_BLANK};

// Where wiping is chosen, overwrites with blanking the whole packets that one scan finds in a stream.
#[tactic(auto, unfolding(crate::specs::Repair::wiped_if, region::specs::Ancillary::in_regions))]
fn wipe(chosen: bool, plan: Plan, blank: u16, words: &mut [u16])
    ensures { words.new ≡ wiped_if chosen plan blank words.old }
{
    if !chosen {
        return;
    }
    region::wipe(words, plan.places.blank, plan.places.blanks, blank);
    if plan.v {
        region::wipe(words, plan.places.active, plan.places.count, blank);
    }
}

// Checksums.
#[tactic(auto, unfolding(crate::specs::Repair::with_sums, region::specs::Ancillary::in_regions))]
fn mend_sums(plan: Plan, words: &mut [u16])
    ensures { words.new ≡ with_sums plan words.old }
{
    region::mend(words, plan.places.blank, plan.places.blanks);
    if plan.v {
        region::mend(words, plan.places.active, plan.places.count);
    }
}

// TRS and line numbers.
#[tactic(auto, unfolding(crate::specs::Repair::with_codes))]
fn lay_codes(plan: Plan, words: &mut [u16])
    ensures { words.new ≡ with_codes plan words.old }
{
    parts::lay(words, 0, &stream::trs(plan.codes.eav));
    parts::lay(
        words,
        4,
        parts::part(&[plan.codes.ln0, plan.codes.ln1], 0, plan.places.lines),
    );
    parts::lay(words, plan.places.sav, &stream::trs(plan.codes.sav));
}

// CRC, where a register was carried.
#[tactic(auto, unfolding(crate::specs::Repair::with_crc))]
fn lay_crc(plan: Plan, carried: Option<u32>, words: &mut [u16])
    ensures { words.new ≡ with_crc plan (is_some carried) (unwrap_or carried 0) words.old }
{
    let Some(register) = carried else {
        return;
    };
    let covered = crc::step_words(register, parts::part(words, 0, plan.places.crc));
    let right = crc::words_of(covered).unwrap_or_default();
    parts::lay(
        words,
        plan.places.crc,
        parts::part(&[right.cr0, right.cr1], 0, plan.places.checks),
    );
}

// Checksums, then TRS and line numbers, then CRC: each may change what the next one covers.
#[tactic(auto, unfolding(crate::specs::Repair::put_right))]
fn put_right(plan: Plan, carried: Option<u32>, words: &mut [u16])
    ensures { words.new ≡ put_right plan (is_some carried) (unwrap_or carried 0) words.old }
{
    mend_sums(plan, words);
    lay_codes(plan, words);
    lay_crc(plan, carried, words);
}

// Corrects a row and answers the carry that it then leaves; 4, 5, 2, 3.
pub fn correct(
    raster: u32,
    line: u32,
    carry: Carry,
    wiping: bool,
    y: &mut [u16],
    c: &mut [u16],
) -> Result<Carry, Refusal>
    ensures answer { result ≡ corrected raster line carry wiping y.old c.old }
    ensures luma { y.new ≡ unless_refused (check_refusal raster line carry y.old c.old) (corrected_y (plan_of raster line) carry wiping y.old) y.old }
    ensures chroma { c.new ≡ unless_refused (check_refusal raster line carry y.old c.old) (corrected_c (plan_of raster line) carry wiping c.old) c.old }
{
    row::check_refusal(raster, line, carry, y, c)?;
    let plan = plan::plan_of(raster, line)?;
    Ok(correct_rows(plan, carry, wiping, y, c))
}

// Corrects a row under its plan.
fn correct_rows(plan: Plan, carry: Carry, wiping: bool, y: &mut [u16], c: &mut [u16]) -> Carry
    ensures answer { result ≡ carry_after plan (corrected_y plan carry wiping y.old) (corrected_c plan carry wiping c.old) }
    ensures luma { y.new ≡ corrected_y plan carry wiping y.old }
    ensures chroma { c.new ≡ corrected_c plan carry wiping c.old }
{
    wipe(wiping, plan, Y_BLANK, y);
    wipe(wiping, plan, C_BLANK, c);
    let before = row::carried(carry);
    put_right(plan, before.y, y);
    put_right(plan, before.c, c);
    Some(Registers {
        y: stream::register_after(plan, y),
        c: stream::register_after(plan, c),
    })
}
