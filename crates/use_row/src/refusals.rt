// The refusals of packets and rows, one client a function: whatever it is given, each number is answered where its condition holds and
// none of those before it in the order 4, 5, 2, 3, 6, 1, and 0 where none holds.
ghost use Rattle.std.specs.Prelude.{◌≡◌, true, false, ◌&&◌, ◌+◌, leb, drop, length};
ghost use Rattle.std.specs.Result.{result_unwrap_or};
ghost use Rattle.bits.specs.Words.{words10};
ghost use Rattle.refusal.specs.Refusal.{refusal_of};
ghost use Rattle.raster.specs.Table.{raster_ok};
ghost use Rattle.raster.specs.Lines.{line_ok};
ghost use Rattle.plan.specs.Plan.{plan_of};
ghost use Rattle.packet.specs.Build.{buildable};
ghost use Rattle.finding.specs.Extract.{channel_of, packets_in};
ghost use Rattle.row.specs.Before.{carry_ok};
ghost use Rattle.compose.specs.Compose.{room_ok};
ghost use Rattle.law_refusal.specs.Answers.{Refused};
ghost use Rattle.law_refusal.specs.Rows.{Listed, Sized, Sound, parts_ok, rows_ok, words_ok};

use finding::Channel;
use plan::Plan;
use refusal::Refusal;
use row::{Carry, Judged};

// ---- plans, and rows that are read: nothing is lent that could be changed, and no room is asked for

// 4, 5.
#[tactic(auto, unfolding(plan::specs::Plan::planned, refusal::specs::Refusal::refusal_numbered))]
pub fn plan_of(raster: u32, line: u32) -> Result<Plan, Refusal>
    ensures four { raster_ok raster ≡ false → refusal_of result ≡ 4 }
    ensures five { raster_ok raster ≡ true → line_ok raster line ≡ false → refusal_of result ≡ 5 }
    ensures done { Listed raster line → refusal_of result ≡ 0 }
{
    plan::plan_of(raster, line)
}

// 4, 5, 2, 3.
#[tactic(auto, unfolding(plan::specs::Refusal::row_refusal, refusal::specs::Refusal::refusal_numbered))]
pub fn row_refusal(raster: u32, line: u32, y: &[u16], c: &[u16]) -> Result<(), Refusal>
    ensures four { raster_ok raster ≡ false → refusal_of result ≡ 4 }
    ensures five { raster_ok raster ≡ true → line_ok raster line ≡ false → refusal_of result ≡ 5 }
    ensures two { Listed raster line → rows_ok raster y.now c.now ≡ false → refusal_of result ≡ 2 }
    ensures three { Sized raster line (rows_ok raster y.now c.now) → words_ok y.now c.now ≡ false → refusal_of result ≡ 3 }
    ensures done { Sound raster line (rows_ok raster y.now c.now) (words_ok y.now c.now) → refusal_of result ≡ 0 }
{
    plan::row_refusal(raster, line, y, c)
}

// 4, 5, 2, 3. "Its refusal number comes from a second call on the same arguments."
#[tactic(auto, unfolding(plan::specs::Refusal::row_refusal, finding::specs::Find::find_of, refusal::specs::Refusal::refusal_numbered))]
pub fn find<'a>(
    raster: u32,
    line: u32,
    did: u8,
    sdid: u8,
    y: &'a [u16],
    c: &'a [u16],
) -> (&'a [u16], Result<(), Refusal>)
    ensures four { raster_ok raster ≡ false → refusal_of result.1 ≡ 4 }
    ensures five { raster_ok raster ≡ true → line_ok raster line ≡ false → refusal_of result.1 ≡ 5 }
    ensures two { Listed raster line → rows_ok raster y.now c.now ≡ false → refusal_of result.1 ≡ 2 }
    ensures three { Sized raster line (rows_ok raster y.now c.now) → words_ok y.now c.now ≡ false → refusal_of result.1 ≡ 3 }
    ensures done { Sound raster line (rows_ok raster y.now c.now) (words_ok y.now c.now) → refusal_of result.1 ≡ 0 }
    ensures empty { Refused (refusal_of result.1) → length result.0.now ≡ 0 }
{
    (
        finding::find(raster, line, did, sdid, y, c),
        finding::find_refusal(raster, line, did, sdid, y, c),
    )
}

// 4, 5, 2, 3.
#[tactic(auto, unfolding(plan::specs::Refusal::row_refusal, row::specs::Row::check_refusal, refusal::specs::Refusal::refusal_numbered))]
pub fn check_refusal(
    raster: u32,
    line: u32,
    carry: Carry,
    y: &[u16],
    c: &[u16],
) -> Result<(), Refusal>
    ensures four { raster_ok raster ≡ false → refusal_of result ≡ 4 }
    ensures five { raster_ok raster ≡ true → line_ok raster line ≡ false → refusal_of result ≡ 5 }
    ensures two { Listed raster line → rows_ok raster y.now c.now ≡ false → refusal_of result ≡ 2 }
    ensures three { Sized raster line (rows_ok raster y.now c.now) → (words_ok y.now c.now && carry_ok carry) ≡ false → refusal_of result ≡ 3 }
    ensures done { Sound raster line (rows_ok raster y.now c.now) (words_ok y.now c.now && carry_ok carry) → refusal_of result ≡ 0 }
{
    row::check_refusal(raster, line, carry, y, c)
}

// 4, 5, 2, 3.
#[tactic(auto, unfolding(plan::specs::Refusal::row_refusal, row::specs::Row::check_refusal, row::specs::Row::checked, refusal::specs::Refusal::refusal_numbered))]
pub fn check(raster: u32, line: u32, carry: Carry, y: &[u16], c: &[u16]) -> Result<Judged, Refusal>
    ensures four { raster_ok raster ≡ false → refusal_of result ≡ 4 }
    ensures five { raster_ok raster ≡ true → line_ok raster line ≡ false → refusal_of result ≡ 5 }
    ensures two { Listed raster line → rows_ok raster y.now c.now ≡ false → refusal_of result ≡ 2 }
    ensures three { Sized raster line (rows_ok raster y.now c.now) → (words_ok y.now c.now && carry_ok carry) ≡ false → refusal_of result ≡ 3 }
    ensures done { Sound raster line (rows_ok raster y.now c.now) (words_ok y.now c.now && carry_ok carry) → refusal_of result ≡ 0 }
{
    row::check(raster, line, carry, y, c)
}

// ---- packets that are built or extracted, rows that are corrected or built: a refused call changes nothing that it was lent, and beyond
// what a result fills, a buffer keeps what it held

// 3, 6, 1.
#[tactic(auto, unfolding(packet::specs::Build::built, packet::specs::Build::build_refusal, refusal::specs::Refusal::refusal_numbered))]
pub fn build_packet(did: u8, sdid: u8, user: &[u16], out: &mut [u16]) -> Result<usize, Refusal>
    ensures three { words10 user.now ≡ false → refusal_of result ≡ 3 }
    ensures six { words10 user.now ≡ true → buildable did user.now ≡ false → refusal_of result ≡ 6 }
    ensures one { words10 user.now ≡ true → buildable did user.now ≡ true → leb (length user.now + 7) (length out.old) ≡ false → refusal_of result ≡ 1 }
    ensures done { words10 user.now ≡ true → buildable did user.now ≡ true → leb (length user.now + 7) (length out.old) ≡ true → refusal_of result ≡ 0 }
    ensures kept { Refused (refusal_of result) → out.new ≡ out.old }
    ensures beyond { drop (result_unwrap_or result 0) out.new ≡ drop (result_unwrap_or result 0) out.old }
{
    packet::build(did, sdid, user, out)
}

// 4, 5, 2, 3, 1.
#[tactic(auto, unfolding(plan::specs::Refusal::row_refusal, finding::specs::Extract::extracted, finding::specs::Extract::extract_refusal, refusal::specs::Refusal::refusal_numbered))]
pub fn extract(
    raster: u32,
    line: u32,
    channel: Channel,
    y: &[u16],
    c: &[u16],
    out: &mut [u16],
) -> Result<usize, Refusal>
    ensures four { raster_ok raster ≡ false → refusal_of result ≡ 4 }
    ensures five { raster_ok raster ≡ true → line_ok raster line ≡ false → refusal_of result ≡ 5 }
    ensures two { Listed raster line → rows_ok raster y.now c.now ≡ false → refusal_of result ≡ 2 }
    ensures three { Sized raster line (rows_ok raster y.now c.now) → words_ok y.now c.now ≡ false → refusal_of result ≡ 3 }
    ensures one { Sound raster line (rows_ok raster y.now c.now) (words_ok y.now c.now) → leb (length (packets_in raster line (channel_of channel y.now c.now))) (length out.old) ≡ false → refusal_of result ≡ 1 }
    ensures done { Sound raster line (rows_ok raster y.now c.now) (words_ok y.now c.now) → leb (length (packets_in raster line (channel_of channel y.now c.now))) (length out.old) ≡ true → refusal_of result ≡ 0 }
    ensures kept { Refused (refusal_of result) → out.new ≡ out.old }
    ensures beyond { drop (result_unwrap_or result 0) out.new ≡ drop (result_unwrap_or result 0) out.old }
{
    finding::extract(raster, line, channel, y, c, out)
}

// 4, 5, 2, 3. A row that is corrected has T words in each slice, and nothing beyond.
#[tactic(auto, unfolding(plan::specs::Refusal::row_refusal, row::specs::Row::check_refusal, repair::specs::Answer::corrected, refusal::specs::Refusal::refusal_numbered))]
pub fn correct(
    raster: u32,
    line: u32,
    carry: Carry,
    wiping: bool,
    y: &mut [u16],
    c: &mut [u16],
) -> Result<Carry, Refusal>
    ensures four { raster_ok raster ≡ false → refusal_of result ≡ 4 }
    ensures five { raster_ok raster ≡ true → line_ok raster line ≡ false → refusal_of result ≡ 5 }
    ensures two { Listed raster line → rows_ok raster y.old c.old ≡ false → refusal_of result ≡ 2 }
    ensures three { Sized raster line (rows_ok raster y.old c.old) → (words_ok y.old c.old && carry_ok carry) ≡ false → refusal_of result ≡ 3 }
    ensures done { Sound raster line (rows_ok raster y.old c.old) (words_ok y.old c.old && carry_ok carry) → refusal_of result ≡ 0 }
    ensures ykept { Refused (refusal_of result) → y.new ≡ y.old }
    ensures ckept { Refused (refusal_of result) → c.new ≡ c.old }
{
    repair::correct(raster, line, carry, wiping, y, c)
}

// 4, 5, 2, 3, 1. The result has T words.
#[tactic(auto, unfolding(compose::specs::Compose::build_refusal, refusal::specs::Refusal::refusal_numbered))]
pub fn build_row(
    raster: u32,
    line: u32,
    carry: Carry,
    yactive: &[u16],
    cactive: &[u16],
    ylaid: &[u16],
    claid: &[u16],
    y: &mut [u16],
    c: &mut [u16],
) -> Result<Carry, Refusal>
    ensures four { raster_ok raster ≡ false → refusal_of result ≡ 4 }
    ensures five { raster_ok raster ≡ true → line_ok raster line ≡ false → refusal_of result ≡ 5 }
    ensures two { Listed raster line → parts_ok (plan_of raster line) yactive.now cactive.now ylaid.now claid.now ≡ false → refusal_of result ≡ 2 }
    ensures three { Sized raster line (parts_ok (plan_of raster line) yactive.now cactive.now ylaid.now claid.now) → (words_ok yactive.now ylaid.now && (words_ok cactive.now claid.now && carry_ok carry)) ≡ false → refusal_of result ≡ 3 }
    ensures one { Sound raster line (parts_ok (plan_of raster line) yactive.now cactive.now ylaid.now claid.now) (words_ok yactive.now ylaid.now && (words_ok cactive.now claid.now && carry_ok carry)) → room_ok (plan_of raster line) (length y.old) (length c.old) ≡ false → refusal_of result ≡ 1 }
    ensures done { Sound raster line (parts_ok (plan_of raster line) yactive.now cactive.now ylaid.now claid.now) (words_ok yactive.now ylaid.now && (words_ok cactive.now claid.now && carry_ok carry)) → room_ok (plan_of raster line) (length y.old) (length c.old) ≡ true → refusal_of result ≡ 0 }
    ensures ykept { Refused (refusal_of result) → y.new ≡ y.old }
    ensures ckept { Refused (refusal_of result) → c.new ≡ c.old }
    ensures ybeyond { drop (plan_of raster line).places.total y.new ≡ drop (plan_of raster line).places.total y.old }
    ensures cbeyond { drop (plan_of raster line).places.total c.new ≡ drop (plan_of raster line).places.total c.old }
{
    compose::build(raster, line, carry, yactive, cactive, ylaid, claid, y, c)
}
