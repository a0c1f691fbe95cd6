// What users of packets and rows can conclude: each function here calls others one after the other, and its own contract is proved from
// theirs.
ghost use Rattle.std.specs.Prelude.{◌≡◌, Bool, false, true, List, ◌++◌, ℕ, ◌+◌, ◌*◌, ◌/◌, ◌%◌, IfOk, IsOkAnd, Ok, OnOk, length};
ghost use Rattle.bits.specs.Bits.{word_bits};
ghost use Rattle.refusal.specs.Refusal.{refusal_of};
ghost use Rattle.cable.specs.Channels.{paired};
ghost use Rattle.cable.specs.Words.{code_refusal, unscramble_words};
ghost use Rattle.plan.specs.Plan.{plan_of};
ghost use Rattle.plan.specs.Refusal.{or_refusal, row_refusal};
ghost use Rattle.packet.specs.Build.{build_refusal as packet_refusal};
ghost use Rattle.stream.specs.Words.{c_blank, y_blank};
ghost use Rattle.row.specs.Row.{check_refusal, flags_of};
ghost use Rattle.repair.specs.Repair.{wiped_if};
ghost use Rattle.compose.specs.Compose.{build_refusal};
ghost use Rattle.law_row.specs.Laid.{LawfulLine, PlaceAfter};
ghost use Rattle.law_burst.specs.Stretch.{crc_flagged, flags_in, received};
ghost use Rattle.law_burst.specs.TwoRows.{next_checked, Struck, TwoRows};

use refusal::Refusal;
use row::{Carry, Judged};

// ---- Demand 2: a packet that was built is found by its DID and SDID.

// Builds a packet, lays it into the blanking of Y after whole packets of which none is wanted (or at its start), and looks for it:
// whatever the other words of the row are, what is found is the packet.
pub fn built_and_found(
    raster: u32,
    line: u32,
    did: u8,
    sdid: u8,
    user: &[u16],
    packet: &mut [u16],
    at: usize,
    y: &mut [u16],
    c: &[u16],
) -> Result<bool, Refusal>
    ensures number { refusal_of result ≡ or_refusal (row_refusal raster line y.old c.now) (packet_refusal did user.now (length packet.old)) }
    ensures found { IfOk result (λ found. (packets : List (List ℕ)) → PlaceAfter raster line did sdid user.now y.old at packets → found ≡ true) }
    ensures refused { (refusal_of result ≡ 0 → ⊥) → (packet.new ≡ packet.old) × (y.new ≡ y.old) }
{
    finding::find_refusal(raster, line, did, sdid, y, c)?;
    let built = packet::build(did, sdid, user, packet);
    let whole = parts::part(packet, 0, built.unwrap_or(0));
    parts::lay(y, at, whole);
    let part = finding::find(raster, line, did, sdid, y, c);
    built?;
    Ok(parts::same(part, whole))
}

// ---- Demand 2: "A line built by us from lawful words and whole packets, checked after the same line before it, shows no flag."

// Builds a row, and checks what was built with the same carry: the carry that building leaves, and what the check says.
pub fn built_and_checked(
    raster: u32,
    line: u32,
    carry: Carry,
    yactive: &[u16],
    cactive: &[u16],
    ylaid: &[u16],
    claid: &[u16],
    y: &mut [u16],
    c: &mut [u16],
) -> Result<(Carry, Judged), Refusal>
    ensures number { refusal_of result ≡ build_refusal raster line carry yactive.now cactive.now ylaid.now claid.now (length y.old) (length c.old) }
    ensures checked { IfOk result (λ line. line.1.carry ≡ line.0) }
    ensures clean { IfOk result (λ line. (y_packets c_packets : List (List ℕ)) → LawfulLine yactive.now cactive.now ylaid.now claid.now y_packets c_packets → line.1.flags ≡ 0) }
    ensures refused { (refusal_of result ≡ 0 → ⊥) → (y.new ≡ y.old) × (c.new ≡ c.old) }
{
    let left = compose::build(raster, line, carry, yactive, cactive, ylaid, claid, y, c)?;
    let total = plan::plan_of(raster, line)?.places.total;
    let judged = row::check(
        raster,
        line,
        carry,
        parts::part(y, 0, total),
        parts::part(c, 0, total),
    )?;
    Ok((left, judged))
}

// ---- Correction: "Rechecked with the same carried CRC, flags 0 to 6 are clear; 7 and 8 remain as they were. If wiping is chosen, .. flag 7
// too, then follows from the wiped row." Demand 1: a refused correction changes nothing.

// Checks a row, corrects it, and checks it again with the same carry: what each of the three answers. The number 128 parts flags 0 to 6
// from 7 and 8.
pub fn corrected_and_checked(
    raster: u32,
    line: u32,
    carry: Carry,
    wiping: bool,
    y: &mut [u16],
    c: &mut [u16],
) -> (
    Result<Judged, Refusal>,
    Result<Carry, Refusal>,
    Result<Judged, Refusal>,
)
    ensures number { refusal_of result.1 ≡ check_refusal raster line carry y.old c.old }
    ensures clear { IfOk result.1 (λ left. IsOkAnd result.2 (λ after. (after.flags % 128 ≡ 0) × (after.carry ≡ left))) }
    ensures kept { wiping ≡ false → OnOk result.1 (IsOkAnd result.0 (λ before. IsOkAnd result.2 (λ after. after.flags / 128 ≡ before.flags / 128))) }
    ensures wiped { OnOk result.1 (IsOkAnd result.2 (λ after. after.flags / 128 ≡ flags_of (plan_of raster line) carry (wiped_if wiping (plan_of raster line) y_blank y.old) (wiped_if wiping (plan_of raster line) c_blank c.old) / 128)) }
    ensures refused { (refusal_of result.1 ≡ 0 → ⊥) → (y.new ≡ y.old) × (c.new ≡ c.old) × (result.2 ≡ result.0) }
{
    let before = row::check(raster, line, carry, y, c);
    let corrected = repair::correct(raster, line, carry, wiping, y, c);
    let after = row::check(raster, line, carry, y, c);
    (before, corrected, after)
}

// ---- Demand 3: of two rows on the cable, a changed run of at most eighteen bits from the first row's active words to the next row's line
// number is flagged by a check code of the next row.

// Parts words in the order in which they are sent into the two channels; 2 where they do not fill these.
fn parted(words: &[u16], y: &mut [u16], c: &mut [u16]) -> Result<(), Refusal>
    ensures { length y.old ≡ length c.old → length words.now ≡ 2 * length y.old → (result ≡ Ok tt) × (paired c.new y.new ≡ words.now) }
{
    if y.len() != c.len() || words.len() / 2 != y.len() {
        return Err(Refusal::WrongLength);
    }
    for i in 0..y.len() {
        c[i] = words[2 * i];
        y[i] = words[2 * i + 1];
    }
    Ok(())
}

// Unscrambles cable words and parts their channels; 3, 1, and 2 where the words do not fill these.
fn received(
    history: u16,
    cable: &[u16],
    words: &mut [u16],
    y: &mut [u16],
    c: &mut [u16],
) -> Result<(), Refusal>
    ensures { code_refusal history cable.now (length words.old) ≡ 0 → length y.old ≡ length c.old → length cable.now ≡ 2 * length y.old → (result ≡ Ok tt) × (paired c.new y.new ≡ unscramble_words history cable.now) }
{
    cable::unscramble(history, cable, words)?;
    parted(parts::part(words, 0, cable.len()), y, c)
}

// Checks a row, and the next one with the carry that the first leaves.
#[tactic(auto, unfolding(plan::specs::Plan::planned, plan::specs::Refusal::row_refusal, row::specs::Row::check_refusal, row::specs::Row::checked, law_burst::specs::TwoRows::next_checked))]
fn rows_checked(
    raster: u32,
    line: u32,
    next: u32,
    carry: Carry,
    y: &[u16],
    c: &[u16],
) -> Result<Judged, Refusal>
    ensures { result ≡ next_checked raster line next carry y.now c.now }
{
    let total = plan::plan_of(raster, line).map_or(0, |plan| plan.places.total);
    let first = row::check(
        raster,
        line,
        carry,
        parts::part(y, 0, total),
        parts::part(c, 0, total),
    )?;
    let after = first.carry;
    row::check(
        raster,
        next,
        after,
        parts::part(y, total, total),
        parts::part(c, total, total),
    )
}

// Receives two rows and checks them: the flags are those of the stretch that was received after the bits before.
fn next_row(
    raster: u32,
    line: u32,
    next: u32,
    carry: Carry,
    history: u16,
    cable: &[u16],
    words: &mut [u16],
    y: &mut [u16],
    c: &mut [u16],
) -> Result<Judged, Refusal>
    ensures { TwoRows raster line next carry history cable.now (length words.old) (length y.old) (length c.old) → IsOkAnd result (λ judged. (before stretch : List Bool) → word_bits cable.now ≡ before ++ stretch → length before ≡ 20 * (plan_of raster line).places.active → judged.flags ≡ flags_in (plan_of raster next) (received history before stretch)) }
{
    received(history, cable, words, y, c)?;
    rows_checked(raster, line, next, carry, y, c)
}

// Two cable streams of two rows, one of which is the other with a run changed: where the next row shows no check code in the one, it
// shows one in the other.
pub fn struck(
    raster: u32,
    line: u32,
    next: u32,
    carry: Carry,
    history: u16,
    one: &[u16],
    other: &[u16],
    words: &mut [u16],
    y: &mut [u16],
    c: &mut [u16],
) -> Result<(Judged, Judged), Refusal>
    ensures { TwoRows raster line next carry history one.now (length words.old) (length y.old) (length c.old) → TwoRows raster line next carry history other.now (length words.old) (length y.old) (length c.old) → IsOkAnd result (λ rows. (before a m n z : List Bool) → Struck raster line one.now other.now before a m n z → crc_flagged rows.0.flags ≡ false → crc_flagged rows.1.flags ≡ true) }
{
    let first = next_row(raster, line, next, carry, history, one, words, y, c);
    let second = next_row(raster, line, next, carry, history, other, words, y, c);
    Ok((first?, second?))
}
