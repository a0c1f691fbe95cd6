// One stream of a row: what is wrong with it, and the register that it leaves.
#![tactic(auto)]

ghost use Rattle.std.specs.Prelude.{◌≡◌, ◌&&◌, [], ◌∷◌, take, is_some, unwrap_or};
ghost use Rattle.bits.specs.Words.{reserved_code};
ghost use Rattle.crc.specs.Crc.{crc_words};
ghost use Rattle.parts.specs.Parts.{any, part};
ghost use Rattle.stream.specs.Words.{check_words, checks_of, covered_by, head_words, register_after, trs};
ghost use Rattle.stream.specs.Faults.{differ, faults_of, picture_of};

use plan::Plan;

// Blanking words.
pub const Y_BLANK: u16 = 0x040;

pub const C_BLANK: u16 = 0x200;

#[derive(Clone, Copy)]
pub struct Faults {
    pub eav: bool,
    pub sav: bool,
    pub line: bool,
    pub crc: bool,
    pub sum: bool,
    pub cut: bool,
    pub reserved: bool,
}

// The four words of a timing code.
pub fn trs(xyz: u16) -> [u16; 4]
    ensures { result ≡ trs xyz }
{
    [0x3ff, 0x000, 0x000, xyz]
}

// Whether the timing code at a place is another than this.
fn trs_differs(words: &[u16], at: usize, xyz: u16) -> bool
    ensures { result ≡ differ (part at 4 words.now) (trs xyz) }
{
    !parts::same(parts::part(words, at, 4), &trs(xyz))
}

// Whether the words at a place, two or fewer, are others than these.
fn pair_differs(words: &[u16], at: usize, count: usize, first: u16, second: u16) -> bool
    ensures { result ≡ differ (part at count words.now) (take count (first ∷ second ∷ [])) }
{
    !parts::same(
        parts::part(words, at, count),
        parts::part(&[first, second], 0, count),
    )
}

// Whether the CRC words are others than those of the register carried and the words that head the row; with none carried they are not judged.
fn crc_differs(plan: Plan, carried: Option<u32>, words: &[u16]) -> bool
    ensures { result ≡ is_some carried && differ (checks_of plan words.now) (check_words plan (covered_by plan (unwrap_or carried 0) words.now)) }
{
    let Some(register) = carried else {
        return false;
    };
    let covered = crc::step_words(register, parts::part(words, 0, plan.places.crc));
    let right = crc::words_of(covered).unwrap_or_default();
    pair_differs(
        words,
        plan.places.crc,
        plan.places.checks,
        right.cr0,
        right.cr1,
    )
}

// Whether a reserved code stands in the picture.
#[tactic(auto, unfolding(parts::specs::Parts::any))]
fn picture_reserved(plan: Plan, words: &[u16]) -> bool
    ensures { result ≡ any reserved_code (picture_of plan words.now) }
{
    !plan.v && parts::any_reserved(parts::part(words, plan.places.active, plan.places.count))
}

// What is wrong with a stream, under the register carried to it.
#[tactic(auto, unfolding(crate::specs::Faults::faults_of))]
pub fn faults_of(plan: Plan, carried: Option<u32>, words: &[u16]) -> Faults
    ensures { result ≡ faults_of plan (is_some carried) (unwrap_or carried 0) words.now }
{
    let packets = region::scan_packets(plan, words);
    Faults {
        eav: trs_differs(words, 0, plan.codes.eav),
        sav: trs_differs(words, plan.places.sav, plan.codes.sav),
        line: pair_differs(words, 4, plan.places.lines, plan.codes.ln0, plan.codes.ln1),
        crc: crc_differs(plan, carried, words),
        sum: packets.wrong,
        cut: packets.cut,
        reserved: picture_reserved(plan, words),
    }
}

// The CRC register after the active words.
pub fn register_after(plan: Plan, words: &[u16]) -> u32
    ensures { result ≡ register_after plan words.now }
{
    crc::step_words(0, parts::part(words, plan.places.active, plan.places.count))
}

// The register after the words that head a row, as they should be.
pub fn head_register(plan: Plan, register: u32) -> u32
    ensures { result ≡ crc_words register (head_words plan) }
{
    let after = crc::step_words(register, &trs(plan.codes.eav));
    crc::step_words(
        after,
        parts::part(&[plan.codes.ln0, plan.codes.ln1], 0, plan.places.lines),
    )
}
