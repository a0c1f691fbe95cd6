// A row of two channels: its flags and the carry that it leaves.
#![tactic(auto)]

ghost use Rattle.std.specs.Prelude.{◌≡◌, [], ◌∷◌, ◌<◌};
ghost use Rattle.bits.specs.Bits.{number};
ghost use Rattle.refusal.specs.Refusal.{result_of};
ghost use Rattle.row.specs.Before.{by_channel, carry_ok};
ghost use Rattle.row.specs.Row.{carry_after, check_refusal, checked, flags_of, joined, judged};

use crc::REGISTER_TOP;
pub use folding::Registers;
use plan::Plan;
use refusal::Refusal;
use stream::Faults;

// The CRC registers of both channels after a row's active words, or none where there was no row.
pub type Carry = Option<Registers>;

// Nine flags, by bit (docs/REFUSALS.md says which), and the next carry.
#[derive(Clone, Copy)]
pub struct Judged {
    pub flags: u16,
    pub carry: Carry,
}

// The register carried to each channel, if one was.
#[derive(Clone, Copy)]
pub struct ByChannel {
    pub y: Option<u32>,
    pub c: Option<u32>,
}

// A carry by channel.
pub fn carried(carry: Carry) -> ByChannel
    ensures { result ≡ by_channel carry }
{
    match carry {
        None => ByChannel { y: None, c: None },
        Some(registers) => ByChannel {
            y: Some(registers.y),
            c: Some(registers.c),
        },
    }
}

// Whether the registers are at most 3FFFF.
pub fn carry_ok(carry: Carry) -> bool
    ensures { result ≡ carry_ok carry }
{
    match carry {
        None => true,
        Some(registers) => registers.y <= REGISTER_TOP && registers.c <= REGISTER_TOP,
    }
}

// The number of three bits, lowest first.
fn three(low: bool, middle: bool, high: bool) -> u16
    ensures { (result ≡ number (low ∷ middle ∷ high ∷ [])) × (result < 8) }
{
    low as u16 + middle as u16 * 2 + high as u16 * 4
}

// The flags of a row from what is wrong with its streams.
fn join(y: Faults, c: Faults) -> u16
    ensures { result ≡ joined y c }
{
    let codes = three(y.eav | c.eav, y.sav | c.sav, y.line | c.line);
    let sums = three(y.crc, c.crc, y.sum);
    let rest = three(c.sum, y.cut | c.cut, y.reserved | c.reserved);
    codes + sums * 8 + rest * 64
}

// The flags of a row under its plan.
fn flags(plan: Plan, carry: Carry, y: &[u16], c: &[u16]) -> u16
    ensures { result ≡ flags_of plan carry y.now c.now }
{
    let before = carried(carry);
    let in_y = stream::faults_of(plan, before.y, y);
    let in_c = stream::faults_of(plan, before.c, c);
    join(in_y, in_c)
}

// The next carry: the registers after the active words, of both channels at once.
fn carry_after(plan: Plan, y: &[u16], c: &[u16]) -> Carry
    ensures { result ≡ carry_after plan y.now c.now }
{
    let places = plan.places;
    Some(folding::step_channels(
        parts::part(y, places.active, places.count),
        parts::part(c, places.active, places.count),
    ))
}

// Flags and next carry of a row's words, whatever they are. It refuses nothing: where raster or line are not of the table there is
// nothing to judge by, and where a slice is not of T words its parts are what there is of them.
pub fn judge(raster: u32, line: u32, carry: Carry, y: &[u16], c: &[u16]) -> Judged
    ensures { result ≡ judged raster line carry y.now c.now }
{
    let Ok(plan) = plan::plan_of(raster, line) else {
        return Judged {
            flags: 0,
            carry: None,
        };
    };
    Judged {
        flags: flags(plan, carry, y, c),
        carry: carry_after(plan, y, c),
    }
}

// The refusal of a row that is checked or corrected; 4, 5, 2, 3.
pub fn check_refusal(
    raster: u32,
    line: u32,
    carry: Carry,
    y: &[u16],
    c: &[u16],
) -> Result<(), Refusal>
    ensures { result ≡ result_of (check_refusal raster line carry y.now c.now) tt }
{
    plan::row_refusal(raster, line, y, c)?;
    if !carry_ok(carry) {
        return Err(Refusal::TooHigh);
    }
    Ok(())
}

// Flags and next carry of a row; 4, 5, 2, 3.
pub fn check(raster: u32, line: u32, carry: Carry, y: &[u16], c: &[u16]) -> Result<Judged, Refusal>
    ensures { result ≡ checked raster line carry y.now c.now }
{
    check_refusal(raster, line, carry, y, c)?;
    Ok(judge(raster, line, carry, y, c))
}
