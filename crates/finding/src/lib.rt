// The packets of a row: found, and extracted from a channel.
#![tactic(auto)]

ghost use Rattle.std.specs.Prelude.{◌≡◌, ◌+◌, ◌≤◌, length};
ghost use Rattle.refusal.specs.Refusal.{result_of};
ghost use Rattle.parts.specs.Parts.{laid, laid_unless};
ghost use Rattle.scan.specs.Scan.{Packet, packets_of, scan};
ghost use Rattle.plan.specs.Plan.{plan_of};
ghost use Rattle.plan.specs.Refusal.{row_refusal};
ghost use Rattle.region.specs.Ancillary.{ancillary};
ghost use Rattle.finding.specs.Find.{IsFound, find_of, found, wanted};
ghost use Rattle.finding.specs.Extract.{channel_of, extract_refusal, extracted, packets_in, room_refusal};

use plan::Plan;
use refusal::Refusal;

#[derive(Clone, Copy)]
pub enum Channel {
    Y,
    C,
}

impl Channel {
    // The words of the channel.
    fn words<'a>(self, y: &'a [u16], c: &'a [u16]) -> &'a [u16]
        ensures { result.now ≡ channel_of self y.now c.now }
    {
        match self {
            Channel::Y => y,
            Channel::C => c,
        }
    }
}

// The plan of a row that is read; 4, 5, 2, 3.
fn row_plan(raster: u32, line: u32, y: &[u16], c: &[u16]) -> Result<Plan, Refusal>
    ensures { result ≡ result_of (row_refusal raster line y.now c.now) (plan_of raster line) }
{
    plan::row_refusal(raster, line, y, c)?;
    plan::plan_of(raster, line)
}

// Whether a packet has the wanted bytes.
fn is_wanted(packet: &[u16], did: u8, sdid: u8) -> bool
    requires { 7 ≤ length packet.now }
    ensures { result ≡ wanted did sdid (Packet packet.now) }
{
    packet[3] % 256 == did as u16 && packet[4] % 256 == sdid as u16
}

// The first wanted packet of a region.
fn find_in<'a>(region: &'a [u16], did: u8, sdid: u8) -> Option<&'a [u16]>
    ensures { IsFound result (found did sdid (scan region.now)) }
{
    let mut next = 0;
    while let Some(place) = scan::next_packet(region, next) {
        let packet = parts::part(region, place.start, place.len());
        if is_wanted(packet, did, sdid) {
            return Some(packet);
        }
        next = place.end;
    }
    None
}

// The first wanted packet of a channel.
fn find_channel<'a>(plan: Plan, did: u8, sdid: u8, words: &'a [u16]) -> Option<&'a [u16]>
    ensures { IsFound result (found did sdid (ancillary plan words.now)) }
{
    let blanking = parts::part(words, plan.places.blank, plan.places.blanks);
    find_in(blanking, did, sdid).or_else(|| find_in(region::active_region(plan, words), did, sdid))
}

// The first wanted packet of a row, Y before C, as a part of whichever channel's words holds it; an empty part of Y if there is
// none or the call is refused.
pub fn find<'a>(raster: u32, line: u32, did: u8, sdid: u8, y: &'a [u16], c: &'a [u16]) -> &'a [u16]
    ensures { result.now ≡ find_of raster line did sdid y.now c.now }
{
    let none = &y[..0];
    let Ok(plan) = row_plan(raster, line, y, c) else {
        return none;
    };
    find_channel(plan, did, sdid, y)
        .or_else(|| find_channel(plan, did, sdid, c))
        .unwrap_or(none)
}

// The refusal of `find` on the same arguments; 4, 5, 2, 3.
pub fn find_refusal(
    raster: u32,
    line: u32,
    did: u8,
    sdid: u8,
    y: &[u16],
    c: &[u16],
) -> Result<(), Refusal>
    ensures { result ≡ result_of (row_refusal raster line y.now c.now) tt }
{
    row_plan(raster, line, y, c).map(|_| ())
}

// Copies the whole packets of a region to a place on, and answers the place after them.
fn copy_region(region: &[u16], out: &mut [u16], from: usize) -> usize
    requires { from + length (packets_of (scan region.now)) ≤ length out.old }
    ensures answer { result ≡ from + length (packets_of (scan region.now)) }
    ensures buffer { out.new ≡ laid from (packets_of (scan region.now)) out.old }
{
    let mut at = from;
    let mut next = 0;
    while let Some(place) = scan::next_packet(region, next) {
        let packet = parts::part(region, place.start, place.len());
        parts::lay(out, at, packet);
        at += packet.len();
        next = place.end;
    }
    at
}

// Copies the whole packets of a channel's words, end to end, and answers how many words they have; 1.
fn extract_channel(plan: Plan, words: &[u16], out: &mut [u16]) -> Result<usize, Refusal>
    ensures answer { result ≡ result_of (room_refusal (packets_of (ancillary plan words.now)) (length out.old)) (length (packets_of (ancillary plan words.now))) }
    ensures buffer { out.new ≡ laid_unless (room_refusal (packets_of (ancillary plan words.now)) (length out.old)) (packets_of (ancillary plan words.now)) out.old }
{
    if out.len() < region::scan_packets(plan, words).words {
        return Err(Refusal::NoRoom);
    }
    let blanking = parts::part(words, plan.places.blank, plan.places.blanks);
    let at = copy_region(blanking, out, 0);
    Ok(copy_region(region::active_region(plan, words), out, at))
}

// Copies the whole packets of a channel, end to end, and answers how many words they have; 4, 5, 2, 3, 1.
pub fn extract(
    raster: u32,
    line: u32,
    channel: Channel,
    y: &[u16],
    c: &[u16],
    out: &mut [u16],
) -> Result<usize, Refusal>
    ensures answer { result ≡ extracted raster line channel y.now c.now (length out.old) }
    ensures buffer { out.new ≡ laid_unless (extract_refusal raster line channel y.now c.now (length out.old)) (packets_in raster line (channel_of channel y.now c.now)) out.old }
{
    let plan = row_plan(raster, line, y, c)?;
    extract_channel(plan, channel.words(y, c), out)
}
