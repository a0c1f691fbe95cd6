// The regions of a stream that may hold packets: scanned, and their packets changed in place.
#![tactic(auto)]

ghost use Rattle.std.specs.Prelude.{◌≡◌, ℕ, List, length};
ghost use Rattle.std.specs.Borrow.{MutBor};
ghost use Rattle.parts.specs.Parts.{in_part};
ghost use Rattle.scan.specs.Packet.{size_of};
ghost use Rattle.scan.specs.Scan.{scanned};
ghost use Rattle.region.specs.Region.{ChangesBy, changed, mend_packet, mended, wiped};
ghost use Rattle.region.specs.Ancillary.{active_region, ancillary};

use plan::Plan;
use scan::Scanned;

// Makes the checksums right in a part of a slice, as `parts::part` cuts it.
pub fn mend(words: &mut [u16], from: usize, count: usize)
    ensures { words.new ≡ in_part from count mended words.old }
{
    change_packets(words, from, count, mend_packet);
}

// Overwrites the whole packets that one scan finds in a part of a slice, as `parts::part` cuts it, with a blanking word.
pub fn wipe(words: &mut [u16], from: usize, count: usize, blank: u16)
    ensures { words.new ≡ in_part from count (wiped blank) words.old }
{
    change_packets(words, from, count, |packet: &mut [u16]| packet.fill(blank));
}

// Makes the checksum of a whole packet right.
fn mend_packet(packet: &mut [u16])
    requires { size_of packet.old ≡ length packet.old }
    ensures { packet.new ≡ mend_packet packet.old }
{
    let last = packet.len() - 1;
    packet[last] = scan::checksum(&packet[3..last]);
}

// Changes each whole packet that one scan finds in a part of a slice, as `parts::part` cuts it.
fn change_packets<F: Fn(&mut [u16])>(words: &mut [u16], from: usize, count: usize, change: F)
    requires { (packet : MutBor (List ℕ)) → size_of packet.now ≡ length packet.now → F.pre change packet }
    ensures { (f : List ℕ → List ℕ) → ChangesBy F.Fn change f → words.new ≡ in_part from count (changed f) words.old }
{
    let here = parts::range(words.len(), from, count);
    let region = &mut words[here];
    let mut at = 0;
    while let Some(packet) = scan::next_packet(region, at) {
        at = packet.end;
        change(&mut region[packet]);
    }
}

// The active words where V is 1; else an empty part.
pub fn active_region<'a>(plan: Plan, words: &'a [u16]) -> &'a [u16]
    ensures { result.now ≡ active_region plan words.now }
{
    if plan.v {
        return parts::part(words, plan.places.active, plan.places.count);
    }
    &words[0..0]
}

// The scan of a stream's regions.
pub fn scan_packets(plan: Plan, words: &[u16]) -> Scanned
    ensures { result ≡ scanned (ancillary plan words.now) }
{
    let blanking = scan::scan(parts::part(words, plan.places.blank, plan.places.blanks));
    let active = scan::scan(active_region(plan, words));
    Scanned {
        words: blanking.words + active.words,
        cut: blanking.cut | active.cut,
        wrong: blanking.wrong | active.wrong,
    }
}
