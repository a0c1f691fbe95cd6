// The scan of one region for ancillary packets.
#![tactic(auto)]

ghost use Rattle.std.specs.Prelude.{◌≡◌, ◌+◌, ◌≤◌, ◌<◌, eqb, length, drop, IfSome};
ghost use Rattle.parts.specs.Parts.{any};
ghost use Rattle.scan.specs.Packet.{checksum_of, marked};
ghost use Rattle.scan.specs.Scan.{piece_at, scan, scanned, here_of, next_packet};

use std::ops::Range;

// What stands at a place of a region: no packet starts there, a cut one, or a whole one of so many words.
#[derive(Clone, Copy)]
pub enum Here {
    Nothing,
    Cut,
    Whole(usize),
}

// What is told of a region.
#[derive(Clone, Copy)]
pub struct Scanned {
    pub words: usize,
    pub cut: bool,
    pub wrong: bool,
}

// Whether these words start with a packet's first three.
#[tactic(auto, using(crate::proofs::Packets::marks))]
fn marked(words: &[u16]) -> bool
    ensures { result ≡ marked words.now }
{
    matches!(words, [0x000, 0x3ff, 0x3ff, ..])
}

// Whether a packet's first three words stand at a place.
#[tactic(auto, unfolding(crate::specs::Packet::marked, parts::specs::Parts::same))]
fn marked_at(region: &[u16], at: usize) -> bool
    ensures { result ≡ marked (drop at region.now) }
{
    at <= region.len() && marked(&region[at..])
}

// The checksum of the words from DID to the last user word. It sees the low nine bits of their sum alone, which a sum that wraps at sixteen bits keeps.
pub fn checksum(words: &[u16]) -> u16
    ensures { result ≡ checksum_of words.now }
{
    let sum = words.iter().fold(0u16, |sum, word| sum.wrapping_add(*word));
    bits::nine(sum)
}

// What stands at a place of a region.
#[tactic(auto, using(crate::proofs::Pieces::here))]
pub fn here_at(region: &[u16], at: usize) -> Here
    ensures { result ≡ here_of (piece_at (drop at region.now)) }
{
    if !marked_at(region, at) {
        return Here::Nothing;
    }
    let left = region.len() - at;
    if left < 6 {
        return Here::Cut;
    }
    let size = (region[at + 5] % 256) as usize + 7;
    if left < size {
        return Here::Cut;
    }
    Here::Whole(size)
}

// Where the first whole packet stands that the scan finds from a place on.
pub fn next_packet(region: &[u16], from: usize) -> Option<Range<usize>>
    ensures found { result ≡ next_packet from (scan (drop from region.now)) }
    ensures place { IfSome result (λ packet. (from ≤ packet.start) × (packet.start + 7 ≤ packet.end) × (packet.end ≤ length region.now)) }
{
    let mut at = from;
    while at < region.len() {
        match here_at(region, at) {
            Here::Nothing => at += 1,
            Here::Cut => at += 3,
            Here::Whole(size) => return Some(at..at + size),
        }
    }
    None
}

// Whether a word is 000. There is no early return, so that many words are compared at once.
fn any_zero(words: &[u16]) -> bool
    ensures { result ≡ any (λ w. eqb w 0) words.now }
{
    words.iter().fold(false, |found, word| found | (*word == 0))
}

// Where the scan goes on after a place where no packet starts. A packet starts with 000, so that words without one are passed, sixteen at a time.
// Only every sixteenth place looks ahead: where 000 is frequent, no word is looked at again and again.
fn onward(region: &[u16], at: usize) -> usize
    requires { at < length region.now }
    ensures place { (at < result) × (result ≤ length region.now) }
    ensures rest { scanned (scan (drop (at + 1) region.now)) ≡ scanned (scan (drop result region.now)) }
{
    if at % 16 != 0 {
        return at + 1;
    }
    let (sixteens, _) = region[at + 1..].as_chunks::<16>();
    let passed = sixteens
        .iter()
        .take_while(|words| !any_zero(*words))
        .count();
    at + 1 + 16 * passed
}

// The scan: cut packets are passed by their first three words, whole ones to the word after their checksum. The inner walk sums a packet's words
// as it passes them, and is left for the scan where the packet is cut.
pub fn scan(region: &[u16]) -> Scanned
    ensures { result ≡ scanned (scan region.now) }
{
    let n = region.len();
    let mut words = 0;
    let mut cut = false;
    let mut wrong = false;
    let mut i = 0;
    'scan: while i < n {
        if !marked_at(region, i) {
            i = onward(region, i);
            continue 'scan;
        }
        if n - i < 6 {
            cut = true;
            i += 3;
            continue 'scan;
        }
        let last = (region[i + 5] % 256) as usize + 6;
        let mut sum = 0u16;
        for j in 3..last {
            if n - i <= j {
                cut = true;
                i += 3;
                continue 'scan;
            }
            sum = sum.wrapping_add(region[i + j]);
        }
        if n - i <= last {
            cut = true;
            i += 3;
            continue 'scan;
        }
        let right = bits::nine(sum);
        wrong = wrong | (region[i + last] != right);
        words += last + 1;
        i += last + 1;
    }
    Scanned { words, cut, wrong }
}
